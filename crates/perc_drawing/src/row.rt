// The rows of a picture: datagrams on the wire with what became of them, and what happened at columns.
use super::layout::{BELOW, ROW};
use perc_rtp::{Carried, RtpHead, kind};
use perc_word::Octets;

/// How many octets a datagram has at most that a line spells.
const MOST_OCTETS: usize = 4096;

/// On which way a datagram came to the wire.
#[derive(Clone, Copy)]
pub enum Way {
    Up,
    Made,
    Reseal,
    Down,
}

/// What is shown of a datagram.
#[derive(Clone, Copy)]
pub enum Shown {
    /// The payload type and the sequence number of an RTP packet.
    Rtp { pt: u8, seq: u16 },
    /// What it carries, and its length in octets.
    Sized { kind: &'static [u8], len: usize },
}

/// What happened: in words, with the sender of what was accepted by its column, and with numbers where there are any.
#[derive(Clone, Copy)]
pub struct Saying {
    /// The class that gives the colour.
    pub class: &'static [u8],
    /// What leads to the name of its column.
    pub lead: &'static [u8],
    pub verb: &'static [u8],
    pub sender: Option<usize>,
    pub reason: &'static [u8],
    pub number: Option<u64>,
    pub epoch: Option<u64>,
}

/// What a row shows.
#[derive(Clone, Copy)]
pub enum What {
    /// A datagram on the wire.
    Wire {
        way: Way,
        datagram: u32,
        shown: Shown,
    },
    /// What happened at a column.
    Mark(Saying),
    /// What became of a datagram that no earlier line brought to the wire.
    Late {
        datagram: u32,
        saying: Saying,
    },
}

/// What became of a datagram at a column, by a line of the report.
#[derive(Clone, Copy)]
pub struct Outcome {
    pub line: u64,
    pub at: usize,
    pub saying: Saying,
}

/// A row: a line of the report, at the column of a member or of the distributor, and the later lines that tell what became of its
/// datagram.
#[derive(Drop)]
pub struct Row {
    pub line: u64,
    pub column: usize,
    pub what: What,
    pub outcomes: Vec<Outcome>,
    /// How many outcomes came past those that are drawn.
    pub more: u64,
}

impl Row {
    /// The column at the head of the row's arrow.
    pub(super) fn head(&self) -> usize {
        match self.what {
            What::Wire {
                way: Way::Up,
                datagram: _,
                shown: _,
            } => 0,
            _ => self.column,
        }
    }

    /// The class of the arrow: that of the first outcome, where it is one at the head.
    pub(super) fn class(&self) -> &'static [u8] {
        match self.outcomes.first() {
            Some(outcome) if outcome.at == self.head() => outcome.saying.class,
            _ => b"plain",
        }
    }

    /// Whether the datagram was sent to a member, and no line tells what became of it.
    pub(super) fn is_lost(&self) -> bool {
        match self.what {
            What::Wire {
                way: Way::Down | Way::Reseal,
                datagram: _,
                shown: _,
            } => self.outcomes.is_empty(),
            _ => false,
        }
    }

    /// How high the row is, with the lines below it.
    pub(super) fn height(&self) -> u64 {
        let rest = u64::from(self.more > 0 || self.is_lost());
        let below = rest.saturating_add(self.outcomes.len() as u64);
        ROW.saturating_add(BELOW.saturating_mul(below))
    }
}

/// What is shown of a datagram of these octets.
pub(super) fn shown_of(octets: &Octets<'_>) -> Shown {
    let mut room = [0; MOST_OCTETS];
    let packet = &mut room[..octets.len().min(MOST_OCTETS)];
    octets.write_front(packet);
    shown_from(packet, octets.len())
}

// What is shown of a datagram that begins so, and is as long.
fn shown_from(packet: &[u8], len: usize) -> Shown {
    let kind = match kind(packet) {
        Carried::Rtp => {
            if let Ok(head) = RtpHead::read(packet) {
                return Shown::Rtp {
                    pt: head.pt,
                    seq: head.seq,
                };
            }
            b"other".as_slice()
        }
        Carried::Rtcp => b"RTCP",
        Carried::Dtls => b"DTLS",
        Carried::Other => b"other",
    };
    Shown::Sized { kind, len }
}

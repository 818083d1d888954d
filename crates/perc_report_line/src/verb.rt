// The first words of lines, and the ways on which datagrams come to the wire.
ghost use Rattle.std.specs.Prelude.{◌≡◌};
ghost use Rattle.perc_report_line.specs.Report as spec;

/// What a line tells of.
#[derive(Clone, Copy)]
pub enum Verb {
    Ekt,
    Joined,
    Left,
    Granted,
    Denied,
    Rekeyed,
    Wire,
    Drop,
    Refuse,
    Accept,
    Rtcp,
}

const VERBS: [Verb; 11] = [
    Verb::Ekt,
    Verb::Joined,
    Verb::Left,
    Verb::Granted,
    Verb::Denied,
    Verb::Rekeyed,
    Verb::Wire,
    Verb::Drop,
    Verb::Refuse,
    Verb::Accept,
    Verb::Rtcp,
];

/// The verb that the word is.
#[tactic(auto, unfolding(crate::specs::Report::verb_in))]
pub fn verb_in(word: &[u8]) -> Option<Verb>
    ensures { result ≡ spec.verb_in word.now }
{
    VERBS.iter().copied().find(|verb| verb_text(*verb) == word)
}

// The word for the verb.
fn verb_text(verb: Verb) -> &'static [u8]
    ensures { result.now ≡ spec.verb_text verb }
{
    match verb {
        Verb::Ekt => b"ekt",
        Verb::Joined => b"joined",
        Verb::Left => b"left",
        Verb::Granted => b"granted",
        Verb::Denied => b"denied",
        Verb::Rekeyed => b"rekeyed",
        Verb::Wire => b"wire",
        Verb::Drop => b"drop",
        Verb::Refuse => b"refuse",
        Verb::Accept => b"accept",
        Verb::Rtcp => b"rtcp",
    }
}

/// Where a datagram on the wire comes from.
#[derive(Clone, Copy)]
pub enum Way {
    Up,
    Made,
    Reseal,
    Down,
}

const WAYS: [Way; 4] = [Way::Up, Way::Made, Way::Reseal, Way::Down];

/// The way that the word is.
#[tactic(auto, unfolding(crate::specs::Report::way_in))]
pub fn way_in(word: &[u8]) -> Option<Way>
    ensures { result ≡ spec.way_in word.now }
{
    WAYS.iter().copied().find(|way| way_text(*way) == word)
}

// The word for the way.
fn way_text(way: Way) -> &'static [u8]
    ensures { result.now ≡ spec.way_text way }
{
    match way {
        Way::Up => b"up",
        Way::Made => b"made",
        Way::Reseal => b"reseal",
        Way::Down => b"down",
    }
}

// A stream of messages decoded, cut anywhere.
ghost use Rattle.std.specs.Prelude.{◌≡◌, length, IfOk};
ghost use Rattle.std.specs.Borrow.{sem};
ghost use Rattle.std.specs.Io.BufRead.{Rests};
ghost use Rattle.perc_tunnel.specs.Decoding.{Decodes, fed, fresh, taken};
ghost use Rattle.perc_tunnel.specs.Told.{answered};

use crate::Message;
use perc_base::Memory;
use room::{Room, Turn};
use std::alloc::Global;
use std::marker::Model;

mod room;

/// Why octets begin no message.
#[derive(Clone, Copy, Debug, PartialEq, Eq)]
pub enum TunnelReason {
    /// The first octet is no type.
    Kind,
    /// No message of this type has a length that begins so.
    Length,
    /// The body is none of a message of this type and length.
    Body,
}

/// Where a stream goes wrong, and why.
#[derive(Clone, Copy, Debug, PartialEq, Eq)]
pub struct TunnelFault {
    /// How many octets stand before, all of them messages.
    pub offset: u64,
    /// The first reason that applies, in the order of `TunnelReason`.
    pub reason: TunnelReason,
}

/// Decodes a stream of messages that comes in any pieces.
#[derive(Drop)]
pub struct Decoder {
    room: Room,
}

impl Model for Decoder {
    ghost use Rattle.perc_tunnel.specs.Decoding.{Decoding};
    ghost use Rattle.perc_tunnel.specs.Room.{decoding_in};

    ghost Value = { Decoding };

    ghost view = { λ d. decoding_in d.room };
}

impl Decoder {
    ghost use Rattle.perc_tunnel.specs.contracts.decoder.Decoder.{the_row};

    /// A decoder that holds nothing. It takes all its memory here: room for the longest message, 65538 octets.
    pub fn new(alloc: Global) -> Result<Decoder, Memory>
        ensures { IfOk result (λ d. d ≡ fresh) }
    {
        let room = Room::new(alloc)?;
        Ok(Decoder { room })
    }

    /// How many octets the messages had that it gave. It is the offset in the stream at which the next message begins: where
    /// the stream ends and octets are held, it ends inside the message at this offset.
    pub fn given(&self) -> u64
        ensures { result ≡ self.now.given }
    {
        self.room.count_given()
    }

    /// How many octets it holds: those that it took and that no message had that it gave, 65538 at most.
    pub fn held(&self) -> usize
        ensures { result ≡ length self.now.held }
    {
        self.room.count_held()
    }

    /// Takes octets of the stream, from the front of the piece, and answers how many: as many as there is room for, and at
    /// most 2^64 - 1 in all. After a fault it takes none.
    pub fn feed(&mut self, piece: &[u8]) -> usize
        ensures count { result ≡ taken self.old (length piece.now) }
        ensures held { self.new ≡ fed self.old piece.now }
    {
        self.room.take_from(piece)
    }

    /// The message that the held octets begin with, and None where they are a part of one. A fault comes as soon as they are
    /// neither, and is the answer from then on.
    pub fn next(&mut self) -> Result<Option<Message<'_>>, TunnelFault>
        ensures* after { sem 𝓛 (Rests the_row self.entry (λ new. Decodes self.old (answered result) new)) }
    {
        match self.room.advance() {
            Turn::Message(form) => Ok(Some(self.room.message(form))),
            Turn::Part => Ok(None),
            Turn::Fault(fault) => Err(fault),
        }
    }
}

// What a worker sends on.
ghost use Rattle.std.specs.Prelude.{◌≡◌, ◌≤◌, ◌<◌, ◌++◌, [], ◌∷◌, length, IfOk, Some};
ghost use Rattle.std.specs.List.{slice_get};
ghost use Rattle.perc_distributor.specs.Kept.{IsWhole};

use crate::ForwardFault;
use perc_base::Memory;
use std::alloc::Global;
use std::marker::Model;

// How many outputs a batch gives at most: 32 packets to 64 associations.
const MOST_OUTPUTS: usize = 2048;

/// What became of a packet for one association.
#[derive(Clone, Copy)]
pub enum Output {
    /// It is sent on.
    Sealed {
        /// The packet's place in the batch, from 0.
        place: usize,
        /// The association that it is for.
        to: [u8; 16],
        /// The datagram: the sealed packet, and the EKT field of a media packet.
        octets: [u8; 1500],
        /// How many octets the datagram has.
        len: usize,
    },
    /// It isn't.
    Dropped {
        /// The packet's place in the batch, from 0.
        place: usize,
        /// The association that it isn't sent on to.
        to: [u8; 16],
        /// Why.
        fault: ForwardFault,
    },
}

/// The outputs of a batch, in the order of making. It has room for 2048, some 3 MiB, which is taken when it is made.
#[derive(Drop)]
pub struct Outputs {
    items: Vec<Output>,
}

impl Model for Outputs {
    ghost use Rattle.std.specs.Prelude.{List, vec_capacity};
    ghost use Rattle.perc_distributor.specs.declared.outputs.Output.{Output};
    ghost use Rattle.perc_distributor.specs.Rooms.{AreInRoom};

    ghost Value = { List Output };

    ghost view = { λ o. o.items.items };

    ghost invariant = { λ o. AreInRoom o.items.items (vec_capacity o.items) };
}

impl Outputs {
    /// Holds none, with room for 2048. No other call takes memory.
    pub fn new(alloc: Global) -> Result<Outputs, Memory>
        ensures { IfOk result (λ outputs. outputs ≡ []) }
    {
        let Ok(items) = Vec::with_capacity(alloc, MOST_OUTPUTS) else {
            return Err(Memory);
        };
        Ok(Outputs { items })
    }

    /// How many there are.
    pub fn len(&self) -> usize
        ensures { result ≡ length self.now }
    {
        self.items.len()
    }

    /// Output `i`, from 0. A datagram has at most 1500 octets.
    pub fn at(&self, i: usize) -> &Output
        requires { i < length self.now }
        ensures value { slice_get self.now i ≡ Some result.now }
        ensures whole { IsWhole result.now }
    {
        &self.items[i]
    }

    // Lets all go.
    pub(crate) fn clear(&mut self)
        ensures { self.new ≡ [] }
    {
        self.items.clear();
    }

    // Appends one, where there is room for it.
    pub(crate) fn push(&mut self, output: Output)
        requires room { length self.old < 2048 }
        requires whole { IsWhole output }
        ensures { self.new ≡ self.old ++ output ∷ [] }
    {
        // With room at hand this takes no memory, so it can't fail.
        let Ok(()) = self.items.push(output) else {
            unreachable!()
        };
    }
}

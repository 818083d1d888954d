// The distributor of a conference.
ghost use Rattle.std.specs.Prelude.{◌≤◌, [], List, length, IfOk, OnOk};
ghost use Rattle.perc_ohb.specs.Rewriting.{IsRewrite, rewrite_of};
ghost use Rattle.perc_keyset.specs.Set.{absorbed};
ghost use Rattle.perc_distributor.specs.Inbound.{Packet};
ghost use Rattle.perc_distributor.specs.Kept.{IsPlain};
ghost use Rattle.perc_distributor.specs.Tables.{names};
ghost use Rattle.perc_run.specs.Forwarding as spec;
ghost use Rattle.perc_run.specs.State.{State, nobody};
ghost use Rattle.perc_forwarder.specs.Mirror.{HasTakings, MirrorsDistributor, MirrorsTakings, SealsBatch, TakesNext, TakesOne};

use perc_base::Memory;
use perc_distributor::{Inbound, InboundFault, Outputs, Plain, Worker};
use perc_keyset::{KeySet, Op};
use perc_ohb::Change;
use std::alloc::{AllocError, Global};

/// How many datagrams a forward takes at most.
const MOST_TAKEN: usize = 32;

/// The distributor: whom it forwards to, and what it keeps of what it opened and sealed. The rest is of the forward that is being
/// done.
#[derive(Drop)]
pub struct Distributor {
    pub set: KeySet,
    pub inbound: Inbound,
    pub worker: Worker,
    /// What became of each datagram of the list.
    pub takings: Vec<Taking>,
    /// The packets that opened.
    pub batch: Vec<Plain>,
    pub outputs: Outputs,
}

/// A datagram by its number, and why it doesn't open, if it doesn't.
#[derive(Clone, Copy)]
pub struct Taking {
    pub number: u32,
    pub fault: Option<InboundFault>,
}

impl Distributor {
    /// A distributor that forwards to nobody.
    pub fn new(alloc: Global) -> Result<Distributor, Memory>
        ensures { IfOk result (λ distributor. MirrorsDistributor distributor nobody) }
    {
        let Ok(takings) = Vec::with_capacity(alloc, MOST_TAKEN) else {
            return Err(Memory);
        };
        let Ok(batch) = Vec::with_capacity(alloc, MOST_TAKEN) else {
            return Err(Memory);
        };
        Ok(Distributor {
            set: KeySet::empty(),
            inbound: Inbound::new(alloc)?,
            worker: Worker::new(alloc, 0, 1)?,
            takings,
            batch,
            outputs: Outputs::new(alloc)?,
        })
    }

    /// Changes whom it forwards to.
    pub fn absorb(&mut self, op: &Op)
        ensures { (s : State) → MirrorsDistributor self.old s → MirrorsDistributor self.new (record s { set = absorbed s.set op.now }) }
    {
        self.set.absorb(op);
    }

    /// Begins a forward.
    pub fn begin(&mut self)
        ensures stays { (s : State) → MirrorsDistributor self.old s → MirrorsDistributor self.new s }
        ensures none { MirrorsTakings self.new [] }
    {
        self.takings.clear();
        self.batch.clear();
    }

    /// Opens the next datagram of the list, which came from an association.
    pub fn take(&mut self, from: &[u8; 16], number: u32, octets: &[u8]) -> Result<(), AllocError>
        requires { length octets.now ≤ 1500 }
        ensures { (s : State) (takings : List spec.Taking) → MirrorsDistributor self.old s → MirrorsTakings self.old takings
            → OnOk result (TakesNext s takings from.now number octets.now self.new) }
    {
        let mut plain = Plain {
            from: *from,
            rtcp: false,
            octets: [0; 1500],
            len: 0,
            field: 0,
        };
        match self.inbound.take(&self.set, from, octets, &mut plain) {
            Ok(()) => self.keep_opened(number, plain),
            Err(fault) => self.keep_refused(number, fault),
        }
    }

    // Keeps a packet that opened.
    fn keep_opened(&mut self, number: u32, plain: Plain) -> Result<(), AllocError>
        ensures stays { (s : State) → MirrorsDistributor self.old s → MirrorsDistributor self.new s }
        ensures taken { (takings : List spec.Taking) (packet : Packet) → MirrorsTakings self.old takings → IsPlain plain packet
            → OnOk result (TakesOne takings number (Ok packet) self.new) }
    {
        self.batch.push(plain)?;
        self.takings.push(Taking {
            number,
            fault: None,
        })?;
        Ok(())
    }

    // Keeps why a datagram doesn't open.
    fn keep_refused(&mut self, number: u32, fault: InboundFault) -> Result<(), AllocError>
        ensures stays { (s : State) → MirrorsDistributor self.old s → MirrorsDistributor self.new s }
        ensures taken { (takings : List spec.Taking) → MirrorsTakings self.old takings
            → OnOk result (TakesOne takings number (Err fault) self.new) }
    {
        self.takings.push(Taking {
            number,
            fault: Some(fault),
        })?;
        Ok(())
    }

    /// Seals what opened for the others, or for those that are named.
    pub fn forward(&mut self, change: &Change<'_>, only: Option<&[[u8; 16]]>)
        requires change { IsRewrite (rewrite_of change.now) }
        requires taken { HasTakings self.old }
        ensures { (s : State) (takings : List spec.Taking) → MirrorsDistributor self.old s → MirrorsTakings self.old takings
            → SealsBatch s takings (rewrite_of change.now) (names only.entry) self.new }
    {
        self.worker.forward(
            &self.set,
            self.batch.as_slice(),
            change,
            only,
            &mut self.outputs,
        );
    }
}

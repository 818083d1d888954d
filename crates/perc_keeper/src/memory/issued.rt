// The issued records, and which key each SPI has.
ghost use Rattle.std.specs.Prelude.{◌≡◌, ◌<◌, [], ◌∷◌, ◌++◌, None, IfSome, SomeIff, OnOk, OnErr, length};
ghost use Rattle.perc_ekt.specs.Record.{IsRecord};
ghost use Rattle.perc_keeper.specs.Lists as spec;
ghost use Rattle.perc_keeper.specs.Lists.{MayIssue, key_of};
ghost use Rattle.perc_keeper.specs.Kept.{looked_up};
ghost use Rattle.perc_kdf.specs.Derivation.{IsMasterLength};

use perc_base::Memory;
use perc_ekt::EktKeyRecord;
use perc_kdf::Master;
use std::alloc::Global;
use std::collections::BTreeMap;
use std::marker::Model;

// Issued records, in the order of issuing, whose SPIs rise.
#[derive(Drop)]
pub struct Issued {
    records: Vec<EktKeyRecord>,
    newest: Option<EktKeyRecord>,
    /// The SPI of each key, so that whether a key was issued costs one look-up.
    spis: BTreeMap<Master, u16>,
}

impl Model for Issued {
    ghost use Rattle.std.specs.Prelude.{List};
    ghost use Rattle.perc_ekt.specs.declared.record.EktKeyRecord.{EktKeyRecord};
    ghost use Rattle.perc_keeper.specs.Kept.{IsIndexed};

    ghost Value = { List EktKeyRecord };

    ghost view = { λ i. i.records.items };

    ghost invariant = { λ i. IsIndexed i.records.items i.newest i.spis };
}

impl Issued {
    pub fn new(alloc: Global) -> Issued
        ensures { result ≡ [] }
    {
        Issued {
            records: Vec::new(alloc),
            newest: None,
            spis: BTreeMap::new(alloc),
        }
    }

    pub fn newest(&self) -> Option<EktKeyRecord>
        ensures newest { result ≡ spec.newest self.now }
        ensures right { IfSome result IsRecord }
    {
        self.newest
    }

    pub fn spi_of(&self, key: &[u8]) -> Option<u16>
        ensures { result ≡ spec.spi_of self.now key.now }
    {
        match looked_up(key) {
            Some(key) => self.spis.get(&key).copied(),
            None => None,
        }
    }

    pub fn issue(&mut self, issued: &EktKeyRecord) -> Result<(), Memory>
        requires right { IsRecord issued.now }
        requires above { IfSome (spec.newest self.old) (λ s. s.spi < issued.now.spi) }
        requires unused { spec.spi_of self.old (key_of issued.now) ≡ None }
        ensures kept { OnOk result (self.new ≡ self.old ++ issued.now ∷ []) }
        ensures refused { OnErr result (self.new ≡ self.old) }
    {
        if self.records.reserve(1).is_err() {
            return Err(Memory);
        }
        if self.spis.insert(key_in(issued), issued.spi).is_err() {
            return Err(Memory);
        }
        self.records.push_reserved(*issued);
        self.newest = Some(*issued);
        Ok(())
    }
}

// An EKT key as it is looked up: with a blank salt.
fn looked_up(key: &[u8]) -> Option<Master>
    ensures { SomeIff result (IsMasterLength (length key.now)) (looked_up key.now) }
{
    Master::new(key, &[0; 12])
}

// The key of a record as it is looked up.
fn key_in(issued: &EktKeyRecord) -> Master
    requires { IsRecord issued.now }
    ensures { result ≡ looked_up (key_of issued.now) }
{
    looked_up(&issued.key[..issued.len]).unwrap()
}

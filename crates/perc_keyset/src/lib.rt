//! Key sets: which associations a media distributor forwards to (RFC 8871), and under which outer keys, as a key
//! distributor gives them (RFC 9185). No outer key and salt serve twice.
#![tactic(auto)]

mod accepted;
mod given;
pub mod laws;
mod set;

pub use accepted::Accepted;
use perc_kdf::Master;
pub use set::KeySet;
use thiserror::Error;

/// An association with its outer keys.
#[derive(Clone, Copy)]
pub struct Entry {
    /// The association's name, as in the tunnel's messages.
    pub association: [u8; 16],
    /// How many adds were accepted before this one.
    pub serial: u32,
    /// The client's key and salt: those of what its endpoint sends.
    pub client: Master,
    /// The server's key and salt: those of what the endpoint receives.
    pub server: Master,
}

/// A change of a key set.
#[derive(Clone, Copy)]
pub enum Op {
    /// This entry is added, in place of an older one of its association.
    Add(Entry),
    /// The association's entry is taken out.
    Remove([u8; 16]),
}

/// What an accepted add did.
#[derive(Clone, Copy, Debug, PartialEq, Eq)]
pub enum Added {
    /// The association is held with these keys from now on.
    New,
    /// It was held with these very keys, and nothing changed.
    Same,
}

/// Why an association isn't added.
#[derive(Clone, Copy, Debug, PartialEq, Eq, Error)]
pub enum AddFault {
    /// One of the two outer pairs was given before: the earliest add that gave one of them was this association's. Or the
    /// two are equal, and this is the association to be added.
    #[error("an outer key would be used again, of the association {0:?}")]
    KeyReused([u8; 16]),
    /// 64 other associations are held.
    #[error("64 other associations are held")]
    SetFull,
    /// 65536 adds were accepted.
    #[error("65536 adds were accepted")]
    AddsSpent,
    /// There is no memory.
    #[error("out of memory")]
    Memory,
}

/// Why an association isn't removed.
#[derive(Clone, Copy, Debug, PartialEq, Eq, Error)]
pub enum RemoveFault {
    /// It isn't held.
    #[error("the association isn't held")]
    Unknown,
    /// There is no memory.
    #[error("out of memory")]
    Memory,
}

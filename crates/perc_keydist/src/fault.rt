// Why a key distributor goes no further.
ghost use Rattle.std.specs.Prelude.{◌≡◌};

use perc_base::Memory;
use perc_keeper::KeepFault;
use perc_tunnel::TunnelFault;
use thiserror::Error;

/// Why a key distributor goes no further.
#[derive(Clone, Copy, Debug, PartialEq, Eq, Error)]
pub enum KdFault {
    /// The stream isn't one of messages.
    #[error("the stream goes wrong: {0:?}")]
    Tunnel(TunnelFault),
    /// A message of this type stands where none may.
    #[error("a message of type {0} is out of order")]
    Order(u8),
    /// The keeper failed.
    #[error("the keeper failed")]
    Keeper,
    /// The handshake failed.
    #[error("the handshake failed")]
    Handshake,
    /// The randoms failed.
    #[error("no random octets")]
    Random,
    /// SPI 65535 is issued, and another is due.
    #[error("no SPI is left")]
    SpiSpent,
    /// A drawn EKT key was issued before, or a drawn outer pair was given before or is drawn twice.
    #[error("a drawn key repeats")]
    KeyRepeated,
    /// There is no memory.
    #[error("out of memory")]
    Memory,
}

impl From<TunnelFault> for KdFault {
    ghost use Rattle.perc_keydist.specs.declared.fault.KdFault.TheVariants as fault;

    ghost from_gives = { λ t e. e ≡ fault.Tunnel t };

    fn from(fault: TunnelFault) -> KdFault {
        KdFault::Tunnel(fault)
    }
}

impl From<KeepFault> for KdFault {
    ghost use Rattle.perc_keydist.specs.Causes.{kept_as};

    ghost from_gives = { λ k e. e ≡ kept_as k };

    fn from(fault: KeepFault) -> KdFault {
        match fault {
            KeepFault::Failed => KdFault::Keeper,
            KeepFault::Memory => KdFault::Memory,
        }
    }
}

impl From<Memory> for KdFault {
    ghost use Rattle.perc_keydist.specs.declared.fault.KdFault.TheVariants as fault;

    ghost from_gives = { λ _ e. e ≡ fault.Memory };

    fn from(_memory: Memory) -> KdFault {
        KdFault::Memory
    }
}

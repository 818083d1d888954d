// Why keys aren't taken.
use perc_sender::TakeFault;

/// Why an EKT key or a key of its own isn't taken by an endpoint, in the order of looking.
#[derive(Clone, Copy, Debug, PartialEq, Eq)]
pub enum GrantFault {
    /// The SPI isn't above the latest, which is told.
    SpiOld(u16),
    /// The endpoint took this key before.
    KeyRepeated,
    /// 64 keys were taken under this SPI, or 512 in all.
    KeyLimit,
}

impl From<TakeFault> for GrantFault {
    ghost use Rattle.std.specs.Prelude.{◌≡◌};
    ghost use Rattle.perc_endpoint.specs.Endpoint.{key_refusal};

    ghost from_gives = { λ fault refusal. refusal ≡ key_refusal fault };

    fn from(fault: TakeFault) -> GrantFault {
        match fault {
            TakeFault::Repeated => GrantFault::KeyRepeated,
            TakeFault::Limit => GrantFault::KeyLimit,
        }
    }
}

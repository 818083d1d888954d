// Why a line of a script is refused.
ghost use Rattle.std.specs.Prelude.{◌≡◌};
ghost use Rattle.perc_script_line.specs.Reason.{reason_text};

/// Why a line of a script is refused, in the order in which the reasons are tested.
#[derive(Clone, Copy, Debug, PartialEq, Eq)]
pub enum Reason {
    /// It has more than 8192 octets.
    Long,
    /// It is outside the grammar, or a key of it hasn't the length of the head's profile.
    Form,
    /// It means something and stands before the head, or is a second head, or is a join before the first `ekt`.
    Order,
    /// A name that isn't present (in a join: that was ever used), or an SSRC that was joined before, or a grant of an
    /// SPI that wasn't issued.
    Name,
    /// A number that no datagram has, or an offset or a count past a datagram's end, or a datagram that isn't taken.
    Datagram,
    /// A key that came before, or two equal ones.
    Key,
    /// It would pass a limit.
    Limit,
}

impl Reason {
    /// The word for the reason.
    pub fn text(self) -> &'static [u8]
        ensures { result.now ≡ reason_text self }
    {
        match self {
            Reason::Long => b"long",
            Reason::Form => b"form",
            Reason::Order => b"order",
            Reason::Name => b"name",
            Reason::Datagram => b"datagram",
            Reason::Key => b"key",
            Reason::Limit => b"limit",
        }
    }
}

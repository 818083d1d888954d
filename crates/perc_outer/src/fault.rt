// Why a datagram isn't opened hop by hop.
use perc_ekt::FieldFault;
use perc_ohb::OhbFault;
use perc_rtp::RtpFault;
use perc_srtp::RxFault;

/// Why a datagram isn't opened hop by hop, in the order of looking (RFC 8870 section 4.3, RFC 8723 section 5.3).
#[derive(Clone, Copy, Debug, PartialEq, Eq)]
pub enum OuterFault {
    /// It is empty.
    NoField,
    /// Its last octet is 1, which is no type of a field.
    EktType,
    /// The field at its end has no possible length.
    EktLength,
    /// What stands before the field is no RTP packet.
    Rtp(RtpFault),
    /// The packet has the SSRC of who receives it.
    OwnStream,
    /// Fewer than 16 octets stand behind the packet's header.
    OuterShort,
    /// The packet's index is none, or is 128 or more behind the highest accepted in its stream.
    OuterOld,
    /// Its index was accepted before.
    OuterRepeated,
    /// It would begin a stream, and there are 256.
    StreamLimit,
    /// The outer tag is wrong.
    OuterTag,
    /// What was opened doesn't end in a block of originals.
    Ohb(OhbFault),
}

impl From<FieldFault> for OuterFault {
    ghost use Rattle.std.specs.Prelude.{◌≡◌};
    ghost use Rattle.perc_outer.specs.Datagram.{field_refusal};

    ghost from_gives = { λ fault refusal. refusal ≡ field_refusal fault };

    fn from(fault: FieldFault) -> OuterFault {
        match fault {
            FieldFault::NoField => OuterFault::NoField,
            FieldFault::Type01 => OuterFault::EktType,
            FieldFault::Length => OuterFault::EktLength,
        }
    }
}

impl From<RtpFault> for OuterFault {
    ghost use Rattle.std.specs.Prelude.{◌≡◌};
    ghost use Rattle.perc_outer.specs.declared.fault.OuterFault.TheVariants.{Rtp};

    ghost from_gives = { λ fault refusal. refusal ≡ Rtp fault };

    fn from(fault: RtpFault) -> OuterFault {
        OuterFault::Rtp(fault)
    }
}

impl From<RxFault> for OuterFault {
    ghost use Rattle.std.specs.Prelude.{◌≡◌};
    ghost use Rattle.perc_outer.specs.Datagram.{packet_refusal};

    ghost from_gives = { λ fault refusal. refusal ≡ packet_refusal fault };

    fn from(fault: RxFault) -> OuterFault {
        match fault {
            RxFault::Short => OuterFault::OuterShort,
            RxFault::TooOld => OuterFault::OuterOld,
            RxFault::Repeated => OuterFault::OuterRepeated,
            RxFault::Tag => OuterFault::OuterTag,
        }
    }
}

impl From<OhbFault> for OuterFault {
    ghost use Rattle.std.specs.Prelude.{◌≡◌};
    ghost use Rattle.perc_outer.specs.declared.fault.OuterFault.TheVariants.{Ohb};

    ghost from_gives = { λ fault refusal. refusal ≡ Ohb fault };

    fn from(fault: OhbFault) -> OuterFault {
        OuterFault::Ohb(fault)
    }
}

// Why datagrams, keys and outputs are refused, in the words of a report.
ghost use Rattle.std.specs.Prelude.{◌≡◌};
ghost use Rattle.perc_run.specs.Keys as keys;
ghost use Rattle.perc_run.specs.Forwarding as forwarding;
ghost use Rattle.perc_run.specs.Delivering as delivering;

use perc_distributor::{ForwardFault, InboundFault};
use perc_endpoint::GrantFault;
use perc_ohb::OhbFault;
use perc_outer::OuterFault;
use perc_receiver::Refusal as Inner;
use perc_report_line::{Denial, Loss, Refusal};
use perc_rtp::RtpFault;
use perc_srtp::RtcpFault;

/// Why a key isn't taken.
pub fn denial_of(fault: GrantFault) -> Denial
    ensures { result ≡ keys.denial_of fault }
{
    match fault {
        GrantFault::SpiOld(latest) => Denial::SpiOld(latest),
        GrantFault::KeyRepeated => Denial::KeyRepeated,
        GrantFault::KeyLimit => Denial::KeyLimit,
    }
}

/// Why an output is dropped.
pub fn loss_of(fault: ForwardFault) -> Loss
    ensures { result ≡ forwarding.loss_of fault }
{
    match fault {
        ForwardFault::StreamLimit => Loss::StreamLimit,
        ForwardFault::Room => Loss::Room,
        ForwardFault::NoIndex(seq) => Loss::NoIndex(seq),
        ForwardFault::NonceUsed(index) => Loss::NonceUsed(index),
        ForwardFault::RtcpSpent => Loss::RtcpSpent,
    }
}

/// Why a datagram doesn't open at the distributor. It comes from an association of the set, so that none is unknown.
pub fn inbound_refusal(fault: InboundFault) -> Refusal
    ensures { result ≡ forwarding.inbound_refusal fault }
{
    match fault {
        InboundFault::NotMedia | InboundFault::NoAssociation => Refusal::NotMedia,
        InboundFault::Outer(fault) => outer_refusal(fault),
        InboundFault::Rtcp(fault) => control_refusal(fault),
    }
}

/// Why a packet isn't accepted by a member.
pub fn media_refusal(refusal: Inner) -> Refusal
    ensures { result ≡ delivering.media_refusal refusal }
{
    match refusal {
        Inner::Outer(fault) => outer_refusal(fault),
        Inner::InnerShort => Refusal::InnerShort,
        Inner::SpiUnknown(spi) => Refusal::SpiUnknown(spi),
        Inner::Unwrap => Refusal::Unwrap,
        Inner::EktPlain => Refusal::EktPlain,
        Inner::KeyLimit => Refusal::KeyLimit,
        Inner::NoContext => Refusal::NoContext,
        Inner::InnerOld => Refusal::InnerOld,
        Inner::InnerRepeated => Refusal::InnerRepeated,
        Inner::InnerTag => Refusal::InnerTag,
        Inner::Padding => Refusal::Padding,
    }
}

/// Why an RTCP packet doesn't open.
pub fn control_refusal(fault: RtcpFault) -> Refusal
    ensures { result ≡ forwarding.control_refusal fault }
{
    match fault {
        RtcpFault::Short => Refusal::RtcpShort,
        RtcpFault::Version => Refusal::RtcpVersion,
        RtcpFault::Clear => Refusal::RtcpClear,
        RtcpFault::TooOld => Refusal::RtcpOld,
        RtcpFault::Repeated => Refusal::RtcpRepeated,
        RtcpFault::Tag => Refusal::RtcpTag,
    }
}

/// Why a datagram doesn't open hop by hop.
pub fn outer_refusal(fault: OuterFault) -> Refusal
    ensures { result ≡ forwarding.outer_refusal fault }
{
    match fault {
        OuterFault::NoField => Refusal::NoField,
        OuterFault::EktType => Refusal::EktType,
        OuterFault::EktLength => Refusal::EktLength,
        OuterFault::Rtp(fault) => header_refusal(fault),
        OuterFault::OwnStream => Refusal::OwnStream,
        OuterFault::OuterShort => Refusal::OuterShort,
        OuterFault::OuterOld => Refusal::OuterOld,
        OuterFault::OuterRepeated => Refusal::OuterRepeated,
        OuterFault::StreamLimit => Refusal::StreamLimit,
        OuterFault::OuterTag => Refusal::OuterTag,
        OuterFault::Ohb(fault) => block_refusal(fault),
    }
}

// Why octets are no RTP packet.
fn header_refusal(fault: RtpFault) -> Refusal
    ensures { result ≡ forwarding.header_refusal fault }
{
    match fault {
        RtpFault::Short => Refusal::RtpShort,
        RtpFault::Version => Refusal::RtpVersion,
        RtpFault::Extension => Refusal::RtpExtension,
    }
}

// Why octets end in no block of originals.
fn block_refusal(fault: OhbFault) -> Refusal
    ensures { result ≡ forwarding.block_refusal fault }
{
    match fault {
        OhbFault::Empty => Refusal::OhbEmpty,
        OhbFault::Reserved => Refusal::OhbReserved,
        OhbFault::Marker => Refusal::OhbMarker,
        OhbFault::Short => Refusal::OhbShort,
        OhbFault::Pt => Refusal::OhbPt,
    }
}

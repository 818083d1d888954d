// Why datagrams, grants and keys are refused, and why outputs are dropped.
ghost use Rattle.std.specs.Prelude.{◌≡◌};
ghost use Rattle.perc_report_line.specs.Reasons as spec;

/// Why a datagram is refused.
#[derive(Clone, Copy, Debug, PartialEq, Eq)]
pub enum Refusal {
    /// It is neither RTP nor RTCP.
    NotMedia,
    /// It has no EKT field.
    NoField,
    /// Its EKT field is of an unknown type.
    EktType,
    /// Its EKT field has a length that doesn't fit.
    EktLength,
    /// It ends inside its RTP header.
    RtpShort,
    /// It isn't of RTP's version 2.
    RtpVersion,
    /// It ends inside its header extension.
    RtpExtension,
    /// It is of the receiver's own stream.
    OwnStream,
    /// It has no room for the outer tag.
    OuterShort,
    /// Its outer index is behind the window, or below zero.
    OuterOld,
    /// Its outer index was accepted before.
    OuterRepeated,
    /// It would begin one stream too many.
    StreamLimit,
    /// Its outer tag doesn't verify.
    OuterTag,
    /// There is no octet of a header block.
    OhbEmpty,
    /// A reserved bit of its header block is set.
    OhbReserved,
    /// Its header block keeps a marker without saying that it does.
    OhbMarker,
    /// It ends inside its header block.
    OhbShort,
    /// Its header block keeps a payload type that no sender uses.
    OhbPt,
    /// It has no room for the inner tag.
    InnerShort,
    /// No live key record has this SPI.
    SpiUnknown(u16),
    /// Its wrapped key doesn't unwrap.
    Unwrap,
    /// Its wrapped plain text isn't a key of this sender.
    EktPlain,
    /// Its key would be one too many.
    KeyLimit,
    /// There is no key for its sender.
    NoContext,
    /// Its inner index is behind the window, or below zero.
    InnerOld,
    /// Its inner index was accepted before.
    InnerRepeated,
    /// Its inner tag doesn't verify.
    InnerTag,
    /// Its padding doesn't fit.
    Padding,
    /// It is RTCP, and too short.
    RtcpShort,
    /// It is RTCP, and not of version 2.
    RtcpVersion,
    /// It is RTCP, and not marked as encrypted.
    RtcpClear,
    /// It is RTCP, and its index is behind the window.
    RtcpOld,
    /// It is RTCP, and its index was accepted before.
    RtcpRepeated,
    /// It is RTCP, and its tag doesn't verify.
    RtcpTag,
}

impl Refusal {
    /// The word for the reason.
    pub fn text(self) -> &'static [u8]
        ensures { result.now ≡ spec.refusal_text self }
    {
        match self {
            Refusal::NotMedia => b"not-media",
            Refusal::NoField => b"no-field",
            Refusal::EktType => b"ekt-type",
            Refusal::EktLength => b"ekt-length",
            Refusal::RtpShort => b"rtp-short",
            Refusal::RtpVersion => b"rtp-version",
            Refusal::RtpExtension => b"rtp-extension",
            Refusal::OwnStream => b"own-stream",
            Refusal::OuterShort => b"outer-short",
            Refusal::OuterOld => b"outer-old",
            Refusal::OuterRepeated => b"outer-repeated",
            Refusal::StreamLimit => b"stream-limit",
            Refusal::OuterTag => b"outer-tag",
            Refusal::OhbEmpty => b"ohb-empty",
            Refusal::OhbReserved => b"ohb-reserved",
            Refusal::OhbMarker => b"ohb-marker",
            Refusal::OhbShort => b"ohb-short",
            Refusal::OhbPt => b"ohb-pt",
            Refusal::InnerShort => b"inner-short",
            Refusal::SpiUnknown(_) => b"spi-unknown",
            Refusal::Unwrap => b"unwrap",
            Refusal::EktPlain => b"ekt-plain",
            Refusal::KeyLimit => b"key-limit",
            Refusal::NoContext => b"no-context",
            Refusal::InnerOld => b"inner-old",
            Refusal::InnerRepeated => b"inner-repeated",
            Refusal::InnerTag => b"inner-tag",
            Refusal::Padding => b"padding",
            Refusal::RtcpShort => b"rtcp-short",
            Refusal::RtcpVersion => b"rtcp-version",
            Refusal::RtcpClear => b"rtcp-clear",
            Refusal::RtcpOld => b"rtcp-old",
            Refusal::RtcpRepeated => b"rtcp-repeated",
            Refusal::RtcpTag => b"rtcp-tag",
        }
    }

    /// The number behind the word, where it has one.
    pub fn number(self) -> Option<u64>
        ensures { result ≡ spec.refusal_number self }
    {
        match self {
            Refusal::SpiUnknown(number) => Some(u64::from(number)),
            _ => None,
        }
    }
}

/// Why a key is denied.
#[derive(Clone, Copy, Debug, PartialEq, Eq)]
pub enum Denial {
    /// The SPI isn't newer than this one, the latest.
    SpiOld(u16),
    /// The key was used before.
    KeyRepeated,
    /// It would be one key too many.
    KeyLimit,
}

impl Denial {
    /// The word for the reason.
    pub fn text(self) -> &'static [u8]
        ensures { result.now ≡ spec.denial_text self }
    {
        match self {
            Denial::SpiOld(_) => b"spi-old",
            Denial::KeyRepeated => b"key-repeated",
            Denial::KeyLimit => b"key-limit",
        }
    }

    /// The number behind the word, where it has one.
    pub fn number(self) -> Option<u64>
        ensures { result ≡ spec.denial_number self }
    {
        match self {
            Denial::SpiOld(number) => Some(u64::from(number)),
            _ => None,
        }
    }
}

/// Why an output is dropped.
#[derive(Clone, Copy, Debug, PartialEq, Eq)]
pub enum Loss {
    /// It would begin one stream too many.
    StreamLimit,
    /// The outcome would be too long.
    Room,
    /// This sequence number has no index.
    NoIndex(u16),
    /// This index was used before, or is behind the window.
    NonceUsed(u64),
    /// No RTCP index is left.
    RtcpSpent,
}

impl Loss {
    /// The word for the reason.
    pub fn text(self) -> &'static [u8]
        ensures { result.now ≡ spec.loss_text self }
    {
        match self {
            Loss::StreamLimit => b"stream-limit",
            Loss::Room => b"room",
            Loss::NoIndex(_) => b"no-index",
            Loss::NonceUsed(_) => b"nonce-used",
            Loss::RtcpSpent => b"rtcp-spent",
        }
    }

    /// The number behind the word, where it has one.
    pub fn number(self) -> Option<u64>
        ensures { result ≡ spec.loss_number self }
    {
        match self {
            Loss::NoIndex(number) => Some(u64::from(number)),
            Loss::NonceUsed(number) => Some(number),
            _ => None,
        }
    }
}

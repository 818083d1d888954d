// Why a datagram is refused.
use perc_outer::OuterFault;

/// Why a receiver refuses a datagram, in the order of looking (RFC 8723 section 5.3, RFC 8870 section 4.3).
#[derive(Clone, Copy, Debug, PartialEq, Eq)]
pub enum Refusal {
    /// It isn't opened hop by hop, or ends in no block.
    Outer(OuterFault),
    /// Fewer than 16 octets stand before the block.
    InnerShort,
    /// It carries a key under this SPI, which isn't live.
    SpiUnknown(u16),
    /// The key that it carries doesn't unwrap.
    Unwrap,
    /// What unwraps isn't a key of the profile's length, with an SSRC and a roll-over counter.
    EktPlain,
    /// It carries a new key, and there is no room for one more context.
    KeyLimit,
    /// It carries no key, and no context is held of its sender, or none has an index for it.
    NoContext,
    /// No fresh try opens it, and the first that does is 128 or more behind the highest index accepted there.
    InnerOld,
    /// No fresh try opens it, and the index of the first that does was accepted there before.
    InnerRepeated,
    /// No try opens it.
    InnerTag,
    /// It is padded, and the count in its last octet is 0 or above its length.
    Padding,
}

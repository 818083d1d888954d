// Opened packets.

/// A packet that an association sent, opened hop by hop: a media packet (header, inner octets and block of originals) with its
/// EKT field behind it, or a control packet.
#[derive(Clone, Copy)]
pub struct Plain {
    /// The association that it came from.
    pub from: [u8; 16],
    /// Whether it is a control packet (RTCP).
    pub rtcp: bool,
    /// The packet and its field; what stands behind them isn't specified.
    pub octets: [u8; 1500],
    /// How many octets packet and field have.
    pub len: usize,
    /// How many octets the field has, the last ones: none for a control packet.
    pub field: usize,
}

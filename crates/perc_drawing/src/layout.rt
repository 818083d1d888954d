// Where things stand. The distributor has the first column, members have the others in the order in which they come. A picture
// of six members is 1200 wide.

/// How far apart columns are.
pub(super) const SPACING: u64 = 150;

/// Where what comes from outside begins.
pub(super) const OUTSIDE: u64 = 62;

/// Where the numbers of the report's lines stand.
pub(super) const GUTTER: u64 = 6;

/// Where the rows begin.
pub(super) const TOP: u64 = 56;

/// How high a row is without what became of its datagram.
pub(super) const ROW: u64 = 30;

/// How high each line below an arrow is.
pub(super) const BELOW: u64 = 16;

/// Where a column is, counted from the distributor's, 0.
pub(super) fn place_of(column: usize) -> u64 {
    SPACING.saturating_mul((column as u64).saturating_add(1))
}

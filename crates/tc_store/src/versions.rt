//! The versions of a desk's tables, and the orders in which they stand.

/// Which schema tables are of.
#[derive(Clone, Copy, Debug, PartialEq, Eq)]
pub enum Version {
    /// With no table of replies and none of cargo.
    First,
    /// With a table of replies, and none of cargo.
    Second,
    /// With a table of replies and one of cargo.
    Third,
}

/// In which order tables stand, with the index of the moves.
#[derive(Clone, Copy, Debug, PartialEq, Eq)]
pub enum Layout {
    /// As a desk makes them: the index stands behind the moves.
    Made,
    /// As SQLite's own tools copy tables of this version, by `VACUUM INTO`, `.dump` or `.clone`: the index stands behind all of them.
    Copied(Version),
}

/// The version of which new tables are, and to which an opening brings those of an earlier one.
pub const NEWEST: Version = Version::Third;

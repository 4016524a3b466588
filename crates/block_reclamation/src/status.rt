//! What a block is.

/// What a block is, with the numbers of the versions that date it.
#[derive(Clone, Copy, Debug, PartialEq, Eq)]
pub enum BlockStatus {
    /// It may be granted.
    Free,
    /// It was granted, and no version lists it yet.
    Granted,
    /// The last version lists it, as each version from number `birth` on does.
    Used { birth: u64 },
    /// The versions from number `birth` on listed it, up to the one before number `retirement`.
    Retired { birth: u64, retirement: u64 },
}

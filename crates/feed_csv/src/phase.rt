// Whether a feed goes on.

/// Whether a feed goes on.
#[derive(Clone, Copy, Debug, PartialEq, Eq)]
pub enum Phase {
    /// The next call looks for a record.
    Reading,
    /// The input's end was met.
    Ended,
    /// A read failed, memory ran out, or the limit on records was reached.
    Stopped,
}

//! What an operation does to the edge at its key.

ghost use Rattle.std.specs.Prelude.{◌≡◌, IfSome, false};
ghost use Rattle.graph_types.specs.Changes.{AreMarks, IsChange, option_stamp};
ghost use Rattle.graph_types.specs.Limits as limits;
ghost use Rattle.graph_types.specs.Step.{makes_names, outcome_at, outcome_put, overflows, stamp_after, stamp_put};

use crate::Outcome;

/// What an operation does to the edge at its key: STINGER's insertion, increment and removal (HPEC 2012).
#[derive(Clone, Copy, Debug, PartialEq, Eq)]
pub enum EdgeChange {
    /// Adds the edge, or replaces its weight, where the weight's size is at most `most`. The weight is from -2^40 to 2^40, the
    /// time below 2^63, and `most` at most 2^40.
    Insert { weight: i64, time: u64, most: u64 },
    /// Adds to its weight, or adds the edge with this weight, where neither the amount nor the sum is past `most`. The amount
    /// is from -2^40 to 2^40.
    Incr { amount: i64, time: u64, most: u64 },
    /// Takes the edge away.
    Remove,
}

impl EdgeChange {
    /// Whether it makes the names of its edge: a removal makes none. It takes no memory.
    ///
    /// ```
    /// assert!(rt; !EdgeChange::Remove.makes_names());
    /// ```
    #[inline(always)]
    pub fn makes_names(self) -> bool
        ensures { result ≡ makes_names self }
    {
        match self {
            EdgeChange::Insert { .. } | EdgeChange::Incr { .. } => true,
            EdgeChange::Remove => false,
        }
    }
}

/// What an edge bears.
#[derive(Clone, Copy, Debug, PartialEq, Eq)]
pub struct EdgeMarks {
    /// From -2^40 to 2^40.
    pub weight: i64,
    /// The time of its first insertion, below 2^63.
    pub first: u64,
    /// The time of the last operation that touched it, below 2^63.
    pub recent: u64,
}

/// Whether a weight is from `-most` to `most`.
fn is_weight_in(most: u64, weight: i64) -> bool
    ensures { result ≡ limits.is_weight_in most weight }
{
    weight.unsigned_abs() <= most
}

/// Whether a change would leave a weight past the most that it allows, or has such a number itself.
fn overflows(change: EdgeChange, before: Option<EdgeMarks>) -> bool
    requires change { IsChange change }
    requires before { IfSome before AreMarks }
    ensures { result ≡ overflows change (option_stamp before) }
{
    match (change, before) {
        (EdgeChange::Insert { weight, most, .. }, _) => !is_weight_in(most, weight),
        (EdgeChange::Incr { amount, most, .. }, None) => !is_weight_in(most, amount),
        (EdgeChange::Incr { amount, most, .. }, Some(edge)) => {
            !(is_weight_in(most, amount) && is_weight_in(most, edge.weight + amount))
        }
        (EdgeChange::Remove, _) => false,
    }
}

/// What a change does that doesn't overflow.
fn put_edge(change: EdgeChange, before: Option<EdgeMarks>) -> (Outcome, Option<EdgeMarks>)
    requires change { IsChange change }
    requires before { IfSome before AreMarks }
    requires fits { overflows change (option_stamp before) ≡ false }
    ensures outcome { result.0 ≡ outcome_put change (option_stamp before) }
    ensures stamp { option_stamp result.1 ≡ stamp_put change (option_stamp before) }
    ensures marks { IfSome result.1 AreMarks }
{
    match (change, before) {
        (EdgeChange::Insert { weight, time, .. }, None) => (
            Outcome::Inserted,
            Some(EdgeMarks {
                weight,
                first: time,
                recent: time,
            }),
        ),
        (EdgeChange::Insert { weight, time, .. }, Some(edge)) => (
            Outcome::Updated,
            Some(EdgeMarks {
                weight,
                recent: time,
                ..edge
            }),
        ),
        (EdgeChange::Incr { amount, time, .. }, None) => (
            Outcome::Inserted,
            Some(EdgeMarks {
                weight: amount,
                first: time,
                recent: time,
            }),
        ),
        (EdgeChange::Incr { amount, time, .. }, Some(edge)) => (
            Outcome::Updated,
            Some(EdgeMarks {
                weight: edge.weight + amount,
                recent: time,
                ..edge
            }),
        ),
        (EdgeChange::Remove, None) => (Outcome::Absent, None),
        (EdgeChange::Remove, Some(_)) => (Outcome::Removed, None),
    }
}

/// What a change does where an edge with these marks, or none, stands at the key, and what stands there
/// afterwards. A change past the most that it allows changes nothing. It takes no memory.
pub fn change_edge(change: EdgeChange, before: Option<EdgeMarks>) -> (Outcome, Option<EdgeMarks>)
    requires change { IsChange change }
    requires before { IfSome before AreMarks }
    ensures outcome { result.0 ≡ outcome_at change (option_stamp before) }
    ensures stamp { option_stamp result.1 ≡ stamp_after change (option_stamp before) }
    ensures marks { IfSome result.1 AreMarks }
{
    if overflows(change, before) {
        (Outcome::Overflow, before)
    } else {
        put_edge(change, before)
    }
}

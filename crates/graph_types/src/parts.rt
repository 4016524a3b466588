//! An operation by its parts.

ghost use Rattle.std.specs.Prelude.{◌≡◌, ◌≤◌};
ghost use Rattle.graph_types.specs.Limits.{weight_limit};
ghost use Rattle.graph_types.specs.Parts.{parts_in, shown_parts};
ghost use Rattle.graph_types.specs.Valid.{IsValid, ArePartsWithin};

use crate::{EdgeChange, Name, NamedOp};

/// An operation by its parts: what it does to its edge and the names of the edge, or the time of an expiry. The names are the
/// operation's own.
#[derive(Clone, Copy)]
pub enum OpParts<'a> {
    /// A change of one edge, and the names of the edge's kind, source and target.
    OfEdge(EdgeChange, &'a Name, &'a Name, &'a Name),
    /// The expiry of all edges that were last touched before a time.
    OfAll(u64),
}

/// The parts of an operation, whose change allows weights of at most this size. It takes no memory.
///
/// ```
/// match parts_in(&op, limits.weight()) {
///     OpParts::OfEdge(change, kind, source, target) => draft.change(change, kind, source, target),
///     OpParts::OfAll(time) => draft.expire(time),
/// }
/// ```
#[inline(always)]
pub fn parts_in<'a>(op: &'a NamedOp, most: u64) -> OpParts<'a>
    ensures parts { shown_parts result ≡ parts_in most op.now }
    ensures within { IsValid op.now → most ≤ weight_limit → ArePartsWithin most (shown_parts result) }
{
    match op {
        NamedOp::Insert {
            kind,
            source,
            target,
            weight,
            time,
        } => {
            let change = EdgeChange::Insert {
                weight: *weight,
                time: *time,
                most,
            };
            OpParts::OfEdge(change, kind, source, target)
        }
        NamedOp::Incr {
            kind,
            source,
            target,
            amount,
            time,
        } => {
            let change = EdgeChange::Incr {
                amount: *amount,
                time: *time,
                most,
            };
            OpParts::OfEdge(change, kind, source, target)
        }
        NamedOp::Remove {
            kind,
            source,
            target,
        } => OpParts::OfEdge(EdgeChange::Remove, kind, source, target),
        NamedOp::Expire { time } => OpParts::OfAll(*time),
    }
}

//! The numbers that a batch's names have before it, looked up by several workers at once.

ghost use Rattle.std.specs.Prelude.{◌≡◌, ◌<◌, ◌≤◌, [], get_or, IfOk};
ghost use Rattle.std.specs.Thread.{IsSync};
ghost use Rattle.batch_apply.specs.Plan.{ends_in, unknown_ends, AreFound};

use crate::resolve::Ends;
use crate::workers::one_after_another;
use graph_types::{MOST_WEIGHT, NamedOp, OpParts, parts_in};
use std::alloc::{AllocError, Global};
use std::thread::{Threads, join};
use vertex_names::NameBook;

/// The numbers of an operation's ends, where they have appeared.
fn find(names: &NameBook, op: &NamedOp) -> Ends
    ensures { result ≡ ends_in names.now.names op.now }
{
    match parts_in(op, MOST_WEIGHT) {
        OpParts::OfEdge(_, _, source, target) => Ends {
            source: names.number(source.as_str()),
            target: names.number(target.as_str()),
        },
        OpParts::OfAll(_) => Ends {
            source: None,
            target: None,
        },
    }
}

/// The numbers of the ends of operations, one after another.
fn find_each(alloc: Global, names: &NameBook, ops: &[NamedOp]) -> Result<Vec<Ends>, AllocError>
    ensures { IfOk result (λ v. AreFound names.now.names ops.now v.items) }
{
    let mut found = Vec::with_capacity(alloc, ops.len())?;
    for op in ops {
        found.push(find(names, op))?;
    }
    Ok(found)
}

/// The numbers of the ends of operations. Half of the workers look up those of the first half in this thread and in others,
/// while the rest look up those behind them.
fn find_all<R: Threads + Sync>(
    rt: &R,
    alloc: Global,
    names: &NameBook,
    ops: &[NamedOp],
    workers: usize,
) -> Result<Vec<Ends>, AllocError>
    ensures { IfOk result (λ v. AreFound names.now.names ops.now v.items) }
{
    if workers < 2 {
        return find_each(alloc, names, ops);
    }
    let half = workers / 2;
    let rest = workers - half;
    let (low, high) = ops.split_at(ops.len() / 2);
    let back = move || -> Result<Vec<Ends>, AllocError>
        requires { IsSync R.row }
        ensures { IfOk result (λ v. AreFound names.entry.now.names high.entry.now v.items) }
    { find_all(rt, alloc, names, high, half) };
    let front = move || -> Result<Vec<Ends>, AllocError>
        requires { IsSync R.row }
        ensures { IfOk result (λ v. AreFound names.entry.now.names low.entry.now v.items) }
    { find_all(rt, alloc, names, low, rest) };
    let (b, a) = join(rt, back, front);
    let all = a?;
    let rest = b?;
    let found = one_after_another(all, rest)?;
    Ok(found)
}

/// What is known of the ends of operations before any is resolved: nothing where there is one worker, who resolves each in
/// turn, and else the number of each end that has appeared, which several look up at once.
pub fn look_up<R: Threads + Sync>(
    rt: &R,
    alloc: Global,
    names: &NameBook,
    ops: &[NamedOp],
    workers: usize,
) -> Result<Vec<Ends>, AllocError>
    ensures found { IfOk result (λ v. 2 ≤ workers → AreFound names.now.names ops.now v.items) }
    ensures alone { IfOk result (λ v. workers < 2 → v.items ≡ []) }
{
    if workers < 2 {
        return Ok(Vec::new(alloc));
    }
    find_all(rt, alloc, names, ops, workers)
}

/// What was found of the ends of the operation at a place: nothing past the last of which something was.
pub fn found_at(found: &[Ends], place: usize) -> Ends
    ensures { result ≡ get_or found.now place unknown_ends }
{
    if place < found.len() {
        found[place]
    } else {
        Ends {
            source: None,
            target: None,
        }
    }
}

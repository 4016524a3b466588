//! A store in one thread: a batch, a version that is held, and a question.

use anyhow::Result;
use misteluk::{Batch, Limits, NamedFilter, NamedOp, OwnedDesk, Reply, Request, answer};
use std::alloc::Global;
use std::sync::Arc;

/// Builds two roads of 12 miles on day 1, and asks how many roads each town is away from the first one.
fn reply(alloc: Global) -> Result<Reply> {
    let mut store = OwnedDesk::open(alloc, Limits::standard(), 1_024)?;
    let mut roads = Batch::new(alloc);
    roads.push(NamedOp::insert(alloc, "road", "ulm", "kiel", 12, 1)?)?;
    roads.push(NamedOp::insert(alloc, "road", "kiel", "jena", 12, 1)?)?;
    store.apply(Arc::new(alloc, roads)?)?;

    let held = store.hold()?;
    let question = Request::levels(alloc, "ulm", NamedFilter::all())?;
    let answer = answer(alloc, &held.version, &question);
    store.release(held.hold)?;
    Ok(answer?)
}

/// Prints what was answered.
pub(crate) fn run<R: AllocGlobal + Print>(rt: &R) -> Result<()> {
    if let Reply::Levels(levels) = reply(rt.alloc())? {
        for (town, level) in levels.iter() {
            println!(rt; "{town} {level}")?;
        }
    }
    Ok(())
}

//! Programs over `misteluk`, one after another: a store in one thread, and one that threads share. In one crate, since a program's
//! proof takes most of a minute before its first function.
#![tactic(auto)]

mod owned;
mod shared;

use anyhow::Result;

fn main(rt: HostRuntime) -> Result<()> {
    owned::run(&rt)?;
    shared::run(&rt, rt.alloc())
}

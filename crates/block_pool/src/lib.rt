//! A pool of edge blocks that is made beforehand: each number is free, in use, or retired with the number of the version
//! that left it out.
//!
//! STINGER (Ediger, McColl, Riedy, Bader; IEEE HPEC 2012) takes its blocks from such a pool. Here a block that a batch
//! replaces is retired, and is free again once no version that lists it can be read (held snapshots as in Aspen:
//! Dhulipala, Blelloch, Shun; PLDI 2019). Retired blocks stand in stacks, one for each seat whose settled pin needs them, so
//! that a collection looks at those alone that are new or that a pin let go. What is kept of a number takes memory at its first
//! grant, with that of its page: only `Pool::new` and `Pool::grant` take memory.
#![tactic(auto)]

mod numbers;
mod pages;
mod pool;
mod stacks;

// Why a batch is refused; [`Pool::grant`] gives `PoolEmpty` or `OutOfMemory`.
pub use graph_types::ApplyError as GrantError;
pub use pool::{Grant, Pool};

//! The work of a batch on the rows of some sources: one worker's part, without threads.
//!
//! A row's blocks are shared with the version before until the batch touches them. A touched block is copied once, into
//! a fresh block that the shard owns, and takes its place.
#![tactic(auto)]

mod groups;
mod notes;
mod open_rows;
mod room;
mod row_blocks;
mod rows;
mod shard;

pub use shard::{Act, Leavings, Place, Shard, ShardDone, Step, work_on};

//! The machine of interleavings: sessions hold versions while batches are posted and blocks are recycled.
//!
//! Its events are single atomic steps of a writer, a collector and the sessions; `specs/Machine.antt` says what
//! each asks and does, `specs/Runs.antt` what a list of them does, and `specs/Holdings.antt` what befalls a
//! session in it. [`Core`] takes exactly these steps. [`law_isolation`], [`law_epoch`], [`law_collection`] and
//! [`law_exact_collection`] are laws about them: snapshot isolation; that no block is filled again while a session may
//! read it; that a collection leaves no more blocks retired than pins need; and that these are those that a held version
//! lists. [`law_post`] is the rule of a Post.
//! A block has a number and is free, granted, used or retired ([`BlockStatus`](block_reclamation::BlockStatus)); a table
//! from these numbers to lists of edges, the heap, has what is in it. `specs/Blocks.antt` says what becomes of blocks, `specs/Versions.antt` what a version is and which edges it
//! has, and `specs/Posting.antt` what a Post asks and sets.
//! The store that it models is STINGER's (Ediger, McColl, Riedy, Bader; IEEE HPEC 2012) with held snapshots as
//! Aspen has them (Dhulipala, Blelloch, Shun; PLDI 2019).
#![tactic(auto)]

mod advancing;
mod blocks;
mod contents;
mod events;
mod laws;
mod machine;
mod posting;
mod replying;
mod session_states;
mod sessions;
mod start;
mod states;
mod step;
mod versions;

pub use block_reclamation::PinCopy;
pub use blocks::{fill_block, recycle_block, take_block};
pub use contents::edges_at;
pub use events::Event;
pub use laws::{
    law_collection, law_epoch, law_exact_collection, law_examples, law_isolation, law_post,
};
pub use machine::{Core, run};
pub use posting::plan_post;
pub use states::{Opening, Version};
use std::alloc::AllocError;
pub use step::Step;
pub use versions::{blocks_at, content_with};

/// A refused request for memory.
pub type OutOfMemory = AllocError;

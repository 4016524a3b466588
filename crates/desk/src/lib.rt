//! The desk, where batches are applied and blocks collected: the last version, the pool of blocks, and the journal. It has no
//! lock and waits for nobody, and only [`Desk::begin_at_once`] starts threads.
//!
//! A batch is applied in two steps: [`Desk::begin`] plans it and makes the next version, with all the memory that its
//! acceptance takes; [`Ready::finish`] accepts it, or [`Ready::cancel`] leaves the desk of before. Who has workers for it begins
//! with [`Desk::begin_at_once`].
//!
//! The store is STINGER's (Ediger, McColl, Riedy, Bader; IEEE HPEC 2012) with held versions as Aspen has them (Dhulipala,
//! Blelloch, Shun; PLDI 2019).
#![tactic(auto)]

mod applying;
mod at_once;
mod copies;
mod desks;
mod entries;
mod errors;
mod journals;
mod last;
mod moves;
mod ready;
mod reopening;
mod told;
mod told_numbers;
mod zero;

pub use copies::KeptCopy;
pub use desks::{Collected, Desk, Stat};
pub use entries::JournalEntry;
pub use errors::OpenError;
pub use graph_types::ApplyError;
pub use ready::{Accepted, Ready};
pub use zero::Zero;

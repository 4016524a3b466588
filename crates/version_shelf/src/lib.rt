//! The shelf of a store of versions: one writer posts versions, and up to sixteen readers enter the newest one shown.
//!
//! The shelf stands on two copies that readers read without a lock (`left_right`), and on a history of the posted
//! batches that exists in the proofs alone but for its length (`logbook`). Its rule: what is shown begins with all that
//! each reader had seen. So a reader never goes back, whether it learnt of a version by an entry or by what another
//! thread told it. Each version is posted whole and never changes, as in Aspen ("Low-Latency Graph Streaming using
//! Compressed Purely-Functional Trees"; Dhulipala, Blelloch, Shun; PLDI 2019).
#![tactic(auto)]

mod history;
mod readers;
mod rules;
mod told;
mod writers;

pub use block_reclamation::{Board, SeatNo};
pub use readers::ShelfReader;
pub use told::Told;
pub use writers::{ShelfError, ShelfWriter, shelf};

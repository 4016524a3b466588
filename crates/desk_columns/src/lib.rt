//! A desk fed by columns: insertions in batches, and counts of what became of them.
#![tactic(auto)]

mod columns;
mod laws;
mod opening;

pub use columns::{InsertColumnsError, Insertions, insert_columns};
pub use laws::law_replay;
pub use opening::{OpenDeskError, open_columns};

//! What became of the edges of one graph from a version to a later one.
//!
//! A [`VersionPair`] is an earlier and a later version, and the sources at which their rows may differ. So what became of the edges
//! costs what may differ, and not what there is.
#![tactic(auto)]

mod columns;
mod left;
mod pairs;
mod rows;
mod sources;

pub use columns::{DiffError, write_differences};
pub use pairs::VersionPair;
pub use rows::{CHANGED, EdgeDifference, EdgeMarks, GONE, NEW};

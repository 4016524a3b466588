//! Walks over a version's edges against their direction, or in either, by an index of the edges by their targets; and shortest
//! walks.
//!
//! A version keeps edges by their sources. [`Incoming`] has them once more by their targets. With it [`Against`] and [`EitherWay`]
//! say where a step leads, for searches over [`Steps`](graph_levels::Steps).
#![tactic(auto)]

mod backward;
mod incoming;
mod paths;

pub use backward::{Against, EitherWay};
pub use incoming::{Incoming, passes};
pub use paths::path;

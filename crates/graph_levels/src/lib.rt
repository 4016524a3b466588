//! Levels and labels of a view in time near to linear in its edges: levels by frontiers, one after another, and labels by
//! joined trees. [`levels`], [`reached`] and [`labels`] are those of a version; [`levels_over`], [`reached_over`] and
//! [`labels_over`] take the edges from any source that says which edges it has (`ViewEdges`). [`near_over`] goes so many steps from
//! several vertices, along whatever says where a step leads ([`Steps`]).
#![tactic(auto)]

mod distances;
mod found;
mod marks;
mod parts;
mod steps;
mod versions;

pub use found::{Levels, levels_over, levels_up_to, near_over, reached_over};
pub use parts::labels_over;
pub use steps::{Along, Steps};
pub use versions::{LevelError, labels, levels, reached};

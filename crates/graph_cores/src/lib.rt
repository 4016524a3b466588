//! Core numbers and degrees of a view. Core numbers come in time linear in the view's edges, by peeling: [`cores`] are those of a
//! version, and [`cores_over`] takes the edges from any source that says which edges it has (`ViewEdges`). [`degrees`] takes one
//! pass over a version's blocks.
#![tactic(auto)]

mod links;
mod peeling;
mod rows;
mod tallies;
mod versions;

pub use peeling::cores_over;
pub use tallies::degrees;
pub use versions::cores;

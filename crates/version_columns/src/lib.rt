//! A version in columns: its sizes, names, tables, rows and edges, written to slices that the caller has.
//!
//! Vertices and kinds are numbers here, and a view has the number of its kind. Nothing is kept of what a call was given.
#![tactic(auto)]

mod edges;
mod into;
mod lookups;
mod names;
mod nearby;
mod paths;
mod rows;
mod searches;
mod tables;
mod views;
mod weights;

pub use edges::write_edges;
pub use into::write_in_edges;
pub use lookups::{Marks, VersionSize, edge, kind, size, vertex};
pub use names::{TextError, write_names};
pub use nearby::{Ways, write_within};
pub use paths::write_path;
pub use rows::write_row;
pub use searches::write_names_like;
pub use tables::{write_cores, write_degrees, write_labels, write_levels};
pub use views::{ColumnError, NO_NUMBER, View, filter_of};
pub use weights::write_weights_in;

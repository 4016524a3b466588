//! An opening from columns: version 0 of a graph and the pool of its blocks, made straight from insertions and additions in
//! columns, without batches. It holds what these operations leave of the empty graph, one after another.
//!
//! The numbers of the dictionaries become those of the graph, each name looked up once. The rows of the columns are sorted by their
//! edges, those of one edge in their order, and each edge is worked out once. So many blocks are granted as the edges need, each is
//! filled, and the rows are put over them.
#![tactic(auto)]

mod errors;
mod filling;
mod folding;
mod laying;
mod making;
mod numbering;
mod pooling;
mod refusing;

pub use errors::OpenColumnsError;
pub use making::{Made, made_of};

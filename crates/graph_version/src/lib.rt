//! Versions of a graph: what batches leave, in rows of edge blocks that versions share.
//!
//! A version never changes once it is built; the next one is drafted over it and shares every row, batch and name
//! that the batch didn't touch. That is how Aspen holds snapshots (Dhulipala, Blelloch, Shun; PLDI 2019), here over
//! STINGER's edge blocks (Ediger, McColl, Riedy, Bader; IEEE HPEC 2012).
//!
//! What versions share stands in pages behind counted references. A new version keeps all but a few rows of the one before. So
//! rows stand in halls of 65,536 sources, each in groups of 1,024, these in pages of 64, and these in parts of 8: a changed row
//! costs a copy of its part and of the references of its page, group and hall, and every other hall, group, page and part is
//! shared. Each version has all batches since the first, and one batch more than the version before it. So batches stand in
//! pages of 16, these in groups of 16 pages, and these in halls of 32 groups: a new version copies the last page and the
//! references of the last group and of the last hall alone. What else a version costs is one reference for each hall.
//!
//! What the analyses ask of a graph is the edges of a view, by their sources: [`ViewEdges`]. A version has them in its blocks
//! ([`VersionEdges`]), and a plain list of arcs serves tests and examples ([`ListedArcs`]).
#![tactic(auto)]

mod batch_group;
mod batch_hall;
mod batch_log;
mod batch_page;
mod batches;
mod begun;
mod drafts;
mod edges;
mod in_edges;
mod laws;
mod lending;
mod listed;
mod listed_arcs;
mod opening;
mod rebase;
mod row;
mod row_group;
mod row_hall;
mod row_page;
mod rows;
mod source;
mod tables;
mod told;
mod told_graph;
mod told_opening;
mod version_edges;
mod versions;

pub use batches::{BatchIter, BatchList};
pub use drafts::VersionDraft;
pub use edges::EdgeIter;
pub use in_edges::InEdgeIter;
pub use laws::{law_empty_version, law_rows_each_once};
pub use lending::{BlockNumbers, RowIter};
pub use listed_arcs::ListedArcs;
pub use row::Row;
pub use rows::Rows;
pub use source::ViewEdges;
pub use tables::RowTable;
pub use version_edges::VersionEdges;
pub use versions::Version;

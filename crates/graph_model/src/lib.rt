//! The graph that the whole workspace speaks of, and slow functions that do to plain lists what its definitions say:
//! [`plain_apply`] applies a batch, [`plain_reply`] answers a request. The fast layers are compared with them.
//!
//! The types and definitions stand in `graph_types`, which names no algorithm, and are handed on here, as is the copy of the pins
//! by which a collection goes. Levels, labels and core
//! numbers over a content are each computed in a simple way. Their contracts are the definitions: the least length of a walk,
//! the least vertex that a walk joins, and core numbers as Seidman has them (Network structure and minimum degree, 1983), over
//! the edges that a filter lets through.
#![tactic(auto)]

mod analyses;
mod apply;
mod arcs;
mod cores;
mod drafts;
mod edges;
mod laws;
mod names;
mod reply;
mod settling;
mod walks;

pub use apply::{plain_apply, plain_apply_in};
pub use arcs::shows;
pub use block_reclamation::PinCopy;
pub use cores::plain_cores;
// `PlainError` is why a batch is refused: for [`plain_apply`] that is `NamesFull`, `KindsFull` or `OutOfMemory`.
pub use graph_types::{
    ApplyError, ApplyError as PlainError, AskError, Batch, Content, Degree, Edge, EdgeChange,
    EdgeMarks, Filter, KindId, Limits, List, Name, NamedFilter, NamedOp, Outcome, PushError, Reply,
    Request, VertexId, change_edge, is_kind_name, is_kind_name_bytes, is_name, is_name_bytes,
    law_edge_order, law_expiry, law_first_time_stays, law_names_stay_names, law_one_answer,
    law_one_table, law_some_answer, law_some_table, law_within_limits,
};
pub use laws::law_names_before_kinds;
pub use reply::plain_reply;
pub use walks::{plain_labels, plain_levels};

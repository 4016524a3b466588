//! The graph that the whole workspace speaks of: names, edges with a weight and two times, batches of
//! operations, contents and the answers to requests, as STINGER has them (Ediger, McColl, Riedy, Bader;
//! IEEE HPEC 2012). The definitions stand in `specs/`; the crate `graph_model` has slow functions that do what
//! they say, with which the fast layers are compared.
#![tactic(auto)]

mod batches;
mod changes;
mod compared;
mod contents;
mod ids;
mod laws;
mod limits;
mod lists;
mod operations;
mod outcomes;
mod parts;
mod questions;
mod refusals;
mod requests;
mod tables;
mod texts;

pub use batches::{Batch, MOST_OPERATIONS, NamedOp, OPERATION_LIMIT, Outcome, PushError};
pub use changes::{EdgeChange, EdgeMarks, change_edge};
pub use contents::Content;
pub use ids::{Degree, Edge, Filter, KindId, VertexId};
pub use laws::{
    law_edge_order, law_expiry, law_first_time_stays, law_limits_in_no_answer, law_limits_stay,
    law_names_stay_names, law_one_answer, law_some_answer, law_weights_stay_within,
    law_within_limits,
};
pub use limits::{BadLimits, Limits, MOST_WEIGHT, STANDARD_SIZE};
pub use lists::List;
pub use outcomes::{put_together, write_outcomes};
pub use parts::{OpParts, parts_in};
pub use refusals::ApplyError;
pub use requests::{AskError, NamedFilter, Reply, Request};
pub use tables::{law_one_table, law_some_table};
pub use texts::{Name, is_kind_name, is_kind_name_bytes, is_name, is_name_bytes};

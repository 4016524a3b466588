//! A batch on its way to the next version: its plan, and the work on it by workers.
//!
//! [`plan`] resolves names to numbers, operation by operation; where a kind doesn't fit, it adds the vertex names of the others
//! still, so that too many kinds are told only where every vertex name fits, as in the batch rule. It gives each worker the
//! operations of its sources. [`apply`] has all workers do theirs at once, and puts together what they leave.
#![tactic(auto)]

mod applied;
mod counting;
mod dividing;
mod finding;
mod gathering;
mod laws;
mod listed;
mod naming;
mod old;
mod own_sources;
mod planning;
mod plans;
mod ranks;
mod resolve;
mod shards;
mod source_laws;
mod workers;

pub use applied::{Applied, Rewritten, apply, apply_alone, apply_alone_over, apply_over};
// Why a batch is refused; [`plan`] gives `NamesFull`, `KindsFull` or `OutOfMemory`.
pub use graph_types::ApplyError as PlanError;
pub use laws::{
    law_all_written, law_batch_totals, law_needs, law_needs_example, law_shard_results,
    law_sum_all, law_worker_rows,
};
pub use listed::{KnownEnds, NameList};
pub use planning::{plan, plan_known, plan_shared, plan_with};
pub use plans::Plan;
pub use ranks::{Ranks, rank};
pub use source_laws::law_sources_within;
pub use workers::{Gate, Job, PassAll, do_all};

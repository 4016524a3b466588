//! A batch that workers apply at once.

ghost use Rattle.std.specs.Prelude.{◌≡◌, ◌<◌, ℕ, count_by, IfOk, IfErr, OnOk};
ghost use Rattle.graph_version.specs.Batches.{batch_value};
ghost use Rattle.block_reclamation.specs.Status.{is_free, is_in_use};
ghost use Rattle.store_steps.specs.Acceptances.{Accepts};
ghost use Rattle.desk.specs.Refusals.{Refuses, IsAdmitted, IsWithin, block_count};

use crate::applying::plan_at_once;
use crate::desks::Desk;
use crate::ready::{Load, Ready};
use batch_apply::{Gate, Plan, apply_over};
use graph_types::{ApplyError, Batch};
use std::sync::Arc;
use std::thread::Threads;

impl Desk {
    /// As [`begin`](Desk::begin), by so many workers at once, who report to `gate`, or by one if the batch is small. No outcome
    /// depends on how many there are.
    ///
    /// ```
    /// let desk = match desk.begin_at_once(rt, &PassAll, batch, 4) {
    ///     Ok(ready) => ready.finish().0,
    ///     Err((desk, _error)) => desk,
    /// };
    /// ```
    pub fn begin_at_once<R: Threads + Sync, G: Gate + Sync>(
        self,
        rt: &R,
        gate: &G,
        batch: Batch,
        workers: usize,
    ) -> Result<Ready, (Desk, ApplyError)>
        requires workers { 0 < workers }
        ensures begun { IfOk result (λ r. (r.old ≡ self) × (r.ops ≡ batch)) }
        ensures accepts { IfOk result (λ r. Accepts self batch r.new) }
        ensures within { OnOk result (IsWithin self.last (count_by is_free self.pool) batch) }
        ensures refused { IfErr result (λ e. Refuses self.last (count_by is_free self.pool) batch e.1) }
        ensures unchanged { IfErr result (λ e. e.0 ≡ self) }
        ensures used { count_by is_in_use self.pool ≡ block_count self.last }
    {
        self.facts();
        let alloc = self.allocator();
        let plan = match plan_at_once(rt, alloc, self.last(), &batch, workers) {
            Ok(plan) => plan,
            Err(error) => return Err((self, error)),
        };
        let Ok(batch) = Arc::new(alloc, batch) else {
            return Err((self, ApplyError::OutOfMemory));
        };
        make_ready(rt, gate, self, batch, plan)
    }
}

/// Grants blocks for a batch of which this is the plan, and has workers make the next version; or gives the desk back as it was.
fn make_ready<R: Threads + Sync, G: Gate + Sync>(
    rt: &R,
    gate: &G,
    desk: Desk,
    batch: Arc<Batch>,
    plan: Plan,
) -> Result<Ready, (Desk, ApplyError)>
    requires admitted { (workers : ℕ) × IsAdmitted desk.last workers (batch_value batch) plan }
    ensures begun { IfOk result (λ r. (r.old ≡ desk) × (r.ops ≡ batch_value batch)) }
    ensures accepts { IfOk result (λ r. Accepts desk (batch_value batch) r.new) }
    ensures within { OnOk result (IsWithin desk.last (count_by is_free desk.pool) (batch_value batch)) }
    ensures refused { IfErr result (λ e. Refuses desk.last (count_by is_free desk.pool) (batch_value batch) e.1) }
    ensures unchanged { IfErr result (λ e. e.0 ≡ desk) }
{
    let alloc = desk.allocator();
    let (granted, load) = desk.grant(batch, plan)?;
    let Load {
        plan,
        batch,
        blocks,
        table,
    } = load;
    let rewritten = apply_over(rt, alloc, gate, granted.last(), plan, batch, blocks, table);
    match granted.ready(rewritten) {
        Ok(ready) => Ok(ready),
        Err(desk) => Err((desk, ApplyError::OutOfMemory)),
    }
}

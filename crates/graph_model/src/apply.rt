//! A batch's application, one operation after another.

ghost use Rattle.std.specs.Prelude.{◌≡◌, IfOk, OnOk, OnErr, IfErr, All};
ghost use Rattle.graph_types.specs.Graph.{graph_in, graph_of, IsContentIn};
ghost use Rattle.graph_types.specs.Limits.{standard_limits};
ghost use Rattle.graph_types.specs.Step.{MeetsKindLimit};
ghost use Rattle.graph_types.specs.Step.{after_all, outcomes};
ghost use Rattle.graph_types.specs.Valid.{IsValid};
ghost use Rattle.graph_model.specs.Drafts.{shown_by};
ghost use Rattle.graph_types.specs.Refusals.{IsLimitRefusal};
ghost use Rattle.graph_model.specs.Refusals.{Exceeds};

use crate::drafts::Draft;
use crate::names::names_after_all;
use graph_types::{ApplyError, Batch, Content, Limits, NamedOp, Outcome};
use std::alloc::Global;

/// Applies a batch's operations one after another, in order, and answers their outcomes in that order. The limits are the
/// standard ones.
///
/// `NamesFull` where the batch would leave more than 65,536 vertices, else `KindsFull` where it would leave more
/// than 64 kinds, and `OutOfMemory` where a growth was refused; after any of these the content is as before.
/// It takes a pass over all edges for each operation.
pub fn plain_apply(
    alloc: Global,
    content: &mut Content,
    batch: &Batch,
) -> Result<Vec<Outcome>, ApplyError>
    requires { IsContentIn standard_limits content.old }
    ensures outcomes { IfOk result (λ list. list.items ≡ outcomes batch.now (graph_of content.old)) }
    ensures graph { OnOk result (graph_of content.new ≡ after_all batch.now (graph_of content.old)) }
    ensures content { IsContentIn standard_limits content.new }
    ensures refused { IfErr result (λ e. IsLimitRefusal e batch.now (graph_of content.old)) }
    ensures unchanged { OnErr result (content.new ≡ content.old) }
{
    plain_apply_in(alloc, Limits::standard(), content, batch)
}

/// As [`plain_apply`], under any limits: `NamesFull` where the batch would leave more vertices than these allow, and
/// `KindsFull` where it would leave more kinds.
///
/// ```
/// let limits = Limits::new(3, 2, 2)?;
/// let outcomes = plain_apply_in(alloc, limits, &mut content, &batch)?;
/// ```
pub fn plain_apply_in(
    alloc: Global,
    limits: Limits,
    content: &mut Content,
    batch: &Batch,
) -> Result<Vec<Outcome>, ApplyError>
    requires { IsContentIn limits content.old }
    ensures outcomes { IfOk result (λ list. list.items ≡ outcomes batch.now (graph_in limits content.old)) }
    ensures graph { OnOk result (graph_in limits content.new ≡ after_all batch.now (graph_in limits content.old)) }
    ensures content { IsContentIn limits content.new }
    ensures refused { IfErr result (λ e. IsLimitRefusal e batch.now (graph_in limits content.old)) }
    ensures unchanged { OnErr result (content.new ≡ content.old) }
{
    let mut draft = Draft::of(alloc, content)?;
    match apply_ops(alloc, limits, &mut draft, batch.ops()) {
        Ok(outcomes) => {
            *content = draft.into_content();
            Ok(outcomes)
        }
        Err(error) => Err(refusal(alloc, limits, content, batch.ops(), error)),
    }
}

/// Applies the operations in order, and stops at the first that meets a limit.
fn apply_ops(
    alloc: Global,
    limits: Limits,
    draft: &mut Draft,
    ops: &[NamedOp],
) -> Result<Vec<Outcome>, ApplyError>
    requires content { IsContentIn limits (shown_by draft.old) }
    requires valid { All IsValid ops.now }
    ensures outcomes { IfOk result (λ list. list.items ≡ outcomes ops.now (graph_in limits (shown_by draft.old))) }
    ensures graph { OnOk result (graph_in limits (shown_by draft.new) ≡ after_all ops.now (graph_in limits (shown_by draft.old))) }
    ensures content { OnOk result (IsContentIn limits (shown_by draft.new)) }
    ensures refused { IfErr result (λ e. Exceeds e (after_all ops.now (graph_in limits (shown_by draft.old)))) }
{
    let mut outcomes = Vec::new(alloc);
    for op in ops {
        outcomes.push(draft.apply(limits, op)?)?;
    }
    Ok(outcomes)
}

/// Why the operations are refused that stopped for this error: the limit on names goes before that on kinds.
#[tactic(auto, using(graph_types::proofs::LimitsKept::limits_after_all))]
fn refusal(
    alloc: Global,
    limits: Limits,
    content: &Content,
    ops: &[NamedOp],
    error: ApplyError,
) -> ApplyError
    requires content { IsContentIn limits content.now }
    requires stopped { Exceeds error (after_all ops.now (graph_in limits content.now)) }
    ensures { IsLimitRefusal result ops.now (graph_in limits content.now) }
{
    match error {
        ApplyError::KindsFull => kinds_refusal(alloc, limits, content, ops),
        _ => error,
    }
}

/// The refusal of operations that would leave too many kinds.
fn kinds_refusal(alloc: Global, limits: Limits, content: &Content, ops: &[NamedOp]) -> ApplyError
    requires content { IsContentIn limits content.now }
    requires kinds { MeetsKindLimit ops.now (graph_in limits content.now) }
    ensures { IsLimitRefusal result ops.now (graph_in limits content.now) }
{
    match names_after_all(alloc, limits.names(), content.names.as_slice(), ops) {
        Ok(_) => ApplyError::KindsFull,
        Err(error) => error,
    }
}

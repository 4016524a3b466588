//! The names of a batch, resolved.

ghost use Rattle.std.specs.Prelude.{◌≡◌, ◌≤◌, ℕ, List, map, IfOk, IfErr, OnOk, All};
ghost use Rattle.graph_types.specs.Valid.{IsValid};
ghost use Rattle.graph_types.specs.Limits.{weight_limit};
ghost use Rattle.graph_types.specs.Parts.{names_after_all, kinds_after_all};
ghost use Rattle.edge_block.specs.Batches.{resolved_by, IsPlaced};
ghost use Rattle.batch_apply.specs.Plan.{shown_op, with_names, Fits, IsInRange, IsUnplanned};
ghost use Rattle.batch_apply.specs.Listed.{IsKnown};

use crate::listed::{KnownEnds, found_by, no_notes, note_ends};
use crate::resolve::{ResolvedOp, resolve_op};
use graph_types::{ApplyError, NamedOp};
use std::alloc::Global;
use vertex_names::NameBook;

/// A batch's operations with the numbers of their names, each by the names at its place, where weights are of at most this size;
/// the books then have the names that the batch leaves, and are within their limits as they were before.
///
/// What is known of the ends of the first operations spares looking these up. `NamesFull` comes before `KindsFull`. After
/// an error the books have some of the batch's names.
#[tactic(auto, using(edge_block::proofs::ShardResults::placed_in))]
pub fn resolve_batch(
    alloc: Global,
    names: &mut NameBook,
    kinds: &mut NameBook,
    most: u64,
    ops: &[NamedOp],
    known: &KnownEnds<'_>,
) -> Result<Vec<ResolvedOp>, ApplyError>
    requires limit { kinds.old.limit ≤ 64 }
    requires within { Fits names.old × Fits kinds.old }
    requires most { most ≤ weight_limit }
    requires valid { All IsValid ops.now }
    requires known { IsKnown names.old.names ops.now known.now }
    ensures ops { IfOk result (λ v. map shown_op v.items ≡ resolved_by most ops.now names.old.names kinds.old.names) }
    ensures changes { IfOk result (λ v. All IsInRange v.items) }
    ensures placed { IfOk result (λ v. All IsPlaced (map shown_op v.items)) }
    ensures names { OnOk result (names.new ≡ with_names names.old (names_after_all ops.now names.old.names)) }
    ensures kinds { OnOk result (kinds.new ≡ with_names kinds.old (kinds_after_all ops.now kinds.old.names)) }
    ensures within { OnOk result (Fits names.new × Fits kinds.new) }
    ensures refused { IfErr result (λ error. IsUnplanned error ops.now names.old kinds.old) }
{
    let mut found = Vec::with_capacity(alloc, ops.len())?;
    let mut noted = no_notes(alloc, known, ops.len());
    let mut seen = None;
    for k in 0..ops.len() {
        let resolved = resolve_op(
            names,
            kinds,
            &ops[k],
            most,
            &ops[k + 1..],
            found_by(known, &noted, k),
            seen,
        )?;
        seen = resolved.kind;
        note_ends(&mut noted, known, k, &resolved.op);
        let Ok(()) = found.push(resolved.op) else {
            return Err(ApplyError::OutOfMemory);
        };
    }
    Ok(found)
}

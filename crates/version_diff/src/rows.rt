//! What became of the edges of one source.

ghost use Rattle.std.specs.Prelude.{◌≡◌, ◌++◌, IsTrue, OnOk};
ghost use Rattle.std.specs.Option.{option_map};
ghost use Rattle.edge_block.specs.Lending.{lent_edge};
ghost use Rattle.graph_version.specs.Sharing.{block_values};
ghost use Rattle.version_diff.specs.Differences.{seen_in_block, seen_in, edge_to, bears_same, borne_by, gone_edge, gone_among, not_same_among, difference_of, if_not_same, sees, AreApart};
ghost use Rattle.version_diff.specs.Pairs.{AreSameByNumber};

use crate::left::left_of;
use edge_block::{Block, EdgeRef};
use graph_types::{Filter, KindId};
use std::alloc::{AllocError, Global};
use std::sync::Arc;

/// The state of an edge that is gone.
pub const GONE: u8 = 0;
/// The state of an edge that is new.
pub const NEW: u8 = 1;
/// The state of an edge with another weight, first or recent time than before.
pub const CHANGED: u8 = 2;

/// What an edge bears: its weight, and the times of its first and its last touch.
#[derive(Clone, Copy, Debug, PartialEq, Eq)]
pub struct EdgeMarks {
    pub weight: i64,
    pub first: u64,
    pub recent: u64,
}

/// What stands in place of what an edge bears, where there is no edge.
const NO_MARKS: EdgeMarks = EdgeMarks {
    weight: 0,
    first: 0,
    recent: 0,
};

/// What became of an edge: its state, which is [`GONE`], [`NEW`] or [`CHANGED`], its kind and ends, and what it bore before and bears
/// after; where there is no edge before, or after, numbers that are 0.
#[derive(Clone, Copy, Debug, PartialEq, Eq)]
pub struct EdgeDifference {
    pub state: u8,
    pub kind: u32,
    pub source: u32,
    pub target: u32,
    pub before: EdgeMarks,
    pub after: EdgeMarks,
}

/// What an edge that is lent bears.
fn marks(edge: &EdgeRef<'_>) -> EdgeMarks
    ensures { result ≡ borne_by (lent_edge edge.now).stamp }
{
    EdgeMarks {
        weight: *edge.weight,
        first: *edge.first,
        recent: *edge.recent,
    }
}

/// An edge that is gone.
fn gone(source: u32, edge: &EdgeRef<'_>) -> EdgeDifference
    ensures { result ≡ gone_edge source (lent_edge edge.now) }
{
    EdgeDifference {
        state: GONE,
        kind: edge.kind.0 as u32,
        source,
        target: *edge.target,
        before: marks(edge),
        after: NO_MARKS,
    }
}

/// What became of a later edge: nothing, if the earlier one bears the same.
fn not_same(
    source: u32,
    edge: &EdgeRef<'_>,
    earlier: &Option<EdgeRef<'_>>,
) -> Option<EdgeDifference>
    ensures { result ≡ if_not_same source (lent_edge edge.now) (option_map lent_edge earlier.now) }
{
    let (state, before) = match earlier {
        None => (NEW, NO_MARKS),
        Some(earlier) => {
            if bears_same(earlier, edge) {
                return None;
            }
            (CHANGED, marks(earlier))
        }
    };
    Some(EdgeDifference {
        state,
        kind: edge.kind.0 as u32,
        source,
        target: *edge.target,
        before,
        after: marks(edge),
    })
}

/// Whether two edges bear the same weight and times.
fn bears_same(edge: &EdgeRef<'_>, other: &EdgeRef<'_>) -> bool
    ensures { result ≡ bears_same (lent_edge edge.now).stamp (lent_edge other.now).stamp }
{
    *edge.weight == *other.weight && *edge.first == *other.first && *edge.recent == *other.recent
}

/// Whether a filter lets an edge through.
fn sees(view: &Filter, edge: &EdgeRef<'_>) -> bool
    ensures { result ≡ sees view.now (lent_edge edge.now) }
{
    let of_kind = match view.kind {
        None => true,
        Some(kind) => kind == edge.kind,
    };
    of_kind && view.lo <= *edge.recent && *edge.recent <= view.hi
}

/// The edge of a kind to a target, of those of a block that a filter lets through.
#[tactic(auto, using(crate::proofs::Seen::other_kind, crate::proofs::Seen::absent))]
fn edge_of<'a>(block: &'a Block, view: &Filter, kind: KindId, target: u32) -> Option<EdgeRef<'a>>
    ensures { option_map lent_edge result ≡ edge_to (seen_in_block view.now block.now) kind.0 target }
{
    if block.kind() != kind {
        return None;
    }
    let edge = block.find(target)?;
    if sees(view, &edge) { Some(edge) } else { None }
}

/// The same of blocks.
fn edge_among<'a>(
    blocks: &'a [Arc<Block>],
    view: &Filter,
    kind: KindId,
    target: u32,
) -> Option<EdgeRef<'a>>
    ensures { option_map lent_edge result ≡ edge_to (seen_in view.now (block_values blocks.now)) kind.0 target }
{
    for block in blocks {
        if let Some(edge) = edge_of(block, view, kind, target) {
            return Some(edge);
        }
    }
    None
}

/// Adds those of a block's edges that are gone from the later blocks.
fn push_gone_of(
    differences: &mut Vec<EdgeDifference>,
    block: &Block,
    later: &[Arc<Block>],
    view: &Filter,
    source: u32,
) -> Result<(), AllocError>
    ensures { OnOk result (differences.new.items ≡ differences.old.items
        ++ gone_among source (seen_in view.now (block_values later.now)) (seen_in_block view.now block.now)) }
{
    for edge in block.select(view) {
        if edge_among(later, view, edge.kind, *edge.target).is_none() {
            differences.push(gone(source, &edge))?;
        }
    }
    Ok(())
}

/// Adds those of the earlier blocks' edges that are gone from the later ones.
fn push_gone(
    differences: &mut Vec<EdgeDifference>,
    earlier: &[Arc<Block>],
    later: &[Arc<Block>],
    view: &Filter,
    source: u32,
) -> Result<(), AllocError>
    ensures { OnOk result (differences.new.items ≡ differences.old.items
        ++ gone_among source (seen_in view.now (block_values later.now)) (seen_in view.now (block_values earlier.now))) }
{
    for block in earlier {
        push_gone_of(differences, block, later, view, source)?;
    }
    Ok(())
}

/// Adds those of a block's edges that are new since the earlier blocks, or changed.
fn push_not_same_of(
    differences: &mut Vec<EdgeDifference>,
    block: &Block,
    earlier: &[Arc<Block>],
    view: &Filter,
    source: u32,
) -> Result<(), AllocError>
    ensures { OnOk result (differences.new.items ≡ differences.old.items
        ++ not_same_among source (seen_in view.now (block_values earlier.now)) (seen_in_block view.now block.now)) }
{
    for edge in block.select(view) {
        let before = edge_among(earlier, view, edge.kind, *edge.target);
        if let Some(difference) = not_same(source, &edge, &before) {
            differences.push(difference)?;
        }
    }
    Ok(())
}

/// Adds those of the later blocks' edges that are new since the earlier ones, or changed.
fn push_not_same(
    differences: &mut Vec<EdgeDifference>,
    later: &[Arc<Block>],
    earlier: &[Arc<Block>],
    view: &Filter,
    source: u32,
) -> Result<(), AllocError>
    ensures { OnOk result (differences.new.items ≡ differences.old.items
        ++ not_same_among source (seen_in view.now (block_values earlier.now)) (seen_in view.now (block_values later.now))) }
{
    for block in later {
        push_not_same_of(differences, block, earlier, view, source)?;
    }
    Ok(())
}

/// Adds what became of a source's edges from its earlier blocks to its later ones.
pub(crate) fn push_difference(
    alloc: Global,
    differences: &mut Vec<EdgeDifference>,
    earlier: &[Arc<Block>],
    later: &[Arc<Block>],
    view: &Filter,
    source: u32,
) -> Result<(), AllocError>
    requires earlier { AreApart (seen_in view.now (block_values earlier.now)) }
    requires later { AreApart (seen_in view.now (block_values later.now)) }
    requires alike { AreSameByNumber (block_values earlier.now) (block_values later.now) }
    ensures { OnOk result (differences.new.items ≡ differences.old.items
        ++ difference_of source (seen_in view.now (block_values earlier.now)) (seen_in view.now (block_values later.now))) }
{
    let left = left_of(alloc, earlier, later, view)?;
    push_gone(differences, &left.earlier, &left.later, view, source)?;
    push_not_same(differences, &left.later, &left.earlier, view, source)
}

//! Work on the row of a source: it is opened, its operations are done, and it is closed.

ghost use Rattle.std.specs.Prelude.{◌≡◌, ◌+◌, ◌++◌, ◌<◌, ◌≤◌, ℕ, List, [], IfOk, OnOk, All};
ghost use Rattle.std.specs.Option.{option_to_list};
ghost use Rattle.std.specs.Prelude.{vec_len, vec_capacity, length, map, count_by, ◌%◌, ◌^◌};
ghost use Rattle.graph_types.specs.Changes.{IsChange};
ghost use Rattle.edge_block.specs.Rows as layout;
ghost use Rattle.edge_block.specs.Rows.{OpenBlock, has_none, shape_of};
ghost use Rattle.edge_block.specs.Batches.{key_step, key_outcome};
ghost use Rattle.graph_types.specs.Outcomes.{together};
ghost use Rattle.batch_shards.specs.RowBlocks.{block_of, shared_blocks, kept_of, opens, had_in, own_in, shared_numbers};
ghost use Rattle.batch_shards.specs.OpenRows.{IsRowOf, KeepsIn, LeavesEnough, AreStepsDone, KeepsOthers};
ghost use Rattle.batch_shards.specs.Closing.{after_here, written_here, dropped_here, unused_here, after_of, written_of};
ghost use Rattle.batch_shards.specs.Closing.{dropped_of, unused_of};
ghost use Rattle.batch_shards.specs.Groups.{is_on_row, key_placed, act_step, act_outcome, IsSourceRow};
ghost use Rattle.graph_types.specs.Outcomes.{told};
ghost use Rattle.batch_shards.specs.Spending.{spends, takes, act_time, latest, unspent, IsGrouped};
ghost use Rattle.batch_shards.specs.Shards.{IsActChange};
ghost use Rattle.batch_shards.specs.Notes.{IsNoted};

use crate::groups::{Groups, edge_behind, first_edge, later_expiry};
use crate::notes::Notes;
use crate::room::Room;
use crate::row_blocks::RowBlock;
use crate::rows::{Hints, apply_step, expire_blocks, least_time};
use crate::shard::{Act, Leavings, OpenRow, Place, Step};
use edge_block::Block;
use graph_types::{EdgeChange, KindId, Outcome, VertexId, put_together};
use graph_version::Row;
use std::alloc::{AllocError, Global};
use std::sync::Arc;

/// Does one operation on its row, and answers its outcome.
fn do_step(
    row: &mut OpenRow,
    fresh: &mut Vec<Arc<Block>>,
    place: Option<Place>,
    change: EdgeChange,
) -> Result<Outcome, AllocError>
    requires change { IsChange change }
    requires fresh { 0 < vec_len fresh.old }
    requires of_source { IsRowOf row.old.source row.old }
    ensures row { OnOk result (opens row.new.blocks.items
        ≡ key_step change (key_placed row.old.source.0 place) (opens row.old.blocks.items)) }
    ensures outcome { IfOk result (λ o. o
        ≡ key_outcome change (key_placed row.old.source.0 place) (λ _. opens row.old.blocks.items)) }
    ensures of_source { OnOk result (IsRowOf row.old.source row.new) }
    ensures keeps { OnOk result (KeepsIn 1 row.old.blocks.items fresh.old row.new.blocks.items fresh.new) }
{
    let Some(place) = place else {
        return Ok(Outcome::Absent);
    };
    let outcome = apply_step(
        &mut row.blocks,
        &mut row.hints,
        fresh,
        row.source,
        place.kind,
        place.target,
        change,
    )?;
    Ok(outcome)
}

/// Takes old edges out of a row, and answers how many they were, modulo 2^64.
fn expire_row(row: &mut OpenRow, fresh: &mut Vec<Arc<Block>>, time: u64) -> Result<u64, AllocError>
    requires fresh { unspent time (opens row.old.blocks.items) ≤ vec_len fresh.old }
    requires of_source { IsRowOf row.old.source row.old }
    ensures row { OnOk result (opens row.new.blocks.items ≡ layout.expire_row time (opens row.old.blocks.items)) }
    ensures count { IfOk result (λ n. n ≡ layout.old_in_row time (opens row.old.blocks.items) % 2 ^ 64) }
    ensures of_source { OnOk result (IsRowOf row.old.source row.new) }
    ensures keeps { OnOk result (KeepsIn (unspent time (opens row.old.blocks.items)) row.old.blocks.items fresh.old
        row.new.blocks.items fresh.new) }
    ensures enough { OnOk result (LeavesEnough time 0 row.old.blocks.items fresh.old row.new.blocks.items fresh.new) }
{
    if time <= row.hints.since {
        return Ok(0);
    }
    let count = expire_blocks(&mut row.blocks, fresh, time)?;
    // A block before the place may have room now.
    row.hints.room.place = 0;
    row.hints.since = least_time(row.blocks.as_slice());
    Ok(count)
}

/// Does one operation on a row, and answers its outcome in this row and those before.
fn do_act(
    row: &mut OpenRow,
    fresh: &mut Vec<Arc<Block>>,
    act: Act,
    before: Outcome,
) -> Result<Outcome, AllocError>
    requires act { IsActChange act }
    requires fresh { spends act (opens row.old.blocks.items) ≤ vec_len fresh.old }
    requires of_source { IsRowOf row.old.source row.old }
    ensures row { OnOk result (opens row.new.blocks.items ≡ act_step row.old.source.0 act (opens row.old.blocks.items)) }
    ensures outcome { IfOk result (λ o. o ≡ told (together before
        (act_outcome row.old.source.0 act (opens row.old.blocks.items)))) }
    ensures of_source { OnOk result (IsRowOf row.old.source row.new) }
    ensures keeps { OnOk result (KeepsIn (spends act (opens row.old.blocks.items)) row.old.blocks.items fresh.old
        row.new.blocks.items fresh.new) }
    ensures enough { OnOk result (LeavesEnough (act_time act) (takes act) row.old.blocks.items fresh.old row.new.blocks.items fresh.new) }
{
    match act {
        Act::Edge(place, change) => {
            let outcome = do_step(row, fresh, place, change)?;
            Ok(outcome)
        }
        Act::Expire(time) => {
            let count = expire_row(row, fresh, time)?;
            Ok(put_together(before, Outcome::Expired(count)))
        }
    }
}

/// Does the operations on one row in order, and writes their outcomes.
///
/// Expiries that find no edge of the row are passed over, and what was told of them stands.
pub fn do_steps(
    opened: &mut OpenRow,
    fresh: &mut Vec<Arc<Block>>,
    outcomes: &mut Vec<(u32, Outcome)>,
    steps: &[Step],
    groups: &Option<Groups>,
    row: usize,
) -> Result<(), AllocError>
    requires groups { (rows : ℕ) × (row < rows) × IsGrouped rows steps.now groups.now }
    requires changes { All (λ s. IsActChange s.act) steps.now }
    requires outcomes { length outcomes.old.items ≡ length steps.now }
    requires fresh { count_by (λ s. is_on_row row s.act) steps.now + unspent (latest steps.now) (opens opened.old.blocks.items)
        ≤ vec_len fresh.old }
    requires of_source { IsRowOf opened.old.source opened.old }
    ensures done { OnOk result ((sources : List ℕ) (rows : ℕ → List OpenBlock)
        → IsSourceRow sources steps.now row opened.old.source.0 → opens opened.old.blocks.items ≡ rows opened.old.source.0
        → AreStepsDone sources steps.now rows row opened.old.source.0 opened.new.blocks.items outcomes.old.items
        outcomes.new.items) }
    ensures others { OnOk result (KeepsOthers steps.now row outcomes.old.items outcomes.new.items) }
    ensures of_source { OnOk result (IsRowOf opened.old.source opened.new) }
    ensures keeps { OnOk result (KeepsIn (count_by (λ s. is_on_row row s.act) steps.now
        + unspent (latest steps.now) (opens opened.old.blocks.items)) opened.old.blocks.items fresh.old
        opened.new.blocks.items fresh.new) }
{
    let mut edge = first_edge(groups, steps, row);
    let mut index = edge.min(later_expiry(groups, steps, 0, opened.hints.since));
    while index < steps.len() {
        let outcome = do_act(opened, fresh, steps[index].act, outcomes[index].1)?;
        outcomes[index].1 = outcome;
        edge = edge_behind(groups, steps, row, index, edge);
        index = edge.min(later_expiry(groups, steps, index + 1, opened.hints.since));
    }
    Ok(())
}

/// A row of as many blocks is read once beforehand, where many operations touch it.
pub const LONG_ROW: usize = 4;

/// As many operations are many for a row.
const MANY_STEPS: usize = 32;

/// The row of a source as the version has it, before the batch's first operation.
///
/// The targets are those that the batch's operations ask for, where it has many for this row. The row's blocks come into the
/// list, so that rows which are opened one after another take its room in turn.
pub fn open_row(
    alloc: Global,
    source: VertexId,
    row: &[Arc<Block>],
    targets: &[u32],
    list: Vec<RowBlock>,
) -> Result<OpenRow, AllocError>
    requires own { All (λ b. (block_of b).source ≡ source.0) row.now }
    requires empty { list.items ≡ [] }
    ensures blocks { IfOk result (λ r. opens r.blocks.items ≡ map kept_of row.now) }
    ensures had { IfOk result (λ r. had_in r.blocks.items ≡ shared_blocks row.now) }
    ensures none_own { IfOk result (λ r. own_in r.blocks.items ≡ []) }
    ensures of_source { IfOk result (IsRowOf source) }
{
    let mut blocks = list;
    blocks.reserve(row.len() + 1)?;
    for block in row {
        let block = Arc::try_clone(block)?;
        blocks.push_reserved(RowBlock {
            block,
            touched: false,
            before: None,
        });
    }
    let notes = notes_for(alloc, blocks.as_slice(), targets)?;
    Ok(OpenRow {
        source,
        blocks,
        hints: Hints {
            notes,
            room: Room {
                kind: KindId(0),
                place: 0,
            },
            since: 0,
        },
    })
}

/// Notes of a row for the targets that the batch asks for, where the row is long and they are many.
fn notes_for(alloc: Global, row: &[RowBlock], targets: &[u32]) -> Result<Option<Notes>, AllocError>
    ensures { IfOk result (λ notes. IsNoted notes row.now) }
{
    if row.len() < LONG_ROW || targets.len() < MANY_STEPS {
        return Ok(None);
    }
    let notes = Notes::of_row(alloc, row, targets)?;
    Ok(Some(notes))
}

/// Whether the block has no edge.
fn is_bare(block: &Block) -> bool
    ensures { result ≡ has_none (shape_of block.now) }
{
    block.is_empty()
}

/// The row's block of the next version, unless the batch has emptied it.
fn close_one(blocks: RowBlock, left: &mut Leavings) -> Result<Option<Arc<Block>>, AllocError>
    ensures kept { IfOk result (λ b. shared_blocks (option_to_list b) ≡ after_here blocks) }
    ensures taken { OnOk result (left.new.taken.items ≡ left.old.taken.items ++ map (λ b. b.number) (written_here blocks)) }
    ensures dropped { OnOk result (shared_blocks left.new.dropped.items ≡ shared_blocks left.old.dropped.items ++ dropped_here blocks) }
    ensures unused { OnOk result (shared_numbers left.new.unused.items ≡ shared_numbers left.old.unused.items ++ unused_here blocks) }
{
    let RowBlock {
        block,
        touched,
        before,
    } = blocks;
    if !touched {
        return Ok(Some(block));
    }
    if let Some(old) = before {
        left.dropped.push(old)?;
    }
    if is_bare(&block) {
        left.unused.push(block)?;
        return Ok(None);
    }
    left.taken.push(block.number())?;
    Ok(Some(block))
}

/// Adds a block to its row's blocks of the next version, unless the batch has emptied it.
fn close_block(
    blocks: RowBlock,
    row: &mut Vec<Arc<Block>>,
    left: &mut Leavings,
) -> Result<(), AllocError>
    requires room { vec_len row.old < vec_capacity row.old }
    ensures row { OnOk result (shared_blocks row.new.items ≡ shared_blocks row.old.items ++ after_here blocks) }
    ensures grows { OnOk result (vec_len row.new ≤ vec_len row.old + 1) }
    ensures capacity { vec_capacity row.new ≡ vec_capacity row.old }
    ensures taken { OnOk result (left.new.taken.items ≡ left.old.taken.items ++ map (λ b. b.number) (written_here blocks)) }
    ensures dropped { OnOk result (shared_blocks left.new.dropped.items ≡ shared_blocks left.old.dropped.items ++ dropped_here blocks) }
    ensures unused { OnOk result (shared_numbers left.new.unused.items ≡ shared_numbers left.old.unused.items ++ unused_here blocks) }
{
    // Most blocks of a long row are untouched.
    if !blocks.touched {
        row.push_reserved(blocks.block);
        return Ok(());
    }
    if let Some(block) = close_one(blocks, left)? {
        row.push_reserved(block);
    }
    Ok(())
}

/// The row of these blocks in the next version.
fn close_blocks(
    alloc: Global,
    blocks: Vec<RowBlock>,
    left: &mut Leavings,
) -> Result<Row, AllocError>
    ensures row { IfOk result (λ r. r ≡ after_of blocks.items) }
    ensures taken { OnOk result (left.new.taken.items ≡ left.old.taken.items ++ map (λ b. b.number) (written_of blocks.items)) }
    ensures dropped { OnOk result (shared_blocks left.new.dropped.items ≡ shared_blocks left.old.dropped.items
        ++ dropped_of blocks.items) }
    ensures unused { OnOk result (shared_numbers left.new.unused.items ≡ shared_numbers left.old.unused.items ++ unused_of blocks.items) }
{
    let mut row = Vec::with_capacity(alloc, blocks.len())?;
    for block in blocks {
        close_block(block, &mut row, left)?;
    }
    Row::of(alloc, row)
}

/// The source's row of the next version, whose blocks are taken out of the list. A row of one block, as most are, needs no list
/// of its own, and leaves this one's room to the next row.
pub fn close_row(
    alloc: Global,
    blocks: &mut Vec<RowBlock>,
    left: &mut Leavings,
) -> Result<Row, AllocError>
    ensures row { IfOk result (λ r. r ≡ after_of blocks.old.items) }
    ensures emptied { OnOk result (blocks.new.items ≡ []) }
    ensures taken { OnOk result (left.new.taken.items ≡ left.old.taken.items
        ++ map (λ b. b.number) (written_of blocks.old.items)) }
    ensures dropped { OnOk result (shared_blocks left.new.dropped.items ≡ shared_blocks left.old.dropped.items
        ++ dropped_of blocks.old.items) }
    ensures unused { OnOk result (shared_numbers left.new.unused.items ≡ shared_numbers left.old.unused.items
        ++ unused_of blocks.old.items) }
{
    if blocks.len() == 1 {
        let Some(only) = blocks.pop() else {
            unreachable!()
        };
        let kept = close_one(only, left)?;
        return Ok(Row::of_option(kept));
    }
    let opened = std::mem::replace(blocks, Vec::new(alloc));
    close_blocks(alloc, opened, left)
}

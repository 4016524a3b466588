//! What blocks are: taken, filled, recycled, and used or retired by a new version.

ghost use Rattle.std.specs.Prelude.{◌≡◌, ◌+◌, IfOk, OnErr, map, length, slice_get};
ghost use Rattle.std.specs.List.{enumerate_from};
ghost use Rattle.block_reclamation.specs.Status as statuses;
ghost use Rattle.epoch_core.specs.Blocks as specs;
ghost use Rattle.epoch_core.specs.Blocks.{Stepped};
ghost use Rattle.epoch_core.specs.Posting as posting;

use crate::step::Step;
use block_reclamation::{BlockStatus, PinCopy};
use graph_types::{Edge, List};
use std::alloc::{AllocError, Global};

/// Makes a free block granted. `Skipped`, with nothing changed, where there is no block of this number or it isn't free.
/// It takes no memory.
pub fn take_block(status: &mut Vec<BlockStatus>, block: usize) -> Step
    ensures { Stepped (specs.changed_at specs.status_taken status.old.items block) result status.old.items status.new.items }
{
    let before = status.get(block).copied();
    match before {
        Some(BlockStatus::Free) => {
            status[block] = BlockStatus::Granted;
            Step::Done
        }
        _ => Step::Skipped,
    }
}

/// What a retired block that the copy of the pins doesn't need becomes, and none for any other.
fn after_recycle(copy: &PinCopy, status: BlockStatus) -> Option<BlockStatus>
    ensures { result ≡ specs.reclaimed copy.now status }
{
    match status {
        BlockStatus::Retired { birth, retirement } => {
            if copy.needs(birth, retirement) {
                None
            } else {
                Some(BlockStatus::Free)
            }
        }
        _ => None,
    }
}

/// Frees a retired block that the copy of the pins doesn't need. `Skipped`, with nothing changed, where there is no
/// such block. It takes no memory.
pub fn recycle_block(status: &mut Vec<BlockStatus>, copy: &PinCopy, block: usize) -> Step
    ensures { Stepped (specs.changed_at (specs.reclaimed copy.now) status.old.items block) result status.old.items
        status.new.items }
{
    let Some(before) = status.get(block).copied() else {
        return Step::Skipped;
    };
    match after_recycle(copy, before) {
        Some(after) => {
            status[block] = after;
            Step::Done
        }
        None => Step::Skipped,
    }
}

/// Puts edges into a granted block in place of those that it has; the heap has a list of edges for each block that has a
/// status. `Skipped`, with nothing changed, where there is no block of this number or it isn't granted. Out of memory is the only
/// error, and leaves the heap as it was.
pub fn fill_block(
    alloc: Global,
    status: &[BlockStatus],
    heap: &mut Vec<List<Edge>>,
    block: usize,
    edges: &[Edge],
) -> Result<Step, AllocError>
    requires { length heap.old.items ≡ length status.now }
    ensures filled { IfOk result
        (λ step. Stepped (specs.filled_heap status.now heap.old.items block edges.now) step heap.old.items heap.new.items) }
    ensures unchanged { OnErr result (heap.new.items ≡ heap.old.items) }
{
    let before = status.get(block).copied();
    match before {
        Some(BlockStatus::Granted) => {
            let copy = Vec::from_slice(alloc, edges)?;
            heap[block] = List::of(copy);
            Ok(Step::Done)
        }
        _ => Ok(Step::Skipped),
    }
}

/// What a block is once version `number` is posted, which lists it or not.
fn after_post(number: u64, is_in: bool, status: BlockStatus) -> BlockStatus
    ensures { result ≡ specs.after_post number is_in status }
{
    match status {
        BlockStatus::Granted if is_in => BlockStatus::Used { birth: number },
        BlockStatus::Used { birth } if !is_in => BlockStatus::Retired {
            birth,
            retirement: number,
        },
        _ => status,
    }
}

/// What each block is once version `number` is posted on these blocks.
pub(crate) fn status_after(
    alloc: Global,
    number: u64,
    blocks: &[usize],
    status: &[BlockStatus],
) -> Result<Vec<BlockStatus>, AllocError>
    ensures { IfOk result (λ v. v.items ≡ specs.status_after number blocks.now status.now) }
{
    status
        .iter()
        .enumerate()
        .map(|(block, status)| after_post(number, blocks.contains(&block), *status))
        .collect(alloc)
}

/// Whether the block is granted.
fn is_granted(status: &[BlockStatus], block: usize) -> bool
    ensures { result ≡ statuses.is_at statuses.is_granted (slice_get status.now block) }
{
    let status = status.get(block).copied();
    matches!(status, Some(BlockStatus::Granted))
}

/// Whether a new version may list the block: it is granted, or one of the last version's blocks.
fn is_listable(status: &[BlockStatus], last: &[usize], block: usize) -> bool
    ensures { result ≡ posting.is_listable status.now last.now block }
{
    is_granted(status, block) || last.contains(&block)
}

/// Whether a new version may list all these blocks. It takes no memory.
pub(crate) fn all_listable(status: &[BlockStatus], last: &[usize], blocks: &[usize]) -> bool
    ensures { result ≡ posting.all_listable status.now last.now blocks.now }
{
    blocks.iter().all(|block| is_listable(status, last, *block))
}

/// Whether no block is listed twice. It takes no memory.
pub(crate) fn all_differ(blocks: &[usize]) -> bool
    ensures { result ≡ specs.all_differ blocks.now }
{
    let mut rest = blocks;
    while let [block, others @ ..] = rest {
        if others.contains(block) {
            return false;
        }
        rest = others;
    }
    true
}

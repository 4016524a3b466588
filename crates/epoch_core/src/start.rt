//! The machine at its start.

ghost use Rattle.std.specs.Prelude.{◌≡◌, ◌<◌, [], All, IfOk, OnOk, length, map, replicate};
ghost use Rattle.epoch_core.specs.Worlds as worlds;
ghost use Rattle.epoch_core.specs.Cores.{state_of};
ghost use Rattle.epoch_core.specs.Opened.{opened_over, opened_state_in, numbers_in, heap_with, status_with};
ghost use Rattle.block_reclamation.specs.declared.status.BlockStatus.TheVariants.{Free};
ghost use Rattle.epoch_core.specs.declared.session_states.SessionState.TheVariants.{Idle};

use crate::session_states::{Parts, SessionState, no_items};
use crate::states::Opening;
use block_reclamation::{BlockStatus, PinCopy};
use graph_types::{Content, Edge, Limits, List};
use std::alloc::{AllocError, Global};

/// The fields of the machine at its start.
pub(crate) fn parts_at_start(
    alloc: Global,
    limits: Limits,
    sessions: usize,
    blocks: usize,
) -> Result<Parts, AllocError>
    ensures { IfOk result (λ parts. state_of parts ≡ worlds.start_in limits sessions blocks) }
{
    let heap = empty_lists(alloc, blocks)?;
    let status = free_blocks(alloc, blocks)?;
    let replies = empty_lists(alloc, sessions)?;
    let sessions = idle_sessions(alloc, sessions)?;
    // What takes no memory comes last: then there is less to free if memory runs out.
    Ok(Parts {
        alloc,
        opening: empty_opening(alloc, limits),
        heap,
        status,
        versions: Vec::new(alloc),
        floor: 0,
        copy: PinCopy::none(),
        sessions,
        replies,
    })
}

/// The fields of the machine at its start over a content.
pub(crate) fn opened_parts(
    alloc: Global,
    limits: Limits,
    sessions: usize,
    blocks: usize,
    content: &Content,
    lists: &[(u32, List<Edge>)],
) -> Result<Parts, AllocError>
    requires { All (λ l. l.0 < blocks) lists.now }
    ensures { IfOk result (λ parts. state_of parts ≡ opened_state_in limits sessions blocks content.now lists.now) }
{
    let mut parts = parts_at_start(alloc, limits, sessions, blocks)?;
    open_over(&mut parts, content, lists)?;
    Ok(parts)
}

/// Makes the machine at its start one over a content.
fn open_over(
    parts: &mut Parts,
    content: &Content,
    lists: &[(u32, List<Edge>)],
) -> Result<(), AllocError>
    requires heap { All (λ l. l.0 < length parts.old.heap.items) lists.now }
    requires status { All (λ l. l.0 < length parts.old.status.items) lists.now }
    ensures { OnOk result (state_of parts.new ≡ opened_over (state_of parts.old) content.now lists.now) }
{
    fill_lists(parts.alloc, &mut parts.heap, lists)?;
    mark_lists(&mut parts.status, lists);
    parts.opening = opening_of(parts.alloc, parts.opening.limits, content, lists)?;
    Ok(())
}

/// A content, and the numbers of the blocks that have its edges.
fn opening_of(
    alloc: Global,
    limits: Limits,
    content: &Content,
    lists: &[(u32, List<Edge>)],
) -> Result<Opening, AllocError>
    ensures { IfOk result (λ opening. opening ≡ record { content = content.now; blocks = numbers_in lists.now; limits = limits }) }
{
    let numbers = listed_numbers(alloc, lists)?;
    Ok(Opening {
        content: content.clone()?,
        blocks: List::of(numbers),
        limits,
    })
}

/// The number of each listed block.
fn listed_numbers(alloc: Global, lists: &[(u32, List<Edge>)]) -> Result<Vec<usize>, AllocError>
    ensures { IfOk result (λ v. v.items ≡ map (λ l. l.0) lists.now) }
{
    let mut numbers = Vec::with_capacity(alloc, lists.len())?;
    for list in lists {
        numbers.push(list.0 as usize)?;
    }
    Ok(numbers)
}

/// The edges of a list, copied.
fn copy_of(alloc: Global, edges: &List<Edge>) -> Result<List<Edge>, AllocError>
    ensures { IfOk result (λ copy. copy ≡ edges.now) }
{
    let items = Vec::from_slice(alloc, edges.as_slice())?;
    Ok(List::of(items))
}

/// Puts each list of edges at its block's number.
fn fill_lists(
    alloc: Global,
    heap: &mut Vec<List<Edge>>,
    lists: &[(u32, List<Edge>)],
) -> Result<(), AllocError>
    requires { All (λ l. l.0 < length heap.old.items) lists.now }
    ensures { OnOk result (heap.new.items ≡ heap_with lists.now heap.old.items) }
{
    for list in lists {
        let edges = copy_of(alloc, &list.1)?;
        heap[list.0 as usize] = edges;
    }
    Ok(())
}

/// Marks each listed block as used from version 0 on.
fn mark_lists(status: &mut Vec<BlockStatus>, lists: &[(u32, List<Edge>)])
    requires { All (λ l. l.0 < length status.old.items) lists.now }
    ensures { status.new.items ≡ status_with lists.now status.old.items }
{
    for list in lists {
        status[list.0 as usize] = BlockStatus::Used { birth: 0 };
    }
}

/// The opening without names, kinds, edges and blocks. It takes no memory.
fn empty_opening(alloc: Global, limits: Limits) -> Opening
    ensures { result ≡ worlds.empty_opening_in limits }
{
    let content = Content {
        names: no_items(alloc),
        kinds: no_items(alloc),
        edges: no_items(alloc),
    };
    Opening {
        content,
        blocks: no_items(alloc),
        limits,
    }
}

fn empty_lists<T: Drop>(alloc: Global, count: usize) -> Result<Vec<List<T>>, AllocError>
    ensures { IfOk result (λ v. v.items ≡ replicate count []) }
{
    let mut lists = Vec::new(alloc);
    while lists.len() < count {
        lists.push(no_items(alloc))?;
    }
    Ok(lists)
}

fn free_blocks(alloc: Global, count: usize) -> Result<Vec<BlockStatus>, AllocError>
    ensures { IfOk result (λ v. v.items ≡ replicate count Free) }
{
    vec![in alloc; BlockStatus::Free; count]
}

fn idle_sessions(alloc: Global, count: usize) -> Result<Vec<SessionState>, AllocError>
    ensures { IfOk result (λ v. v.items ≡ replicate count Idle) }
{
    let mut sessions = Vec::new(alloc);
    while sessions.len() < count {
        sessions.push(SessionState::Idle)?;
    }
    Ok(sessions)
}

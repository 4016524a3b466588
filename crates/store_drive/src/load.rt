//! The load: the batches that are fed, and the requests that each version is asked, as `specs/Load.antt` has them.

ghost use Rattle.std.specs.Prelude.{◌≡◌, ◌<◌, ◌≤◌, ◌++◌, ◌∷◌, [], codes, decimal, length, IfOk, OnOk};
ghost use Rattle.store_drive.specs.Load as load;

use graph_types::{Batch, Name, NamedFilter, NamedOp, Request};
use std::alloc::{AllocError, Global};

/// How many batches there are; the first has the number 1.
pub(crate) const BATCHES: u32 = 64;

/// How many operations each has.
const OPERATIONS: u32 = 8;

/// How many vertices, and how many kinds, the load has.
const VERTICES: u32 = 24;

const KINDS: u32 = 3;

/// A letter and a number.
fn numbered_name(alloc: Global, letter: &str, number: u32) -> Result<Name, AllocError>
    ensures { IfOk result (λ name. name ≡ letter.now ++ decimal number) }
{
    Ok(Name::of(format!(in alloc; "{letter}{number}")?))
}

fn vertex(alloc: Global, number: u32) -> Result<Name, AllocError>
    ensures { IfOk result (λ name. name ≡ load.vertex_name number) }
{
    numbered_name(alloc, "v", number)
}

fn kind(alloc: Global, number: u32) -> Result<Name, AllocError>
    ensures { IfOk result (λ name. name ≡ load.kind_name number) }
{
    numbered_name(alloc, "k", number)
}

/// The operation at a place of a batch: most insert an edge, some add to a weight, and the last one removes an edge.
fn operation(alloc: Global, batch: u32, place: u32) -> Result<NamedOp, AllocError>
    requires batch { batch ≤ 64 }
    requires place { place < 8 }
    ensures { IfOk result (λ op. op ≡ load.load_operation batch place) }
{
    let kind = kind(alloc, place % KINDS)?;
    let source = vertex(alloc, (3 * batch + place) % VERTICES)?;
    let target = vertex(alloc, (5 * batch + 2 * place) % VERTICES)?;
    let weight = i64::from(1 + (batch + place) % 5);
    let time = u64::from(batch);
    if place == 3 || place == 6 {
        return Ok(NamedOp::Incr {
            kind,
            source,
            target,
            amount: weight,
            time,
        });
    }
    if place == 7 {
        return Ok(NamedOp::Remove {
            kind,
            source,
            target,
        });
    }
    Ok(NamedOp::Insert {
        kind,
        source,
        target,
        weight,
        time,
    })
}

/// Appends an operation. Those of the load are valid, and far fewer than a batch may have: only a growth can be refused.
fn push(batch: &mut Batch, op: NamedOp) -> Result<(), AllocError>
    ensures { OnOk result (batch.new ≡ batch.old ++ op ∷ []) }
{
    match batch.push(op) {
        Ok(()) => Ok(()),
        Err(_) => Err(AllocError),
    }
}

/// The batch of this number.
#[tactic(auto, using(graph_types::proofs::Joined::places_more))]
pub(crate) fn batch_of(alloc: Global, number: u32) -> Result<Batch, AllocError>
    requires { number ≤ 64 }
    ensures { IfOk result (λ batch. batch ≡ load.batch_at number) }
{
    let mut batch = Batch::new(alloc);
    for place in 0..OPERATIONS {
        push(&mut batch, operation(alloc, number, place)?)?;
    }
    Ok(batch)
}

/// The edges of any kind with a recent time in a window.
fn any(lo: u64, hi: u64) -> NamedFilter
    ensures { result ≡ load.named_filter None lo hi }
{
    NamedFilter { kind: None, lo, hi }
}

/// The levels from one vertex, the labels, and the core numbers of one kind.
fn walks(alloc: Global) -> Result<Vec<Request>, AllocError>
    ensures { IfOk result (λ list. list.items ≡ load.walks) }
{
    let mut list = Vec::new(alloc);
    list.push(Request::Levels {
        source: vertex(alloc, 3)?,
        filter: any(0, 64),
    })?;
    list.push(Request::Labels { filter: any(0, 64) })?;
    list.push(Request::Cores {
        filter: NamedFilter {
            kind: Some(kind(alloc, 0)?),
            lo: 0,
            hi: 32,
        },
    })?;
    Ok(list)
}

/// What each version is asked: five requests.
pub(crate) fn requests(alloc: Global) -> Result<Vec<Request>, AllocError>
    ensures { IfOk result (λ list. list.items ≡ load.requests) }
{
    let mut list = walks(alloc)?;
    list.push(Request::Degrees {
        filter: any(16, 48),
    })?;
    list.push(Request::OneEdge {
        kind: kind(alloc, 1)?,
        source: vertex(alloc, 4)?,
        target: vertex(alloc, 7)?,
    })?;
    Ok(list)
}

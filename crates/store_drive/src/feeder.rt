//! The feeder: it applies the batches of the load one after another, and collects after every eighth.

ghost use Rattle.std.specs.Prelude.{◌≡◌, ◌≤◌, length, IfOk};
ghost use Rattle.std.specs.Coded.{codes};
ghost use Rattle.graph_types.specs.Coded.{graph_code};
ghost use Rattle.stream_store.specs.Stores.{IsReceiptOf};
ghost use Rattle.store_drive.specs.Load.{AreAnswered, IsBatchAnswered};
ghost use Rattle.store_drive.specs.Load as load;

use crate::load::{BATCHES, batch_of};
use crate::pace::Pace;
use crate::reports::DriveWord;
use batch_apply::PassAll;
use graph_types::{List, Outcome};
use std::alloc::Global;
use std::marker::PhantomData;
use std::sync::Wait;
use std::thread::Threads;
use stream_store::{Naming, Receipt, Store};

/// After how many batches the feeder collects.
const COLLECTED_AFTER: u32 = 8;

/// What a batch was answered with, but for the version, which would keep its blocks from later batches.
#[derive(Drop)]
pub(crate) struct Answered {
    pub(crate) number: u64,
    pub(crate) outcomes: List<Outcome>,
}

/// The receipt of a batch, and how many blocks were freed behind it. Its type keeps that it is of the store's opening.
#[derive(Drop)]
pub(crate) struct Fed<J: Naming> {
    pub(crate) receipt: Receipt,
    pub(crate) recycled: u32,
    of: PhantomData<J>,
    ghost book_is: { receipt.told.book ≡ J.book },
    ghost opening_is: { receipt.told.version.opening ≡ J.opening } by { Prim.hlevel (codes, graph_code) },
    ghost number_is: { receipt.number ≡ length receipt.told.version.batches },
}

/// What the whole load came to: what all batches but the last were answered with, the last one's receipt, and how many blocks all
/// collections freed.
#[derive(Drop)]
pub(crate) struct FedLoad<J: Naming> {
    pub(crate) earlier: Vec<Answered>,
    pub(crate) last: Fed<J>,
    pub(crate) recycled: u32,
}

/// Applies all batches once the readers have begun, and has them wait no longer when it ends; or the word of the first batch that
/// was refused.
pub(crate) fn feed<J: Naming, R: Threads + Wait + Sync>(
    rt: &R,
    alloc: Global,
    store: &Store<J>,
    pace: &Pace,
    readers: usize,
) -> Result<FedLoad<J>, DriveWord>
    ensures count { IfOk result (λ feed. length feed.earlier.items ≡ 63) }
    ensures earlier { IfOk result (λ feed. AreAnswered feed.earlier.items) }
    ensures last { IfOk result (λ feed. let r = feed.last.receipt in IsReceiptOf (load.batch_at 64) r.number r.outcomes r.told) }
{
    pace.await_begun(rt, readers);
    let fed = feed_all(rt, alloc, store, pace);
    pace.end_feed(rt);
    fed
}

fn feed_all<J: Naming, R: Threads + Wait + Sync>(
    rt: &R,
    alloc: Global,
    store: &Store<J>,
    pace: &Pace,
) -> Result<FedLoad<J>, DriveWord>
    ensures count { IfOk result (λ feed. length feed.earlier.items ≡ 63) }
    ensures earlier { IfOk result (λ feed. AreAnswered feed.earlier.items) }
    ensures last { IfOk result (λ feed. let r = feed.last.receipt in IsReceiptOf (load.batch_at 64) r.number r.outcomes r.told) }
{
    let mut earlier = Vec::new(alloc);
    let mut recycled: u32 = 0;
    for number in 1..BATCHES {
        let fed = feed_one(rt, alloc, store, pace, number)?;
        recycled = recycled.saturating_add(fed.recycled);
        earlier.push(kept_of(fed))?;
    }
    let last = feed_one(rt, alloc, store, pace, BATCHES)?;
    Ok(FedLoad {
        earlier,
        recycled: recycled.saturating_add(last.recycled),
        last,
    })
}

/// What is kept of a batch that others follow.
fn kept_of<J: Naming>(fed: Fed<J>) -> Answered
    ensures number { result.number ≡ fed.receipt.number }
    ensures outcomes { result.outcomes ≡ fed.receipt.outcomes }
{
    let Fed { receipt, .. } = fed;
    let Receipt {
        number,
        outcomes,
        ..
    } = receipt;
    Answered { number, outcomes }
}

/// Applies the batch of this number once the readers are near, and collects where it is an eighth one.
fn feed_one<J: Naming, R: Threads + Wait + Sync>(
    rt: &R,
    alloc: Global,
    store: &Store<J>,
    pace: &Pace,
    number: u32,
) -> Result<Fed<J>, DriveWord>
    requires { number ≤ 64 }
    ensures { IfOk result (λ fed. let r = fed.receipt in IsReceiptOf (load.batch_at number) r.number r.outcomes r.told) }
{
    let batch = batch_of(alloc, number)?;
    pace.await_rounds(rt, number);
    let receipt = store.apply(rt, &PassAll, batch)?;
    pace.note_posted(rt, number);
    Ok(Fed {
        receipt,
        recycled: collect_behind(rt, store, number),
        of: PhantomData,
    })
}

/// Collects behind every eighth batch, and tells how many blocks that freed.
fn collect_behind<J: Naming, R: Wait>(rt: &R, store: &Store<J>, number: u32) -> u32 {
    if number % COLLECTED_AFTER == 0 {
        store.collect(rt).recycled
    } else {
        0
    }
}

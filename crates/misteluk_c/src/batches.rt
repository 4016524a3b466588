//! Batches.

ghost use Rattle.std.specs.Prelude.{◌≡◌, [], Some, None, IsSome, length, OnOk, OnErr};
ghost use Rattle.graph_types.specs.declared.batches.NamedOp.TheVariants.{Insert, Incr, Remove, Expire};
ghost use Rattle.misteluk_c.specs.Held.{batch_in, Asks, IsAlone, MakesHeld, TellsPush};
ghost use Rattle.misteluk_c.specs.Records.{TellsRecords};

use crate::codes::{BAD_LENGTH, HELD_ALREADY, MEMORY, NO_HANDLE, OK, push_code};
use batch_columns::{push_add, push_expire, push_insert, push_remove};
use batch_records::records_of;
use graph_types::{Batch, OPERATION_LIMIT};
use std::alloc::{AllocError, Global};
use store_handles::{Handle, Held};

/// Makes an empty batch.
#[unsafe(no_mangle)]
pub extern "C" fn misteluk_batch_new(alloc: Global, out: &mut Handle) -> u32
    ensures { MakesHeld out.old.held out.new.held result (λ held. batch_in held ≡ Some []) }
{
    if !out.is_empty() {
        return HELD_ALREADY;
    }
    let Ok(boxed) = Box::new(alloc, Held::Batch(Batch::new(alloc))) else {
        return MEMORY;
    };
    out.put(boxed);
    OK
}

/// Ends what a handle holds, if it holds anything, and leaves it empty.
#[unsafe(no_mangle)]
pub extern "C" fn misteluk_batch_free(alloc: Global, batch: &mut Handle)
    ensures { batch.new.held ≡ None }
{
    drop(batch.take(alloc));
}

/// Tells how many operations a batch has.
#[unsafe(no_mangle)]
pub extern "C" fn misteluk_batch_length(alloc: Global, batch: &mut Handle, out: &mut u64) -> u32
    ensures length { Asks (batch_in batch.old.held) result (λ ops. (result ≡ 0) × (out.new ≡ length ops)) }
    ensures same { batch.new.held ≡ batch.old.held }
{
    let Some(held) = batch.take(alloc) else {
        return NO_HANDLE;
    };
    let code = length_of(&held, out);
    batch.put(held);
    code
}

fn length_of(held: &Held, out: &mut u64) -> u32
    ensures { Asks (batch_in (Some held.now)) result (λ ops. (result ≡ 0) × (out.new ≡ length ops)) }
{
    match held {
        Held::Batch(batch) => *out = batch.len() as u64,
        Held::Shared(batch) => *out = batch.len() as u64,
        _ => return NO_HANDLE,
    }
    OK
}

/// Writes the records of a batch's operations, and tells how many bytes they are.
#[unsafe(no_mangle)]
pub extern "C" fn misteluk_batch_records(
    alloc: Global,
    batch: &mut Handle,
    text: &mut [u8],
    length: &mut u64,
) -> u32
    ensures same { batch.new.held ≡ batch.old.held }
    ensures told { Asks (batch_in batch.old.held) result (λ ops. TellsRecords ops text.old length.old text.new length.new result) }
    ensures none { batch_in batch.old.held ≡ None → (text.new ≡ text.old) × (length.new ≡ length.old) }
{
    let Some(held) = batch.take(alloc) else {
        return NO_HANDLE;
    };
    let code = records_in(alloc, &held, text, length);
    batch.put(held);
    code
}

fn records_in(alloc: Global, held: &Held, text: &mut [u8], length: &mut u64) -> u32
    ensures told { Asks (batch_in (Some held.now)) result (λ ops. TellsRecords ops text.old length.old text.new length.new result) }
    ensures none { batch_in (Some held.now) ≡ None → (text.new ≡ text.old) × (length.new ≡ length.old) }
{
    match held {
        Held::Batch(batch) => write_records(alloc, batch, text, length),
        Held::Shared(batch) => write_records(alloc, batch, text, length),
        _ => NO_HANDLE,
    }
}

fn write_records(alloc: Global, batch: &Batch, text: &mut [u8], length: &mut u64) -> u32
    ensures { TellsRecords batch.now text.old length.old text.new length.new result }
{
    let Ok(records) = records_of(alloc, batch) else {
        return MEMORY;
    };
    *length = records.len() as u64;
    if text.len() < records.len() {
        return BAD_LENGTH;
    }
    text[..records.len()].copy_from_slice(records.as_slice());
    OK
}

/// Has a batch for oneself, where it is shared.
pub(crate) fn unshare(held: &mut Held) -> Result<(), AllocError>
    ensures same { batch_in (Some held.new) ≡ batch_in (Some held.old) }
    ensures alone { OnOk result (IsAlone held.new) }
    ensures batch { OnErr result (IsSome (batch_in (Some held.old))) }
    ensures none { batch_in (Some held.old) ≡ None → held.new ≡ held.old }
{
    if let Held::Shared(shared) = held {
        let copy = Batch::clone(shared)?;
        *held = Held::Batch(copy);
    }
    Ok(())
}

/// Appends an insertion.
#[unsafe(no_mangle)]
pub extern "C" fn misteluk_batch_insert(
    alloc: Global,
    batch: &mut Handle,
    kind: &[u8],
    source: &[u8],
    target: &[u8],
    weight: i64,
    time: u64,
) -> u32
    ensures push { Asks (batch_in batch.old.held) result
        (λ ops. TellsPush (Insert kind.now source.now target.now weight time) ops batch.new.held result) }
    ensures none { batch_in batch.old.held ≡ None → batch.new.held ≡ batch.old.held }
{
    let Some(mut held) = batch.take(alloc) else {
        return NO_HANDLE;
    };
    let code = insert_in(alloc, &mut held, kind, source, target, weight, time);
    batch.put(held);
    code
}

/// Appends an addition.
#[unsafe(no_mangle)]
pub extern "C" fn misteluk_batch_add(
    alloc: Global,
    batch: &mut Handle,
    kind: &[u8],
    source: &[u8],
    target: &[u8],
    amount: i64,
    time: u64,
) -> u32
    ensures push { Asks (batch_in batch.old.held) result
        (λ ops. TellsPush (Incr kind.now source.now target.now amount time) ops batch.new.held result) }
    ensures none { batch_in batch.old.held ≡ None → batch.new.held ≡ batch.old.held }
{
    let Some(mut held) = batch.take(alloc) else {
        return NO_HANDLE;
    };
    let code = add_in(alloc, &mut held, kind, source, target, amount, time);
    batch.put(held);
    code
}

/// Appends a removal.
#[unsafe(no_mangle)]
pub extern "C" fn misteluk_batch_remove(
    alloc: Global,
    batch: &mut Handle,
    kind: &[u8],
    source: &[u8],
    target: &[u8],
) -> u32
    ensures push { Asks (batch_in batch.old.held) result
        (λ ops. TellsPush (Remove kind.now source.now target.now) ops batch.new.held result) }
    ensures none { batch_in batch.old.held ≡ None → batch.new.held ≡ batch.old.held }
{
    let Some(mut held) = batch.take(alloc) else {
        return NO_HANDLE;
    };
    let code = remove_in(alloc, &mut held, kind, source, target);
    batch.put(held);
    code
}

/// Appends an expiry.
#[unsafe(no_mangle)]
pub extern "C" fn misteluk_batch_expire(alloc: Global, batch: &mut Handle, time: u64) -> u32
    ensures push { Asks (batch_in batch.old.held) result (λ ops. TellsPush (Expire time) ops batch.new.held result) }
    ensures none { batch_in batch.old.held ≡ None → batch.new.held ≡ batch.old.held }
{
    let Some(mut held) = batch.take(alloc) else {
        return NO_HANDLE;
    };
    let code = expire_in(&mut held, time);
    batch.put(held);
    code
}

#[tactic(auto, using(crate::proofs::Pushes::not_unshared))]
fn insert_in(
    alloc: Global,
    held: &mut Held,
    kind: &[u8],
    source: &[u8],
    target: &[u8],
    weight: i64,
    time: u64,
) -> u32
    ensures push { Asks (batch_in (Some held.old)) result (λ ops. TellsPush (Insert kind.now source.now target.now weight time) ops (Some held.new) result) }
    ensures none { batch_in (Some held.old) ≡ None → held.new ≡ held.old }
{
    let Ok(()) = unshare(held) else {
        return MEMORY;
    };
    let Held::Batch(batch) = held else {
        return NO_HANDLE;
    };
    push_code(push_insert(
        alloc,
        batch,
        OPERATION_LIMIT,
        kind,
        source,
        target,
        weight,
        time,
    ))
}

#[tactic(auto, using(crate::proofs::Pushes::not_unshared))]
fn add_in(
    alloc: Global,
    held: &mut Held,
    kind: &[u8],
    source: &[u8],
    target: &[u8],
    amount: i64,
    time: u64,
) -> u32
    ensures push { Asks (batch_in (Some held.old)) result (λ ops. TellsPush (Incr kind.now source.now target.now amount time) ops (Some held.new) result) }
    ensures none { batch_in (Some held.old) ≡ None → held.new ≡ held.old }
{
    let Ok(()) = unshare(held) else {
        return MEMORY;
    };
    let Held::Batch(batch) = held else {
        return NO_HANDLE;
    };
    push_code(push_add(
        alloc,
        batch,
        OPERATION_LIMIT,
        kind,
        source,
        target,
        amount,
        time,
    ))
}

#[tactic(auto, using(crate::proofs::Pushes::not_unshared))]
fn remove_in(alloc: Global, held: &mut Held, kind: &[u8], source: &[u8], target: &[u8]) -> u32
    ensures push { Asks (batch_in (Some held.old)) result (λ ops. TellsPush (Remove kind.now source.now target.now) ops (Some held.new) result) }
    ensures none { batch_in (Some held.old) ≡ None → held.new ≡ held.old }
{
    let Ok(()) = unshare(held) else {
        return MEMORY;
    };
    let Held::Batch(batch) = held else {
        return NO_HANDLE;
    };
    push_code(push_remove(alloc, batch, OPERATION_LIMIT, kind, source, target))
}

#[tactic(auto, using(crate::proofs::Pushes::not_unshared))]
fn expire_in(held: &mut Held, time: u64) -> u32
    ensures push { Asks (batch_in (Some held.old)) result (λ ops. TellsPush (Expire time) ops (Some held.new) result) }
    ensures none { batch_in (Some held.old) ≡ None → held.new ≡ held.old }
{
    let Ok(()) = unshare(held) else {
        return MEMORY;
    };
    let Held::Batch(batch) = held else {
        return NO_HANDLE;
    };
    push_code(push_expire(batch, OPERATION_LIMIT, time))
}

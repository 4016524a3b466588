//! A batch in two steps: made ready, and then accepted or given up.

ghost use Rattle.std.specs.Prelude.{◌≡◌, ◌≢◌, ◌⊎◌, Some, None, IsSome, IfOk, IfErr, MatchBool};
ghost use Rattle.graph_version.specs.Batches.{batch_value};
ghost use Rattle.misteluk_c.specs.Held.{batch_in, Asks};
ghost use Rattle.misteluk_c.specs.Desks.{held_desk, identity_in};
ghost use Rattle.misteluk_c.specs.Phases.{held_ready, TellsBegun, TellsReady, TellsFinish, TellsCancel};

use crate::codes::{MEMORY, NO_HANDLE, OK};
use crate::desks::apply_code;
use desk_counts::Counts;
use graph_types::Batch;
use std::alloc::Global;
use std::mem::replace;
use std::sync::Arc;
use store_handles::{Handle, Held};

/// Makes a batch ready at a desk. The batch stays in its handle.
#[unsafe(no_mangle)]
pub extern "C" fn misteluk_desk_begin(alloc: Global, desk: &mut Handle, batch: &mut Handle) -> u32
    ensures told { Asks (held_desk desk.old.held) result (λ o. Asks (batch_in batch.old.held) result
        (λ ops. TellsReady o ops desk.new.held batch.new.held result)) }
    ensures identity { identity_in desk.new.held ≡ identity_in desk.old.held }
    ensures same { result ≡ 2 → (desk.new.held ≡ desk.old.held) × (batch.new.held ≡ batch.old.held) }
{
    let Some(mut held) = desk.take(alloc) else {
        return NO_HANDLE;
    };
    let code = begin_by(alloc, &mut held, batch);
    desk.put(held);
    code
}

/// Accepts the batch that is ready at a desk.
#[unsafe(no_mangle)]
pub extern "C" fn misteluk_desk_finish(alloc: Global, desk: &mut Handle, counts: &mut Counts) -> u32
    ensures told { Asks (held_ready desk.old.held) result (λ r. TellsFinish r desk.new.held result counts.new) }
    ensures identity { identity_in desk.new.held ≡ identity_in desk.old.held }
    ensures same { result ≡ 2 → (desk.new.held ≡ desk.old.held) × (counts.new ≡ counts.old) }
{
    let Some(mut held) = desk.take(alloc) else {
        return NO_HANDLE;
    };
    let code = finish_by(alloc, &mut held, counts);
    desk.put(held);
    code
}

/// Gives up the batch that is ready at a desk.
#[unsafe(no_mangle)]
pub extern "C" fn misteluk_desk_cancel(alloc: Global, desk: &mut Handle) -> u32
    ensures told { Asks (held_ready desk.old.held) result (λ r. TellsCancel r desk.new.held result) }
    ensures identity { identity_in desk.new.held ≡ identity_in desk.old.held }
    ensures same { result ≡ 2 → desk.new.held ≡ desk.old.held }
{
    let Some(mut held) = desk.take(alloc) else {
        return NO_HANDLE;
    };
    let code = cancel_by(alloc, &mut held);
    desk.put(held);
    code
}

fn begin_by(alloc: Global, held: &mut Held, batch: &mut Handle) -> u32
    ensures told { Asks (held_desk (Some held.old)) result (λ o. Asks (batch_in batch.old.held) result
        (λ ops. TellsReady o ops (Some held.new) batch.new.held result)) }
    ensures identity { identity_in (Some held.new) ≡ identity_in (Some held.old) }
    ensures same { result ≡ 2 → (held.new ≡ held.old) × (batch.new.held ≡ batch.old.held) }
{
    if !is_desk(held) {
        return NO_HANDLE;
    }
    let Some(mut kept) = batch.take(alloc) else {
        return NO_HANDLE;
    };
    let shared = share(alloc, &mut kept);
    batch.put(kept);
    match shared {
        Ok(shared) => begin_shared(alloc, held, shared),
        Err(code) => code,
    }
}

fn is_desk(held: &Held) -> bool
    ensures { MatchBool result (IsSome (held_desk (Some held.now))) (held_desk (Some held.now) ≡ None) }
{
    match held {
        Held::Desk { .. } => true,
        _ => false,
    }
}

/// Shares a batch with a handle; or says why not.
fn share(alloc: Global, held: &mut Held) -> Result<Arc<Batch>, u32>
    ensures same { batch_in (Some held.new) ≡ batch_in (Some held.old) }
    ensures shared { IfOk result (λ b. batch_in (Some held.old) ≡ Some (batch_value b)) }
    ensures refused { IfErr result (λ code. ((code ≡ 1) × IsSome (batch_in (Some held.old)))
        ⊎ ((code ≡ 2) × (batch_in (Some held.old) ≡ None) × (held.new ≡ held.old))) }
{
    let shared = match replace(held, Held::Batch(Batch::new(alloc))) {
        Held::Batch(batch) => match Arc::new(alloc, batch) {
            Ok(shared) => shared,
            Err(back) => {
                *held = Held::Batch(back.value);
                return Err(MEMORY);
            }
        },
        Held::Shared(shared) => shared,
        other => {
            *held = other;
            return Err(NO_HANDLE);
        }
    };
    let again = Arc::try_clone(&shared);
    *held = Held::Shared(shared);
    match again {
        Ok(again) => Ok(again),
        Err(_) => Err(MEMORY),
    }
}

/// Makes a batch ready at the desk that is held.
fn begin_shared(alloc: Global, held: &mut Held, batch: Arc<Batch>) -> u32
    requires { IsSome (held_desk (Some held.old)) }
    ensures told { Asks (held_desk (Some held.old)) result
        (λ o. TellsBegun o (batch_value batch) (Some held.new) result) }
    ensures identity { identity_in (Some held.new) ≡ identity_in (Some held.old) }
    ensures there { result ≢ 2 }
{
    match replace(held, Held::Batch(Batch::new(alloc))) {
        Held::Desk { desk, identity } => match desk.begin(batch) {
            Ok(ready) => {
                *held = Held::Ready { ready, identity };
                OK
            }
            Err((desk, error)) => {
                *held = Held::Desk { desk, identity };
                apply_code(error)
            }
        },
        other => {
            *held = other;
            NO_HANDLE
        }
    }
}

fn finish_by(alloc: Global, held: &mut Held, counts: &mut Counts) -> u32
    ensures told { Asks (held_ready (Some held.old)) result (λ r. TellsFinish r (Some held.new) result counts.new) }
    ensures identity { identity_in (Some held.new) ≡ identity_in (Some held.old) }
    ensures same { result ≡ 2 → (held.new ≡ held.old) × (counts.new ≡ counts.old) }
{
    match replace(held, Held::Batch(Batch::new(alloc))) {
        Held::Ready { ready, identity } => {
            let (desk, accepted) = ready.finish();
            *held = Held::Desk { desk, identity };
            *counts = Counts::none(0).with_all(accepted.number, accepted.outcomes.as_slice());
            OK
        }
        other => {
            *held = other;
            NO_HANDLE
        }
    }
}

fn cancel_by(alloc: Global, held: &mut Held) -> u32
    ensures told { Asks (held_ready (Some held.old)) result (λ r. TellsCancel r (Some held.new) result) }
    ensures identity { identity_in (Some held.new) ≡ identity_in (Some held.old) }
    ensures same { result ≡ 2 → held.new ≡ held.old }
{
    match replace(held, Held::Batch(Batch::new(alloc))) {
        Held::Ready { ready, identity } => {
            *held = Held::Desk {
                desk: ready.cancel(),
                identity,
            };
            OK
        }
        other => {
            *held = other;
            NO_HANDLE
        }
    }
}

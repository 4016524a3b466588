//! Desks.

ghost use Rattle.std.specs.Prelude.{◌≡◌, ◌≢◌, ℕ, Some, None};
ghost use Rattle.misteluk_c.specs.Held.{batch_in, held_version_of, Asks};
ghost use Rattle.misteluk_c.specs.Desks as desks;
ghost use Rattle.misteluk_c.specs.Desks.{held_desk, identity_in, TellsApply, TellsApplied, TellsCollect, TellsHeld, TellsHold, TellsRelease, TellsRebase, stat_of};

use crate::codes::{
    BATCHES_FULL, BLOCKS_FULL, HELD_ALREADY, KINDS_FULL, MEMORY, NAMES_FULL, NO_HANDLE, NO_SEAT, OK,
};
use desk::{ApplyError, Desk};
use desk_counts::Counts;
use graph_types::Batch;
use owned_desk::{Hold, HoldError, OwnedDesk};
use std::alloc::Global;
use std::mem::replace;
use std::sync::Arc;
use store_handles::{Handle, Held};

/// The last version, and the blocks.
#[derive(Clone, Copy)]
#[repr(C)]
pub struct DeskStat {
    pub version: u64,
    pub vertices: u64,
    pub kinds: u64,
    pub edges: u64,
    pub blocks_free: u64,
    pub blocks_retired: u64,
    pub blocks_used: u64,
}

/// Which version is held, and by which desk, for its release.
#[derive(Clone, Copy)]
#[repr(C)]
pub struct HoldNumbers {
    /// The identity of the desk that gave it.
    pub desk: u64,
    pub opening: u64,
    pub number: u64,
}

/// Ends what a handle holds, if it holds anything, and leaves it empty.
#[unsafe(no_mangle)]
pub extern "C" fn misteluk_desk_free(alloc: Global, desk: &mut Handle)
    ensures { desk.new.held ≡ None }
{
    drop(desk.take(alloc));
}

/// Applies a batch and empties it.
#[unsafe(no_mangle)]
pub extern "C" fn misteluk_desk_apply(
    alloc: Global,
    desk: &mut Handle,
    batch: &mut Handle,
    counts: &mut Counts,
) -> u32
    ensures told { Asks (held_desk desk.old.held) result (λ o. Asks (batch_in batch.old.held) result
        (λ ops. TellsApply o ops desk.new.held batch.new.held result counts.new)) }
    ensures identity { identity_in desk.new.held ≡ identity_in desk.old.held }
    ensures same { result ≡ 2 → (desk.new.held ≡ desk.old.held) × (batch.new.held ≡ batch.old.held) }
{
    let Some(mut held) = desk.take(alloc) else {
        return NO_HANDLE;
    };
    let code = apply_by(alloc, &mut held, batch, counts);
    desk.put(held);
    code
}

/// Applies what a handle holds, if that is a batch.
fn apply_held(alloc: Global, desk: &mut OwnedDesk, batch: &mut Handle, counts: &mut Counts) -> u32
    ensures told { Asks (batch_in batch.old.held) result
        (λ ops. TellsApplied desk.old ops desk.new batch.new.held result counts.new) }
    ensures same { result ≡ 2 → (desk.new ≡ desk.old) × (batch.new.held ≡ batch.old.held) }
{
    let Some(mut held) = batch.take(alloc) else {
        return NO_HANDLE;
    };
    let code = apply_in(alloc, desk, &mut held, counts);
    batch.put(held);
    code
}

/// Applies a batch, and leaves an empty one.
fn apply_in(alloc: Global, desk: &mut OwnedDesk, held: &mut Held, counts: &mut Counts) -> u32
    ensures told { Asks (batch_in (Some held.old)) result
        (λ ops. TellsApplied desk.old ops desk.new (Some held.new) result counts.new) }
    ensures same { result ≡ 2 → (desk.new ≡ desk.old) × (held.new ≡ held.old) }
{
    let taken = replace(held, Held::Batch(Batch::new(alloc)));
    let shared = match taken {
        Held::Batch(batch) => match Arc::new(alloc, batch) {
            Ok(shared) => shared,
            Err(back) => {
                *held = Held::Batch(back.value);
                return MEMORY;
            }
        },
        Held::Shared(shared) => shared,
        other => {
            *held = other;
            return NO_HANDLE;
        }
    };
    let Ok(again) = Arc::try_clone(&shared) else {
        *held = Held::Shared(shared);
        return MEMORY;
    };
    match desk.apply(again) {
        Ok(accepted) => {
            *counts = Counts::none(0).with_all(accepted.number, accepted.outcomes.as_slice());
            OK
        }
        Err(error) => {
            *held = Held::Shared(shared);
            apply_code(error)
        }
    }
}

/// Frees each retired block that no held version needs.
#[unsafe(no_mangle)]
pub extern "C" fn misteluk_desk_collect(alloc: Global, desk: &mut Handle, freed: &mut u64) -> u32
    ensures told { Asks (held_desk desk.old.held) result (λ o. TellsCollect o desk.new.held result freed.new) }
    ensures identity { identity_in desk.new.held ≡ identity_in desk.old.held }
    ensures same { result ≡ 2 → desk.new.held ≡ desk.old.held }
{
    let Some(mut held) = desk.take(alloc) else {
        return NO_HANDLE;
    };
    let code = collect_by(&mut held, freed);
    desk.put(held);
    code
}

/// Tells the counts.
#[unsafe(no_mangle)]
pub extern "C" fn misteluk_desk_stat(alloc: Global, desk: &mut Handle, out: &mut DeskStat) -> u32
    ensures told { Asks (held_desk desk.old.held) result (λ o. (result ≡ 0) × (out.new ≡ stat_of o.desk)) }
    ensures same { desk.new.held ≡ desk.old.held }
{
    let Some(held) = desk.take(alloc) else {
        return NO_HANDLE;
    };
    let code = match &*held {
        Held::Desk { desk, .. } => {
            *out = counts_of(desk.desk());
            OK
        }
        _ => NO_HANDLE,
    };
    desk.put(held);
    code
}

fn counts_of(desk: &Desk) -> DeskStat
    ensures { result ≡ stat_of desk.now }
{
    let stat = desk.stat();
    DeskStat {
        version: stat.number,
        vertices: stat.names as u64,
        kinds: desk.last().kinds().len() as u64,
        edges: stat.edges,
        blocks_free: stat.free as u64,
        blocks_retired: stat.retired as u64,
        blocks_used: stat.used as u64,
    }
}

/// Holds the last version.
#[unsafe(no_mangle)]
pub extern "C" fn misteluk_desk_hold(
    alloc: Global,
    desk: &mut Handle,
    version: &mut Handle,
    hold: &mut HoldNumbers,
) -> u32
    ensures told { Asks (held_desk desk.old.held) result
        (λ o. TellsHold (identity_in desk.old.held) o desk.new.held version.old.held version.new.held result hold.new) }
    ensures identity { identity_in desk.new.held ≡ identity_in desk.old.held }
    ensures same { result ≡ 2 → (desk.new.held ≡ desk.old.held) × (version.new.held ≡ version.old.held) }
{
    let Some(mut held) = desk.take(alloc) else {
        return NO_HANDLE;
    };
    let code = hold_by(alloc, &mut held, version, hold);
    desk.put(held);
    code
}

/// Holds a desk's last version in a handle that holds nothing.
fn hold_in(
    alloc: Global,
    desk: &mut OwnedDesk,
    identity: u64,
    version: &mut Handle,
    hold: &mut HoldNumbers,
) -> u32
    ensures told { TellsHeld identity desk.old desk.new version.old.held version.new.held result hold.new }
    ensures there { result ≢ 2 }
{
    if !version.is_empty() {
        return HELD_ALREADY;
    }
    let Ok(shared) = Arc::try_clone(desk.desk().last()) else {
        return MEMORY;
    };
    let Ok(boxed) = Box::new(alloc, Held::Version(shared)) else {
        return MEMORY;
    };
    match desk.hold() {
        Ok(held) => {
            *hold = HoldNumbers {
                desk: identity,
                opening: held.hold.opening,
                number: held.hold.number,
            };
            version.put(boxed);
            OK
        }
        Err(HoldError::NoSeat) => NO_SEAT,
        Err(HoldError::OutOfMemory) => MEMORY,
    }
}

/// Takes one hold back.
#[unsafe(no_mangle)]
pub extern "C" fn misteluk_desk_release(alloc: Global, desk: &mut Handle, hold: &HoldNumbers) -> u32
    ensures told { Asks (held_desk desk.old.held) result (λ o. TellsRelease (identity_in desk.old.held) o hold.now desk.new.held result) }
    ensures identity { identity_in desk.new.held ≡ identity_in desk.old.held }
    ensures same { result ≡ 2 → desk.new.held ≡ desk.old.held }
{
    let Some(mut held) = desk.take(alloc) else {
        return NO_HANDLE;
    };
    let code = release_by(&mut held, hold);
    desk.put(held);
    code
}

/// Opens the desk anew over what the last version holds.
#[unsafe(no_mangle)]
pub extern "C" fn misteluk_desk_rebase(alloc: Global, desk: &mut Handle) -> u32
    ensures told { Asks (held_desk desk.old.held) result (λ o. TellsRebase o desk.new.held result) }
    ensures identity { identity_in desk.new.held ≡ identity_in desk.old.held }
    ensures same { result ≡ 2 → desk.new.held ≡ desk.old.held }
{
    let Some(mut held) = desk.take(alloc) else {
        return NO_HANDLE;
    };
    let code = rebase_by(&mut held);
    desk.put(held);
    code
}

/// What a batch that is refused is told by.
pub(crate) fn apply_code(error: ApplyError) -> u32
    ensures { result ≡ desks.apply_code error }
{
    match error {
        ApplyError::BatchLimit => BATCHES_FULL,
        ApplyError::NamesFull => NAMES_FULL,
        ApplyError::KindsFull => KINDS_FULL,
        ApplyError::PoolEmpty { .. } => BLOCKS_FULL,
        ApplyError::OutOfMemory => MEMORY,
    }
}

fn apply_by(alloc: Global, held: &mut Held, batch: &mut Handle, counts: &mut Counts) -> u32
    ensures told { Asks (held_desk (Some held.old)) result
        (λ o. Asks (batch_in batch.old.held) result
        (λ ops. TellsApply o ops (Some held.new) batch.new.held result counts.new)) }
    ensures identity { identity_in (Some held.new) ≡ identity_in (Some held.old) }
    ensures same { result ≡ 2 → (held.new ≡ held.old) × (batch.new.held ≡ batch.old.held) }
{
    let Held::Desk { desk, .. } = held else {
        return NO_HANDLE;
    };
    apply_held(alloc, desk, batch, counts)
}

fn collect_by(held: &mut Held, freed: &mut u64) -> u32
    ensures told { Asks (held_desk (Some held.old)) result
        (λ o. TellsCollect o (Some held.new) result freed.new) }
    ensures identity { identity_in (Some held.new) ≡ identity_in (Some held.old) }
    ensures same { result ≡ 2 → held.new ≡ held.old }
{
    let Held::Desk { desk, .. } = held else {
        return NO_HANDLE;
    };
    *freed = desk.collect().recycled as u64;
    OK
}

fn hold_by(alloc: Global, held: &mut Held, version: &mut Handle, hold: &mut HoldNumbers) -> u32
    ensures told { Asks (held_desk (Some held.old)) result
        (λ o. TellsHold (identity_in (Some held.old)) o (Some held.new) version.old.held version.new.held result hold.new) }
    ensures identity { identity_in (Some held.new) ≡ identity_in (Some held.old) }
    ensures same { result ≡ 2 → (held.new ≡ held.old) × (version.new.held ≡ version.old.held) }
{
    let Held::Desk { desk, identity } = held else {
        return NO_HANDLE;
    };
    hold_in(alloc, desk, *identity, version, hold)
}

fn release_by(held: &mut Held, hold: &HoldNumbers) -> u32
    ensures told { Asks (held_desk (Some held.old)) result
        (λ o. TellsRelease (identity_in (Some held.old)) o hold.now (Some held.new) result) }
    ensures identity { identity_in (Some held.new) ≡ identity_in (Some held.old) }
    ensures same { result ≡ 2 → held.new ≡ held.old }
{
    let Held::Desk { desk, identity } = held else {
        return NO_HANDLE;
    };
    if hold.desk != *identity {
        return NO_SEAT;
    }
    let hold = Hold {
        opening: hold.opening,
        number: hold.number,
    };
    match desk.release(hold) {
        Ok(()) => OK,
        Err(_) => NO_SEAT,
    }
}

fn rebase_by(held: &mut Held) -> u32
    ensures told { Asks (held_desk (Some held.old)) result
        (λ o. TellsRebase o (Some held.new) result) }
    ensures identity { identity_in (Some held.new) ≡ identity_in (Some held.old) }
    ensures same { result ≡ 2 → held.new ≡ held.old }
{
    let Held::Desk { desk, .. } = held else {
        return NO_HANDLE;
    };
    match desk.rebase() {
        Ok(()) => OK,
        Err(_) => MEMORY,
    }
}

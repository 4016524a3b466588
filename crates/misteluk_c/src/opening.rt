//! Desks that open, and their limits.

ghost use Rattle.std.specs.Prelude.{◌≡◌, ◌≤◌, Some, None, IsTrue};
ghost use Rattle.graph_version.specs.Versions.{empty_version_in};
ghost use Rattle.block_reclamation.specs.Status.{most_blocks};
ghost use Rattle.store_steps.specs.Opening.{opened_desk};
ghost use Rattle.owned_desk.specs.Owned.{opened_owned};
ghost use Rattle.misteluk_c.specs.Held.{Asks, MakesHeld};
ghost use Rattle.misteluk_c.specs.Desks.{held_desk, identity_in};
ghost use Rattle.misteluk_c.specs.Opening.{Opens, OpensWithin, OpensGiven, limits_with, is_limits_size, weight_in, limits_told, TellsLimits};

use crate::codes::{BAD_BLOCKS, BAD_LIMITS, BAD_SIZE, HELD_ALREADY, MEMORY, NO_HANDLE, OK};
use desk::Desk;
use graph_types::{Limits, MOST_WEIGHT, STANDARD_SIZE};
use owned_desk::OwnedDesk;
use std::alloc::Global;
use store_handles::{Handle, Held};

/// How many blocks a desk has at the least, and at the most under limits of its own.
const LEAST_BLOCKS: u32 = 16;

const MOST_BLOCKS: u32 = 4_293_918_719;

/// How many vertices, kinds and batches a desk takes, and how large weights may be.
#[derive(Clone, Copy)]
#[repr(C)]
pub struct DeskLimits {
    /// How many bytes the struct has for who gives it: what lies past them is none of it.
    pub size: usize,
    pub names: u32,
    pub kinds: u32,
    pub batches: u32,
    pub weight: u64,
}

/// How large the struct is, and how large it was without a limit of weights.
const LIMITS_SIZE: usize = 32;

const SIZE_WITHOUT_WEIGHT: usize = 24;

/// Opens a desk without edges, under the standard limits. Its holds have its number.
#[unsafe(no_mangle)]
pub extern "C" fn misteluk_desk_new(
    alloc: Global,
    number: u64,
    blocks: u32,
    out: &mut Handle,
) -> u32
    ensures { Opens number blocks out.old.held out.new.held result }
{
    if blocks < LEAST_BLOCKS || blocks > STANDARD_SIZE {
        return BAD_BLOCKS;
    }
    open_in(alloc, number, Limits::standard(), blocks, out)
}

/// Opens a desk without edges, under limits of its own. Where these have none on weights, weights are as large as they can be.
#[unsafe(no_mangle)]
pub extern "C" fn misteluk_desk_new_within(
    alloc: Global,
    number: u64,
    limits: &DeskLimits,
    blocks: u32,
    out: &mut Handle,
) -> u32
    ensures { OpensGiven number limits.now blocks out.old.held out.new.held result }
{
    if !is_limits_size(limits.size) {
        return BAD_SIZE;
    }
    open_under(alloc, number, limits, weight_in(limits), blocks, out)
}

/// Whether a struct of limits has this size in some version of the interface.
fn is_limits_size(size: usize) -> bool
    ensures { result ≡ is_limits_size size }
{
    size == LIMITS_SIZE || size == SIZE_WITHOUT_WEIGHT
}

/// The limit on weights, or the greatest one where a struct ends before it.
fn weight_in(limits: &DeskLimits) -> u64
    ensures { result ≡ weight_in limits.now }
{
    if limits.size < LIMITS_SIZE {
        MOST_WEIGHT
    } else {
        limits.weight
    }
}

/// Opens a desk under limits of its own, where these are within the walls, and none is 0.
fn open_under(
    alloc: Global,
    number: u64,
    limits: &DeskLimits,
    weight: u64,
    blocks: u32,
    out: &mut Handle,
) -> u32
    ensures { OpensWithin number (limits_with limits.now weight) blocks out.old.held out.new.held result }
{
    if limits.names == 0 || limits.kinds == 0 || limits.batches == 0 || weight == 0 {
        return BAD_LIMITS;
    }
    let Ok(limits) = Limits::within(limits.names, limits.kinds, limits.batches, weight) else {
        return BAD_LIMITS;
    };
    if blocks < LEAST_BLOCKS || blocks > MOST_BLOCKS {
        return BAD_BLOCKS;
    }
    open_in(alloc, number, limits, blocks, out)
}

/// Opens a desk in a handle that holds nothing.
fn open_in(alloc: Global, number: u64, limits: Limits, blocks: u32, out: &mut Handle) -> u32
    requires least { 16 ≤ blocks }
    requires most { blocks ≤ most_blocks }
    ensures { MakesHeld out.old.held out.new.held result
        (λ held. (held_desk held ≡ Some (opened_owned (opened_desk blocks (empty_version_in limits)) 0))
        × (identity_in held ≡ number)) }
{
    if !out.is_empty() {
        return HELD_ALREADY;
    }
    let Ok(desk) = Desk::open_within(alloc, limits, blocks) else {
        return MEMORY;
    };
    let held = Held::Desk {
        desk: OwnedDesk::over(desk),
        identity: number,
    };
    let Ok(boxed) = Box::new(alloc, held) else {
        return MEMORY;
    };
    out.put(boxed);
    OK
}

/// Tells the limits that a desk was opened under, as far as the caller's struct has them.
#[unsafe(no_mangle)]
pub extern "C" fn misteluk_desk_limits(
    alloc: Global,
    desk: &mut Handle,
    out: &mut DeskLimits,
) -> u32
    ensures told { Asks (held_desk desk.old.held) result (λ o. TellsLimits o.desk out.old out.new result) }
    ensures same { desk.new.held ≡ desk.old.held }
    ensures none { held_desk desk.old.held ≡ None → out.new ≡ out.old }
{
    let Some(held) = desk.take(alloc) else {
        return NO_HANDLE;
    };
    let code = match &*held {
        Held::Desk { desk, .. } => limits_to(desk.desk(), out),
        _ => NO_HANDLE,
    };
    desk.put(held);
    code
}

/// Writes field by field, since the struct may end before the last one.
fn limits_to(desk: &Desk, out: &mut DeskLimits) -> u32
    ensures { TellsLimits desk.now out.old out.new result }
{
    if !is_limits_size(out.size) {
        return BAD_SIZE;
    }
    let limits = desk.last().limits();
    out.names = limits.names();
    out.kinds = limits.kinds();
    out.batches = limits.batches();
    if out.size == LIMITS_SIZE {
        out.weight = limits.weight();
    }
    OK
}

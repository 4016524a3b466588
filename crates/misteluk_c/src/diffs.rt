//! What became of edges from one held version to a later one.

ghost use Rattle.std.specs.Prelude.{◌≡◌, ◌==◌, ◌⊎◌, Some, None, MatchBool, false};
ghost use Rattle.std.specs.Option.{option_copied};
ghost use Rattle.misteluk_c.specs.Held.{Asks};
ghost use Rattle.misteluk_c.specs.Desks.{held_desk, identity_in, hold_of};
ghost use Rattle.misteluk_c.specs.Diffs.{held_pair, diff_table_in, AreTheDiffColumns, TellsDiff, TellsPair, TellsMade};
ghost use Rattle.misteluk_c.specs.Diffs as diffs;

use crate::codes::{
    BAD_LENGTH, BAD_NUMBER, BAD_SIZE, HELD_ALREADY, MEMORY, NO_HANDLE, NO_KIND, NO_SEAT, OK,
};
use crate::desks::HoldNumbers;
use owned_desk::{Hold, OwnedDesk, PairError};
use std::alloc::Global;
use store_handles::{Handle, Held};
use version_columns::{View, filter_of};
use version_diff::{DiffError, VersionPair, write_differences};

/// Columns that what became of edges is written to.
#[derive(Drop)]
#[repr(C)]
pub struct DiffColumns<'a> {
    /// How many bytes the struct has for who gives it: what lies past them is none of it.
    pub size: usize,
    pub states: &'a mut [u8],
    pub kinds: &'a mut [u32],
    pub sources: &'a mut [u32],
    pub targets: &'a mut [u32],
    pub weights_before: &'a mut [i64],
    pub firsts_before: &'a mut [u64],
    pub recents_before: &'a mut [u64],
    pub weights_after: &'a mut [i64],
    pub firsts_after: &'a mut [u64],
    pub recents_after: &'a mut [u64],
}

/// How large that struct is.
const DIFF_SIZE: usize = 168;

/// Makes the pair of two versions that a desk holds.
#[unsafe(no_mangle)]
pub extern "C" fn misteluk_desk_diff(
    alloc: Global,
    desk: &mut Handle,
    earlier: &HoldNumbers,
    later: &HoldNumbers,
    diff: &mut Handle,
) -> u32
    ensures same { desk.new.held ≡ desk.old.held }
    ensures told { Asks (held_desk desk.old.held) result
        (λ o. TellsPair (identity_in desk.old.held) o earlier.now later.now diff.old.held diff.new.held result) }
    ensures none { held_desk desk.old.held ≡ None → diff.new.held ≡ diff.old.held }
{
    let Some(held) = desk.take(alloc) else {
        return NO_HANDLE;
    };
    let code = pair_by(alloc, &held, earlier, later, diff);
    desk.put(held);
    code
}

fn pair_by(
    alloc: Global,
    held: &Held,
    earlier: &HoldNumbers,
    later: &HoldNumbers,
    diff: &mut Handle,
) -> u32
    ensures told { Asks (held_desk (Some held.now)) result
        (λ o. TellsPair (identity_in (Some held.now)) o earlier.now later.now diff.old.held diff.new.held result) }
    ensures none { held_desk (Some held.now) ≡ None → diff.new.held ≡ diff.old.held }
{
    let Held::Desk { desk, identity } = held else {
        return NO_HANDLE;
    };
    if !diff.is_empty() {
        return HELD_ALREADY;
    }
    if earlier.desk != *identity || later.desk != *identity {
        return NO_SEAT;
    }
    pair_in_empty(alloc, desk, hold_from(earlier), hold_from(later), diff)
}

/// The hold of these numbers.
fn hold_from(numbers: &HoldNumbers) -> Hold
    ensures { result ≡ hold_of numbers.now }
{
    Hold {
        opening: numbers.opening,
        number: numbers.number,
    }
}

/// Makes the pair in a handle that holds nothing.
fn pair_in_empty(
    alloc: Global,
    desk: &OwnedDesk,
    earlier: Hold,
    later: Hold,
    diff: &mut Handle,
) -> u32
    requires { diff.old.held ≡ None }
    ensures { TellsMade desk.now earlier later diff.new.held result }
{
    let pair = match desk.pair(earlier, later) {
        Ok(pair) => pair,
        Err(PairError::NotHeld) => return NO_SEAT,
        Err(PairError::Backwards) => return BAD_NUMBER,
        Err(PairError::OutOfMemory) => return MEMORY,
    };
    let Ok(boxed) = Box::new(alloc, Held::Pair(pair)) else {
        return MEMORY;
    };
    diff.put(boxed);
    OK
}

/// Ends what a handle holds, if it holds anything, and leaves it empty.
#[unsafe(no_mangle)]
pub extern "C" fn misteluk_diff_free(alloc: Global, diff: &mut Handle)
    ensures { diff.new.held ≡ None }
{
    drop(diff.take(alloc));
}

/// Writes what became of the edges of sources from one on.
#[unsafe(no_mangle)]
pub extern "C" fn misteluk_diff_edges(
    alloc: Global,
    diff: &mut Handle,
    view: &View,
    source: &mut u32,
    into: &mut DiffColumns<'_>,
    count: &mut u64,
) -> u32
    ensures same { diff.new.held ≡ diff.old.held }
    ensures struct_same { AreTheDiffColumns into.old into.new }
    ensures told { MatchBool (into.old.size == 168) (Asks (held_pair diff.old.held) result
        (λ p. TellsDiff p view.now source.old into.old source.new into.new count.new result)) (result ≡ 21) }
    ensures none { (into.old.size == 168 ≡ false) ⊎ (held_pair diff.old.held ≡ None)
        → (diff_table_in 0 into.new ≡ diff_table_in 0 into.old) × (source.new ≡ source.old) × (count.new ≡ count.old) }
{
    if into.size != DIFF_SIZE {
        return BAD_SIZE;
    }
    let Some(held) = diff.take(alloc) else {
        return NO_HANDLE;
    };
    let code = match pair_in(&held) {
        Some(pair) => differences_to(alloc, pair, view, source, into, count),
        None => NO_HANDLE,
    };
    diff.put(held);
    code
}

/// The pair, if one is held.
fn pair_in(held: &Held) -> Option<&VersionPair>
    ensures { option_copied result ≡ held_pair (Some held.now) }
{
    match held {
        Held::Pair(pair) => Some(pair),
        _ => None,
    }
}

fn differences_to(
    alloc: Global,
    pair: &VersionPair,
    view: &View,
    source: &mut u32,
    into: &mut DiffColumns<'_>,
    count: &mut u64,
) -> u32
    ensures struct_same { AreTheDiffColumns into.old into.new }
    ensures told { TellsDiff pair.now view.now source.old into.old source.new into.new count.new result }
{
    let Some(filter) = filter_of(pair.later(), view) else {
        return NO_KIND;
    };
    diff_code(write_differences(
        alloc,
        pair,
        &filter,
        source,
        into.states,
        into.kinds,
        into.sources,
        into.targets,
        into.weights_before,
        into.firsts_before,
        into.recents_before,
        into.weights_after,
        into.firsts_after,
        into.recents_after,
        count,
    ))
}

/// What a call about differences is told by.
fn diff_code(answer: Result<(), DiffError>) -> u32
    ensures { result ≡ diffs.diff_code answer }
{
    match answer {
        Ok(()) => OK,
        Err(DiffError::BadLength) => BAD_LENGTH,
        Err(DiffError::OutOfMemory) => MEMORY,
    }
}

//! What is known of the ends of a batch's operations before they are resolved, and numbers that are noted on the way.

ghost use Rattle.std.specs.Prelude.{◌≡◌, ℕ, get_or, slice_get, None};
ghost use Rattle.std.specs.Option.{option_map};
ghost use Rattle.batch_apply.specs.Plan.{key_shown, shown_op};
ghost use Rattle.batch_apply.specs.Listed.{ends_at, found_by, noted_after, noted_ends, target_of, with_noted};

use crate::finding::found_at;
use crate::resolve::{EdgeKey, Ends, ResolvedOp};
use std::alloc::Global;

/// Which names of a list the ends of a batch's first operations are, by their places in it, and how many names the list has.
#[derive(Clone, Copy, Debug)]
pub struct NameList<'a> {
    pub sources: &'a [u32],
    pub targets: &'a [u32],
    pub names: usize,
}

/// What is known of the ends of a batch's operations before they are resolved.
#[derive(Clone, Copy, Debug)]
pub enum KnownEnds<'a> {
    /// The numbers of those of the first operations, where they were found.
    Looked(&'a [Ends]),
    /// Where they stand in a list of names, each of which is then looked up once.
    Listed(NameList<'a>),
}

/// For how many names of a list there is a note, for each operation.
const NOTES: usize = 16;

/// Room for the numbers of a list's names, none of which is noted yet; where there is no memory for it, or no list, no room.
pub fn no_notes(alloc: Global, found: &KnownEnds<'_>, operations: usize) -> Vec<Option<u32>>
    ensures { (place : ℕ) → get_or result.items place None ≡ None }
{
    let names = match found {
        KnownEnds::Looked(_) => return Vec::new(alloc),
        KnownEnds::Listed(listing) => listing.names,
    };
    match vec![in alloc; None; names.min(operations.saturating_mul(NOTES))] {
        Ok(notes) => notes,
        Err(_) => Vec::new(alloc),
    }
}

/// The number that is noted at a place of the list.
fn noted_at(noted: &[Option<u32>], place: u32) -> Option<u32>
    ensures { result ≡ get_or noted.now place None }
{
    let place = place as usize;
    if place < noted.len() {
        noted[place]
    } else {
        None
    }
}

/// What is known of the ends of the operation at a place.
pub fn found_by(found: &KnownEnds<'_>, noted: &[Option<u32>], place: usize) -> Ends
    ensures { result ≡ found_by found.now noted.now place }
{
    match found {
        KnownEnds::Looked(ends) => found_at(ends, place),
        KnownEnds::Listed(listing) => ends_at(listing, noted, place),
    }
}

/// What is noted of the ends of the operation at a place.
fn ends_at(listing: &NameList<'_>, noted: &[Option<u32>], place: usize) -> Ends
    ensures { result
        ≡ ends_at noted.now (slice_get listing.now.sources.now place) (slice_get listing.now.targets.now place) }
{
    match (listing.sources.get(place), listing.targets.get(place)) {
        (Some(source), Some(target)) => Ends {
            source: noted_at(noted, *source),
            target: noted_at(noted, *target),
        },
        _ => Ends {
            source: None,
            target: None,
        },
    }
}

/// Notes a number at a place of the list, if there is one and there is room.
fn note(noted: &mut Vec<Option<u32>>, place: u32, number: Option<u32>)
    ensures { noted.new.items ≡ with_noted noted.old.items place number }
{
    let place = place as usize;
    if place < noted.len() && number.is_some() {
        noted[place] = number;
    }
}

/// Notes the numbers of an operation's ends, where a list has them.
pub fn note_ends(noted: &mut Vec<Option<u32>>, found: &KnownEnds<'_>, place: usize, op: &ResolvedOp)
    ensures { noted.new.items ≡ noted_after found.now place (shown_op op.now) noted.old.items }
{
    if let KnownEnds::Listed(listing) = found {
        note_listed(noted, listing, place, op);
    }
}

/// Notes the numbers of the ends of the operation at a place of a list.
fn note_listed(noted: &mut Vec<Option<u32>>, listing: &NameList<'_>, place: usize, op: &ResolvedOp)
    ensures { noted.new.items ≡ noted_ends (slice_get listing.now.sources.now place)
        (slice_get listing.now.targets.now place) (shown_op op.now) noted.old.items }
{
    let ResolvedOp::Edge(source_number, key, _) = *op else {
        return;
    };
    if let (Some(source), Some(target)) = (listing.sources.get(place), listing.targets.get(place)) {
        note(noted, *source, source_number);
        note(noted, *target, target_number(key));
    }
}

/// The number of an edge's target, if its key is known.
fn target_number(key: Option<EdgeKey>) -> Option<u32>
    ensures { result ≡ target_of (option_map key_shown key) }
{
    Some(key?.target)
}

//! The numbers of a graph's names, row by row.

ghost use Rattle.std.specs.Prelude.{◌≡◌, ◌≤◌, ◌<◌, ◌^◌, ℕ, List, [], All, IfOk, IfErr, IfSome, OnOk, Some, None, option_copied, slice_get, length, replicate, true, false};
ghost use Rattle.graph_types.specs.Step.{after_all, empty_graph_in};
ghost use Rattle.graph_types.specs.declared.batches.NamedOp.{NamedOp};
ghost use Rattle.batch_columns.specs.Operations.{table_of, are_alike};
ghost use Rattle.opening_columns.specs.Numbers.{AreSeen, AreTaken, Enters, RefusesEntry, RefusesNumbers, RefusesRows, Takes};
ghost use Rattle.opening_columns.specs.Numbers as numbers;
ghost use Rattle.opening_columns.specs.Puts.{IsPut, graph_of_puts};

use crate::errors::OpenColumnsError;
use crate::refusing::refused_row;
use batch_columns::{Operations, name_at};
use graph_types::{KindId, Limits, MOST_WEIGHT, is_kind_name_bytes, is_name_bytes};
use std::alloc::{AllocError, Global};
use vertex_names::{AddError, NameBook};

/// A row of columns with the numbers of its names: which edge it is on, and its place.
#[derive(Clone, Copy)]
pub(crate) struct Put {
    pub(crate) source: u32,
    pub(crate) target: u32,
    pub(crate) place: u32,
    pub(crate) kind: KindId,
}

/// Why an entry of a dictionary has no number.
#[derive(Clone, Copy)]
pub(crate) enum EntryError {
    /// There is no such entry, or it is no name.
    Bad,
    /// It would be one name more than the limit.
    Full,
    OutOfMemory,
}

/// Why a row has no numbers.
#[derive(Clone, Copy)]
pub(crate) enum Unnumbered {
    /// A number past its dictionary, a name that is none, another sort, a weight or a time out of range.
    Bad,
    NamesFull,
    KindsFull,
    OutOfMemory,
}

/// Whether bytes may name a kind, or a vertex.
fn may_name(is_kind: bool, bytes: &[u8]) -> bool
    ensures { result ≡ numbers.may_name is_kind bytes.now }
{
    if is_kind {
        is_kind_name_bytes(bytes)
    } else {
        is_name_bytes(bytes)
    }
}

/// The name of an entry of a dictionary, if it names a kind or a vertex.
fn entry_name<'a>(text: &'a [u8], ends: &[u64], is_kind: bool, entry: u32) -> Option<&'a str>
    ensures { option_copied result ≡ numbers.entry_name is_kind text.now ends.now entry }
{
    let bytes = name_at(text, ends, entry)?;
    if !may_name(is_kind, bytes) {
        return None;
    }
    match str::from_utf8(bytes) {
        Ok(name) => Some(name),
        Err(_) => None,
    }
}

/// The number that was noted of an entry.
#[inline(always)]
fn noted(seen: &[Option<u32>], entry: u32) -> Option<u32>
    ensures { IfSome result (λ n. slice_get seen.now entry ≡ Some (Some n)) }
{
    let number = seen.get(entry as usize)?;
    *number
}

/// The number of an entry's name, which becomes the last one of the book where it has not appeared before. The number of each entry
/// is noted, so that it is looked up once.
#[inline(always)]
fn entry_number(
    book: &mut NameBook,
    seen: &mut [Option<u32>],
    text: &[u8],
    ends: &[u64],
    is_kind: bool,
    entry: u32,
) -> Result<u32, EntryError>
    requires seen { AreSeen is_kind text.now ends.now book.old.names seen.old }
    requires long { length seen.old ≡ length ends.now }
    ensures number { IfOk result (λ n. Enters is_kind text.now ends.now entry book.old n book.new) }
    ensures below { IfOk result (λ n. n < length book.new.names) }
    ensures within { OnOk result (length book.new.names ≤ book.new.limit) }
    ensures seen { OnOk result (AreSeen is_kind text.now ends.now book.new.names seen.new) }
    ensures refused { IfErr result (RefusesEntry is_kind text.now ends.now entry book.old) }
{
    if let Some(number) = noted(seen, entry) {
        let _names = book.len();
        return Ok(number);
    }
    let Some(name) = entry_name(text, ends, is_kind, entry) else {
        return Err(EntryError::Bad);
    };
    match book.add(name) {
        Ok(number) => {
            seen[entry as usize] = Some(number);
            Ok(number)
        }
        Err(AddError::NamesFull) => Err(EntryError::Full),
        Err(AddError::OutOfMemory) => Err(EntryError::OutOfMemory),
    }
}

/// Whether a row is an insertion or an addition of a weight and a time in range.
#[inline(always)]
fn is_sound(columns: &Operations<'_>, place: usize) -> bool
    requires within { place < length columns.now.sorts.now }
    requires alike { are_alike (table_of columns.now) ≡ true }
    ensures { result ≡ numbers.is_sound (table_of columns.now) place }
{
    columns.sorts[place] < 2
        && columns.weights[place].unsigned_abs() <= MOST_WEIGHT
        && columns.times[place] < 1 << 63
}

/// A vertex's refusal as that of its row.
fn vertex_refused(error: EntryError) -> Unnumbered
    ensures { result ≡ numbers.vertex_refusal error }
{
    match error {
        EntryError::Bad => Unnumbered::Bad,
        EntryError::Full => Unnumbered::NamesFull,
        EntryError::OutOfMemory => Unnumbered::OutOfMemory,
    }
}

/// A kind's refusal as that of its row.
fn kind_refused(error: EntryError) -> Unnumbered
    ensures { result ≡ numbers.kind_refusal error }
{
    match error {
        EntryError::Bad => Unnumbered::Bad,
        EntryError::Full => Unnumbered::KindsFull,
        EntryError::OutOfMemory => Unnumbered::OutOfMemory,
    }
}

/// The names and kinds of rows, in order of first appearance, and the rows with their numbers.
#[derive(Drop)]
pub(crate) struct Numbered {
    pub(crate) names: NameBook,
    pub(crate) kinds: NameBook,
    pub(crate) puts: Vec<Put>,
}

/// A row with its numbers.
#[inline(always)]
fn put_at(
    names: &mut NameBook,
    seen: &mut [Option<u32>],
    kinds: &mut NameBook,
    seen_kinds: &mut [Option<u32>],
    columns: &Operations<'_>,
    place: usize,
) -> Result<Put, Unnumbered>
    requires within { place < length columns.now.sorts.now }
    requires alike { are_alike (table_of columns.now) ≡ true }
    requires few { length columns.now.sorts.now < 2 ^ 32 }
    requires walls { (names.old.limit ≤ 67108863) × (kinds.old.limit ≤ 64) }
    requires seen { AreSeen false columns.now.text.now columns.now.ends.now names.old.names seen.old }
    requires long { length seen.old ≡ length columns.now.ends.now }
    requires seen_kinds { AreSeen true columns.now.kind_text.now columns.now.kind_ends.now kinds.old.names seen_kinds.old }
    requires kinds_long { length seen_kinds.old ≡ length columns.now.kind_ends.now }
    ensures put { IfOk result (λ p. Takes (table_of columns.now) place names.old kinds.old p names.new kinds.new) }
    ensures seen { OnOk result (AreSeen false columns.now.text.now columns.now.ends.now names.new.names seen.new) }
    ensures seen_kinds { OnOk result (AreSeen true columns.now.kind_text.now columns.now.kind_ends.now kinds.new.names seen_kinds.new) }
    ensures refused { IfErr result (RefusesNumbers (table_of columns.now) place names.old kinds.old) }
{
    if !is_sound(columns, place) {
        return Err(Unnumbered::Bad);
    }
    let (text, ends) = (columns.text, columns.ends);
    let source = match entry_number(names, seen, text, ends, false, columns.sources[place]) {
        Ok(source) => source,
        Err(error) => return Err(vertex_refused(error)),
    };
    let target = match entry_number(names, seen, text, ends, false, columns.targets[place]) {
        Ok(target) => target,
        Err(error) => return Err(vertex_refused(error)),
    };
    let (text, ends, entry) = (columns.kind_text, columns.kind_ends, columns.kinds[place]);
    let kind = match entry_number(kinds, seen_kinds, text, ends, true, entry) {
        Ok(kind) => kind,
        Err(error) => return Err(kind_refused(error)),
    };
    Ok(Put {
        source,
        target,
        place: place as u32,
        kind: KindId(kind as u8),
    })
}

/// So many numbers, none of which is noted yet.
fn unseen(alloc: Global, count: usize) -> Result<Vec<Option<u32>>, AllocError>
    ensures { IfOk result (λ seen. seen.items ≡ replicate count None) }
{
    vec![in alloc; None; count]
}

/// The rows with their numbers, as far as they are operations whose names fit. If one isn't, its place is told with the error.
pub(crate) fn number_rows(
    alloc: Global,
    limits: Limits,
    columns: &Operations<'_>,
) -> Result<Numbered, (usize, OpenColumnsError)>
    requires alike { are_alike (table_of columns.now) ≡ true }
    ensures taken { IfOk result (λ r. (ops : List NamedOp) × AreTaken limits (table_of columns.now) (length columns.now.sorts.now) ops
        × (graph_of_puts (table_of columns.now) limits r.names.names r.kinds.names r.puts.items ≡ after_all ops (empty_graph_in limits))) }
    ensures limits { IfOk result (λ r. (r.names.limit ≡ limits.names) × (r.kinds.limit ≡ limits.kinds)) }
    ensures puts { IfOk result (λ r. All (IsPut (table_of columns.now)) r.puts.items) }
    ensures refused { IfErr result (λ e. RefusesRows limits (table_of columns.now) e.0 e.1) }
{
    let none = (0, OpenColumnsError::OutOfMemory);
    let count = columns.sorts.len();
    if count > u32::MAX as usize {
        return Err(none);
    }
    let Ok(mut noted) = unseen(alloc, columns.ends.len()) else {
        return Err(none);
    };
    let Ok(mut noted_kinds) = unseen(alloc, columns.kind_ends.len()) else {
        return Err(none);
    };
    let Ok(mut puts) = Vec::with_capacity(alloc, count) else {
        return Err(none);
    };
    let mut names = NameBook::new(alloc, limits.names());
    let mut kinds = NameBook::new(alloc, limits.kinds());
    let (seen, seen_kinds) = (noted.as_mut_slice(), noted_kinds.as_mut_slice());
    for place in 0..count {
        match put_at(&mut names, seen, &mut kinds, seen_kinds, columns, place) {
            Ok(put) => {
                let Ok(()) = puts.push(put) else {
                    return Err(none);
                };
            }
            Err(why) => return Err(refused_row(columns, place, why)),
        }
    }
    Ok(Numbered { names, kinds, puts })
}

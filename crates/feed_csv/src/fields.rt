// The fields of a record.

ghost use Rattle.std.specs.Prelude.{◌≡◌, MatchResult, Ok, Err, option_map};
ghost use Rattle.csv.specs.Records.{fields_of};
ghost use Rattle.feed_csv.specs.Fields as spec;

use crate::{FeedWord, number};
use csv::ByteRecord;
use graph_types::{is_kind_name_bytes, is_name_bytes};

// The field at a place counted from 0; where the record has no such field, no bytes.
pub(crate) fn field(row: &ByteRecord, place: usize) -> &[u8]
    ensures { result.now ≡ spec.field (fields_of row.now) place }
{
    match row.get(place) {
        Some(field) => field,
        None => &[],
    }
}

// (each byte is looked at once: a name is ASCII, and so text)
#[tactic(auto, using(graph_types::proofs::NameTexts::is_name_text), unfolding(crate::specs::Fields::name_at))]
pub(crate) fn name_at(row: &ByteRecord, place: usize) -> Result<&str, FeedWord>
    ensures { let rule = spec.name_at (fields_of row.now) place in
        MatchResult result (λ text. rule ≡ Ok text.now) (λ word. rule ≡ Err word) }
{
    let name = field(row, place);
    if is_name_bytes(name) {
        Ok(unsafe { str::from_utf8_unchecked(name) })
    } else {
        Err(FeedWord::BadName)
    }
}

#[tactic(auto, using(graph_types::proofs::NameTexts::is_kind_name_text), unfolding(crate::specs::Fields::kind_at))]
pub(crate) fn kind_at(row: &ByteRecord, place: usize) -> Result<&str, FeedWord>
    ensures { let rule = spec.kind_at (fields_of row.now) place in
        MatchResult result (λ text. rule ≡ Ok text.now) (λ word. rule ≡ Err word) }
{
    let kind = field(row, place);
    if is_kind_name_bytes(kind) {
        Ok(unsafe { str::from_utf8_unchecked(kind) })
    } else {
        Err(FeedWord::BadName)
    }
}

// The kind, or none for `*`.
#[tactic(auto, unfolding(crate::specs::Fields::any_kind_at, crate::specs::Fields::kind_at))]
pub(crate) fn any_kind_at(row: &ByteRecord, place: usize) -> Result<Option<&str>, FeedWord>
    ensures { let rule = spec.any_kind_at (fields_of row.now) place in
        MatchResult result (λ kind. rule ≡ Ok (option_map (λ text. text.now) kind)) (λ word. rule ≡ Err word) }
{
    if field(row, place) == b"*".as_slice() {
        return Ok(None);
    }
    let kind = kind_at(row, place)?;
    Ok(Some(kind))
}

#[tactic(auto, unfolding(crate::specs::Fields::weight_at))]
pub(crate) fn weight_at(row: &ByteRecord, place: usize) -> Result<i64, FeedWord>
    ensures { result ≡ spec.weight_at (fields_of row.now) place }
{
    number::weight(field(row, place)).ok_or(FeedWord::BadWeight)
}

#[tactic(auto, unfolding(crate::specs::Fields::time_at))]
pub(crate) fn time_at(row: &ByteRecord, place: usize) -> Result<u64, FeedWord>
    ensures { result ≡ spec.time_at (fields_of row.now) place }
{
    number::time(field(row, place)).ok_or(FeedWord::BadTime)
}

#[tactic(auto, unfolding(crate::specs::Fields::slot_at))]
pub(crate) fn slot_at(row: &ByteRecord, place: usize) -> Result<u8, FeedWord>
    ensures { result ≡ spec.slot_at (fields_of row.now) place }
{
    number::slot(field(row, place)).ok_or(FeedWord::BadSlot)
}

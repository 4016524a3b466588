//! Why a row isn't taken, as it is told.

ghost use Rattle.std.specs.Prelude.{◌≡◌, ◌<◌, length, true};
ghost use Rattle.graph_types.specs.Valid.{are_names};
ghost use Rattle.vertex_names.specs.Book.{Book};
ghost use Rattle.batch_columns.specs.Operations.{table_of, are_alike};
ghost use Rattle.opening_columns.specs.Numbers as numbers;
ghost use Rattle.graph_types.specs.Limits.{LimitsView};
ghost use Rattle.opening_columns.specs.Numbers.{RefusesAt, RefusesNumbers, RefusesRows, ReportsRow};

use crate::errors::OpenColumnsError;
use crate::numbering::Unnumbered;
use batch_columns::{InsertError, Operations, name_at};
use graph_types::{MOST_WEIGHT, PushError, is_kind_name_bytes, is_name_bytes};

/// Whether these name a kind and two vertices.
fn are_names(kind: &[u8], source: &[u8], target: &[u8]) -> bool
    ensures { result ≡ are_names kind.now source.now target.now }
{
    is_kind_name_bytes(kind) && is_name_bytes(source) && is_name_bytes(target)
}

/// What an operation of these is refused for.
fn values_error(
    kind: &[u8],
    source: &[u8],
    target: &[u8],
    weight: i64,
    time: u64,
) -> Option<PushError>
    ensures { result ≡ numbers.values_refusal kind.now source.now target.now weight time }
{
    if !are_names(kind, source, target) {
        return Some(PushError::BadName);
    }
    if weight.unsigned_abs() > MOST_WEIGHT {
        return Some(PushError::BadWeight);
    }
    if time >= 1 << 63 {
        return Some(PushError::BadTime);
    }
    None
}

/// What the operation at a place is refused for.
fn row_error(columns: &Operations<'_>, place: usize) -> Option<InsertError>
    requires within { place < length columns.now.sorts.now }
    requires alike { are_alike (table_of columns.now) ≡ true }
    ensures { result ≡ numbers.row_refusal (table_of columns.now) place }
{
    if columns.sorts[place] > 1 {
        return Some(InsertError::BadNumber);
    }
    let Some(kind) = name_at(columns.kind_text, columns.kind_ends, columns.kinds[place]) else {
        return Some(InsertError::BadNumber);
    };
    let Some(source) = name_at(columns.text, columns.ends, columns.sources[place]) else {
        return Some(InsertError::BadNumber);
    };
    let Some(target) = name_at(columns.text, columns.ends, columns.targets[place]) else {
        return Some(InsertError::BadNumber);
    };
    match values_error(
        kind,
        source,
        target,
        columns.weights[place],
        columns.times[place],
    ) {
        Some(error) => Some(InsertError::Refused(error)),
        None => None,
    }
}

/// What is told of a row that is a valid operation.
fn full_error(why: Unnumbered) -> OpenColumnsError
    ensures { result ≡ numbers.full_error why }
{
    match why {
        Unnumbered::KindsFull => OpenColumnsError::KindsFull,
        _ => OpenColumnsError::NamesFull,
    }
}

/// What is told of a row that has no numbers, unless memory ran out.
fn told(columns: &Operations<'_>, place: usize, why: Unnumbered) -> OpenColumnsError
    requires within { place < length columns.now.sorts.now }
    requires alike { are_alike (table_of columns.now) ≡ true }
    requires known { why ≡ Unnumbered.OutOfMemory → ⊥ }
    ensures { (names kinds : Book) → RefusesNumbers (table_of columns.now) place names kinds why
        → ReportsRow (table_of columns.now) place names kinds result }
{
    if let Some(error) = row_error(columns, place) {
        return OpenColumnsError::BadOperation(error);
    }
    full_error(why)
}

/// The place and the error that are told of a row that has no numbers.
pub(crate) fn refused_row(
    columns: &Operations<'_>,
    place: usize,
    why: Unnumbered,
) -> (usize, OpenColumnsError)
    requires within { place < length columns.now.sorts.now }
    requires alike { are_alike (table_of columns.now) ≡ true }
    ensures { (limits : LimitsView) → RefusesAt limits (table_of columns.now) place why
        → RefusesRows limits (table_of columns.now) result.0 result.1 }
{
    match why {
        Unnumbered::OutOfMemory => (0, OpenColumnsError::OutOfMemory),
        _ => (place, told(columns, place, why)),
    }
}

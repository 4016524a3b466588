//! Insertions in columns.

ghost use Rattle.std.specs.Prelude.{◌≡◌, ◌≤◌, ◌<◌, ◌-◌, ◌++◌, length, option_copied, OnOk, Some};
ghost use Rattle.graph_types.specs.Limits.{most_operations};
ghost use Rattle.batch_columns.specs.Dictionaries.{name_in, insertion, IsInserted};

use crate::bytes::push_insert;
use graph_types::{Batch, PushError};
use std::alloc::Global;
use thiserror::Error;

/// Why an insertion was not appended.
#[derive(Clone, Copy, Debug, PartialEq, Eq, Error)]
pub enum InsertError {
    #[error("a number is past the dictionary, or its ends fall or leave the text")]
    BadNumber,
    #[error("{0}")]
    Refused(PushError),
}

/// The name of a number in a dictionary: the bytes of `text` from where the name before it ends to where it ends.
pub fn name_at<'a>(text: &'a [u8], ends: &[u64], number: u32) -> Option<&'a [u8]>
    ensures { option_copied result ≡ name_in text.now ends.now number }
{
    let number = number as usize;
    let end = *ends.get(number)? as usize;
    let start = if number == 0 {
        0
    } else {
        ends[number - 1] as usize
    };
    text.get(start..end)
}

/// Appends an insertion between two numbers of a dictionary, or changes nothing and tells `BadNumber`, or else what
/// [`push_insert`] does.
pub fn insert_numbers(
    alloc: Global,
    batch: &mut Batch,
    limit: usize,
    kind: &[u8],
    text: &[u8],
    ends: &[u64],
    source: u32,
    target: u32,
    weight: i64,
    time: u64,
) -> Result<(), InsertError>
    requires { limit ≤ most_operations }
    ensures { IsInserted limit (insertion kind.now weight time (name_in text.now ends.now source) (name_in text.now ends.now target))
        batch.old batch.new result }
{
    let Some(source) = name_at(text, ends, source) else {
        return Err(InsertError::BadNumber);
    };
    let Some(target) = name_at(text, ends, target) else {
        return Err(InsertError::BadNumber);
    };
    match push_insert(alloc, batch, limit, kind, source, target, weight, time) {
        Ok(()) => Ok(()),
        Err(error) => Err(InsertError::Refused(error)),
    }
}

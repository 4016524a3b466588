//! The codes of `misteluk.h`.

ghost use Rattle.std.specs.Prelude.{◌≡◌};
ghost use Rattle.misteluk_c.specs.Codes as codes;

use batch_columns::{InsertError, OperationsError};
use graph_types::PushError;
use version_columns::{ColumnError, TextError};

pub(crate) const OK: u32 = 0;

pub(crate) const MEMORY: u32 = 1;

pub(crate) const NO_HANDLE: u32 = 2;

pub(crate) const HELD_ALREADY: u32 = 3;

pub(crate) const BAD_LENGTH: u32 = 4;

pub(crate) const BAD_NAME: u32 = 5;

pub(crate) const BAD_WEIGHT: u32 = 6;

pub(crate) const BAD_TIME: u32 = 7;

pub(crate) const BAD_NUMBER: u32 = 8;

pub(crate) const BAD_BLOCKS: u32 = 9;

pub(crate) const BATCH_FULL: u32 = 10;

pub(crate) const BATCHES_FULL: u32 = 11;

pub(crate) const NAMES_FULL: u32 = 12;

pub(crate) const KINDS_FULL: u32 = 13;

pub(crate) const BLOCKS_FULL: u32 = 14;

pub(crate) const NO_SEAT: u32 = 15;

pub(crate) const NO_VERTEX: u32 = 16;

pub(crate) const NO_KIND: u32 = 17;

pub(crate) const NO_EDGE: u32 = 18;

pub(crate) const BAD_LIMITS: u32 = 19;

pub(crate) const NOT_EMPTY: u32 = 20;

pub(crate) const BAD_SIZE: u32 = 21;

/// What a call about columns is told by.
pub(crate) fn columns_code(answer: Result<(), ColumnError>) -> u32
    ensures { result ≡ codes.columns_code answer }
{
    match answer {
        Ok(()) => OK,
        Err(error) => column_code(error),
    }
}

/// What is told in place of columns.
pub(crate) fn column_code(error: ColumnError) -> u32
    ensures { result ≡ codes.column_code error }
{
    match error {
        ColumnError::NoKind => NO_KIND,
        ColumnError::NoVertex => NO_VERTEX,
        ColumnError::NoEdge => NO_EDGE,
        ColumnError::BadLength => BAD_LENGTH,
        ColumnError::OutOfMemory => MEMORY,
    }
}

/// What an operation that is to be appended is told by.
pub(crate) fn push_code(answer: Result<(), PushError>) -> u32
    ensures { result ≡ codes.push_code answer }
{
    match answer {
        Ok(()) => OK,
        Err(PushError::BadName) => BAD_NAME,
        Err(PushError::BadWeight) => BAD_WEIGHT,
        Err(PushError::BadTime) => BAD_TIME,
        Err(PushError::BatchFull) => BATCH_FULL,
        Err(PushError::OutOfMemory) => MEMORY,
    }
}

/// What an operation of columns is told by.
pub(crate) fn insert_code(error: InsertError) -> u32
    ensures { result ≡ codes.insert_code error }
{
    match error {
        InsertError::BadNumber => BAD_NUMBER,
        InsertError::Refused(error) => push_code(Err(error)),
    }
}

/// What operations in columns that aren't appended are told by.
pub(crate) fn operations_code(error: OperationsError) -> u32
    ensures { result ≡ codes.operations_code error }
{
    match error {
        OperationsError::BadLength => BAD_LENGTH,
        OperationsError::Refused(error) => insert_code(error),
        OperationsError::OutOfMemory => MEMORY,
    }
}

/// What names are told by, where there are too few of them.
pub(crate) fn names_code(missing: u32, answer: Result<(), TextError>) -> u32
    ensures { result ≡ codes.names_result_code missing answer }
{
    match answer {
        Ok(()) => OK,
        Err(TextError::Fewer) => missing,
        Err(TextError::NoRoom) => BAD_LENGTH,
    }
}

//! An opening from columns.

ghost use Rattle.std.specs.Prelude.{◌≡◌, Some, None};
ghost use Rattle.batch_columns.specs.Operations.{table_of};
ghost use Rattle.misteluk_c.specs.Held.{Asks};
ghost use Rattle.misteluk_c.specs.Desks.{held_desk, identity_in};
ghost use Rattle.misteluk_c.specs.Columns.{OpensGiven, TellsOpening};
ghost use Rattle.misteluk_c.specs.Columns as columns;

use crate::appending::{COLUMNS_SIZE, OperationColumns, operations_in};
use crate::codes::{
    BAD_LENGTH, BAD_SIZE, BLOCKS_FULL, KINDS_FULL, MEMORY, NAMES_FULL, NO_HANDLE, NOT_EMPTY, OK,
    insert_code,
};
use batch_columns::Operations;
use desk_columns::{OpenDeskError, open_columns};
use opening_columns::OpenColumnsError;
use std::alloc::Global;
use store_handles::{Handle, Held};

/// Starts a desk without vertices over with what insertions and additions make, one after another.
#[unsafe(no_mangle)]
pub extern "C" fn misteluk_desk_open_columns(
    alloc: Global,
    desk: &mut Handle,
    columns: &OperationColumns<'_>,
    done: &mut u64,
) -> u32
    ensures told { OpensGiven columns.now desk.old.held done.old desk.new.held done.new result }
    ensures identity { identity_in desk.new.held ≡ identity_in desk.old.held }
    ensures none { held_desk desk.old.held ≡ None → (desk.new.held ≡ desk.old.held) × (done.new ≡ done.old) }
{
    if columns.size != COLUMNS_SIZE {
        return BAD_SIZE;
    }
    let Some(mut held) = desk.take(alloc) else {
        return NO_HANDLE;
    };
    let code = open_by(alloc, &mut held, &operations_in(columns), done);
    desk.put(held);
    code
}

fn open_by(alloc: Global, held: &mut Held, operations: &Operations<'_>, done: &mut u64) -> u32
    ensures told { Asks (held_desk (Some held.old)) result
        (λ o. TellsOpening (table_of operations.now) o (Some held.new) result done.new) }
    ensures identity { identity_in (Some held.new) ≡ identity_in (Some held.old) }
    ensures none { held_desk (Some held.old) ≡ None → (held.new ≡ held.old) × (done.new ≡ done.old) }
{
    let Held::Desk { desk, .. } = held else {
        return NO_HANDLE;
    };
    open_columns_code(open_columns(alloc, desk, operations, done))
}

/// What columns that aren't an opening are told by.
fn refused_rows_code(error: OpenColumnsError) -> u32
    ensures { result ≡ columns.refused_rows_code error }
{
    match error {
        OpenColumnsError::BadLength => BAD_LENGTH,
        OpenColumnsError::BadOperation(error) => insert_code(error),
        OpenColumnsError::NamesFull => NAMES_FULL,
        OpenColumnsError::KindsFull => KINDS_FULL,
        OpenColumnsError::PoolEmpty { .. } => BLOCKS_FULL,
        OpenColumnsError::OutOfMemory => MEMORY,
    }
}

/// What an opening from columns is told by.
fn open_columns_code(answer: Result<(), OpenDeskError>) -> u32
    ensures { result ≡ columns.open_columns_code answer }
{
    match answer {
        Ok(()) => OK,
        Err(OpenDeskError::NotEmpty) => NOT_EMPTY,
        Err(OpenDeskError::Refused(error)) => refused_rows_code(error),
    }
}

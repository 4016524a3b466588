//! A desk that opens with what columns hold.

ghost use Rattle.batch_columns.specs.Operations.{table_of};
ghost use Rattle.desk_columns.specs.Opening.{OpensColumns};

use batch_columns::Operations;
use desk::Zero;
use opening_columns::{Made, OpenColumnsError, made_of};
use owned_desk::OwnedDesk;
use std::alloc::Global;
use thiserror::Error;

/// Why a desk doesn't open with columns.
#[derive(Clone, Copy, Debug, PartialEq, Eq, Error)]
pub enum OpenDeskError {
    #[error("the desk's graph has a vertex")]
    NotEmpty,
    #[error("{0}")]
    Refused(OpenColumnsError),
}

/// Opens a desk that has no vertex anew with what insertions and additions in columns leave of the empty graph, one after another:
/// as version 0, in as few blocks as its edges need. As after [`OwnedDesk::rebase`], nothing is retired or held, and versions that
/// were held answer on.
///
/// `done` tells the place of the first row that is refused, and else 0. After an error the desk is as it was.
///
/// ```
/// open_columns(alloc, &mut desk, &operations, &mut done)?;
/// ```
pub fn open_columns(
    alloc: Global,
    desk: &mut OwnedDesk,
    columns: &Operations<'_>,
    done: &mut u64,
) -> Result<(), OpenDeskError>
    ensures { OpensColumns (table_of columns.now) desk.old result desk.new done.new }
{
    let last = desk.desk().last();
    let (limits, is_empty) = (last.limits(), last.names().is_empty());
    *done = 0;
    if !is_empty {
        return Err(OpenDeskError::NotEmpty);
    }
    let Made { version, pool } = match made_of(alloc, limits, desk.desk().blocks(), columns, done) {
        Ok(made) => made,
        Err(error) => return Err(OpenDeskError::Refused(error)),
    };
    let Ok(zero) = Zero::of(alloc, version, pool) else {
        return Err(OpenDeskError::Refused(OpenColumnsError::OutOfMemory));
    };
    match desk.reopen_with(zero) {
        Ok(()) => Ok(()),
        Err(_) => Err(OpenDeskError::Refused(OpenColumnsError::OutOfMemory)),
    }
}

//! Why columns aren't an opening.

ghost use Rattle.std.specs.Prelude.{◌≡◌};

use batch_columns::InsertError;
use std::alloc::AllocError;
use thiserror::Error;

/// Why columns aren't an opening.
#[derive(Clone, Copy, Debug, PartialEq, Eq, Error)]
pub enum OpenColumnsError {
    #[error("the columns differ in length")]
    BadLength,
    #[error("{0}")]
    BadOperation(InsertError),
    #[error("more names than the limit")]
    NamesFull,
    #[error("more kinds than the limit")]
    KindsFull,
    #[error("{needed} blocks are needed, and there are {free}")]
    PoolEmpty { needed: u64, free: u32 },
    #[error("out of memory")]
    OutOfMemory,
}

impl From<AllocError> for OpenColumnsError {
    ghost use Rattle.opening_columns.specs.declared.errors.OpenColumnsError.TheVariants.{OutOfMemory};

    ghost from_gives = { λ _ e. e ≡ OutOfMemory };

    fn from(_refused: AllocError) -> OpenColumnsError {
        OpenColumnsError::OutOfMemory
    }
}

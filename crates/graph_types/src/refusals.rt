//! Why a batch is refused.

ghost use Rattle.std.specs.Prelude.{◌≡◌};
ghost use Rattle.graph_types.specs.declared.refusals.ApplyError.TheVariants.{OutOfMemory};

use std::alloc::{AllocError, AllocFailed};
use thiserror::Error;

/// Why a batch was refused: the first of these that holds. Out of memory may come at any place.
#[derive(Clone, Copy, Debug, PartialEq, Eq, Error)]
pub enum ApplyError {
    #[error("as many batches were applied as the limit allows")]
    BatchLimit,
    #[error("the batch would leave more vertex names than the limit allows")]
    NamesFull,
    #[error("the batch would leave more kinds than the limit allows")]
    KindsFull,
    #[error("{needed} blocks are needed and {free} are free")]
    PoolEmpty { needed: u32, free: u32 },
    #[error("out of memory")]
    OutOfMemory,
}

impl From<AllocError> for ApplyError {
    ghost from_gives = { λ _ e. e ≡ OutOfMemory };

    fn from(_error: AllocError) -> ApplyError {
        ApplyError::OutOfMemory
    }
}

impl<T: Drop> From<AllocFailed<T>> for ApplyError {
    ghost from_gives = { λ _ e. e ≡ OutOfMemory };

    fn from(_error: AllocFailed<T>) -> ApplyError {
        ApplyError::OutOfMemory
    }
}

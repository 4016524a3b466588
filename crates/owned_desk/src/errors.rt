//! Why a version wasn't held, a hold not taken back, or no pair handed out.

use std::alloc::AllocError;
use thiserror::Error;

/// Why the last version wasn't held.
#[derive(Clone, Copy, Debug, PartialEq, Eq, Error)]
pub enum HoldError {
    #[error("16 versions of other numbers are held")]
    NoSeat,
    #[error("out of memory")]
    OutOfMemory,
}

/// What is to be released isn't held.
#[derive(Clone, Copy, Debug, PartialEq, Eq, Error)]
#[error("no version of this number is held")]
pub struct ReleaseError;

/// Why no pair of held versions was handed out.
#[derive(Clone, Copy, Debug, PartialEq, Eq, Error)]
pub enum PairError {
    #[error("one of the versions isn't held")]
    NotHeld,
    #[error("the earlier version has the greater number")]
    Backwards,
    #[error("out of memory")]
    OutOfMemory,
}

impl From<AllocError> for PairError {
    ghost use Rattle.std.specs.Prelude.{◌≡◌};
    ghost use Rattle.owned_desk.specs.declared.errors.PairError.TheVariants.{OutOfMemory};

    ghost from_gives = { λ _ e. e ≡ OutOfMemory };

    fn from(_error: AllocError) -> PairError {
        PairError::OutOfMemory
    }
}

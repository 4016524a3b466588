//! What a drive tells.

ghost use Rattle.std.specs.Prelude.{◌≡◌};
ghost use Rattle.store_drive.specs.Reports.{word_of, drive_word_text};
ghost use Rattle.store_drive.specs.declared.reports.DriveWord.TheVariants.{Memory};

use std::alloc::{AllocError, AllocFailed};
use stream_store::ApplyError;
use thiserror::Error;

/// What a drive that came to its end tells.
#[derive(Clone, Copy, Debug, PartialEq, Eq)]
pub struct DriveReport {
    /// How many threads read beside the one that fed: 1 to 4.
    pub readers: usize,
    /// How many batches were applied: 64.
    pub batches: u32,
    /// How many answers were compared with the plain ones: 80 for each reader.
    pub checked: u32,
    /// How many of these differed.
    pub wrong: u32,
    /// The number of the version that a seat acquired which had learnt of the last batch's receipt.
    pub last: u64,
}

/// What a drive that came to its end tells, and how much of the feed it saw.
#[derive(Clone, Copy, Debug, PartialEq, Eq)]
pub struct DriveCounts {
    pub report: DriveReport,
    /// How many of the compared answers were of versions behind the first batch and before the last.
    pub between: u32,
    /// How many blocks the collections freed.
    pub recycled: u32,
}

/// Why a drive broke off: the store was not opened, a growth was refused, or a batch was refused for this reason.
#[derive(Clone, Copy, Debug, PartialEq, Eq, Error)]
pub enum DriveWord {
    #[error("the store can't be opened")]
    Start,
    #[error("out of memory")]
    Memory,
    #[error("65,536 batches were applied")]
    BatchLimit,
    #[error("a batch would leave more than 65,536 vertex names")]
    NamesFull,
    #[error("a batch would leave more than 64 kinds")]
    KindsFull,
    #[error("a batch asks for more blocks than are free")]
    PoolEmpty,
}

/// A drive that broke off.
#[derive(Clone, Copy, Debug, PartialEq, Eq, Error)]
#[error("{word}")]
pub struct DriveFault {
    pub word: DriveWord,
}

impl DriveFault {
    /// The word as the program writes it: its variant's name. It takes no memory.
    pub fn word(&self) -> &'static str
        ensures { result.now ≡ drive_word_text self.now.word }
    {
        match self.word {
            DriveWord::Start => "Start",
            DriveWord::Memory => "Memory",
            DriveWord::BatchLimit => "BatchLimit",
            DriveWord::NamesFull => "NamesFull",
            DriveWord::KindsFull => "KindsFull",
            DriveWord::PoolEmpty => "PoolEmpty",
        }
    }
}

impl From<AllocError> for DriveWord {
    ghost from_gives = { λ _ e. e ≡ Memory };

    fn from(_error: AllocError) -> DriveWord {
        DriveWord::Memory
    }
}

impl<T: Drop> From<AllocFailed<T>> for DriveWord {
    ghost from_gives = { λ _ e. e ≡ Memory };

    fn from(_error: AllocFailed<T>) -> DriveWord {
        DriveWord::Memory
    }
}

impl From<ApplyError> for DriveWord {
    ghost from_gives = { λ error e. e ≡ word_of error };

    fn from(error: ApplyError) -> DriveWord {
        match error {
            ApplyError::BatchLimit => DriveWord::BatchLimit,
            ApplyError::NamesFull => DriveWord::NamesFull,
            ApplyError::KindsFull => DriveWord::KindsFull,
            ApplyError::PoolEmpty { .. } => DriveWord::PoolEmpty,
            ApplyError::OutOfMemory => DriveWord::Memory,
        }
    }
}

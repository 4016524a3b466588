// Commands, and faults in their place.

ghost use Rattle.std.specs.Prelude.{◌≡◌};
ghost use Rattle.feed_csv.specs.Commands.{feed_word_text};

use graph_types::{NamedOp, Request};
use std::alloc::AllocError;
use thiserror::Error;

/// What a record of a script asks for.
#[derive(Debug, Drop)]
pub enum Command {
    /// Adds the operation to the pending batch.
    Op(NamedOp),
    /// Applies the pending batch.
    Commit,
    /// Acquires a session in this slot, which is below 16.
    OpenSlot(u8),
    /// Releases the session in this slot, which is below 16.
    CloseSlot(u8),
    /// Asks the session in this slot, which is below 16.
    Query(u8, Request),
    /// Asks for the store's counts.
    Stat,
    /// Gives back what no session and no version holds any more.
    Collect,
    /// Opens a store anew with the graph that the session in this slot, which is below 16, holds.
    Rebase(u8),
}

/// Why there is no command; where several hold of a record, the first in this order (but `Memory` at any time).
#[derive(Clone, Copy, Debug, PartialEq, Eq, Error)]
pub enum FeedWord {
    #[error("the reader failed, or 1,000,000 records were read")]
    Read,
    #[error("the first field is no command")]
    BadCommand,
    #[error("the command has another number of fields")]
    BadFields,
    #[error("a name has 1 to 64 bytes from ! to ~, and a kind is not *")]
    BadName,
    #[error("a weight is an optional - and 1 to 19 digits, from -2^40 to 2^40")]
    BadWeight,
    #[error("a time is 1 to 19 digits, at most 9223372036854775807")]
    BadTime,
    #[error("a slot is 1 to 19 digits, at most 15")]
    BadSlot,
    #[error("out of memory")]
    Memory,
}

impl From<AllocError> for FeedWord {
    ghost use Rattle.std.specs.Prelude.{◌≡◌};
    ghost use Rattle.feed_csv.specs.declared.command.FeedWord.TheVariants.{Memory};

    ghost from_gives = { λ _ word. word ≡ Memory };

    fn from(_error: AllocError) -> FeedWord {
        FeedWord::Memory
    }
}

impl FeedWord {
    /// The word as scripts' error lines have it: the variant's name. It takes no memory.
    pub fn word(self) -> &'static str
        ensures { result.now ≡ feed_word_text self }
    {
        match self {
            FeedWord::Read => "Read",
            FeedWord::BadCommand => "BadCommand",
            FeedWord::BadFields => "BadFields",
            FeedWord::BadName => "BadName",
            FeedWord::BadWeight => "BadWeight",
            FeedWord::BadTime => "BadTime",
            FeedWord::BadSlot => "BadSlot",
            FeedWord::Memory => "Memory",
        }
    }
}

/// The record of this number, counted from 1, gave no command.
#[derive(Clone, Copy, Debug, PartialEq, Eq, Error)]
#[error("record {at}: {word}")]
pub struct FeedFault {
    /// From 1: a `Feed` counts to 1,000,001, an `EndlessFeed` to 2^64 - 1, which each later record has too.
    pub at: u64,
    pub word: FeedWord,
}

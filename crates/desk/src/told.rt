//! Entries that stand in the proofs alone.

ghost use Rattle.std.specs.Prelude.{◌≡◌, ◌++◌, ◌∷◌, []};
ghost use Rattle.desk.specs.Entries.{journal_entry};

use crate::entries::JournalEntry;
use logbook::{Opening as Opens, Pens, Rule, Seen, Start};
use std::marker::Model;

/// What a list of entries has for an entry.
pub struct AnyEntry;

impl Model for AnyEntry {
    ghost use Rattle.std.specs.Prelude.{[]};
    ghost use Rattle.store_steps.specs.Journal.{Entry, Applied};

    ghost Value = { Entry };

    ghost view = { λ any. Applied [] [] [] };
}

/// Any list of entries may be told.
pub struct AnyEntries;

impl Rule<AnyEntry, u64> for AnyEntries {
    ghost use Rattle.std.specs.Prelude.{[]};
    ghost use base.Fml.{ftrue};

    ghost holds = { λ cells log. Unit {0} };

    ghost first = { [] };

    ghost hinted = { λ n log. Unit {0} };

    ghost shows = { λ log. [] };

    ghost keeps = { λ names log. ftrue };

    ghost moves = { λ ask before after answer. Unit {0} };
}

/// A list of entries that stands in the proofs alone: it takes no memory.
pub(crate) struct ToldEntries {
    seen: Seen<AnyEntry, u64, AnyEntries>,
}

// Written by hand: who lets one go rests on this function, and not on how each part is let go.
impl Drop for ToldEntries {
    fn drop(self) {
        let ToldEntries { seen: _seen } = self;
    }
}

impl Model for ToldEntries {
    ghost use Rattle.std.specs.Prelude.{List};
    ghost use Rattle.store_steps.specs.Journal.{Entry};

    ghost Value = { List Entry };

    ghost view = { λ told. told.seen.log };
}

/// A list, and an entry to be told after it.
struct Longer {
    told: ToldEntries,
    entry: JournalEntry,
}

/// A list that begins with the entry at its end.
struct OneMore;

impl Opens<Longer, AnyEntry> for OneMore {
    ghost use Rattle.std.specs.Prelude.{◌++◌, ◌∷◌, []};
    ghost use Rattle.desk.specs.Entries.{journal_entry};

    ghost log = { λ count longer. longer.told ++ journal_entry longer.entry ∷ [] };
}

impl ToldEntries {
    /// No entry.
    pub(crate) fn none() -> ToldEntries
        ensures { result ≡ [] }
    {
        let (seen, _first, _second) = Seen::open(Start::alone(), 0, 0);
        ToldEntries { seen }
    }

    /// The same list.
    pub(crate) fn share(&self) -> ToldEntries
        ensures { result ≡ self.now }
    {
        ToldEntries {
            seen: self.seen.again(),
        }
    }

    /// The list with one entry more, and the entry.
    pub(crate) fn and(self, entry: JournalEntry) -> (ToldEntries, JournalEntry)
        ensures told { result.0 ≡ self ++ journal_entry entry ∷ [] }
        ensures entry { result.1 ≡ entry }
    {
        let longer = Longer { told: self, entry };
        let (seen, _pens): (Seen<AnyEntry, u64, AnyEntries>, Pens) = Seen::open_row::<
            Longer,
            OneMore,
        >(&longer, Start::alone(), 0);
        let Longer { told: _told, entry } = longer;
        (ToldEntries { seen }, entry)
    }
}

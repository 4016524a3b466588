//! The journal: in the proofs all entries, and in memory those of a store that keeps its batches.

ghost use Rattle.std.specs.Prelude.{◌≡◌, ◌+◌, ◌<◌, ◌≤◌, ◌++◌, ◌∷◌, [], true, false, map, OnOk, vec_capacity, vec_len};
ghost use Rattle.desk.specs.Entries.{journal_entry};

use crate::entries::JournalEntry;
use crate::told::ToldEntries;
use std::alloc::{AllocError, Global};
use std::marker::Model;

/// What a desk did. Where entries aren't kept, memory has none of them.
pub(crate) struct Journal {
    keeps: bool,
    told: ToldEntries,
    kept: Vec<JournalEntry>,
}

// Written by hand: who lets one go rests on this function, and not on how each part is let go.
impl Drop for Journal {
    fn drop(self) {
        let Journal {
            keeps: _keeps,
            told: _told,
            kept: _kept,
        } = self;
    }
}

impl Model for Journal {
    ghost use Rattle.std.specs.Prelude.{◌≡◌, [], true, false, map, vec_capacity, vec_len};
    ghost use Rattle.desk.specs.Journals.{JournalView, room_of};
    ghost use Rattle.desk.specs.Entries.{journal_entry};

    ghost Value = { JournalView };

    ghost view = { λ j. record {
      keeps = j.keeps;
      entries = j.told;
      room = room_of j.keeps (vec_len j.kept) (vec_capacity j.kept);
    } };

    ghost invariant = { λ j. (j.keeps ≡ true → map journal_entry j.kept.items ≡ j.told) × (j.keeps ≡ false → j.kept.items ≡ []) };
}

impl Journal {
    /// No entry yet. It takes no memory.
    pub(crate) fn new(alloc: Global, keeps: bool) -> Journal
        ensures keeps { result.keeps ≡ keeps }
        ensures entries { result.entries ≡ [] }
    {
        Journal {
            keeps,
            told: ToldEntries::none(),
            kept: Vec::new(alloc),
        }
    }

    /// Makes room for so many entries, where they are kept.
    pub(crate) fn reserve(&mut self, more: usize) -> Result<(), AllocError>
        ensures room { OnOk result (more ≤ self.new.room) }
        ensures keeps { self.new.keeps ≡ self.old.keeps }
        ensures entries { self.new.entries ≡ self.old.entries }
        ensures grows { self.old.room ≤ self.new.room }
    {
        if self.keeps {
            self.kept.reserve(more)?;
        }
        Ok(())
    }

    /// Appends an entry, for which there is room. It takes no memory.
    pub(crate) fn enter(&mut self, entry: JournalEntry)
        requires { 0 < self.old.room }
        ensures entered { self.new.entries ≡ self.old.entries ++ journal_entry entry ∷ [] }
        ensures keeps { self.new.keeps ≡ self.old.keeps }
        ensures room { self.old.room ≤ self.new.room + 1 }
    {
        let (told, entry) = self.told.share().and(entry);
        self.told = told;
        if self.keeps {
            push(&mut self.kept, entry);
        }
    }

    /// The entries, where they are kept, and else none.
    pub(crate) fn entries(&self) -> &[JournalEntry]
        ensures kept { self.now.keeps ≡ true → map journal_entry result.now ≡ self.now.entries }
        ensures none { self.now.keeps ≡ false → result.now ≡ [] }
    {
        self.kept.as_slice()
    }
}

/// Appends an entry, for which there is room. It takes no memory.
fn push(journal: &mut Vec<JournalEntry>, entry: JournalEntry)
    requires { vec_len journal.old < vec_capacity journal.old }
    ensures entered { journal.new.items ≡ journal.old.items ++ entry ∷ [] }
    ensures len { vec_len journal.new ≡ vec_len journal.old + 1 }
    ensures capacity { vec_capacity journal.old ≤ vec_capacity journal.new }
{
    let Ok(()) = journal.push(entry) else {
        unreachable!()
    };
}

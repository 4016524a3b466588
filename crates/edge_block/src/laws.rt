//! Laws about slots, as contracts of functions that do nothing.

ghost use Rattle.edge_block.specs.Laws.{PutIsFound, TakeIsGone, AbsentIsNone, EntriesAreFound};

/// After a put a search finds the edge at its target, and at every other target what it found before.
pub fn law_put_slot()
    ensures { PutIsFound }
{}

/// After a take a search finds nothing at the target, and at every other target what it found before.
pub fn law_take_slot()
    ensures { TakeIsGone }
{}

/// A search finds nothing exactly where no slot holds the target.
pub fn law_absent()
    ensures { AbsentIsNone }
{}

/// A block's entries are what searches in it find.
pub fn law_entries()
    ensures { EntriesAreFound }
{}

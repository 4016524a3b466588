//! The rule of the shelf, and the steps that keep it.

use crate::told::Told;
use atomic_table::{Join, Split};
use crossbeam_utils::rule::{Outcome, Protocol};
use left_right::reader::Reader;
use left_right::writer::Writer;

/// The rule of the shelf: what is shown begins with all that was seen.
pub struct ShelfRule;

impl Protocol<Told, Option<Told>> for ShelfRule {
    ghost use Rattle.std.specs.Prelude.{None};
    ghost use Rattle.version_shelf.specs.Shelves.{Keeps};

    ghost holds = { Keeps };

    ghost first = { None };
}

/// What an entry or a publication tells its place: what is shown.
pub struct Look;

impl Outcome<Told, Option<Told>> for Look {
    ghost use Rattle.version_shelf.specs.Shelves.{Sees};

    ghost then = { Sees };
}

/// What a place has seen goes to another place as a copy.
pub struct Notes;

impl Split<Option<Told>> for Notes {
    ghost left = { λ v. v };

    ghost right = { λ v. v };
}

impl Join<Option<Told>> for Notes {
    ghost use Rattle.std.specs.Prelude.{None};

    ghost both = { λ v w. w };

    ghost spent = { None };
}

/// A reader's place.
pub type ReaderPlace = Reader<Told, Option<Told>, ShelfRule>;

/// The writer's place.
pub type WriterPlace = Writer<Told, (), Option<Told>, ShelfRule>;

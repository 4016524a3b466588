//! Names as a book lends them.

ghost use Rattle.std.specs.Prelude.{◌≡◌};

use crate::book::NameBook;

/// The names of a book that are still to be lent, in the order of their numbers.
#[derive(Clone, Drop)]
pub struct NameIter<'a> {
    book: &'a NameBook,
    /// The number of the next name.
    number: u32,
}

impl<'a> NameIter<'a> {
    ghost use Rattle.vertex_names.specs.Lending.{names_left};

    /// All names of a book.
    pub(crate) fn over(book: &'a NameBook) -> NameIter<'a>
        ensures { names_left result ≡ book.now.names }
    {
        NameIter { book, number: 0 }
    }
}

impl<'a> Iterator for NameIter<'a> {
    ghost use Rattle.std.specs.Iterator.{YieldsFirstRef, item_count};
    ghost use Rattle.vertex_names.specs.Lending.{names_left};

    type Item = &'a str;

    ghost next_gives = { YieldsFirstRef names_left };

    ghost remaining = { item_count names_left };

    fn next(&mut self) -> Option<&'a str> {
        let name = self.book.name_of(self.number)?;
        self.number += 1;
        Some(name)
    }
}

//! Names that a text is in.

ghost use Rattle.std.specs.Prelude.{◌≡◌};
ghost use Rattle.version_columns.specs.Searches as searches;
ghost use Rattle.version_columns.specs.Searches.{WritesNumbers};

use crate::lookups::name_of;
use vertex_names::NameBook;

/// How far names were looked at: the first that wasn't, and how many have the text.
#[derive(Clone, Copy, Debug, PartialEq, Eq)]
struct Looked {
    next: u32,
    count: usize,
}

/// Whether a text is in a name.
fn has_text(text: &[u8], name: &[u8]) -> bool
    ensures { result ≡ searches.has_text text.now name.now }
{
    let mut rest = name;
    while !rest.starts_with(text) {
        let [_, others @ ..] = rest else {
            return false;
        };
        rest = others;
    }
    true
}

/// Writes the numbers of the names from one on that have a text, as many as there is room for.
fn write_numbers(book: &NameBook, text: &[u8], from: u32, numbers: &mut [u32]) -> Looked
    ensures { WritesNumbers book.now.names text.now from result.next numbers.old numbers.new result.count }
{
    let names = book.len();
    let mut next = from;
    let mut count = 0;
    while (next as usize) < names && count < numbers.len() {
        if has_text(text, name_of(book, next)) {
            numbers[count] = next;
            count += 1;
        }
        next += 1;
    }
    Looked { next, count }
}

/// Writes the numbers of the names of a book from `*from` on that have a text as a run of their bytes, rising, as many as there is
/// room for; the empty text is in each name. `count` tells how many were written, and `*from` is then the first number that wasn't
/// looked at: how many names there are, where all were. One that is past the last name stays. It takes no memory.
pub fn write_names_like(
    book: &NameBook,
    text: &[u8],
    from: &mut u32,
    numbers: &mut [u32],
    count: &mut u64,
)
    ensures { WritesNumbers book.now.names text.now from.old from.new numbers.old numbers.new count.new }
{
    let looked = write_numbers(book, text, *from, numbers);
    *count = looked.count as u64;
    *from = looked.next;
}

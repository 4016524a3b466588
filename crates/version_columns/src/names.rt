//! Names in one text.

ghost use Rattle.std.specs.Prelude.{◌≡◌, ◌+◌, ◌≤◌, ◌++◌, length, take, drop};
ghost use Rattle.version_columns.specs.Texts.{WritesNames};

use crate::lookups::name_of;
use thiserror::Error;
use vertex_names::NameBook;

/// Why names were not written; the first that holds, in this order.
#[derive(Clone, Copy, Debug, PartialEq, Eq, Error)]
pub enum TextError {
    #[error("there are fewer names than that")]
    Fewer,
    #[error("the text has no room for the names")]
    NoRoom,
}

/// Writes the names of a book from number `first` on, one after another, as many as `ends` has places, and where each ends.
/// After a refusal the text and the ends may have anything.
pub fn write_names(
    book: &NameBook,
    first: u32,
    text: &mut [u8],
    ends: &mut [u64],
) -> Result<(), TextError>
    ensures { WritesNames book.now.names first text.old text.new ends.new result }
{
    let first = first as usize;
    let count = book.len();
    if first > count || ends.len() > count - first {
        return Err(TextError::Fewer);
    }
    let mut at = 0;
    for place in 0..ends.len() {
        let name = name_of(book, (first + place) as u32);
        if name.len() > text.len() - at {
            return Err(TextError::NoRoom);
        }
        at = put_text(text, at, name);
        ends[place] = at as u64;
    }
    Ok(())
}

/// Writes bytes from a place on, and tells the place behind them.
fn put_text(text: &mut [u8], at: usize, bytes: &[u8]) -> usize
    requires { at + length bytes.now ≤ length text.old }
    ensures bytes { take (at + length bytes.now) text.new ≡ take at text.old ++ bytes.now }
    ensures rest { drop (at + length bytes.now) text.new ≡ drop (at + length bytes.now) text.old }
    ensures end { result ≡ at + length bytes.now }
{
    let end = at + bytes.len();
    text[at..end].copy_from_slice(bytes);
    end
}

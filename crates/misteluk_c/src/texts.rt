//! What the library says of itself: its numbers, and its codes in words.

ghost use Rattle.std.specs.Prelude.{◌≡◌, ◌≤◌, length};
ghost use Rattle.misteluk_c.specs.Texts as texts;
ghost use Rattle.misteluk_c.specs.Texts.{WritesText};

use crate::codes::{BAD_LENGTH, OK};

const INTERFACE: u32 = 4;

/// The number of the interface that the header declares.
#[unsafe(no_mangle)]
pub extern "C" fn misteluk_interface() -> u32
    ensures { result ≡ 4 }
{
    INTERFACE
}

/// The version of the library: 10,000 times the major number, 100 times the minor one, and the last one.
#[unsafe(no_mangle)]
pub extern "C" fn misteluk_library_version() -> u32
    ensures { result ≡ 100 }
{
    100
}

/// Writes what a code says, with a 0 behind it.
#[unsafe(no_mangle)]
pub extern "C" fn misteluk_code_text(code: u32, text: &mut [u8]) -> u32
    ensures { WritesText (texts.code_text code) text.old text.new result }
{
    write_text(code_text(code).as_bytes(), text)
}

fn code_text(code: u32) -> &'static str
    ensures text { result.now ≡ texts.code_text code }
    ensures short { length result.now ≤ 79 }
{
    match code {
        0 => "done",
        1 => "out of memory",
        2 => "a handle holds nothing",
        3 => "a handle that is to be made holds something already",
        4 => "arrays differ in length, or one is too short",
        5 => "a name is not 1 to 64 bytes from 0x21 to 0x7E, or a kind is *",
        6 => "a weight is more than 2^40 in size",
        7 => "a time is 2^63 or later",
        8 => "an index or an end is past its dictionary, or there is no such operation",
        9 => "a desk can't have so many blocks",
        10 => "the batch is full",
        11 => "the desk has applied as many batches as its limits allow",
        12 => "there would be too many vertices",
        13 => "there would be too many kinds",
        14 => "too few blocks are free",
        15 => "16 versions are held, or the hold is none of this desk",
        16 => "there is no such vertex",
        17 => "there is no such kind",
        18 => "there is no such edge",
        19 => "a limit is 0 or too large",
        20 => "the desk has a vertex already",
        21 => "the struct has another size than any in this interface",
        _ => "this library has no such code",
    }
}

fn write_text(words: &[u8], text: &mut [u8]) -> u32
    ensures { WritesText words.now text.old text.new result }
{
    let end = words.len();
    if text.len() <= end {
        return BAD_LENGTH;
    }
    text[..end].copy_from_slice(words);
    text[end] = 0;
    OK
}

//! The page: the last bytes of lines that grow row by row.

ghost use Rattle.std.specs.Prelude.{◌≡◌, ◌++◌, OnOk, string_bytes};

use arrayvec::ArrayString;
use std::alloc::AllocError;

/// How many bytes are gathered before they go into the lines by one copy.
pub(crate) const PAGE: usize = 1024;

/// Adds a text behind the lines and the page.
#[inline(always)]
pub(crate) fn put(
    lines: &mut String,
    page: &mut ArrayString<PAGE>,
    text: &str,
) -> Result<(), AllocError>
    ensures { OnOk result
        (string_bytes lines.new ++ page.new.bytes ≡ (string_bytes lines.old ++ page.old.bytes) ++ text.now) }
{
    if text.len() <= page.remaining_capacity() {
        page.push_str(text);
        return Ok(());
    }
    turn(lines, page, text)
}

/// Adds the page and a text to the lines, and leaves the page empty.
#[cold]
#[inline(never)]
fn turn(lines: &mut String, page: &mut ArrayString<PAGE>, text: &str) -> Result<(), AllocError>
    ensures { OnOk result
        (string_bytes lines.new ++ page.new.bytes ≡ (string_bytes lines.old ++ page.old.bytes) ++ text.now) }
{
    flush(lines, page)?;
    page.clear();
    lines.push_str(text)
}

/// Adds the page to the lines.
pub(crate) fn flush(lines: &mut String, page: &ArrayString<PAGE>) -> Result<(), AllocError>
    ensures { OnOk result (string_bytes lines.new ≡ string_bytes lines.old ++ page.now.bytes) }
{
    lines.push_str(page.as_str())
}

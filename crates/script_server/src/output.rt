//! Texts to the writer. A call here gives up exactly where the sink has failed, and then the sink takes no other. No
//! memory is taken here.

ghost use Rattle.std.specs.Prelude.{◌≡◌, ◌++◌, false, true, is_err, OnOk, OnErr};
ghost use Rattle.std.specs.Io.KnownBytes.{Appends};
ghost use Rattle.script_lines.specs.Lines as lines_of;
ghost use Rattle.script_server.specs.Writes.{AppendsPart, held};

use crate::sink::{Sink, Unwritten};
use arrayvec::ArrayString;
use itoa::Buffer;
use script_lines::Word;
use std::io::Write;

// Room for a line that is built on the stack: the longest has 39 bytes.
const LINE_ROOM: usize = 64;

/// Writes a text, by as many writes as it takes.
pub(crate) fn put<W: Write>(sink: &mut Sink<'_, W>, text: &str) -> Result<(), Unwritten>
    requires working { sink.old.failed ≡ false }
    ensures same_writer { sink.new.writer.ghost_name ≡ sink.old.writer.ghost_name }
    ensures failed { sink.new.failed ≡ is_err result }
    ensures whole { OnOk result (Appends (held W.contents sink.old) (held W.contents sink.new) text.now) }
    ensures part { OnErr result (AppendsPart (held W.contents sink.old) (held W.contents sink.new) text.now) }
{
    let bytes = text.as_bytes();
    let mut at = 0;
    while at < bytes.len() {
        at += sink.write(&bytes[at..])?;
    }
    Ok(())
}

/// Writes a text and then its end, and flushes.
///
/// `Unwritten` where a write failed or took nothing, or the flush failed: then a first part of the two stands in the writer, and
/// nothing more is written.
pub fn write_text<W: Write>(writer: &mut W, text: &str, end: &str) -> Result<(), Unwritten>
    ensures whole { OnOk result (Appends (W.contents writer.old) (W.contents writer.new) (text.now ++ end.now)) }
    ensures part { OnErr result (AppendsPart (W.contents writer.old) (W.contents writer.new) (text.now ++ end.now)) }
{
    put_both(&mut Sink::over(writer), text, end)
}

/// The same over a sink.
fn put_both<W: Write>(sink: &mut Sink<'_, W>, text: &str, end: &str) -> Result<(), Unwritten>
    requires working { sink.old.failed ≡ false }
    ensures same_writer { sink.new.writer.ghost_name ≡ sink.old.writer.ghost_name }
    ensures whole { OnOk result (Appends (held W.contents sink.old) (held W.contents sink.new) (text.now ++ end.now)) }
    ensures part { OnErr result (AppendsPart (held W.contents sink.old) (held W.contents sink.new) (text.now ++ end.now)) }
{
    put(sink, text)?;
    put_flushed(sink, end)
}

/// Writes a text, by as many writes as it takes, and flushes.
fn put_flushed<W: Write>(sink: &mut Sink<'_, W>, text: &str) -> Result<(), Unwritten>
    requires working { sink.old.failed ≡ false }
    ensures same_writer { sink.new.writer.ghost_name ≡ sink.old.writer.ghost_name }
    ensures failed { sink.new.failed ≡ is_err result }
    ensures flushed { OnOk result (sink.new.flushed ≡ true) }
    ensures whole { OnOk result (Appends (held W.contents sink.old) (held W.contents sink.new) text.now) }
    ensures part { OnErr result (AppendsPart (held W.contents sink.old) (held W.contents sink.new) text.now) }
{
    put(sink, text)?;
    sink.flush()
}

/// Writes an error line, by one write where the writer takes it whole.
pub(crate) fn error_line<W: Write>(
    sink: &mut Sink<'_, W>,
    number: u64,
    word: Word,
) -> Result<(), Unwritten>
    requires working { sink.old.failed ≡ false }
    ensures same_writer { sink.new.writer.ghost_name ≡ sink.old.writer.ghost_name }
    ensures failed { sink.new.failed ≡ is_err result }
    ensures whole { OnOk result (Appends (held W.contents sink.old) (held W.contents sink.new)
        (lines_of.error_line number word)) }
    ensures part { OnErr result (AppendsPart (held W.contents sink.old) (held W.contents sink.new)
        (lines_of.error_line number word)) }
{
    put(sink, error_text(number, word).as_str())
}

/// Writes the line on pending operations, if there are any, by one write where the writer takes it whole, and flushes.
pub(crate) fn end_line<W: Write>(sink: &mut Sink<'_, W>, pending: usize) -> Result<(), Unwritten>
    requires working { sink.old.failed ≡ false }
    ensures same_writer { sink.new.writer.ghost_name ≡ sink.old.writer.ghost_name }
    ensures failed { sink.new.failed ≡ is_err result }
    ensures flushed { OnOk result (sink.new.flushed ≡ true) }
    ensures whole { OnOk result (Appends (held W.contents sink.old) (held W.contents sink.new)
        (lines_of.end_line pending)) }
    ensures part { OnErr result (AppendsPart (held W.contents sink.old) (held W.contents sink.new)
        (lines_of.end_line pending)) }
{
    put_flushed(sink, end_text(pending).as_str())
}

/// Writes the error line that ends a run, and flushes.
pub(crate) fn last_line<W: Write>(
    sink: &mut Sink<'_, W>,
    number: u64,
    word: Word,
) -> Result<(), Unwritten>
    requires working { sink.old.failed ≡ false }
    ensures same_writer { sink.new.writer.ghost_name ≡ sink.old.writer.ghost_name }
    ensures failed { sink.new.failed ≡ is_err result }
    ensures flushed { OnOk result (sink.new.flushed ≡ true) }
    ensures whole { OnOk result (Appends (held W.contents sink.old) (held W.contents sink.new)
        (lines_of.error_line number word)) }
    ensures part { OnErr result (AppendsPart (held W.contents sink.old) (held W.contents sink.new)
        (lines_of.error_line number word)) }
{
    put_flushed(sink, error_text(number, word).as_str())
}

/// The error line of a record.
fn error_text(number: u64, word: Word) -> ArrayString<LINE_ROOM>
    ensures { result.bytes ≡ lines_of.error_line number word }
{
    let mut digits = Buffer::new();
    let mut line = ArrayString::new();
    line.push_str("error ");
    line.push_str(digits.format(number));
    line.push_str(" ");
    line.push_str(word.text());
    line.push_str("\n");
    line
}

/// The line on so many pending operations, and nothing where there are none.
fn end_text(pending: usize) -> ArrayString<LINE_ROOM>
    ensures { result.bytes ≡ lines_of.end_line pending }
{
    let mut line = ArrayString::new();
    if pending > 0 {
        let mut digits = Buffer::new();
        line.push_str("end pending=");
        line.push_str(digits.format(pending));
        line.push_str("\n");
    }
    line
}

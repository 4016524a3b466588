//! The writer of a run, with a mark for a call of it that failed, and one for a flush after the last write. The trait
//! `Write` has no word for such calls: that the marks are set where one failed, or flushed, and nowhere else, is to be
//! read in the two calls below, and proved from there on. No other module sees the fields.

ghost use Rattle.std.specs.Prelude.{◌≡◌, ◌<◌, ◌≤◌, false, true, is_err, length, IfOk, OnOk};
ghost use Rattle.std.specs.Io.KnownBytes.{Keeps, WriteAppends};
ghost use Rattle.script_server.specs.Writes.{held};

use std::io::Write;

/// The writer of a run, with a mark for a call of it that failed, and one for a flush after its last write. Contracts see the
/// marks and the bytes that the writer holds; a run is the only one that writes to it, and takes no memory for that.
#[derive(Drop)]
pub struct Sink<'w, W> {
    writer: &'w mut W,
    // A write failed or took nothing, or a flush failed.
    failed: bool,
    // A flush succeeded, and nothing was written since.
    flushed: bool,
}

impl<'w, W: Write> Sink<'w, W> {
    /// The writer, of which no call has failed, and which was not flushed. It writes nothing and takes no memory.
    pub fn over(writer: &'w mut W) -> Sink<'w, W>
        ensures same_writer { result.writer.ghost_name ≡ writer.entry.ghost_name }
        ensures held { result.writer.now ≡ writer.old }
        ensures working { result.failed ≡ false }
        ensures unflushed { result.flushed ≡ false }
    {
        Sink {
            writer,
            failed: false,
            flushed: false,
        }
    }

    /// Writes some of the bytes, at least one, and answers how many.
    pub(crate) fn write(&mut self, bytes: &[u8]) -> Result<usize, Unwritten>
        requires some { 0 < length bytes.now }
        requires working { self.old.failed ≡ false }
        ensures same_writer { self.new.writer.ghost_name ≡ self.old.writer.ghost_name }
        ensures count { IfOk result (λ n. (0 < n) × (n ≤ length bytes.now)) }
        ensures bytes { WriteAppends (held W.contents self.old) (held W.contents self.new) result bytes.now }
        ensures failed { self.new.failed ≡ is_err result }
    {
        self.flushed = false;
        match self.writer.write(bytes) {
            Ok(n) if n > 0 => Ok(n),
            _ => {
                self.failed = true;
                Err(Unwritten)
            }
        }
    }

    /// Flushes the writer.
    pub(crate) fn flush(&mut self) -> Result<(), Unwritten>
        requires working { self.old.failed ≡ false }
        ensures same_writer { self.new.writer.ghost_name ≡ self.old.writer.ghost_name }
        ensures bytes { Keeps (held W.contents self.old) (held W.contents self.new) }
        ensures failed { self.new.failed ≡ is_err result }
        ensures flushed { OnOk result (self.new.flushed ≡ true) }
    {
        match self.writer.flush() {
            Ok(()) => {
                self.flushed = true;
                Ok(())
            }
            Err(_) => {
                self.failed = true;
                Err(Unwritten)
            }
        }
    }
}

/// A call of the writer failed, and it takes no other.
#[derive(Clone, Copy, Debug, PartialEq, Eq)]
pub struct Unwritten;

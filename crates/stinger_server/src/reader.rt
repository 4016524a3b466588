//! The reader.

ghost use Rattle.std.specs.Prelude.{◌≡◌};

use crate::meter::Meter;
use std::io;
use std::io::{Read, Write};
use std::marker::Model;
use std::time::{Clock, Instant};

/// Gives what the reader below it gives, byte for byte and error for error, and shows meanwhile how far it has come: one line on a
/// writer, written over after 200 ms at the soonest and taken away at the end, when the reader is let go. Contracts see the bytes
/// that are left of the reader below.
///
/// The line tells of lines, megabytes, `commit` records and seconds. It is shown between reads alone, and nothing is shown in the
/// first 200 ms; no clause speaks of it. It is meant for a terminal: it begins with a carriage return, and ends with ECMA-48's
/// sequence that erases the rest of the line.
pub struct ProgressReader<'a, C: Clock, R: Read + Drop, W: Write + Drop> {
    clock: &'a C,
    reader: R,
    meter: Option<Meter<W>>,
}

impl<'a, C: Clock, R: Read + Drop, W: Write + Drop> Model for ProgressReader<'a, C, R, W> {
    ghost use Rattle.std.specs.Prelude.{ℕ, List, Option};

    ghost Value = { Option (List ℕ) };

    ghost view = { λ r. R.remaining r.reader };
}

impl<'a, C: Clock, R: Read + Drop, W: Write + Drop> Drop for ProgressReader<'a, C, R, W> {
    fn drop(self) {
        let ProgressReader {
            clock: _,
            reader: _reader,
            meter,
        } = self;
        if let Some(mut meter) = meter {
            meter.clear();
        }
    }
}

impl<'a, C: Clock, R: Read + Drop, W: Write + Drop> ProgressReader<'a, C, R, W> {
    /// A reader of what the given one has left, that shows on the writer how far it has come. Nothing is ever shown where there is
    /// no writer, or where the clock can't be read.
    pub fn over(clock: &'a C, reader: R, writer: Option<W>) -> ProgressReader<'a, C, R, W>
        ensures { result ≡ R.remaining reader }
    {
        ProgressReader {
            clock,
            reader,
            meter: meter_from_now(clock, writer),
        }
    }
}

fn meter_from_now<W: Write + Drop>(clock: &impl Clock, writer: Option<W>) -> Option<Meter<W>> {
    let writer = writer?;
    match Instant::now(clock) {
        Ok(now) => Some(Meter::new(writer, now)),
        Err(_) => None,
    }
}

impl<'a, C: Clock, R: Read + Drop, W: Write + Drop> Read for ProgressReader<'a, C, R, W> {
    ghost remaining = { λ r. r };

    fn read(&mut self, buf: &mut [u8]) -> io::Result<usize> {
        let read = self.reader.read(buf)?;
        if let Some(meter) = &mut self.meter {
            meter.note(self.clock, &buf[..read]);
        }
        Ok(read)
    }
}

//! What is shown, and when.

use crate::count::Count;
use crate::line::{Line, NO_LINE};
use std::fmt::InlineText;
use std::io::Write;
use std::time::{Clock, Instant};

// For how many milliseconds a line stands before the next one is shown, and how long nothing is shown at first.
const PAUSE: u128 = 200;

// The longest line has 113 bytes.
const LINE_ROOM: usize = 128;

/// What was read since a start, and the stream on which it is shown.
#[derive(Drop)]
pub(crate) struct Meter<W: Write> {
    writer: W,
    start: Instant,
    last: Instant,
    count: Count,
    is_shown: bool,
}

impl<W: Write> Meter<W> {
    pub(crate) fn new(writer: W, start: Instant) -> Meter<W> {
        Meter {
            writer,
            start,
            last: start,
            count: Count::none(),
            is_shown: false,
        }
    }

    /// Counts the bytes that were read next, and shows a line where the last one has stood for its time. A clock that can't be read,
    /// or a write that fails, shows nothing.
    pub(crate) fn note(&mut self, clock: &impl Clock, bytes: &[u8]) {
        self.count.note(bytes);
        let Ok(now) = Instant::now(clock) else {
            return;
        };
        if now.duration_since(self.last).as_millis() >= PAUSE {
            self.last = now;
            self.show(now);
        }
    }

    fn show(&mut self, now: Instant) {
        let line = Line {
            count: self.count,
            elapsed: now.duration_since(self.start),
        };
        self.is_shown = true;
        self.write(InlineText::<LINE_ROOM>::of(line).as_str());
    }

    /// Takes the line away where one was shown.
    pub(crate) fn clear(&mut self) {
        if self.is_shown {
            self.is_shown = false;
            self.write(NO_LINE);
        }
    }

    fn write(&mut self, text: &str) {
        let _ = self.writer.write_all(text.as_bytes());
    }
}

//! The line that is shown.

use crate::count::Count;
use std::fmt;
use std::time::Duration;

// The line is taken away: the place is its first column, and nothing stands behind that ("erase in line" of ECMA-48).
pub(crate) const NO_LINE: &str = "\r\x1b[K";

/// How far a reader has come in so much time.
#[derive(Drop)]
pub(crate) struct Line {
    pub(crate) count: Count,
    pub(crate) elapsed: Duration,
}

impl fmt::Display for Line {
    fn fmt<W: fmt::Write>(&self, f: &mut fmt::Formatter<W>) -> fmt::Result {
        let lines = self.count.lines;
        let commits = self.count.commits;
        let megabytes = self.count.bytes / 1_000_000;
        let tenth = self.count.bytes / 100_000 % 10;
        let seconds = self.elapsed.as_secs();
        write!(
            f,
            "\rreading: {lines} lines, {megabytes}.{tenth} MB, {commits} commits, {seconds} s\x1b[K"
        )
    }
}

//! What was read so far.

ghost use Rattle.std.specs.Prelude.{◌≡◌, ◌+◌, ◌-◌, ◌^◌, ◌==◌, count_by, length, min};

const LINE_FEED: u8 = b'\n';

// The record that applies a batch.
const COMMIT: [u8; 6] = *b"commit";

// Where a line has other bytes than those of `COMMIT`.
const OTHER: usize = 7;

/// How many bytes were read, how many line feeds are among them, and how many of the lines are `commit`, but for a carriage return
/// before the line feed. None of them goes on past the greatest number of 64 bits.
#[derive(Clone, Copy, Debug, PartialEq, Eq)]
pub(crate) struct Count {
    pub(crate) bytes: u64,
    pub(crate) lines: u64,
    pub(crate) commits: u64,
    // How many bytes of `COMMIT` the line has that goes on, or `OTHER`.
    matched: usize,
}

impl Count {
    /// Nothing was read.
    pub(crate) fn none() -> Count
        ensures { result ≡ record { bytes = 0; lines = 0; commits = 0; matched = 0 } }
    {
        Count {
            bytes: 0,
            lines: 0,
            commits: 0,
            matched: 0,
        }
    }

    /// Counts the bytes that were read next.
    pub(crate) fn note(&mut self, bytes: &[u8])
        ensures bytes { self.new.bytes ≡ min (self.old.bytes + length bytes.now) (2 ^ 64 - 1) }
        ensures lines { self.new.lines ≡ min (self.old.lines + count_by (λ byte. byte == 10) bytes.now) (2 ^ 64 - 1) }
    {
        self.bytes = self.bytes.saturating_add(bytes.len() as u64);
        self.lines = self.lines.saturating_add(line_feeds(bytes) as u64);
        self.note_commits(bytes);
    }

    fn note_commits(&mut self, bytes: &[u8])
        ensures bytes { self.new.bytes ≡ self.old.bytes }
        ensures lines { self.new.lines ≡ self.old.lines }
    {
        for byte in bytes {
            self.note_byte(*byte);
        }
    }

    fn note_byte(&mut self, byte: u8)
        ensures bytes { self.new.bytes ≡ self.old.bytes }
        ensures lines { self.new.lines ≡ self.old.lines }
    {
        let is_commit = self.matched == COMMIT.len();
        if byte == LINE_FEED {
            self.commits = self.commits.saturating_add(u64::from(is_commit));
            self.matched = 0;
        } else if self.matched < COMMIT.len() && byte == COMMIT[self.matched] {
            self.matched += 1;
        } else if !(is_commit && byte == b'\r') {
            self.matched = OTHER;
        }
    }
}

fn line_feeds(bytes: &[u8]) -> usize
    ensures { result ≡ count_by (λ byte. byte == 10) bytes.now }
{
    bytes.iter().filter(|byte| **byte == LINE_FEED).count()
}

//! Counts of outcomes.

ghost use Rattle.std.specs.Prelude.{◌≡◌, ◌∷◌, []};
ghost use Rattle.desk_counts.specs.Counted.{with_outcomes, none_counted};

use graph_types::Outcome;

/// The number of the last version, and what became of operations: each is counted once, but an expiry, which counts the edges that
/// it took away. Each number is one modulo 2^64.
#[derive(Clone, Copy, Debug, PartialEq, Eq)]
#[repr(C)]
pub struct Counts {
    pub version: u64,
    pub inserted: u64,
    pub updated: u64,
    pub removed: u64,
    pub absent: u64,
    pub overflowed: u64,
    pub expired: u64,
}

impl Counts {
    /// Nothing is counted yet, at the version with this number.
    pub fn none(version: u64) -> Counts
        ensures { result ≡ none_counted version }
    {
        Counts {
            version,
            inserted: 0,
            updated: 0,
            removed: 0,
            absent: 0,
            overflowed: 0,
            expired: 0,
        }
    }

    /// With one outcome more.
    fn with(mut self, outcome: Outcome) -> Counts
        ensures { result ≡ with_outcomes self self.version (outcome ∷ []) }
    {
        match outcome {
            Outcome::Inserted => self.inserted = self.inserted.wrapping_add(1),
            Outcome::Updated => self.updated = self.updated.wrapping_add(1),
            Outcome::Removed => self.removed = self.removed.wrapping_add(1),
            Outcome::Absent => self.absent = self.absent.wrapping_add(1),
            Outcome::Overflow => self.overflowed = self.overflowed.wrapping_add(1),
            Outcome::Expired(count) => self.expired = self.expired.wrapping_add(count),
        }
        self
    }

    /// With the outcomes of a batch more, which left the version with this number.
    pub fn with_all(self, version: u64, outcomes: &[Outcome]) -> Counts
        ensures { result ≡ with_outcomes self version outcomes.now }
    {
        let mut counts = Counts { version, ..self };
        for outcome in outcomes {
            counts = counts.with(*outcome);
        }
        counts
    }
}

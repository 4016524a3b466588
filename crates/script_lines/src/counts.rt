//! How many of a batch's operations had each outcome.

ghost use Rattle.std.specs.Prelude.{◌≡◌, ◌+◌, ◌<◌, ◌^◌, ◌||◌, count_by, if◌then◌else◌, sum_by};
ghost use Rattle.std.specs.List.{list_any};
ghost use Rattle.graph_types.specs.declared.batches.Outcome.TheVariants.{Inserted, Updated, Removed, Absent, Overflow};
ghost use Rattle.graph_types.specs.Outcomes.{expired_in};
ghost use Rattle.script_lines.specs.Lines.{is_expired, is_outcome};

use graph_types::Outcome;

/// How many outcomes there are of each kind, and how many edges expiries removed.
#[derive(Clone, Copy)]
pub(crate) struct Counts {
    pub(crate) inserted: usize,
    pub(crate) updated: usize,
    pub(crate) removed: usize,
    pub(crate) absent: usize,
    pub(crate) overflow: usize,
    pub(crate) has_expiry: bool,
    pub(crate) expired: u128,
}

impl Counts {
    /// With one more outcome.
    fn with(self, outcome: Outcome) -> Counts
        requires room { (self.inserted + 1 < 2 ^ 64) × (self.updated + 1 < 2 ^ 64) × (self.removed + 1 < 2 ^ 64)
            × (self.absent + 1 < 2 ^ 64) × (self.overflow + 1 < 2 ^ 64) × (self.expired + 2 ^ 64 < 2 ^ 128) }
        ensures inserted { result.inserted ≡ self.inserted + (if is_outcome Inserted outcome then 1 else 0) }
        ensures updated { result.updated ≡ self.updated + (if is_outcome Updated outcome then 1 else 0) }
        ensures removed { result.removed ≡ self.removed + (if is_outcome Removed outcome then 1 else 0) }
        ensures absent { result.absent ≡ self.absent + (if is_outcome Absent outcome then 1 else 0) }
        ensures overflow { result.overflow ≡ self.overflow + (if is_outcome Overflow outcome then 1 else 0) }
        ensures has_expiry { result.has_expiry ≡ self.has_expiry || is_expired outcome }
        ensures expired { result.expired ≡ self.expired + expired_in outcome }
        ensures few { result.expired < self.expired + 2 ^ 64 }
    {
        match outcome {
            Outcome::Inserted => Counts {
                inserted: self.inserted + 1,
                ..self
            },
            Outcome::Updated => Counts {
                updated: self.updated + 1,
                ..self
            },
            Outcome::Removed => Counts {
                removed: self.removed + 1,
                ..self
            },
            Outcome::Absent => Counts {
                absent: self.absent + 1,
                ..self
            },
            Outcome::Overflow => Counts {
                overflow: self.overflow + 1,
                ..self
            },
            Outcome::Expired(count) => Counts {
                has_expiry: true,
                expired: self.expired + u128::from(count),
                ..self
            },
        }
    }
}

/// The counts of outcomes, in one pass. Any slice's sum has room in the wider type.
pub(crate) fn counts_in(outcomes: &[Outcome]) -> Counts
    ensures inserted { result.inserted ≡ count_by (is_outcome Inserted) outcomes.now }
    ensures updated { result.updated ≡ count_by (is_outcome Updated) outcomes.now }
    ensures removed { result.removed ≡ count_by (is_outcome Removed) outcomes.now }
    ensures absent { result.absent ≡ count_by (is_outcome Absent) outcomes.now }
    ensures overflow { result.overflow ≡ count_by (is_outcome Overflow) outcomes.now }
    ensures has_expiry { result.has_expiry ≡ list_any is_expired outcomes.now }
    ensures expired { result.expired ≡ sum_by expired_in outcomes.now }
{
    let mut counts = Counts {
        inserted: 0,
        updated: 0,
        removed: 0,
        absent: 0,
        overflow: 0,
        has_expiry: false,
        expired: 0,
    };
    for outcome in outcomes {
        counts = counts.with(*outcome);
    }
    counts
}

//! What was counted.

ghost use Rattle.std.specs.Prelude.{◌≡◌, ◌≢◌, ◌+◌, ◌<◌, ◌≤◌, ◌^◌, All, length, sum_by};
ghost use Rattle.store_drive.specs.Load.{between_of, lies_between};

use crate::load::BATCHES;
use crate::sames::{Answer, are_same_answers};

/// How many answers were compared, how many of them differed from the plain ones, and how many were of a version between the
/// first and the last.
#[derive(Clone, Copy)]
pub(crate) struct Tally {
    pub(crate) checked: u32,
    pub(crate) wrong: u32,
    pub(crate) between: u32,
    ghost wrong_few: { wrong ≤ checked },
    ghost between_few: { between ≤ checked },
}

/// Whether the version of this number lies between the empty one and that behind the whole load.
fn is_between(number: u64) -> bool
    ensures { result ≡ lies_between number }
{
    0 < number && number < u64::from(BATCHES)
}

impl Tally {
    pub(crate) fn none() -> Tally
        ensures checked { result.checked ≡ 0 }
        ensures wrong { result.wrong ≡ 0 }
        ensures between { result.between ≡ 0 }
    {
        Tally {
            checked: 0,
            wrong: 0,
            between: 0,
        }
    }

    /// Counts an answer, and that it is wrong where it isn't the one that is wanted.
    pub(crate) fn count(&mut self, told: &Answer, wanted: &Answer)
        requires { self.old.checked + 1 < 2 ^ 32 }
        ensures checked { self.new.checked ≡ self.old.checked + 1 }
        ensures right { told.now ≡ wanted.now → self.new.wrong ≡ self.old.wrong }
        ensures wrong { told.now ≢ wanted.now → self.new.wrong ≡ self.old.wrong + 1 }
        ensures between { self.new.between ≡ self.old.between }
    {
        let is_right = are_same_answers(told, wanted);
        *self = Tally {
            checked: self.checked + 1,
            wrong: if is_right { self.wrong } else { self.wrong + 1 },
            between: self.between,
        };
    }

    /// Counts that so many of the answers were of the version of this number.
    pub(crate) fn place(&mut self, number: u64, answers: u32)
        requires { self.old.between + answers ≤ self.old.checked }
        ensures checked { self.new.checked ≡ self.old.checked }
        ensures wrong { self.new.wrong ≡ self.old.wrong }
        ensures between { self.new.between ≡ self.old.between + between_of number answers }
    {
        let more = if is_between(number) { answers } else { 0 };
        *self = Tally {
            checked: self.checked,
            wrong: self.wrong,
            between: self.between + more,
        };
    }

    /// Adds what another has counted.
    pub(crate) fn add(&mut self, other: Tally)
        requires { self.old.checked + other.checked < 2 ^ 32 }
        ensures checked { self.new.checked ≡ self.old.checked + other.checked }
        ensures wrong { self.new.wrong ≡ self.old.wrong + other.wrong }
        ensures between { self.new.between ≡ self.old.between + other.between }
    {
        *self = Tally {
            checked: self.checked + other.checked,
            wrong: self.wrong + other.wrong,
            between: self.between + other.between,
        };
    }
}

/// What all have counted.
pub(crate) fn sum_of(tallies: &[Tally]) -> Tally
    requires few { length tallies.now ≤ 4 }
    requires small { All (λ tally. tally.checked ≤ 1000) tallies.now }
    ensures checked { result.checked ≡ sum_by (λ tally. tally.checked) tallies.now }
    ensures wrong { result.wrong ≡ sum_by (λ tally. tally.wrong) tallies.now }
    ensures between { result.between ≡ sum_by (λ tally. tally.between) tallies.now }
{
    let mut sum = Tally::none();
    for tally in tallies {
        sum.add(*tally);
    }
    sum
}

//! The history of the posted batches. It exists in the proofs alone, but for its length.

ghost use Rattle.std.specs.Prelude.{◌≡◌, ◌<◌, ◌+◌, ◌^◌, ◌++◌, ◌∷◌, [], length, IfSome, MatchBool};
ghost use mathlib.Core.List.{IsPrefix};
ghost use Rattle.version_shelf.specs.Histories.{IsEnd, end_of, right_at};

use graph_types::Batch;
use logbook::{Gain, Offer, Pen, Plain, Play, Rule, Seen, Start, Word};
use std::marker::Model;

/// The rule of the history: its word is how many rights to add a batch were made, and each batch used one up.
pub struct HistoryRule;

impl Rule<Batch, u64> for HistoryRule {
    ghost use Rattle.std.specs.Prelude.{[]};
    ghost use base.Fml.{ftrue};
    ghost use Rattle.version_shelf.specs.Histories.{AreRightsUsed};

    ghost holds = { λ cells log. AreRightsUsed cells log };

    ghost first = { [] };

    ghost hinted = { λ n log. Unit {0} };

    ghost shows = { λ log. [] };

    ghost keeps = { λ names log. ftrue };

    ghost moves = { λ ask before after answer. Unit {0} };
}

/// Callers trade nothing.
pub struct NoTrade;

impl Gain<Batch, u64> for NoTrade {
    ghost use base.Fml.{ftrue};

    ghost after = { λ names about answer. ftrue };
}

/// A step that makes a right.
pub struct MakeRight;

impl Play<Batch, u64> for MakeRight {
    ghost use Rattle.version_shelf.specs.Histories.{Makes};

    ghost then = { Makes };
}

/// A step that adds a batch, by a right.
pub struct AddBatch;

impl Play<Batch, u64> for AddBatch {
    ghost use Rattle.version_shelf.specs.Histories.{Adds};

    ghost then = { Adds };
}

/// What a step asks for: the batch.
impl Plain<Batch, Batch, u64> for AddBatch {
    ghost use Rattle.std.specs.Prelude.{None};

    ghost ask = { λ batch. batch };

    ghost state = { λ batch. None };
}

/// A step that adds nothing, and finds how many batches were added.
pub struct Confirm;

impl Play<Batch, u64> for Confirm {
    ghost use Rattle.version_shelf.specs.Histories.{Confirms};

    ghost then = { Confirms };
}

/// Other steps ask for nothing.
impl Plain<u64, Batch, u64> for Confirm {
    ghost use Rattle.std.specs.Prelude.{[], None};

    ghost ask = { λ count. [] };

    ghost state = { λ count. None };
}

/// The word of the history, which its writer owns, and the right to add the next batch.
pub struct HistoryEnd {
    pub(crate) word: Word<Batch, u64, HistoryRule>,
    pub(crate) pen: Pen,
}

// Written by hand: who lets one go rests on this function, and not on how each part is let go.
impl Drop for HistoryEnd {
    fn drop(self) {
        let HistoryEnd {
            word: _word,
            pen: _pen,
        } = self;
    }
}

/// A beginning of the history. Contracts see it as its batches, and which history it is.
pub struct History {
    count: u64,
    seen: Seen<Batch, u64, HistoryRule>,
}

// Written by hand: who lets one go rests on this function, and not on how each part is let go.
impl Drop for History {
    fn drop(self) {
        let History {
            count: _count,
            seen: _seen,
        } = self;
    }
}

impl Model for History {
    ghost use Rattle.std.specs.Prelude.{◌≡◌, length};
    ghost use Rattle.version_shelf.specs.Histories.{HistoryView};

    ghost Value = { HistoryView };

    ghost view = { λ h. record { book = h.seen.book; batches = h.seen.log } };

    ghost invariant = { λ h. h.count ≡ length h.seen.log };
}

impl History {
    /// A new history without batches, and its end. There is none where somebody else made its first right, which nobody can.
    pub fn open() -> Option<(HistoryEnd, History)>
        ensures { IfSome result (λ r. IsEnd r.0.word r.0.pen.book r.0.pen.nib r.1 × (r.1.batches ≡ [])) }
    {
        let (seen, mut first, _second) = Seen::open(Start::alone(), 0, 0);
        let word = Word::tracked(0, &mut first);
        let history = History { count: 0, seen };
        let pen = history.right(&word, 0)?;
        Some((HistoryEnd { word, pen }, history))
    }

    /// A copy.
    pub fn share(&self) -> History
        ensures { result ≡ self.now }
    {
        History {
            count: self.count,
            seen: self.seen.again(),
        }
    }

    /// Whether the other one has more batches. Then it begins with all of this one, and else it begins this one.
    pub fn is_below(&self, other: &History) -> bool
        requires { self.now.book ≡ other.now.book }
        ensures { MatchBool result (IsPrefix self.now.batches other.now.batches) (IsPrefix other.now.batches self.now.batches) }
    {
        let mut both = self.seen.again();
        both.learn(&other.seen);
        self.count < other.count
    }

    /// The right behind so many others, where no more were made. That there are more never happens, since the one writer
    /// makes them, but no clause says so.
    fn right(&self, word: &Word<Batch, u64, HistoryRule>, made: u64) -> Option<Pen>
        requires word { word.now ≡ end_of self.now.book }
        requires room { made + 1 < 2 ^ 64 }
        ensures { IfSome result (λ pen. (pen.book ≡ self.now.book) × (pen.nib ≡ right_at made)) }
    {
        let mut seen = self.seen.again();
        let mut offer: Offer<Batch, u64, HistoryRule, NoTrade> = seen.plain::<
            NoTrade,
            u64,
            Confirm,
        >(&made);
        let mut pen = seen.no_pen();
        let found = word.compare_exchange::<MakeRight, NoTrade>(
            made,
            made + 1,
            &mut seen,
            &mut offer,
            &mut pen,
        );
        if found != made {
            return None;
        }
        let _word: Word<Batch, u64, HistoryRule> = Word::tracked(0, &mut pen);
        Some(pen)
    }

    /// Adds a batch to the history, and says whether it did; where it did not, nothing changes. It does where the right for
    /// the batch after this one is to be had.
    pub fn push(&mut self, end: &mut HistoryEnd, batch: &Batch) -> bool
        requires end { IsEnd end.old.word end.old.pen.book end.old.pen.nib self.old }
        requires room { length self.old.batches < 2 ^ 62 }
        ensures end { IsEnd end.new.word end.new.pen.book end.new.pen.nib self.new }
        ensures book { self.new.book ≡ self.old.book }
        ensures batches { MatchBool result (self.new.batches ≡ self.old.batches ++ batch.now ∷ []) (self.new ≡ self.old) }
    {
        let Some(next) = self.right(&end.word, self.count + 1) else {
            return false;
        };
        let mut offer: Offer<Batch, u64, HistoryRule, NoTrade> = self
            .seen
            .plain::<NoTrade, Batch, AddBatch>(batch);
        end.word
            .compare_exchange::<AddBatch, NoTrade>(0, 0, &mut self.seen, &mut offer, &mut end.pen);
        self.count += 1;
        end.pen = next;
        true
    }

    /// What any other one has begins this one, which is whole: its end says so. It changes nothing.
    pub fn confirm(&self, end: &mut HistoryEnd, other: &History)
        requires end { IsEnd end.old.word end.old.pen.book end.old.pen.nib self.now }
        requires book { other.now.book ≡ self.now.book }
        ensures end { IsEnd end.new.word end.new.pen.book end.new.pen.nib self.now }
        ensures whole { IsPrefix other.now.batches self.now.batches }
    {
        let mut both = self.seen.again();
        both.learn(&other.seen);
        let mut offer: Offer<Batch, u64, HistoryRule, NoTrade> = both.plain::<
            NoTrade,
            u64,
            Confirm,
        >(&self.count);
        end.word
            .compare_exchange::<Confirm, NoTrade>(0, 0, &mut both, &mut offer, &mut end.pen);
    }
}

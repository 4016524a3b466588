//! The pace of a drive, by which the readers' rounds are spread over the feed: a round waits for a batch, and a batch for rounds.
//! Nobody waits for a reader that hasn't begun or has ended, nor for a feeder that has ended. So the drive also comes to its end
//! where no thread can be made for one of them, which runs behind the others then.

use std::sync::{Condvar, Mutex, Wait};
use std::thread::yield_now;

/// How many batches there are to a round.
const BATCHES_A_ROUND: u32 = 4;

/// How many readers there may be.
const READERS: usize = 4;

/// More batches, or more rounds, than there are.
const ALL: u32 = u32::MAX;

/// How often the feeder looks for readers that haven't begun before it goes on without them: only where no thread could be made.
const TURNS: u32 = 100_000;

/// How far all are.
#[derive(Clone, Copy)]
struct Progress {
    /// The number of the newest batch that was posted, or `ALL` once the feeder has ended.
    posted: u32,
    /// How many readers have begun.
    begun: usize,
    /// How many rounds each reader has done, or `ALL` where it hasn't begun or has ended.
    rounds: [u32; READERS],
}

impl Progress {
    /// A reader begins; its place among the readers.
    fn begin(&mut self) -> usize {
        let place = self.begun;
        self.begun = place.saturating_add(1);
        self.set_rounds(place, 0);
        place
    }

    fn set_rounds(&mut self, place: usize, rounds: u32) {
        if place < READERS {
            self.rounds[place] = rounds;
        }
    }

    /// How many rounds each reader has done at least.
    fn least(&self) -> u32 {
        let mut least = ALL;
        for rounds in &self.rounds {
            least = least.min(*rounds);
        }
        least
    }
}

/// What the feeder and the readers tell one another.
#[derive(Drop)]
pub(crate) struct Pace {
    progress: Mutex<Progress>,
    changed: Condvar,
}

impl Pace {
    pub(crate) fn new() -> Pace {
        Pace {
            progress: Mutex::new(Progress {
                posted: 0,
                begun: 0,
                rounds: [ALL; READERS],
            }),
            changed: Condvar::new(),
        }
    }

    /// A reader begins, and from now on the feeder waits for its rounds. Its place among the readers.
    pub(crate) fn begin<R: Wait>(&self, rt: &R) -> usize {
        self.progress.lock(rt).begin()
    }

    /// The reader has done so many rounds.
    pub(crate) fn note_rounds<R: Wait>(&self, rt: &R, place: usize, rounds: u32) {
        self.progress.lock(rt).set_rounds(place, rounds);
        self.changed.notify_all();
    }

    /// The reader has ended, also where it broke off.
    pub(crate) fn end<R: Wait>(&self, rt: &R, place: usize) {
        self.note_rounds(rt, place, ALL);
    }

    /// Has a reader that has done so many rounds wait for the batch at which the next one begins, or until the feeder has ended.
    pub(crate) fn await_batches<R: Wait>(&self, rt: &R, rounds: u32) {
        let batch = rounds.saturating_mul(BATCHES_A_ROUND);
        let progress = self.progress.lock(rt);
        let _posted = self
            .changed
            .wait_while(rt, progress, move |it| it.posted < batch);
    }

    /// Has the feeder wait until so many readers have begun. Where that takes too long it goes on.
    pub(crate) fn await_begun<R: Wait>(&self, rt: &R, readers: usize) {
        for _ in 0..TURNS {
            if self.progress.lock(rt).begun >= readers {
                return;
            }
            yield_now();
        }
    }

    /// Has the feeder wait before this batch, until no reader is more than a round behind it.
    pub(crate) fn await_rounds<R: Wait>(&self, rt: &R, batch: u32) {
        let rounds = (batch / BATCHES_A_ROUND).saturating_sub(1);
        let progress = self.progress.lock(rt);
        let _done = self
            .changed
            .wait_while(rt, progress, move |it| it.least() < rounds);
    }

    /// The batch of this number was posted.
    pub(crate) fn note_posted<R: Wait>(&self, rt: &R, batch: u32) {
        self.progress.lock(rt).posted = batch;
        self.changed.notify_all();
    }

    /// The feeder has ended, also where a batch was refused.
    pub(crate) fn end_feed<R: Wait>(&self, rt: &R) {
        self.note_posted(rt, ALL);
    }
}

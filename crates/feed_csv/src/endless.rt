// A feed that ends where its input does.

ghost use Rattle.std.specs.Prelude.{◌≡◌, ◌≢◌, option_map, true, false, IfOk, IfSome, None};
ghost use Rattle.csv.specs.Reading.{error_kind};
ghost use Rattle.feed_csv.specs.Commands.{HasValidOp};
ghost use Rattle.feed_csv.specs.Commands.{fault_word};

use crate::phase::Phase;
use crate::row::next_row;
use crate::rules::command_of;
use crate::{Command, FeedFault, FeedWord};
use csv::{ByteRecord, Error, ErrorKind, Reader, ReaderBuilder};
use std::alloc::Global;
use std::io::Read;
use std::marker::Model;

/// The commands of comma-separated records, as [`Feed`](crate::Feed) reads them, with no limit on their number. Contracts see the
/// `Script` that it is: whether it goes on, how many records it gave, and the records that are left where the reader's bytes
/// are known. They also see whether csv's reader has failed, and the kind of what it told then, which the feed keeps.
///
/// ```
/// let mut feed = EndlessFeed::over(alloc, reader);
/// let first = feed.next()?;
/// ```
#[derive(Drop)]
pub struct EndlessFeed<R: Read> {
    alloc: Global,
    reader: Reader<R>,
    row: ByteRecord,
    phase: Phase,
    given: u64,
    // What csv's reader told where it failed.
    fault: Option<Error>,
}

impl<R: Read> Model for EndlessFeed<R> {
    ghost use Rattle.feed_csv.specs.Script.{Script};

    ghost Value = { Script };

    ghost use Rattle.std.specs.Prelude.{◌≡◌};
    ghost use Rattle.std.specs.Prelude.{option_map};
    ghost use Rattle.csv.specs.Reading.{error_kind, has_failed};
    ghost use Rattle.feed_csv.specs.Records.{IsPlain, rows_left};
    ghost use Rattle.feed_csv.specs.declared.phase.Phase.TheVariants.{Reading};

    ghost view = { λ f. record {
      phase = f.phase;
      given = f.given;
      failed = has_failed f.reader;
      fault = option_map error_kind f.fault;
      left = rows_left R.remaining f.reader;
    } };

    ghost invariant = { λ f. f.phase ≡ Reading → IsPlain f.reader };
}

impl<R: Read> EndlessFeed<R> {
    ghost use Rattle.feed_csv.specs.Records.{records_of};
    ghost use Rattle.feed_csv.specs.Script.{NextStepIn, next_number};

    /// A feed of the reader's commands. It takes no memory: its growths come with `next`, by this allocator.
    pub fn over(alloc: Global, reader: R) -> EndlessFeed<R>
        ensures { result ≡ record {
          phase = Phase.Reading;
          given = 0;
          failed = false;
          fault = None;
          left = option_map records_of (R.remaining reader);
        } }
    {
        let reader = ReaderBuilder::new()
            .has_headers(false)
            .flexible(true)
            .from_reader(alloc, reader);
        EndlessFeed {
            alloc,
            reader,
            row: ByteRecord::new(alloc),
            phase: Phase::Reading,
            given: 0,
            fault: None,
        }
    }

    /// The next record's command, whose operation is valid where it has one; or `None` at the end of the input, then and later.
    ///
    /// A record that is no command is a fault with its number and the first word that holds of it, and the next
    /// call goes on behind it. Where the reader fails, the fault is `Read`, and where a growth is refused
    /// `Memory`, with the number of the record that was not given; from then on each call answers `Read` with
    /// that number. No number of records ends it: those behind the record of number 2^64 - 1 all have that number.
    pub fn next(&mut self) -> Result<Option<Command>, FeedFault>
        ensures step { NextStepIn None self.old result self.new }
        ensures valid { IfOk result (λ found. IfSome found HasValidOp) }
        ensures ended { self.old.phase ≡ Phase.Ended → result ≡ Ok None }
        ensures stopped { self.old.phase ≡ Phase.Stopped
            → result ≡ Err (record { at = next_number None self.old.given; word = FeedWord.Read }) }
    {
        match self.phase {
            Phase::Reading => self.take(),
            Phase::Ended => Ok(None),
            Phase::Stopped => Err(self.stop(FeedWord::Read)),
        }
    }

    /// Whether the next call would look for a record behind exactly so many.
    pub(crate) fn reads_behind(&self, given: u64) -> bool
        ensures there { result ≡ true → (self.now.phase ≡ Phase.Reading) × (self.now.given ≡ given) }
        ensures elsewhere { result ≡ false → self.now.phase ≡ Phase.Reading → self.now.given ≢ given }
    {
        self.phase == Phase::Reading && self.given == given
    }

    /// Nothing more is given.
    pub(crate) fn stop(&mut self, word: FeedWord) -> FeedFault
        ensures fault { result ≡ record { at = next_number None self.old.given; word = word } }
        ensures stopped { self.new ≡ record self.old { phase = Phase.Stopped } }
    {
        self.phase = Phase::Stopped;
        FeedFault {
            at: self.next_number(),
            word,
        }
    }

    // The number of the record behind those given.
    fn next_number(&self) -> u64
        ensures { result ≡ next_number None self.now.given }
    {
        self.given.saturating_add(1)
    }

    // The record that was read is no command: it counts, and the feed goes on behind it.
    fn refuse(&mut self, word: FeedWord) -> FeedFault
        ensures fault { result ≡ record { at = next_number None self.old.given; word = word } }
        ensures counted { self.new ≡ record self.old { given = next_number None self.old.given } }
    {
        self.given = self.next_number();
        FeedFault {
            at: self.given,
            word,
        }
    }

    // Reads a record.
    #[tactic(auto, using(crate::proofs::Refusals::refused_step))]
    fn take(&mut self) -> Result<Option<Command>, FeedFault>
        requires reading { self.old.phase ≡ Phase.Reading }
        ensures { NextStepIn None self.old result self.new }
    {
        match next_row(&mut self.reader, &mut self.row) {
            Ok(true) => {}
            Ok(false) => {
                self.phase = Phase::Ended;
                return Ok(None);
            }
            Err(error) => {
                let word = word_of(&error);
                self.phase = Phase::Stopped;
                self.fault = Some(error);
                return Err(FeedFault {
                    at: self.next_number(),
                    word,
                });
            }
        }
        match command_of(self.alloc, &self.row) {
            Ok(command) => {
                self.given = self.next_number();
                Ok(Some(command))
            }
            Err(word) => match word {
                FeedWord::Memory => Err(self.stop(FeedWord::Memory)),
                _ => Err(self.refuse(word)),
            },
        }
    }
}

// The word for a fault of `csv`.
fn word_of(error: &Error) -> FeedWord
    ensures { result ≡ fault_word (error_kind error.now) }
{
    match error.kind() {
        ErrorKind::OutOfMemory => FeedWord::Memory,
        _ => FeedWord::Read,
    }
}

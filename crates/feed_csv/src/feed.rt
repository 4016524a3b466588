// A feed of commands from a reader.

ghost use Rattle.std.specs.Prelude.{◌≡◌, ◌+◌, option_map, false, IfOk, IfSome, None};
ghost use Rattle.feed_csv.specs.Commands.{HasValidOp};
ghost use Rattle.feed_csv.specs.declared.phase.Phase.{Phase};

use crate::{Command, EndlessFeed, FeedFault, FeedWord};
use std::alloc::Global;
use std::io::Read;
use std::marker::Model;

// A feed gives no more records than these.
const RECORD_LIMIT: u64 = 1_000_000;

/// The commands of a script: comma-separated records, without a header, each of any number of fields, with
/// nothing trimmed. Contracts see the `Script` that it is: whether it goes on, how many records it gave, and the
/// records that are left where the reader's bytes are known. They also see whether csv's reader has failed, and the kind of what
/// it told then, which the feed keeps.
#[derive(Drop)]
pub struct Feed<R: Read> {
    records: EndlessFeed<R>,
}

impl<R: Read> Model for Feed<R> {
    ghost use Rattle.feed_csv.specs.Script.{Script};

    ghost Value = { Script };

    ghost use Rattle.std.specs.Prelude.{◌≤◌};
    ghost use Rattle.feed_csv.specs.Records.{record_limit};

    ghost view = { λ f. f.records };

    ghost invariant = { λ f. f.records.given ≤ record_limit };
}

impl<R: Read> Feed<R> {
    ghost use Rattle.feed_csv.specs.Records.{record_limit, records_of};
    ghost use Rattle.feed_csv.specs.Script.{NextStep};

    /// A feed of the reader's commands. It takes no memory: its growths come with `next`, by this allocator.
    pub fn over(alloc: Global, reader: R) -> Feed<R>
        ensures { result ≡ record {
          phase = Phase.Reading;
          given = 0;
          failed = false;
          fault = None;
          left = option_map records_of (R.remaining reader);
        } }
    {
        Feed {
            records: EndlessFeed::over(alloc, reader),
        }
    }

    /// The next record's command, whose operation is valid where it has one; or `None` at the end of the input, then and later.
    ///
    /// A record that is no command is a fault with its number and the first word that holds of it, and the next
    /// call goes on behind it. Where the reader fails, the fault is `Read`, and where a growth is refused
    /// `Memory`, with the number of the record that was not given; from then on each call answers `Read` with
    /// that number. After 1,000,000 records a call reads nothing and answers `Read` with the number 1,000,001.
    pub fn next(&mut self) -> Result<Option<Command>, FeedFault>
        ensures step { NextStep self.old result self.new }
        ensures valid { IfOk result (λ found. IfSome found HasValidOp) }
        ensures full { self.old.phase ≡ Phase.Reading → self.old.given ≡ record_limit
            → result ≡ Err (record { at = record_limit + 1; word = FeedWord.Read }) }
        ensures ended { self.old.phase ≡ Phase.Ended → result ≡ Ok None }
        ensures stopped { self.old.phase ≡ Phase.Stopped
            → result ≡ Err (record { at = self.old.given + 1; word = FeedWord.Read }) }
    {
        if self.records.reads_behind(RECORD_LIMIT) {
            Err(self.records.stop(FeedWord::Read))
        } else {
            self.records.next()
        }
    }
}

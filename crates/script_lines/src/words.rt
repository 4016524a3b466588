//! The words of refusals.

ghost use Rattle.std.specs.Prelude.{◌≡◌, ◌≤◌, length};
ghost use Rattle.script_lines.specs.Lines.{word_text};

use feed_csv::FeedWord;

/// Why a record was refused, or what ended the run.
#[derive(Clone, Copy, Debug, PartialEq, Eq)]
pub enum Word {
    /// A word of the feed; the server also refuses a slot that is not below the number of seats.
    Feed(FeedWord),
    NotOpen,
    AlreadyOpen,
    BadWindow,
    NoKind,
    NoVertex,
    BatchFull,
    NamesFull,
    KindsFull,
    /// 65,536 batches were accepted before.
    BatchLimit,
    /// The batch asks for more blocks than are free.
    PoolEmpty,
    /// The store that was to begin with a held version was not opened.
    Start,
}

impl Word {
    /// How the word is written; at most 11 bytes.
    pub fn text(self) -> &'static str
        ensures text { result.now ≡ word_text self }
        ensures short { length result.now ≤ 11 }
    {
        match self {
            Word::Feed(word) => word.word(),
            Word::NotOpen => "NotOpen",
            Word::AlreadyOpen => "AlreadyOpen",
            Word::BadWindow => "BadWindow",
            Word::NoKind => "NoKind",
            Word::NoVertex => "NoVertex",
            Word::BatchFull => "BatchFull",
            Word::NamesFull => "NamesFull",
            Word::KindsFull => "KindsFull",
            Word::BatchLimit => "BatchLimit",
            Word::PoolEmpty => "PoolEmpty",
            Word::Start => "Start",
        }
    }
}

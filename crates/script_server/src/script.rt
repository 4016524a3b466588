//! A script from bytes to bytes.

ghost use Rattle.std.specs.Prelude.{◌≡◌, ℕ, ◌+◌, ◌<◌, ◌≤◌, false, true, is_err, length, string_bytes, Ok, IfOk, IfErr, IfSome};
ghost use Rattle.std.specs.Prelude.{OnOk, OnErr, Some};
ghost use Rattle.std.specs.Io.KnownBytes.{Appends};
ghost use Rattle.feed_csv.specs.Commands.{HasValidOp};
ghost use Rattle.feed_csv.specs.Records.{record_limit, records_of};
ghost use Rattle.script_lines.specs.Lines.{end_line, error_line};
ghost use Rattle.script_commands.specs.States.{Setup, beginning, printed, set_up};
ghost use Rattle.script_commands.specs.Servers.{IsServer, ShowsServer, pending_of, result_of};
ghost use Rattle.script_server.specs.Texts.{IsText};
ghost use Rattle.script_server.specs.Ends.{HasCause, is_start, is_write, records_done};
ghost use Rattle.script_server.specs.Executions.{input};
ghost use Rattle.script_server.specs.Runs.{CompletesRecord, CountsRecord, EndsRun, IsFresh, IsReadyRun, IsStartup, IsTurn};
ghost use Rattle.script_server.specs.Runs.{ShowsRun, ShowsStart, TellsStop, fed};
ghost use Rattle.script_server.specs.Segments.{IsMachineText};
ghost use Rattle.script_server.specs.Writes.{AppendsPart, AppendsSome, held, output_of};
ghost use Rattle.script_server.specs.declared.script.ServeFault.TheVariants.{Memory, Write};

use crate::output;
use crate::sink::{Sink, Unwritten};
use feed_csv::{Command, Feed, FeedWord};
use script_commands::{Response, Server, Stop};
use script_lines::Word;
use std::alloc::{AllocError, Global};
use std::io::{Read, Write};
use std::sync::Wait;
use std::thread::Threads;
use stream_store::Config;
use thiserror::Error;

/// What a run that met the end of its input counted.
#[derive(Clone, Copy, Debug, PartialEq, Eq)]
pub struct Summary {
    /// The records, refused ones among them; fewer than 1,000,000.
    pub records: u64,
    /// The error lines.
    pub errors: u64,
    /// The operations that were pending at the end.
    pub pending: u64,
}

/// What ended a run before the end of its input.
#[derive(Clone, Copy, Debug, PartialEq, Eq, Error)]
pub enum ServeFault {
    #[error("the store was not opened")]
    Start,
    #[error("the reader failed, or 1,000,000 records were read")]
    Read,
    #[error("out of memory")]
    Memory,
    #[error("the writer failed")]
    Write,
}

/// A run between two records.
#[derive(Drop)]
struct Run {
    server: Server,
    // The lines of the record that was done last.
    lines: String,
    records: u64,
    errors: u64,
}

/// Reads a script and writes its text: for each record its lines or one error line, and at the end a line on
/// the operations that are still pending.
///
/// The batches are applied to a store of that configuration by so many workers at once, and each open slot holds a
/// version of it. A record's lines are built whole before a byte of them is written. `Start` where no store was
/// opened: at first with nothing read or written, and at a rebase as `Read` and `Memory` come. `Read` where the reader
/// fails or 1,000,000 records were read, and `Memory` where a growth was refused, each after the lines of exactly the
/// records done before and an error line with the number of the record that was not done; `Write` where a write failed
/// or took nothing, or the flush at the end failed, after which nothing more is written. No clause here says when each
/// of these ends comes, since a reader and a writer have no word for a call that failed. These are three calls, and
/// [`run_script`], the last of them, says it. `machine` is its clause too, over the records of the reader's bytes.
pub fn serve<A: AllocGlobal + Threads + Wait + Sync, R: Read + Drop, W: Write>(
    rt: &A,
    config: Config,
    reader: R,
    writer: &mut W,
) -> Result<Summary, ServeFault>
    ensures text { IfSome (R.remaining reader) (λ bytes.
        (done : ℕ) × AppendsSome (W.contents writer.old) (W.contents writer.new)
        (IsText (input (set_up config) (records_of bytes)) done result)) }
    ensures machine { IfSome (R.remaining reader) (λ bytes.
        (done : ℕ) × AppendsSome (W.contents writer.old) (W.contents writer.new)
        (IsMachineText (input (set_up config) (records_of bytes)) done result)) }
{
    let mut feed = Feed::over(rt.alloc(), reader);
    let mut sink = Sink::over(writer);
    run_script(rt, config, &mut feed, &mut sink)
}

/// [`serve`] over a feed that gave nothing yet and a sink that hasn't failed, which show afterwards why the run ended.
///
/// `cause` says when each end comes. `Ok` where the feed met the end of the input and csv's reader never failed; fewer than
/// 1,000,000 records were read then. `Read` where csv's reader failed or the limit on records was reached. `Memory` never at
/// the limit; `Start` while the feed gives records. `failed`: `Write` exactly where a call of the writer failed. `flushed`
/// says that each text but one cut off by the writer was flushed. `unread`: where no store was opened and nothing flushed, as
/// at the first opening, nothing was read. `machine`: for each store that was opened, what was done over it is a run of the
/// machine of interleavings, whose replies are what the slots print (`specs/Segments.antt`).
///
/// ```
/// let mut feed = Feed::over(rt.alloc(), script);
/// let mut sink = Sink::over(writer);
/// let answer = run_script(rt, config, &mut feed, &mut sink);
/// ```
pub fn run_script<A: AllocGlobal + Threads + Wait + Sync, R: Read, W: Write>(
    rt: &A,
    config: Config,
    feed: &mut Feed<R>,
    sink: &mut Sink<'_, W>,
) -> Result<Summary, ServeFault>
    requires feed { IsFresh feed.old }
    requires sink { sink.old.failed ≡ false }
    ensures same_writer { sink.new.writer.ghost_name ≡ sink.old.writer.ghost_name }
    ensures failed { sink.new.failed ≡ is_write result }
    ensures cause { HasCause feed.new result }
    ensures flushed { is_start result ≡ false → sink.new.failed ≡ false → sink.new.flushed ≡ true }
    ensures unread { is_start result ≡ true → sink.new.flushed ≡ false → feed.new ≡ feed.old }
    ensures text { IfSome feed.old.left (λ rows. AppendsSome (held W.contents sink.old) (held W.contents sink.new)
        (IsText (input (set_up config) rows) (records_done feed.new) result)) }
    ensures machine { IfSome feed.old.left (λ rows. AppendsSome (held W.contents sink.old) (held W.contents sink.new)
        (IsMachineText (input (set_up config) rows) (records_done feed.new) result)) }
{
    match start(rt, config, sink) {
        Ok(mut run) => turn_all(rt, feed, &mut run, sink),
        Err(fault) => Err(fault),
    }
}

/// A run before its first record; or the end of one that has no store, or for which there is no memory.
fn start<A: AllocGlobal + Wait, W: Write>(
    rt: &A,
    config: Config,
    sink: &mut Sink<'_, W>,
) -> Result<Run, ServeFault>
    requires working { sink.old.failed ≡ false }
    ensures same_writer { sink.new.writer.ghost_name ≡ sink.old.writer.ghost_name }
    ensures failed { sink.new.failed ≡ is_write result }
    ensures flushed { OnErr result (is_start result ≡ false → sink.new.failed ≡ false → sink.new.flushed ≡ true) }
    ensures unflushed { is_start result ≡ true → sink.new.flushed ≡ sink.old.flushed }
    ensures starts { IsStartup (set_up config) result (output_of W.contents sink.old sink.new) }
    ensures machine { IfOk result (λ run. ShowsStart run.server) }
{
    begun(rt.alloc(), Server::begin(rt, config), sink)
}

/// The run of a server that has begun; or the end of one that hasn't, with an error line if memory ran out after the opening.
fn begun<W: Write>(
    alloc: Global,
    server: Result<Server, Stop>,
    sink: &mut Sink<'_, W>,
) -> Result<Run, ServeFault>
    requires server { IfOk server IsServer }
    requires working { sink.old.failed ≡ false }
    ensures same_writer { sink.new.writer.ghost_name ≡ sink.old.writer.ghost_name }
    ensures failed { sink.new.failed ≡ is_write result }
    ensures flushed { OnErr result (is_start result ≡ false → sink.new.failed ≡ false → sink.new.flushed ≡ true) }
    ensures unflushed { is_start result ≡ true → sink.new.flushed ≡ sink.old.flushed }
    ensures starts { (setup : Setup) → IfOk server (λ server. ShowsServer server (beginning setup).state)
        → IsStartup setup result (output_of W.contents sink.old sink.new) }
    ensures over { IfOk result (λ run. server ≡ Ok run.server) }
    ensures told { IfErr server (λ stop. TellsStop stop result) }
{
    match server {
        Ok(server) => Ok(Run::over(alloc, server)),
        Err(Stop::Start(_)) => Err(ServeFault::Start),
        Err(Stop::Memory) => {
            output::last_line(sink, 1, Word::Feed(FeedWord::Memory))?;
            Err(ServeFault::Memory)
        }
    }
}

impl Run {
    /// A run that has done no record.
    fn over(alloc: Global, server: Server) -> Run
        requires { IsServer server }
        ensures server { IsServer result.server }
        ensures over { result.server ≡ server }
        ensures counts { (result.records ≡ 0) × (result.errors ≡ 0) }
        ensures beginning { (setup : Setup) → ShowsServer server (beginning setup).state → ShowsRun result (beginning setup) }
    {
        Run {
            server,
            lines: String::new(alloc),
            records: 0,
            errors: 0,
        }
    }

    /// Does a command, and writes what it came to. The lines are built before a byte of them is written.
    fn obey<P: Threads + Wait + Sync, W: Write>(
        &mut self,
        rt: &P,
        command: Command,
        sink: &mut Sink<'_, W>,
    ) -> Result<(), ServeFault>
        requires server { IsServer self.old.server }
        requires valid { HasValidOp command }
        requires room { self.old.records < record_limit }
        requires errors { self.old.errors ≤ self.old.records }
        requires working { sink.old.failed ≡ false }
        ensures same_writer { sink.new.writer.ghost_name ≡ sink.old.writer.ghost_name }
        ensures failed { sink.new.failed ≡ is_write result }
        ensures flushed { OnErr result (sink.new.failed ≡ false → sink.new.flushed ≡ true) }
        ensures completes { OnOk result (CompletesRecord (Ok command) self.old self.new
            (output_of W.contents sink.old sink.new)) }
        ensures ends { IfErr result (λ fault. EndsRun (Some (Ok command)) self.old fault
            (output_of W.contents sink.old sink.new)) }
    {
        match self.server.obey(rt, command, &mut self.lines) {
            Ok(response) => match self.print(response, sink) {
                Ok(()) => Ok(()),
                Err(_) => Err(ServeFault::Write),
            },
            Err(Stop::Memory) => {
                self.break_off(Word::Feed(FeedWord::Memory), sink)?;
                Err(ServeFault::Memory)
            }
            Err(Stop::Start(_)) => {
                self.break_off(Word::Start, sink)?;
                Err(ServeFault::Start)
            }
        }
    }

    /// Writes the error line of a record that was not done, and nothing of its lines, and flushes.
    fn break_off<W: Write>(&self, word: Word, sink: &mut Sink<'_, W>) -> Result<(), Unwritten>
        requires room { self.now.records < record_limit }
        requires working { sink.old.failed ≡ false }
        ensures same_writer { sink.new.writer.ghost_name ≡ sink.old.writer.ghost_name }
        ensures failed { sink.new.failed ≡ is_err result }
        ensures flushed { OnOk result (sink.new.flushed ≡ true) }
        ensures whole { OnOk result (Appends (held W.contents sink.old) (held W.contents sink.new)
            (error_line (self.now.records + 1) word)) }
        ensures part { OnErr result (AppendsPart (held W.contents sink.old) (held W.contents sink.new)
            (error_line (self.now.records + 1) word)) }
    {
        output::last_line(sink, self.records + 1, word)
    }

    /// Writes what a record came to, and counts it.
    fn print<W: Write>(
        &mut self,
        response: Response,
        sink: &mut Sink<'_, W>,
    ) -> Result<(), Unwritten>
        requires room { self.old.records < record_limit }
        requires errors { self.old.errors ≤ self.old.records }
        requires working { sink.old.failed ≡ false }
        ensures same_writer { sink.new.writer.ghost_name ≡ sink.old.writer.ghost_name }
        ensures failed { sink.new.failed ≡ is_err result }
        ensures whole { OnOk result (Appends (held W.contents sink.old) (held W.contents sink.new)
            (printed (self.old.records + 1) (result_of response (string_bytes self.old.lines)))) }
        ensures part { OnErr result (AppendsPart (held W.contents sink.old) (held W.contents sink.new)
            (printed (self.old.records + 1) (result_of response (string_bytes self.old.lines)))) }
        ensures counted { OnOk result (CountsRecord self.old response self.new) }
    {
        match response {
            Response::Lines => output::put(sink, self.lines.as_str())?,
            Response::Refused(word) => {
                output::error_line(sink, self.records + 1, word)?;
                self.errors += 1;
            }
        }
        self.records += 1;
        Ok(())
    }

    /// Writes the line on pending operations, counts them, and flushes.
    fn finish<W: Write>(&self, sink: &mut Sink<'_, W>) -> Result<Summary, ServeFault>
        requires working { sink.old.failed ≡ false }
        ensures same_writer { sink.new.writer.ghost_name ≡ sink.old.writer.ghost_name }
        ensures failed { sink.new.failed ≡ is_err result }
        ensures flushed { OnOk result (sink.new.flushed ≡ true) }
        ensures whole { OnOk result (Appends (held W.contents sink.old) (held W.contents sink.new)
            (end_line (length (pending_of self.now.server)))) }
        ensures summary { IfOk result (λ summary. summary ≡ record {
          records = self.now.records;
          errors = self.now.errors;
          pending = length (pending_of self.now.server);
        }) }
        ensures part { OnErr result (AppendsPart (held W.contents sink.old) (held W.contents sink.new)
            (end_line (length (pending_of self.now.server)))) }
        ensures fault { IfErr result (λ fault. fault ≡ ServeFault.Write) }
    {
        let pending = self.server.pending();
        output::end_line(sink, pending)?;
        Ok(Summary {
            records: self.records,
            errors: self.errors,
            pending: pending as u64,
        })
    }
}

/// Takes records until there is none.
fn turn_all<P: Threads + Wait + Sync, R: Read, W: Write>(
    rt: &P,
    feed: &mut Feed<R>,
    run: &mut Run,
    sink: &mut Sink<'_, W>,
) -> Result<Summary, ServeFault>
    requires ready { IsReadyRun feed.old run.old }
    requires working { sink.old.failed ≡ false }
    ensures same_writer { sink.new.writer.ghost_name ≡ sink.old.writer.ghost_name }
    ensures failed { sink.new.failed ≡ is_write result }
    ensures cause { HasCause feed.new result }
    ensures flushed { sink.new.failed ≡ false → sink.new.flushed ≡ true }
    ensures text { IfSome feed.old.left (λ rows. (setup : Setup) → ShowsRun run.old (beginning setup)
        → AppendsSome (held W.contents sink.old) (held W.contents sink.new)
        (IsText (input setup rows) (records_done feed.new) result)) }
    ensures machine { IfSome feed.old.left (λ rows. (setup : Setup) → ShowsRun run.old (beginning setup)
        → ShowsStart run.old.server
        → AppendsSome (held W.contents sink.old) (held W.contents sink.new)
        (IsMachineText (input setup rows) (records_done feed.new) result)) }
{
    'records: loop {
        match turn(rt, feed, run, sink) {
            Ok(true) => {}
            Ok(false) => return run.finish(sink),
            Err(fault) => return Err(fault),
        }
    }
}

/// Takes the next record, and says whether there was one.
fn turn<P: Threads + Wait + Sync, R: Read, W: Write>(
    rt: &P,
    feed: &mut Feed<R>,
    run: &mut Run,
    sink: &mut Sink<'_, W>,
) -> Result<bool, ServeFault>
    requires ready { IsReadyRun feed.old run.old }
    requires working { sink.old.failed ≡ false }
    ensures same_writer { sink.new.writer.ghost_name ≡ sink.old.writer.ghost_name }
    ensures failed { sink.new.failed ≡ is_write result }
    ensures flushed { OnErr result (sink.new.failed ≡ false → sink.new.flushed ≡ true) }
    ensures turns { IsTurn (fed feed.old run.old) result (fed feed.new run.new)
        (output_of W.contents sink.old sink.new) }
{
    match feed.next() {
        Ok(Some(command)) => {
            run.obey(rt, command, sink)?;
            Ok(true)
        }
        Ok(None) => Ok(false),
        Err(fault) => match fault.word {
            FeedWord::Read => {
                output::last_line(sink, fault.at, Word::Feed(FeedWord::Read))?;
                Err(ServeFault::Read)
            }
            FeedWord::Memory => {
                output::last_line(sink, fault.at, Word::Feed(FeedWord::Memory))?;
                Err(ServeFault::Memory)
            }
            word => match run.print(Response::Refused(Word::Feed(word)), sink) {
                Ok(()) => Ok(true),
                Err(_) => Err(ServeFault::Write),
            },
        },
    }
}

impl From<AllocError> for ServeFault {
    ghost from_gives = { λ _ fault. fault ≡ Memory };

    fn from(_error: AllocError) -> ServeFault {
        ServeFault::Memory
    }
}

impl From<Unwritten> for ServeFault {
    ghost from_gives = { λ _ fault. fault ≡ Write };

    fn from(_unwritten: Unwritten) -> ServeFault {
        ServeFault::Write
    }
}

//! The program over its arguments.

ghost use Rattle.std.specs.Prelude.{◌≡◌, ◌⊎◌, ◌++◌, ℕ, IfOk, map, Ok, Err, string_bytes};
ghost use Rattle.stinger_server.specs.Program.{Asked, EndsWith, IsDriven, IsServed, IsToldFault, RunView, asked_with, drive_line};
ghost use Rattle.stinger_server.specs.Program.{drive_status};
ghost use Rattle.stinger_server.specs.Program.{fault_line, is_served, shows_progress, sizes_in};
ghost use Rattle.stinger_server.specs.declared.texts.TheConstants.{FORMATS, HINT, NOT_TEXT, UNOPENED, UNREAD, UNWRITTEN, VERSION};
ghost use Rattle.script_server.specs.Writes.{AppendsPart};

use crate::arguments::{Order, RunOptions, read_arguments};
use crate::texts::{FORMATS, HINT, NOT_TEXT, UNOPENED, UNREAD, UNWRITTEN, VERSION};
use script_server::{Config, ServeFault, Unwritten, serve, write_text};
use std::alloc::{AllocError, Global};
use std::io::{Read, Write};
use std::sync::Wait;
use std::thread::Threads;
use store_drive::{DriveReport, DriveWord, drive};

// The whole input was read and no record was refused, or the text that was asked for was written.
const DONE: u8 = 0;

// Some record was refused, or the run broke off.
const FAULTY: u8 = 1;

// The arguments are wrong.
const USAGE: u8 = 2;

/// The whole program over the arguments after its name, with `faults` as its standard error: `run` serves `reader`
/// into `writer`; its options `--workers`, `--blocks` and `--seats`, each at most once, have a whole number from 1 to 8,
/// from 16 to 65,536 and from 1 to 16, and 4, 16,384 and 2 where they are left out, and `--quiet`, at most once, changes nothing
/// here (see [`shows_progress`]); `drive --readers N` (1 to 4, just once) reads nothing and has a store checked, with a line on
/// `writer` that tells of it; `--help`, `-h`, `help`, `run --help`, `drive --help`, `help run` and `help drive` write a text to
/// `writer` which ends with the formats of records; `--version` and `-V` write the version.
///
/// The answer is the exit status: 0 where the script was read to its end without an error line, the drive came to version 64
/// without a wrong answer, or the whole text was written; 1 where there was an error line or the run or the drive broke off, and
/// where memory or a writer failed outside the run; and 2, with a text on `faults` alone, where the arguments are none of these.
/// Where `writer` failed, where the store was not opened, and behind an error line with the word Read, a line on `faults` says
/// so. That a write, a flush or a growth failed is told by the writers and the memory, so no clause says when 1 comes in place
/// of 0 or 2.
pub fn stinger<'a, A: AllocGlobal + Threads + Wait + Sync, R: Read + Drop, W: Write, F: Write>(
    rt: &A,
    arguments: &'a [&'a str],
    reader: R,
    writer: &mut W,
    faults: &mut F,
) -> u8
    ensures served { (run : RunView) → asked_with (map (λ argument. argument.now) arguments.now) ≡ Asked.Serve run
        → ((result ≡ 1) × (writer.new ≡ writer.old) × (faults.new ≡ faults.old))
        ⊎ IsServed run.sizes (R.remaining reader) result (W.contents writer.old) (W.contents writer.new)
        F.contents (fault_line UNWRITTEN.now UNOPENED.now UNREAD.now) faults.old faults.new }
    ensures driven { (readers : ℕ) → asked_with (map (λ argument. argument.now) arguments.now) ≡ Asked.Drive readers
        → ((result ≡ 1) × (writer.new ≡ writer.old) × (faults.new ≡ faults.old))
        ⊎ IsDriven readers result (W.contents writer.old) (W.contents writer.new) F.contents UNWRITTEN.now faults.old faults.new }
    ensures helped { asked_with (map (λ argument. argument.now) arguments.now) ≡ Asked.Help
        → IsToldFault (EndsWith FORMATS.now) 0 result (W.contents writer.old) (W.contents writer.new) }
    ensures version { asked_with (map (λ argument. argument.now) arguments.now) ≡ Asked.Version
        → IsToldFault (λ text. text ≡ VERSION.now) 0 result (W.contents writer.old) (W.contents writer.new) }
    ensures noted { (asked_with (map (λ argument. argument.now) arguments.now) ≡ Asked.Help)
        ⊎ (asked_with (map (λ argument. argument.now) arguments.now) ≡ Asked.Version)
        → (faults.new ≡ faults.old)
        ⊎ ((result ≡ 1) × AppendsPart (F.contents faults.old) (F.contents faults.new) UNWRITTEN.now) }
    ensures refused { asked_with (map (λ argument. argument.now) arguments.now) ≡ Asked.Usage
        → (writer.new ≡ writer.old) × IsToldFault (EndsWith HINT.now) 2 result (F.contents faults.old) (F.contents faults.new) }
{
    match read_arguments(rt, arguments) {
        Ok(Order::Serve(options)) => run_sizes(rt, options, reader, writer, faults),
        Ok(Order::Drive(readers)) => drive_readers(rt, readers, writer, faults),
        Ok(Order::Help(text)) => show(writer, faults, text.as_str(), FORMATS, DONE),
        Ok(Order::Version) => show(writer, faults, "", VERSION, DONE),
        Ok(Order::Usage(text)) => tell(faults, text.as_str(), HINT, USAGE),
        Err(_) => FAULTY,
    }
}

/// Whether the arguments have a script served; an error if memory runs out while they are read.
pub fn serves<'a, A: AllocGlobal>(rt: &A, arguments: &'a [&'a str]) -> Result<bool, AllocError>
    ensures { IfOk result (λ yes. yes ≡ is_served (asked_with (map (λ argument. argument.now) arguments.now))) }
{
    match read_arguments(rt, arguments)? {
        Order::Serve(_) => Ok(true),
        _ => Ok(false),
    }
}

/// Whether the arguments have a script served whose progress may be shown, as it may without `--quiet`; an error if memory runs out
/// while they are read.
pub fn shows_progress<'a, A: AllocGlobal>(
    rt: &A,
    arguments: &'a [&'a str],
) -> Result<bool, AllocError>
    ensures { IfOk result (λ yes. yes ≡ shows_progress (asked_with (map (λ argument. argument.now) arguments.now))) }
{
    match read_arguments(rt, arguments)? {
        Order::Serve(options) => Ok(!options.quiet),
        _ => Ok(false),
    }
}

/// Says on `faults` that an argument is not UTF-8, and answers the status for wrong arguments, 2; or 1, where that
/// could not be written.
pub fn refuse_arguments<F: Write>(faults: &mut F) -> u8
    ensures { IsToldFault (λ text. text ≡ NOT_TEXT.now ++ HINT.now) 2 result (F.contents faults.old) (F.contents faults.new) }
{
    tell(faults, NOT_TEXT, HINT, USAGE)
}

/// Serves the reader in a run of these sizes; sizes past their limits are none that a run has.
fn run_sizes<A: AllocGlobal + Threads + Wait + Sync, R: Read + Drop, W: Write, F: Write>(
    rt: &A,
    options: RunOptions,
    reader: R,
    writer: &mut W,
    faults: &mut F,
) -> u8
    ensures { ((result ≡ 1) × (writer.new ≡ writer.old) × (faults.new ≡ faults.old))
        ⊎ IsServed (sizes_in options) (R.remaining reader) result (W.contents writer.old) (W.contents writer.new)
        F.contents (fault_line UNWRITTEN.now UNOPENED.now UNREAD.now) faults.old faults.new }
{
    match Config::new(options.workers, options.blocks, options.seats) {
        Ok(config) => run(rt, config, reader, writer, faults),
        Err(_) => FAULTY,
    }
}

/// Serves the reader.
fn run<A: AllocGlobal + Threads + Wait + Sync, R: Read + Drop, W: Write, F: Write>(
    rt: &A,
    config: Config,
    reader: R,
    writer: &mut W,
    faults: &mut F,
) -> u8
    ensures { IsServed config (R.remaining reader) result (W.contents writer.old) (W.contents writer.new)
        F.contents (fault_line UNWRITTEN.now UNOPENED.now UNREAD.now) faults.old faults.new }
{
    match serve(rt, config, reader, writer) {
        Ok(summary) if summary.errors == 0 => DONE,
        Err(ServeFault::Write) => broke_off(faults, UNWRITTEN),
        Err(ServeFault::Start) => broke_off(faults, UNOPENED),
        Err(ServeFault::Read) => broke_off(faults, UNREAD),
        _ => FAULTY,
    }
}

/// Says how a run broke off, as far as that can be written; the status is 1.
fn broke_off<F: Write>(faults: &mut F, line: &str) -> u8
    ensures status { result ≡ 1 }
    ensures noted { AppendsPart (F.contents faults.old) (F.contents faults.new) line.now }
{
    note(faults, line);
    FAULTY
}

/// Has a store checked by so many readers and a feeder, and tells of it on the writer; numbers past their limits are none that a
/// drive has. The line of a fault takes no memory, and where there is none for the line of a report, the fault of memory is told.
fn drive_readers<A: AllocGlobal + Threads + Wait + Sync, W: Write, F: Write>(
    rt: &A,
    readers: usize,
    writer: &mut W,
    faults: &mut F,
) -> u8
    ensures { ((result ≡ 1) × (writer.new ≡ writer.old) × (faults.new ≡ faults.old))
        ⊎ IsDriven readers result (W.contents writer.old) (W.contents writer.new) F.contents UNWRITTEN.now faults.old faults.new }
{
    if readers < 1 || 4 < readers {
        return FAULTY;
    }
    match drive(rt, readers) {
        Ok(report) => match report_line(rt.alloc(), report) {
            Ok(line) => show(writer, faults, line.as_str(), "", report_status(report)),
            Err(_) => show(writer, faults, "", word_line(DriveWord::Memory), FAULTY),
        },
        Err(fault) => show(writer, faults, "", word_line(fault.word), FAULTY),
    }
}

/// The line of a drive that came to its end.
fn report_line(alloc: Global, report: DriveReport) -> Result<String, AllocError>
    ensures { IfOk result (λ line. string_bytes line ≡ drive_line (Ok report)) }
{
    let (readers, batches, checked) = (report.readers, report.batches, report.checked);
    let (wrong, last) = (report.wrong, report.last);
    format!(in alloc;
        "drive readers={readers} batches={batches} checked={checked} wrong={wrong} last={last}\n"
    )
}

/// Its status.
fn report_status(report: DriveReport) -> u8
    ensures { result ≡ drive_status (Ok report) }
{
    if report.wrong == 0 && report.last == 64 {
        DONE
    } else {
        FAULTY
    }
}

/// The line of a drive that broke off.
fn word_line(word: DriveWord) -> &'static str
    ensures { result.now ≡ drive_line (Err (record { word = word })) }
{
    match word {
        DriveWord::Start => "drive fault Start\n",
        DriveWord::Memory => "drive fault Memory\n",
        DriveWord::BatchLimit => "drive fault BatchLimit\n",
        DriveWord::NamesFull => "drive fault NamesFull\n",
        DriveWord::KindsFull => "drive fault KindsFull\n",
        DriveWord::PoolEmpty => "drive fault PoolEmpty\n",
    }
}

/// Writes a text that was asked for, and then its end: the status is this one; or 1 where a write failed, and then a line on
/// `faults` says so.
fn show<W: Write, F: Write>(writer: &mut W, faults: &mut F, text: &str, end: &str, status: u8) -> u8
    ensures told { IsToldFault (λ told. told ≡ text.now ++ end.now) status result (W.contents writer.old) (W.contents writer.new) }
    ensures noted { (faults.new ≡ faults.old)
        ⊎ ((result ≡ 1) × AppendsPart (F.contents faults.old) (F.contents faults.new) UNWRITTEN.now) }
{
    match write_text(writer, text, end) {
        Ok(()) => status,
        Err(Unwritten) => {
            note(faults, UNWRITTEN);
            FAULTY
        }
    }
}

/// Writes a text and then its end: the status is this one, or 1 where a write failed.
fn tell<W: Write>(writer: &mut W, text: &str, end: &str, status: u8) -> u8
    ensures { IsToldFault (λ told. told ≡ text.now ++ end.now) status result (W.contents writer.old) (W.contents writer.new) }
{
    match write_text(writer, text, end) {
        Ok(()) => status,
        Err(Unwritten) => FAULTY,
    }
}

/// Says a line, as far as that can be written.
fn note<F: Write>(faults: &mut F, line: &str)
    ensures { AppendsPart (F.contents faults.old) (F.contents faults.new) line.now }
{
    let _ = write_text(faults, "", line);
}

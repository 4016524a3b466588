// Which arguments have a script served, and what the program does at its arguments where a writer fails. `examples/check` shows
// what it says of them.

use super::checks::check_text;
use super::{FIRST, FIRST_TEXT, FakeReader, FakeWriter, ROOMY, check_ran, ran_at, ran_on};
use std::alloc::AllocError;
use std::process::Abort;
use std::sync::Wait;
use std::thread::Threads;
use stinger_server::{law_arguments, law_options, refuse_arguments, serves, shows_progress};

pub(super) const HELP: &str = "\
A store of a directed graph that changes by batches, with held snapshots (STINGER, HPEC 2012).

Usage: stinger <COMMAND>

Commands:
  run    Reads a script on standard input, and writes its lines on standard output
  drive  Checks a store on this machine, with readers and a feeder at once

Options:
  -h, --help  Print help

A script is comma-separated records (RFC 4180), one a line, without a header.";

pub(super) const UNKNOWN: &str = "\
error: unrecognized subcommand 'fly'

Usage: stinger <COMMAND>

For more information, try '--help'.
`stinger run` reads a script on standard input. `stinger --help` says what a script is.
";

const NOT_TEXT: &str = "\
error: an argument is not UTF-8
`stinger run` reads a script on standard input. `stinger --help` says what a script is.
";

const UNWRITTEN: &str = "error: the output can't be written\n";

#[test]
fn refuses_an_argument_that_is_no_text(rt: HostRuntime) {
    let mut faults = FakeWriter::new(1_000);
    assert!(rt; refuse_arguments(&mut faults) == 2);
    check_text(&rt, faults.text(), NOT_TEXT);
    law_arguments();
    law_options();
}

fn is_told(told: Result<bool, AllocError>, wanted: bool) -> bool {
    told == Ok(wanted)
}

// Whether the arguments have a script served, and whether its progress is shown then.
fn asks(rt: &(impl Abort + AllocGlobal), arguments: &[&str], for_script: bool, progress: bool) {
    assert!(rt; is_told(serves(rt, arguments), for_script));
    assert!(rt; is_told(shows_progress(rt, arguments), progress));
}

#[test]
fn serves_a_script_at_run_alone_and_shows_progress_without_quiet(rt: HostRuntime) {
    asks(&rt, &["run", "--seats", "3"], true, true);
    asks(&rt, &["run", "--seats", "17"], false, false);
    asks(&rt, &["run", "--quiet"], true, false);
    asks(&rt, &["run", "--quiet", "--quiet"], false, false);
    asks(&rt, &["help", "run"], false, false);
    asks(&rt, &["-V"], false, false);
    asks(&rt, &["drive", "--readers", "1"], false, false);
}

#[test]
fn takes_a_script_to_its_lines(rt: HostRuntime) {
    let ran = ran_at(&rt, &["run"], FakeReader::whole(FIRST), ROOMY);
    check_ran(&rt, &ran, (0, FIRST_TEXT, ""));
}

// On writers with so much room, the program at the arguments ends with status 1 and leaves these texts.
fn breaks_off(
    rt: &(impl Abort + AllocGlobal + Threads + Wait + Sync),
    arguments: &[&str],
    room: (usize, usize),
    text: &str,
    complaint: &str,
) {
    let ran = ran_at(rt, arguments, FakeReader::whole("hello\n"), room);
    check_ran(rt, &ran, (1, text, complaint));
}

#[test]
fn says_that_the_output_was_not_written(rt: HostRuntime) {
    breaks_off(&rt, &["run"], (5, 1_000), "error", UNWRITTEN);
    breaks_off(&rt, &["run"], (5, 0), "error", "");
    breaks_off(&rt, &["help"], (7, 1_000), "A store", UNWRITTEN);
    breaks_off(&rt, &["--version"], (0, 6), "", "error:");
    breaks_off(&rt, &["fly"], (0, 9), "", "error: un");
    let drive = ["drive", "--readers", "1"];
    breaks_off(&rt, drive.as_slice(), (5, 1_000), "drive", UNWRITTEN);
}

#[test]
fn says_that_the_output_was_not_flushed(rt: HostRuntime) {
    let script = FakeReader::whole("hello\n");
    let mut output = FakeWriter::new(1_000);
    output.flush_fails = true;
    let ran = ran_on(&rt, &["run"], script, output, FakeWriter::new(1_000));
    check_ran(&rt, &ran, (1, "error 1 BadCommand\n", UNWRITTEN));
}

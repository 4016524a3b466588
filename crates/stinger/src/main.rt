//! `stinger run < script`: serves a script on standard input, and writes its lines on standard output.
#![tactic(auto)]

use std::alloc::AllocError;
use std::env::Env;
use std::io::{ErrorKind, IsTerminal, Write};
use std::process::ExitCode;
use std::rt::{Stderr, Stdin, Stdout};
use std::sync::Wait;
use std::thread::Threads;
use std::time::Clock;
use std::{env, io};
use stinger_server::{ProgressReader, refuse_arguments, serves, shows_progress, stinger};

// What stands on standard error where somebody at a terminal is to give the script.
const AWAITED: &str = "\
A script is awaited here, a record a line, and its end (Ctrl-D). `stinger --help` says what a record is.
";

// What stands there where there is no memory to begin.
const NO_MEMORY: &str = "error: out of memory: the arguments can't be read\n";

fn main(rt: HostRuntime) -> ExitCode {
    match run(&rt, rt.stdin(), rt.stdout(), rt.stderr()) {
        Ok(status) => ExitCode::from(status),
        Err(error) if error.kind() == ErrorKind::InvalidData => {
            ExitCode::from(refuse_arguments(&mut rt.stderr()))
        }
        Err(_) => {
            let _ = rt.stderr().write_all(NO_MEMORY.as_bytes());
            ExitCode::FAILURE
        }
    }
}

fn run<R: AllocGlobal + Clock + Env + Threads + Wait + Sync>(
    rt: &R,
    reader: Stdin,
    writer: Stdout,
    faults: Stderr,
) -> io::Result<u8> {
    let words: Vec<String> = env::args(rt)?.collect(rt.alloc())?;
    Ok(run_words(rt, &words, reader, writer, faults)?)
}

/// The words of a command line, of which the first is the program's name.
fn run_words<R: AllocGlobal + Clock + Threads + Wait + Sync>(
    rt: &R,
    words: &[String],
    reader: Stdin,
    writer: Stdout,
    faults: Stderr,
) -> Result<u8, AllocError> {
    let mut arguments = Vec::new(rt.alloc());
    for word in words.iter().skip(1) {
        arguments.push(word.as_str())?;
    }
    run_arguments(rt, arguments.as_slice(), reader, writer, faults)
}

fn run_arguments<R: AllocGlobal + Clock + Threads + Wait + Sync>(
    rt: &R,
    arguments: &[&str],
    reader: Stdin,
    writer: Stdout,
    mut faults: Stderr,
) -> Result<u8, AllocError> {
    let is_typed = reader.is_terminal();
    if serves(rt, arguments)? && is_typed {
        let _ = faults.write_all(AWAITED.as_bytes());
    }
    let is_seen = faults.is_terminal() && !writer.is_terminal() && !is_typed;
    let is_shown = is_seen && shows_progress(rt, arguments)?;
    Ok(run_shown(rt, arguments, reader, writer, faults, is_shown))
}

/// The program, with its progress on standard error where that is to be shown.
fn run_shown<R: AllocGlobal + Clock + Threads + Wait + Sync>(
    rt: &R,
    arguments: &[&str],
    reader: Stdin,
    mut writer: Stdout,
    mut faults: Stderr,
    is_shown: bool,
) -> u8 {
    let progress = if is_shown { Some(faults) } else { None };
    let reader = ProgressReader::over(rt, reader, progress);
    stinger(rt, arguments, reader, &mut writer, &mut faults)
}

//! The command line, as clap is told of it.

ghost use Rattle.std.specs.Prelude.{◌≡◌, false, IfOk};
ghost use Rattle.clap.specs.Words.{app_of, rule_of};
ghost use Rattle.stinger_server.specs.Program.{drive_app, flag_rule, number_rule, program, run_app, size_rule};

use clap::builder::ValueParser;
use clap::{Arg, ArgAction, Command};
use std::alloc::AllocError;

const ABOUT: &str =
    "A store of a directed graph that changes by batches, with held snapshots (STINGER, HPEC 2012).";

const WORKERS: &str = "How many workers apply a batch, from 1 to 8";

const BLOCKS: &str = "How many blocks hold edges, from 16 to 65536";

const SEATS: &str = "How many slots there are, from 1 to 16";

const QUIET: &str = "Don't show progress at a terminal";

const READERS: &str = "How many threads read, from 1 to 4";

/// The command line, as clap sees it.
pub(crate) fn command<'a, A: AllocGlobal>(rt: &A) -> Result<Command<'a>, AllocError>
    ensures { IfOk result (λ command. app_of command ≡ program) }
{
    Command::new(rt.alloc(), "stinger")
        .about(ABOUT)
        .no_binary_name(true)
        .disable_help_subcommand(true)
        .subcommand_required(true)
        .subcommand(run_command(rt)?)?
        .subcommand(drive_command(rt)?)
}

/// The subcommand `run`.
fn run_command<'a, A: AllocGlobal>(rt: &A) -> Result<Command<'a>, AllocError>
    ensures { IfOk result (λ command. app_of command ≡ run_app) }
{
    let workers = size(rt, "workers", 1, 8, "4", WORKERS);
    let blocks = size(rt, "blocks", 16, 65_536, "16384", BLOCKS);
    let seats = size(rt, "seats", 1, 16, "2", SEATS);
    Command::new(rt.alloc(), "run")
        .about("Reads a script on standard input, and writes its lines on standard output")
        .override_usage("stinger run [OPTIONS] < script")
        .arg(workers)?
        .arg(blocks)?
        .arg(seats)?
        .arg(flag(rt, "quiet", QUIET))
}

/// The subcommand `drive`.
fn drive_command<'a, A: AllocGlobal>(rt: &A) -> Result<Command<'a>, AllocError>
    ensures { IfOk result (λ command. app_of command ≡ drive_app) }
{
    Command::new(rt.alloc(), "drive")
        .about("Checks a store on this machine, with readers and a feeder at once")
        .override_usage("stinger drive --readers <N>")
        .arg(number(rt, "readers", 1, 4, READERS).required(true))
}

/// An option whose value is a whole number from `least` to `most`.
fn size<'a, A: AllocGlobal>(
    rt: &A,
    name: &'a str,
    least: u64,
    most: u64,
    default: &'a str,
    help: &'a str,
) -> Arg<'a>
    ensures rule { rule_of result ≡ size_rule name.now least most default.now }
    ensures local { result.global ≡ false }
{
    number(rt, name, least, most, help).default_value(default)
}

/// The same without a word on where it is left out.
fn number<'a, A: AllocGlobal>(
    rt: &A,
    name: &'a str,
    least: u64,
    most: u64,
    help: &'a str,
) -> Arg<'a>
    ensures rule { rule_of result ≡ number_rule name.now least most }
    ensures local { result.global ≡ false }
{
    Arg::new(rt.alloc(), name)
        .long(name)
        .value_name("N")
        .value_parser(ValueParser::unsigned(least, most))
        .help(help)
}

/// An option without a value.
fn flag<'a, A: AllocGlobal>(rt: &A, name: &'a str, help: &'a str) -> Arg<'a>
    ensures rule { rule_of result ≡ flag_rule name.now }
    ensures local { result.global ≡ false }
{
    Arg::new(rt.alloc(), name)
        .long(name)
        .action(ArgAction::SetTrue)
        .help(help)
}

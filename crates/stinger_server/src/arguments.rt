//! What the arguments ask for.

ghost use Rattle.std.specs.Prelude.{◌≡◌, ◌≢◌, false, IfOk, map, OnOk, option_and_then};
ghost use Rattle.std.specs.Option.{option_map_or};
ghost use Rattle.stream_store.specs.Configs.{standard_limits};
ghost use Rattle.clap.specs.Words.{kind_of, subcommand_rows_of};
ghost use Rattle.stinger_server.specs.Program.{asked_with, asked_by_kind, asked_for, asked_if_any, asked_of_command};
ghost use Rattle.stinger_server.specs.Program.{asked_of_subcommand};
ghost use Rattle.stinger_server.specs.Program.{help_words, is_quiet, is_version, readers_of, run_in, sizes_given, sizes_of};
ghost use Rattle.stinger_server.specs.Program.{without_help};

use crate::command_line::command;
use clap::error::ErrorKind;
use clap::{ArgMatches, Error};
use script_server::{BadConfig, Config};
use std::alloc::AllocError;

static HELP_FLAG: [&str; 1] = ["--help"];

static RUN_HELP: [&str; 2] = ["run", "--help"];

static DRIVE_HELP: [&str; 2] = ["drive", "--help"];

/// How many workers, blocks and seats a run has, and whether its progress is not to be shown.
#[derive(Clone, Copy)]
pub(crate) struct RunOptions {
    pub(crate) workers: usize,
    pub(crate) blocks: u32,
    pub(crate) seats: usize,
    pub(crate) quiet: bool,
}

/// What the arguments ask for, with the text that clap has for it.
#[derive(Drop)]
pub(crate) enum Order {
    Serve(RunOptions),
    Drive(usize),
    Help(String),
    Version,
    Usage(String),
}

/// What the arguments ask for.
pub(crate) fn read_arguments<'a, A: AllocGlobal>(
    rt: &A,
    arguments: &'a [&'a str],
) -> Result<Order, AllocError>
    ensures { IfOk result (λ order. asked_for order ≡ asked_with (map (λ argument. argument.now) arguments.now)) }
{
    if is_version(arguments) {
        return Ok(Order::Version);
    }
    read_command(rt, arguments)
}

/// Whether `--version` or `-V` comes first.
fn is_version(arguments: &[&str]) -> bool
    ensures { result ≡ is_version (map (λ argument. argument.now) arguments.now) }
{
    match arguments.first() {
        Some(first) => "--version" == *first || "-V" == *first,
        None => false,
    }
}

/// What clap makes of the arguments.
fn read_command<'a, A: AllocGlobal>(rt: &A, arguments: &'a [&'a str]) -> Result<Order, AllocError>
    ensures { IfOk result (λ order. asked_for order ≡ asked_of_command (map (λ argument. argument.now) arguments.now)) }
{
    match command(rt)?.try_get_matches_from(without_help(arguments)) {
        Ok(matches) => match order_of(&matches) {
            Ok(order) => Ok(order),
            Err(error) => Ok(Order::Usage(format!(in rt.alloc(); "error: {error}\n")?)),
        },
        Err(error) => explain(rt, &error),
    }
}

/// What a subcommand asks for; a fault where its options are none of its own, which clap has refused.
fn order_of(matches: &ArgMatches<'_>) -> Result<Order, BadConfig>
    ensures { asked_if_any result ≡ asked_of_subcommand (subcommand_rows_of matches.now) }
{
    if matches.subcommand_matches("drive").is_some() {
        return Ok(Order::Drive(readers(matches).ok_or(BadConfig)?));
    }
    let config = configure(matches)?;
    Ok(Order::Serve(options_of(config, is_quiet(matches))))
}

/// The readers that the option of a drive stands for.
fn readers(matches: &ArgMatches<'_>) -> Option<usize>
    ensures { result ≡ option_and_then (λ command. readers_of command.1) (subcommand_rows_of matches.now) }
{
    let (_, options) = matches.subcommand()?;
    let readers: usize = options.get_one("readers")?;
    if readers < 1 || 4 < readers {
        return None;
    }
    Some(readers)
}

/// The configuration that the options of a run stand for.
fn configure(matches: &ArgMatches<'_>) -> Result<Config, BadConfig>
    ensures sizes { sizes_given result ≡ option_and_then (λ run. sizes_of run.1) (subcommand_rows_of matches.now) }
    ensures standard { IfOk result (λ config. config.limits ≡ standard_limits) }
{
    let (_, options) = matches.subcommand().ok_or(BadConfig)?;
    let workers: usize = options.get_one("workers").ok_or(BadConfig)?;
    let blocks: u32 = options.get_one("blocks").ok_or(BadConfig)?;
    let seats: usize = options.get_one("seats").ok_or(BadConfig)?;
    Config::new(workers, blocks, seats)
}

/// The options of a run of this configuration.
fn options_of(config: Config, quiet: bool) -> RunOptions
    requires { config.limits ≡ standard_limits }
    ensures { run_in result ≡ record { sizes = config; quiet = quiet } }
{
    RunOptions {
        workers: config.workers(),
        blocks: config.blocks(),
        seats: config.seats(),
        quiet,
    }
}

/// Whether `--quiet` is among the options of a run.
fn is_quiet(matches: &ArgMatches<'_>) -> bool
    ensures { result ≡ option_map_or (λ run. is_quiet run.1) (subcommand_rows_of matches.now) false }
{
    let Some((_, options)) = matches.subcommand() else {
        return false;
    };
    match options.get_str("quiet") {
        Some(value) => value == "true",
        None => false,
    }
}

/// What an error of the command line asks for.
fn explain<A: AllocGlobal>(rt: &A, error: &Error) -> Result<Order, AllocError>
    ensures known { OnOk result (kind_of error.now ≢ ErrorKind.OutOfMemory) }
    ensures order { IfOk result (λ order. asked_for order ≡ asked_by_kind (kind_of error.now)) }
{
    let kind = error.kind();
    if kind == ErrorKind::OutOfMemory {
        return Err(AllocError);
    }
    let text = error.to_string(rt.alloc())?;
    match kind {
        ErrorKind::DisplayHelp => Ok(Order::Help(text)),
        _ => Ok(Order::Usage(text)),
    }
}

/// `help run` asks for what `run --help` does, `help drive` for what `drive --help` does, and `help` for what `--help` does,
/// whatever else follows it.
fn without_help<'a>(arguments: &'a [&'a str]) -> &'a [&'a str]
    ensures { map (λ argument. argument.now) result.now ≡ without_help (map (λ argument. argument.now) arguments.now) }
{
    let Some((first, rest)) = arguments.split_first() else {
        return arguments;
    };
    if "help" == *first {
        return help_words(rest);
    }
    arguments
}

/// What `help` stands for, by what follows it.
fn help_words<'a>(rest: &'a [&'a str]) -> &'a [&'a str]
    ensures { map (λ argument. argument.now) result.now ≡ help_words (map (λ argument. argument.now) rest.now) }
{
    let Some(next) = rest.first() else {
        return HELP_FLAG.as_slice();
    };
    if "run" == *next {
        return RUN_HELP.as_slice();
    }
    if "drive" == *next {
        return DRIVE_HELP.as_slice();
    }
    HELP_FLAG.as_slice()
}

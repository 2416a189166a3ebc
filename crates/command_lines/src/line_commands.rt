//! The program's commands and their options, as clap reads them.

ghost use Rattle.std.specs.Prelude.{◌≡◌, map, false, Err, IfErr, IfOk, None, Some};
ghost use Rattle.clap.specs.Words.{app_of, found_of, kind_of, rows_of, rule_of, subcommand_rows_of};
ghost use Rattle.command_lines.specs.LineCommands.{eip_line_app, line_app, line_of, loop_app, loop_of, met_task, misuse_of, number_rule, parsed_task};

use crate::line_task::{LineTask, LoopTask, Misuse, Task};
use cip_types::limits::{TCP_PORT, UDP_PORT};
use clap::error::ErrorKind;
use clap::{Arg, ArgAction, ArgMatches, Command, value_parser};
use std::alloc::{AllocError, Global};
use std::convert::AsStr;

/// The usual number of turns.
const TURNS: u32 = 1_000;

/// The usual number of scanners.
const SCANNERS: u8 = 2;

/// The usual number of ticks.
const TICKS: u32 = 100;

/// The task of a command line, as its commands and their options are declared.
pub(crate) fn parse<S: AsStr>(alloc: Global, words: &[S]) -> Result<Task, Misuse>
    ensures task { IfOk result (λ task. parsed_task (map S.text words.now) ≡ Some task) }
    ensures usage { result ≡ Err Misuse.Usage → parsed_task (map S.text words.now) ≡ None }
{
    let command = eip_line(alloc)?;
    match command.try_get_matches_from(words) {
        Ok(matches) => task_met(&matches),
        Err(error) => Err(misuse_of(&error)),
    }
}

/// Why clap refuses the words.
fn misuse_of(error: &clap::Error) -> Misuse
    ensures { result ≡ misuse_of (kind_of error.now) }
{
    match error.kind() {
        ErrorKind::OutOfMemory => Misuse::OutOfMemory,
        _ => Misuse::Usage,
    }
}

/// The task of the command that was met, with its options.
fn task_met(matches: &ArgMatches<'_>) -> Result<Task, Misuse>
    ensures task { IfOk result (λ task. met_task (subcommand_rows_of matches.now) ≡ Some task) }
    ensures usage { IfErr result (λ misuse. (misuse ≡ Misuse.Usage) × (met_task (subcommand_rows_of matches.now) ≡ None)) }
{
    let Some((name, given)) = matches.subcommand() else {
        return Err(Misuse::Usage);
    };
    match name {
        "step" => Ok(Task::Step),
        "loop" => Ok(Task::Loop(loop_task(given))),
        "line" => Ok(Task::Line(line_task(given))),
        _ => Err(Misuse::Usage),
    }
}

/// The program: a command is required.
fn eip_line<'a>(alloc: Global) -> Result<Command<'a>, AllocError>
    ensures { IfOk result (λ command. app_of command ≡ eip_line_app) }
{
    Command::new(alloc, "eip_line")
        .subcommand_required(true)
        .subcommand(Command::new(alloc, "step"))?
        .subcommand(loop_command(alloc)?)?
        .subcommand(line_command(alloc)?)
}

fn loop_command<'a>(alloc: Global) -> Result<Command<'a>, AllocError>
    ensures { IfOk result (λ command. app_of command ≡ loop_app) }
{
    let turns = Arg::new(alloc, "turns")
        .long("turns")
        .action(ArgAction::Set)
        .value_parser(value_parser!(u32).range(1..=1_000_000));
    Command::new(alloc, "loop")
        .arg(port(alloc, "tcp"))?
        .arg(port(alloc, "udp"))?
        .arg(turns)
}

fn line_command<'a>(alloc: Global) -> Result<Command<'a>, AllocError>
    ensures { IfOk result (λ command. app_of command ≡ line_app) }
{
    let scanners = Arg::new(alloc, "scanners")
        .long("scanners")
        .action(ArgAction::Set)
        .value_parser(value_parser!(u8).range(1..=8));
    let ticks = Arg::new(alloc, "ticks")
        .long("ticks")
        .action(ArgAction::Set)
        .value_parser(value_parser!(u32).range(1..=10_000));
    Command::new(alloc, "line").arg(scanners)?.arg(ticks)
}

/// A port, below the last one, so that there is a next one.
fn port<'a>(alloc: Global, name: &'a str) -> Arg<'a>
    ensures rule { rule_of result ≡ number_rule name.entry.now 65534 }
    ensures local { result.global ≡ false }
{
    Arg::new(alloc, name)
        .long(name)
        .action(ArgAction::Set)
        .value_parser(value_parser!(u16).range(1..=65_534))
}

/// The given options, and the usual values of the others.
fn loop_task(given: &ArgMatches<'_>) -> LoopTask
    ensures { result ≡ loop_of (rows_of (found_of given.now)) }
{
    LoopTask {
        tcp: given.get_one("tcp").unwrap_or(TCP_PORT),
        udp: given.get_one("udp").unwrap_or(UDP_PORT),
        turns: given.get_one("turns").unwrap_or(TURNS),
    }
}

/// The given options, and the usual values of the others.
fn line_task(given: &ArgMatches<'_>) -> LineTask
    ensures { result ≡ line_of (rows_of (found_of given.now)) }
{
    LineTask {
        scanners: given.get_one("scanners").unwrap_or(SCANNERS),
        ticks: given.get_one("ticks").unwrap_or(TICKS),
    }
}

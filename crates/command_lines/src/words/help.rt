//! Help behind a command.

ghost use Rattle.std.specs.Prelude.{◌≡◌, map};
ghost use Rattle.command_lines.specs.Words.Help.{is_help, read_task, requests_help, some_help};

use crate::{ProgramTask, StationMisuse, command_of, read_station_task};
use std::convert::AsStr;

/// The task that the words request: help, if `--help` or `-h` is behind a command, and else that of `read_station_task`, with its
/// faults.
pub fn read_task<S: AsStr>(words: &[S]) -> Result<ProgramTask, StationMisuse>
    ensures { result ≡ read_task (map S.text words.now) }
{
    if requests_help(words) {
        Ok(ProgramTask::Help)
    } else {
        read_station_task(words)
    }
}

/// Whether help is behind a command.
fn requests_help<S: AsStr>(words: &[S]) -> bool
    ensures { result ≡ requests_help (map S.text words.now) }
{
    match words {
        [_program, command, rest @ ..] => {
            command_of(command.as_str()).is_some() && some_help(rest)
        }
        _ => false,
    }
}

/// Whether one of these words requests help.
fn some_help<S: AsStr>(words: &[S]) -> bool
    ensures { result ≡ some_help (map S.text words.now) }
{
    let mut rest = words;
    while let Some((word, after)) = rest.split_first() {
        if is_help(word.as_str()) {
            return true;
        }
        rest = after;
    }
    false
}

/// Whether a word requests help.
fn is_help(word: &str) -> bool
    ensures { result ≡ is_help word.now }
{
    word == "--help" || word == "-h"
}

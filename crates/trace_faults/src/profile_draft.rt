//! The profile at the front of a text, and the lines that it is in.

ghost use Rattle.std.specs.Prelude.{◌≡◌};
ghost use Rattle.trace_words.specs.Words.{is_word, words_of};
ghost use Rattle.trace_faults.specs.ProfileLines.{begins_with, is_named, line_number, word_of};

use crate::profile_faults::LineName;
use cip_tables::Config;
use cip_types::OutOfMemory;
use std::alloc::Global;
use trace_lines::limit_named;
use trace_text::{TraceBuilder, add_text, ascii_text, config_of, first_line};
use trace_words::{TextFault, Words};

/// The number of a line of this name in a text, from 1, where so many lines of this name are before it.
pub fn line_number(text: &[u8], name: LineName, index: usize) -> Option<u64>
    ensures { result ≡ line_number text.now name index }
{
    let mut number = 1u64;
    let mut before = index;
    let mut rest = text;
    while let Some((line, after)) = first_line(rest) {
        if is_named(line, name) {
            if before == 0 {
                return Some(number);
            }
            before -= 1;
        }
        number += 1;
        rest = after;
    }
    None
}

/// Whether a line is one of this name: its first word.
fn is_named(line: &[u8], name: LineName) -> bool
    ensures { result ≡ is_named name line.now }
{
    match ascii_text(line) {
        Some(text) => begins_with(text, name),
        None => false,
    }
}

/// Whether the first word of a text is this name.
fn begins_with(text: &str, name: LineName) -> bool
    ensures { result ≡ begins_with name (words_of text.now) }
{
    let mut words = Words::of(text);
    match words.word() {
        Ok(word) => is_word_of(word, name),
        Err(_) => false,
    }
}

/// Whether a word is this name.
fn is_word_of(word: &str, name: LineName) -> bool
    ensures { result ≡ is_word (word_of name) word.now }
{
    match name {
        LineName::Adapter => word == "adapter",
        LineName::Output => word == "output",
        LineName::Input => word == "input",
        LineName::Config => word == "config",
        LineName::Describe => word == "describe",
        LineName::Limit(row) => limit_named(word) == Some(row),
        LineName::Object => word == "object",
        LineName::Heartbeat => word == "heartbeat",
        LineName::Scanner => word == "scanner",
        LineName::Tidy => word == "tidy",
        LineName::Openings => word == "openings",
        LineName::Serials => word == "serials",
        LineName::Ids => word == "ids",
        LineName::Slot => word == "slot",
    }
}

/// The configuration of the profile at the front of a text, valid or not. None if the text begins with no profile.
/// OutOfMemory is the only fault.
pub fn profile_of(alloc: Global, text: &[u8]) -> Result<Option<Config>, OutOfMemory> {
    let mut builder = TraceBuilder::Empty;
    let mut rest = text;
    while let Some((line, after)) = first_line(rest) {
        match add_text(alloc, &mut builder, line) {
            Ok(()) => {}
            Err(TextFault::OutOfMemory) => return Err(OutOfMemory),
            Err(TextFault::Bad) => return Ok(None),
        }
        if matches!(builder, TraceBuilder::Events { .. }) {
            break;
        }
        rest = after;
    }
    Ok(config_of(builder))
}

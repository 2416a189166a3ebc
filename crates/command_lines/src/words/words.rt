//! The words of the command line, and what is said of a wrong one.

use crate::words::values::{has_options, takes_value, value_words};
use crate::{SheetTask, StationMisuse};
use cip_types::OutOfMemory;
use eds_text::SheetNames;
use std::alloc::{AllocError, Global};

/// The words before the options: those of the program, of the command, and of its file or host.
const FIRST_WORDS: usize = 3;

/// The words of a command line in which each option and its value are two words, also where `=` joins them.
pub fn split_words(alloc: Global, given: Vec<String>) -> Result<Vec<String>, AllocError> {
    if !has_command(given.as_slice()) {
        return Ok(given);
    }
    let mut words = Vec::new(alloc);
    let mut is_value = false;
    for (place, word) in given.into_iter().enumerate() {
        let is_option = FIRST_WORDS <= place && !is_value;
        is_value = is_option && takes_value(word.as_str());
        match word.as_str().split_once('=') {
            Some((name, value)) if is_option && takes_value(name) => {
                words.push(format!(in alloc; "{name}")?)?;
                words.push(format!(in alloc; "{value}")?)?;
            }
            _ => words.push(word)?,
        }
    }
    Ok(words)
}

/// Whether the command has options.
fn has_command(words: &[String]) -> bool {
    match words.get(1) {
        Some(word) => has_options(word.as_str()),
        None => false,
    }
}

/// Appends what is wrong with a word, if it is the value of an option or its option has none: the option, the value, and what
/// values the option has. Whether it is.
pub fn push_value_fault(
    out: &mut String,
    words: &[String],
    misuse: StationMisuse,
) -> Result<bool, OutOfMemory> {
    match misuse {
        StationMisuse::NoValue(left) => {
            let option = word_from_end(words, left);
            write!(out, "{option} needs a value: {}", value_words(option))?;
            Ok(true)
        }
        StationMisuse::BadValue(left) | StationMisuse::BadAddress(left) => {
            let option = word_from_end(words, left.saturating_add(1));
            if !takes_value(option) {
                return Ok(false);
            }
            let value = word_from_end(words, left);
            let allowed = value_words(option);
            write!(out, "{option} {value} is no such value: {allowed}")?;
            Ok(true)
        }
        _ => Ok(false),
    }
}

/// The word from which on so many words are left.
pub fn word_from_end(words: &[String], left: usize) -> &str {
    match words.get(words.len().saturating_sub(left)) {
        Some(word) => word.as_str(),
        None => "",
    }
}

/// The wrong word of a command line.
pub fn wrong_word(words: &[String], misuse: StationMisuse) -> &str {
    let left = match misuse {
        StationMisuse::NoCommand
        | StationMisuse::NoFile
        | StationMisuse::NoHost
        | StationMisuse::OneDevice => return "",
        StationMisuse::ThreeNames(left) => left,
        StationMisuse::BadName(left) => left,
        StationMisuse::NoSuchCommand(left) => left,
        StationMisuse::NoSuchOption(left) => left,
        StationMisuse::NoValue(left) => left,
        StationMisuse::BadValue(left) => left,
        StationMisuse::BadAddress(left) => left,
    };
    word_from_end(words, left)
}

/// The file of this index: the files are behind the command.
pub fn file_at(words: &[String], place: usize) -> &str {
    match files_of(words).get(place) {
        Some(word) => word.as_str(),
        None => "",
    }
}

/// The files that the words name.
pub fn files_of(words: &[String]) -> &[String] {
    words.get(2..).unwrap_or(&[])
}

/// The file that the words name.
pub fn file_of(words: &[String]) -> &str {
    word_from_end(words, words.len().saturating_sub(2))
}

/// The file of the profile that the words name.
pub fn profile_of(words: &[String]) -> &[String] {
    words.get(2..3).unwrap_or(&[])
}

/// The names of a data sheet that the words have.
pub fn names_of(words: &[String], sheet: SheetTask) -> SheetNames<'_> {
    match (sheet, words) {
        (SheetTask::Named, [_, _, _, vendor, product, catalog]) => SheetNames {
            vendor: Some(vendor.as_str()),
            product: Some(product.as_str()),
            catalog: Some(catalog.as_str()),
        },
        _ => SheetNames {
            vendor: None,
            product: None,
            catalog: None,
        },
    }
}

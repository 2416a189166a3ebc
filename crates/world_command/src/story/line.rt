//! The lines of a story, each as its value or what is wrong with it.

ghost use Rattle.std.specs.Prelude.{◌≡◌, ◌+◌, drop};
ghost use Rattle.trace_words.specs.Reader.{unread_words};
ghost use Rattle.world_command.specs.Story.Lines.{Reads, act_line, device_line, is_comment, line_of, profile_words, text_line};

use crate::story::acts::{StoryAct, read_act};
use crate::story::faults::{StoryLineFault, StoryReadFault};
use crate::story::names::{StoryName, device_at, is_name};
use std::alloc::Global;
use trace_text::ascii_text;
use trace_words::{TextFault, Words};

/// A device of a story: its name, and the path of its profile.
#[derive(Drop)]
pub struct StoryDevice {
    pub name: StoryName,
    pub profile: StoryName,
}

/// A line of a story.
#[derive(Drop)]
pub enum StoryLine {
    /// An empty line.
    Skipped,
    /// A line for the reader, of any bytes.
    Comment,
    /// A device.
    Device(StoryDevice),
    /// An act of the device of this index.
    Act { device: usize, act: StoryAct },
}

/// The value of a line, which has no LF at its end, behind the lines of the devices with these names.
///
/// The faults, in order: `NotAscii`; of a device `BadName`, `SameName`, `NoProfile`; of an act `UnknownDevice`, `NoAct`; and
/// `OutOfMemory` wherever an allocation was refused.
#[tactic(auto, unfolding(crate::specs::Story::Lines::line_of))]
pub fn read_line(
    alloc: Global,
    names: &[StoryName],
    line: &[u8],
) -> Result<StoryLine, StoryReadFault>
    ensures { Reads (line_of names.now line.now) result }
{
    if line.is_empty() {
        return Ok(StoryLine::Skipped);
    }
    if is_comment(line) {
        return Ok(StoryLine::Comment);
    }
    match ascii_text(line) {
        Some(text) => read_text(alloc, names, text),
        None => Err(StoryReadFault::Line(StoryLineFault::NotAscii)),
    }
}

/// Whether a line is a comment.
fn is_comment(line: &[u8]) -> bool
    ensures { result ≡ is_comment line.now }
{
    match line.get(0) {
        Some(first) => *first == b'#',
        None => false,
    }
}

/// The value of a line of words.
fn read_text(alloc: Global, names: &[StoryName], text: &str) -> Result<StoryLine, StoryReadFault>
    ensures { Reads (text_line names.now text.now) result }
{
    let mut words = Words::of(text);
    let Ok(word) = words.word() else {
        return Err(StoryReadFault::Line(StoryLineFault::NoAct));
    };
    match word {
        "device" => read_device(alloc, names, &mut words),
        _ => read_named(alloc, names, text, word, &mut words),
    }
}

/// What follows the word of a device.
fn read_device(
    alloc: Global,
    names: &[StoryName],
    words: &mut Words<'_>,
) -> Result<StoryLine, StoryReadFault>
    ensures { Reads (device_line names.now (unread_words words.old)) result }
{
    let Ok(name) = words.word() else {
        return Err(StoryReadFault::Line(StoryLineFault::BadName));
    };
    if !is_name(name) {
        return Err(StoryReadFault::Line(StoryLineFault::BadName));
    }
    match device_at(names, name) {
        Some(_) => Err(StoryReadFault::Line(StoryLineFault::SameName)),
        None => read_profile(alloc, name, words),
    }
}

/// What follows the name of a new device.
fn read_profile(
    alloc: Global,
    name: &str,
    words: &mut Words<'_>,
) -> Result<StoryLine, StoryReadFault>
    ensures { Reads (profile_words name.now (unread_words words.old)) result }
{
    let Ok(profile) = words.word() else {
        return Err(StoryReadFault::Line(StoryLineFault::NoProfile));
    };
    if profile.is_empty() || !words.is_done() {
        return Err(StoryReadFault::Line(StoryLineFault::NoProfile));
    }
    let name = StoryName::copy_of(alloc, name)?;
    let profile = StoryName::copy_of(alloc, profile)?;
    Ok(StoryLine::Device(StoryDevice { name, profile }))
}

/// What follows the name of a device in a line of this text: its act.
fn read_named(
    alloc: Global,
    names: &[StoryName],
    text: &str,
    name: &str,
    words: &mut Words<'_>,
) -> Result<StoryLine, StoryReadFault>
    ensures { Reads (act_line names.now text.now name.now (unread_words words.old)) result }
{
    let Some(device) = device_at(names, name) else {
        return Err(StoryReadFault::Line(StoryLineFault::UnknownDevice));
    };
    match read_act(alloc, names, words, behind(text.as_bytes(), name.len())) {
        Ok(act) => Ok(StoryLine::Act { device, act }),
        Err(TextFault::Bad) => Err(StoryReadFault::Line(StoryLineFault::NoAct)),
        Err(TextFault::OutOfMemory) => Err(StoryReadFault::OutOfMemory),
    }
}

/// The text behind a word of so many bytes and its space.
fn behind(text: &[u8], count: usize) -> &[u8]
    ensures { result.now ≡ drop (count + 1) text.now }
{
    if count < text.len() {
        &text[count + 1..]
    } else {
        &[]
    }
}

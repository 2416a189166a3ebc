//! The lines of a plant's file, each as its value or what is wrong with it.

ghost use Rattle.std.specs.Prelude.{None, codes};
ghost use Rattle.plant_rim.specs.File.Texts.{cut_at};
ghost use Rattle.plant_rim.specs.File.Acts.{act_of};
ghost use Rattle.plant_rim.specs.File.Lines.{Reads, at_line, device_named, device_of, every_line, guarded_line, line_of, script_due_at, script_with, when_line, worded};

use crate::file::acts::{condition_of, read_act};
use crate::file::faults::{PlantLineFault, PlantReadFault};
use crate::file::plant::PlantWord;
use crate::file::texts::{is_name, is_skipped, split_do, split_word, trimmed};
use crate::file::values::{
    at_of, delay_of, every_of, percent_of, read_address, read_folder, seconds_of, seed_of, text_of,
};
use cip_types::Node;
use station::{DueTime, ScriptLine};
use std::alloc::Global;

/// What becomes of the datagrams that arrive at a device: one of the settings.
#[derive(Clone, Copy, PartialEq, Eq)]
pub enum FaultSetting {
    Lose(u8),
    Repeat(u8),
    Reorder(u8),
    Delay(u16),
    Seed(u64),
}

/// A line of a plant's file.
#[derive(Drop)]
pub enum PlantLine {
    /// An empty line, or a comment.
    Skipped,
    /// A device.
    Device {
        name: PlantWord,
        profile: PlantWord,
        address: Option<Node>,
    },
    /// A setting of the last device.
    Fault(FaultSetting),
    /// A line of the last device's script.
    Script(ScriptLine),
    /// How long the plant runs.
    Seconds(u32),
    /// Where the records are.
    Record(PlantWord),
}

/// The value of a line, which has no LF at its end.
#[tactic(auto, unfolding(crate::specs::File::Lines::line_of))]
pub fn read_line(alloc: Global, line: &[u8]) -> Result<PlantLine, PlantReadFault>
    ensures { Reads (line_of line.now) result }
{
    let text = trimmed(line);
    if is_skipped(text) {
        return Ok(PlantLine::Skipped);
    }
    let text = text_of(text)?;
    let (word, rest) = split_word(text);
    read_worded(alloc, word, rest)
}

/// The value of a line that begins with this word.
#[tactic(auto, unfolding(crate::specs::File::Lines::worded))]
fn read_worded(alloc: Global, word: &str, rest: &str) -> Result<PlantLine, PlantReadFault>
    ensures { Reads (worded word.now rest.now) result }
{
    match word {
        "device" => read_device(alloc, rest),
        "lose" => Ok(PlantLine::Fault(FaultSetting::Lose(percent_of(rest)?))),
        "repeat" => Ok(PlantLine::Fault(FaultSetting::Repeat(percent_of(rest)?))),
        "reorder" => Ok(PlantLine::Fault(FaultSetting::Reorder(percent_of(rest)?))),
        "delay" => Ok(PlantLine::Fault(FaultSetting::Delay(delay_of(rest)?))),
        "seed" => Ok(PlantLine::Fault(FaultSetting::Seed(seed_of(rest)?))),
        "at" => read_at(alloc, rest),
        "every" => read_every(alloc, rest),
        "when" => read_when(alloc, rest),
        "seconds" => Ok(PlantLine::Seconds(seconds_of(rest)?)),
        "record" => Ok(PlantLine::Record(read_folder(alloc, rest)?)),
        _ => Err(PlantReadFault::Line(PlantLineFault::UnknownWord)),
    }
}

/// What follows the word of a device.
fn read_device(alloc: Global, rest: &str) -> Result<PlantLine, PlantReadFault>
    ensures { Reads (device_of rest.now) result }
{
    let (name, rest) = split_word(rest);
    if !is_name(name.as_bytes()) {
        return Err(PlantReadFault::Line(PlantLineFault::BadName));
    }
    let (profile, address) = split_word(rest);
    read_named(alloc, name, profile, address)
}

/// A device of this name.
fn read_named(
    alloc: Global,
    name: &str,
    profile: &str,
    address: &str,
) -> Result<PlantLine, PlantReadFault>
    ensures { Reads (device_named name.now profile.now address.now) result }
{
    if profile.is_empty() {
        return Err(PlantReadFault::Line(PlantLineFault::NoProfile));
    }
    let address = read_address(address)?;
    let name = PlantWord::copy_of(alloc, name)?;
    let profile = PlantWord::copy_of(alloc, profile)?;
    Ok(PlantLine::Device {
        name,
        profile,
        address,
    })
}

/// What follows the word of a line that is due once.
fn read_at(alloc: Global, rest: &str) -> Result<PlantLine, PlantReadFault>
    ensures { Reads (at_line rest.now) result }
{
    let (time, call) = split_word(rest);
    let due = at_of(time)?;
    read_script(alloc, due, call)
}

/// What follows the word of a line that is due again and again.
fn read_every(alloc: Global, rest: &str) -> Result<PlantLine, PlantReadFault>
    ensures { Reads (every_line rest.now) result }
{
    let (time, call) = split_word(rest);
    let due = every_of(time)?;
    read_script(alloc, due, call)
}

/// What follows the word of a line that waits for a condition from the beginning on.
fn read_when(alloc: Global, rest: &str) -> Result<PlantLine, PlantReadFault>
    ensures { Reads (when_line rest.now) result }
{
    read_guarded(alloc, DueTime::At(0), rest)
}

/// A line of a script that is due so: it waits for a condition, or does something at once.
fn read_script(alloc: Global, due: DueTime, call: &str) -> Result<PlantLine, PlantReadFault>
    ensures { Reads (script_due_at due call.now) result }
{
    let (word, rest) = split_word(call);
    match word {
        "when" => read_guarded(alloc, due, rest),
        _ => read_unguarded(alloc, due, call),
    }
}

/// A line of a script that is due so, and does this.
fn read_unguarded(alloc: Global, due: DueTime, text: &str) -> Result<PlantLine, PlantReadFault>
    ensures { Reads (script_with due None (act_of text.now)) result }
{
    let act = read_act(alloc, text)?;
    Ok(PlantLine::Script(ScriptLine {
        due,
        guard: None,
        act,
    }))
}

/// A line of a script that is due so, and then waits for a condition: CONDITION do ACT.
fn read_guarded(alloc: Global, due: DueTime, rest: &str) -> Result<PlantLine, PlantReadFault>
    ensures { Reads (guarded_line due (cut_at (codes " do ") rest.now)) result }
{
    let Some((condition, text)) = split_do(rest) else {
        return Err(PlantReadFault::Line(PlantLineFault::NoDo));
    };
    let guard = condition_of(alloc, condition)?;
    let act = read_act(alloc, text)?;
    Ok(PlantLine::Script(ScriptLine {
        due,
        guard: Some(guard),
        act,
    }))
}

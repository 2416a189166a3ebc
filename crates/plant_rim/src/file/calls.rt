//! The steps that texts have a device of a plant do.

ghost use Rattle.std.specs.Prelude.{◌≡◌, IfOk};
ghost use Rattle.trace_words.specs.Reader.{Finds, Takes, meaning, refuses, unread_words};
ghost use Rattle.plant_rim.specs.File.Calls.{own_call_of, own_meanings, own_reader, plant_call_of, restart_reader, station_call_of, step_of_line, typed_call_of};

use cip_types::OutOfMemory;
use port_faults::PortOrder;
use station::{LifeEnd, StationStep};
use station_lines::{InputLine, read_call, read_line};
use std::alloc::Global;
use trace_text::ascii_text;
use trace_words::{TextFault, Words};

/// The step of a script's text: `cut`, `pause MS`, `restart`, `restart same` or `send NODE HEX`, or a call of the device's
/// application as a station's input takes it.
///
/// The faults: `Bad` if the text is none of them, and `OutOfMemory`.
pub fn read_plant_call(alloc: Global, text: &[u8]) -> Result<StationStep, TextFault>
    ensures { Finds (plant_call_of text.now) result }
{
    match read_own_call(alloc, text) {
        Ok(own) => Ok(own),
        Err(TextFault::Bad) => read_station_call(alloc, text),
        Err(TextFault::OutOfMemory) => Err(TextFault::OutOfMemory),
    }
}

/// The step of a text that is typed at a device: one of those that only a plant has, or what a line of a station's input is. None
/// if the text is neither. The only fault is a refused allocation.
pub fn read_typed_call(alloc: Global, text: &[u8]) -> Result<Option<StationStep>, OutOfMemory>
    ensures { IfOk result (λ step. step ≡ typed_call_of text.now) }
{
    match read_own_call(alloc, text) {
        Ok(own) => Ok(Some(own)),
        Err(TextFault::Bad) => Ok(step_of_line(read_line(alloc, text)?)),
        Err(TextFault::OutOfMemory) => Err(OutOfMemory),
    }
}

/// The step of a line of a station's input; None if it is a comment or no call.
fn step_of_line(line: InputLine) -> Option<StationStep>
    ensures { result ≡ step_of_line line }
{
    match line {
        InputLine::Call(event) => Some(StationStep::Call(event)),
        InputLine::Attribute(call) => Some(StationStep::Ask(call)),
        InputLine::Status => Some(StationStep::Status),
        InputLine::Numbers => Some(StationStep::Numbers),
        InputLine::Skipped => None,
        InputLine::NoCall => None,
    }
}

/// A call of a station.
fn read_station_call(alloc: Global, text: &[u8]) -> Result<StationStep, TextFault>
    ensures { Finds (station_call_of text.now) result }
{
    Ok(StationStep::Call(read_call(alloc, text)?))
}

/// A step that only a plant has.
#[tactic(auto, unfolding(crate::specs::File::Calls::own_call_of))]
fn read_own_call(alloc: Global, text: &[u8]) -> Result<StationStep, TextFault>
    ensures { Finds (own_call_of text.now) result }
{
    let text = ascii_text(text).ok_or(TextFault::Bad)?;
    read_words(alloc, &mut Words::of(text))
}

fn read_words(alloc: Global, words: &mut Words<'_>) -> Result<StationStep, TextFault>
    ensures { Takes (own_reader (unread_words words.old)) result (unread_words words.new) }
{
    let word = words.word()?;
    read_behind(alloc, words, word)
}

/// What follows the first word of a step that only a plant has.
fn read_behind(alloc: Global, words: &mut Words<'_>, word: &str) -> Result<StationStep, TextFault>
    ensures { Takes (meaning own_meanings refuses word.now (unread_words words.old)) result
        (unread_words words.new) }
{
    match word {
        "cut" => words.last(StationStep::Order(PortOrder::Cut)),
        "pause" => {
            let ms = words.u32()?;
            let ms = u64::from(ms);
            words.last(StationStep::Order(PortOrder::Pause { ms }))
        }
        "restart" => read_restart(words),
        "send" => {
            let node = words.node()?;
            let bytes = words.bytes(alloc)?;
            words.last(StationStep::Order(PortOrder::Send { node, bytes }))
        }
        _ => Err(TextFault::Bad),
    }
}

/// What follows the word of a restart.
fn read_restart(words: &mut Words<'_>) -> Result<StationStep, TextFault>
    ensures { Takes (restart_reader (unread_words words.old)) result (unread_words words.new) }
{
    if words.is_done() {
        return Ok(StationStep::End(LifeEnd::Restart { same: false }));
    }
    match words.word()? {
        "same" => words.last(StationStep::End(LifeEnd::Restart { same: true })),
        _ => Err(TextFault::Bad),
    }
}

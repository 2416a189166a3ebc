//! What no station can serve, in words: the line and the word of the profile, and the value there.

ghost use Rattle.std.specs.Prelude.{◌≡◌, ◌++◌, IfOk, OnOk, string_bytes};
ghost use Rattle.station_setup.specs.Opening.Unserved.{behind_text, defect_text, front_text, other_of, output_at, output_of, own_text, shared_text, target_at, target_of, value_text, word_of};

use crate::unservable::StationDefect;
use cip_tables::Config;
use cip_types::{Node, OutOfMemory};
use scanner_table::SlotConfig;
use std::alloc::Global;
use trace_faults::{LineName, WordPlace, line_number};
use trace_words::{push_node, push_text};

/// The word of a TCP port in the line `describe`.
const PORT_WORD: usize = 4;

/// The words of a target and of a consumed point in the line of a slot.
const TARGET_WORD: usize = 2;

const CONSUMED_WORD: usize = 5;

/// The sentence of a defect, with an LF. The text is that of the profile.
pub(crate) fn sentence_of(
    alloc: Global,
    text: &[u8],
    config: &Config,
    defect: StationDefect,
) -> Result<String, OutOfMemory> {
    let at = word_of(defect);
    let line = line_number(text, at.line, at.index);
    let other = match other_of(defect) {
        Some(other) => line_number(text, LineName::Slot, other),
        None => None,
    };
    defect_text(alloc, config, defect, line, other)
}

/// The word of a profile that has a defect.
fn word_of(defect: StationDefect) -> WordPlace
    ensures { result ≡ word_of defect }
{
    match defect {
        StationDefect::NoPort => WordPlace {
            line: LineName::Describe,
            index: 0,
            word: PORT_WORD,
        },
        StationDefect::OwnTarget { slot } => WordPlace {
            line: LineName::Slot,
            index: slot,
            word: TARGET_WORD,
        },
        StationDefect::SharedOutput { slot, .. } => WordPlace {
            line: LineName::Slot,
            index: slot,
            word: CONSUMED_WORD,
        },
    }
}

/// The slot whose line a sentence names beside that of the defect.
fn other_of(defect: StationDefect) -> Option<usize>
    ensures { result ≡ other_of defect }
{
    match defect {
        StationDefect::SharedOutput { other, .. } => Some(other),
        _ => None,
    }
}

/// The sentence of a defect in this line, and of a slot in another one.
fn defect_text(
    alloc: Global,
    config: &Config,
    defect: StationDefect,
    line: Option<u64>,
    other: Option<u64>,
) -> Result<String, OutOfMemory>
    ensures { IfOk result (λ sentence. string_bytes sentence ≡ defect_text config.now defect line other) }
{
    let mut out = String::new(alloc);
    push_front(&mut out, line, word_of(defect).word)?;
    push_value(&mut out, config, defect)?;
    push_behind(&mut out, other)?;
    push_text(&mut out, "\n")?;
    Ok(out)
}

/// Appends a line and a word.
fn push_front(out: &mut String, line: Option<u64>, word: usize) -> Result<(), OutOfMemory>
    ensures { OnOk result (string_bytes out.new ≡ string_bytes out.old ++ front_text line word) }
{
    match line {
        Some(line) => write!(out, "line {line}: word {word}: ")?,
        None => write!(out, "word {word}: ")?,
    }
    Ok(())
}

/// Appends what is wrong with the value there.
fn push_value(out: &mut String, config: &Config, defect: StationDefect) -> Result<(), OutOfMemory>
    ensures { OnOk result (string_bytes out.new ≡ string_bytes out.old ++ value_text config.now defect) }
{
    match defect {
        StationDefect::NoPort => {
            push_text(
                out,
                "a station listens at a TCP port from 1 to 65535, and 0 is none",
            )
        }
        StationDefect::OwnTarget { slot } => push_own(out, target_of(config, slot), slot),
        StationDefect::SharedOutput { slot, other } => {
            push_shared(
                out,
                target_of(config, slot),
                output_of(config, slot),
                slot,
                other,
            )
        }
    }
}

/// Appends that the target of a slot is the scanner itself.
fn push_own(out: &mut String, target: Node, slot: usize) -> Result<(), OutOfMemory>
    ensures { OnOk result (string_bytes out.new ≡ string_bytes out.old ++ own_text target slot) }
{
    write!(out, "the target of slot {slot} is ")?;
    push_node(out, target)?;
    push_text(out, ", the scanner itself")
}

/// Appends that a slot owns an output that an earlier one owns.
fn push_shared(
    out: &mut String,
    target: Node,
    point: u32,
    slot: usize,
    other: usize,
) -> Result<(), OutOfMemory>
    ensures { OnOk result (string_bytes out.new ≡ string_bytes out.old ++ shared_text target point slot other) }
{
    write!(out, "slot {slot} owns the output {point} of ")?;
    push_node(out, target)?;
    write!(out, ", which has one owner: slot {other}")?;
    Ok(())
}

/// Appends the line of the other slot.
fn push_behind(out: &mut String, other: Option<u64>) -> Result<(), OutOfMemory>
    ensures { OnOk result (string_bytes out.new ≡ string_bytes out.old ++ behind_text other) }
{
    match other {
        Some(line) => write!(out, " in line {line}")?,
        None => {}
    }
    Ok(())
}

/// The target of a slot.
fn target_of(config: &Config, slot: usize) -> Node
    ensures { result ≡ target_of config.now slot }
{
    match config {
        Config::Adapter(_) => Node(0),
        Config::Scanner(profile) => target_at(profile.slots.as_slice(), slot),
    }
}

fn target_at(slots: &[SlotConfig], slot: usize) -> Node
    ensures { result ≡ target_at slots.now slot }
{
    match slots.get(slot) {
        Some(given) => given.target,
        None => Node(0),
    }
}

/// The output that a slot consumes at its target.
fn output_of(config: &Config, slot: usize) -> u32
    ensures { result ≡ output_of config.now slot }
{
    match config {
        Config::Adapter(_) => 0,
        Config::Scanner(profile) => output_at(profile.slots.as_slice(), slot),
    }
}

fn output_at(slots: &[SlotConfig], slot: usize) -> u32
    ensures { result ≡ output_at slots.now slot }
{
    match slots.get(slot) {
        Some(given) => given.consumed,
        None => 0,
    }
}

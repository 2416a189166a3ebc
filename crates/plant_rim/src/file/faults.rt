//! Why a file is no plant.

ghost use Rattle.std.specs.Prelude.{◌≡◌, ◌++◌, OnOk, string_bytes};
ghost use Rattle.plant_rim.specs.File.Sentences.{fault_text, sentence_of, sentence_of_context};

use cip_types::OutOfMemory;

/// What is wrong with a line.
#[derive(Clone, Copy, Debug, PartialEq, Eq)]
pub enum PlantLineFault {
    /// Its bytes are no text.
    NotText,
    /// No line begins with its first word.
    UnknownWord,
    /// The name of the device is none.
    BadName,
    /// The path of the profile is missing.
    NoProfile,
    /// The address is none.
    BadAddress,
    /// The percentage is none.
    BadPercent,
    /// The delay is none.
    BadDelay,
    /// The seed is none.
    BadSeed,
    /// The seconds are none.
    BadSeconds,
    /// The path of the folder is missing.
    NoFolder,
    /// The time of the call is none.
    BadTime,
    /// What follows the time is no call.
    NoCall,
    /// What is expected, or what a line waits for, is no condition.
    BadCondition,
    /// Nothing is to be done where the condition holds.
    NoDo,
    /// The text of a line that fails is none.
    BadText,
    /// It is no line of a script alone.
    NoScriptLine,
    /// It says something of a device, and no device is before it.
    BeforeDevice,
    /// It is one device too many.
    TooManyDevices,
    /// An earlier device has the name.
    SameName,
    /// An earlier device has the address.
    SameAddress,
    /// It is one line too many of a script.
    LongScript,
    /// An earlier line says the same of the plant or of the device.
    SaidTwice,
    /// It is the last one, and no line is a device.
    NoDevice,
}

/// Why a file is not read.
#[derive(Clone, Copy, Debug, PartialEq, Eq)]
pub enum PlantFault {
    /// The line of this number, from 1, is the first bad one.
    BadLine(u64, PlantLineFault),
    /// An allocation was refused.
    OutOfMemory,
}

/// Why a line is not read.
#[derive(Clone, Copy, PartialEq, Eq)]
pub enum PlantReadFault {
    /// The line is bad.
    Line(PlantLineFault),
    /// An allocation was refused.
    OutOfMemory,
}

impl From<OutOfMemory> for PlantReadFault {
    ghost use Rattle.plant_rim.specs.declared.file.faults.PlantReadFault.TheVariants as fault;

    ghost from_gives = { λ _ f. f ≡ fault.OutOfMemory };

    fn from(_error: OutOfMemory) -> PlantReadFault {
        PlantReadFault::OutOfMemory
    }
}

impl From<PlantLineFault> for PlantReadFault {
    ghost use Rattle.plant_rim.specs.declared.file.faults.PlantReadFault.TheVariants as fault;

    ghost from_gives = { λ line f. f ≡ fault.Line line };

    fn from(line: PlantLineFault) -> PlantReadFault {
        PlantReadFault::Line(line)
    }
}

/// What is wrong, as a sentence.
fn sentence_of(fault: PlantLineFault) -> &'static str
    ensures { result.now ≡ sentence_of fault }
{
    match fault {
        PlantLineFault::NotText => "it has bytes that are no UTF-8",
        PlantLineFault::UnknownWord => {
            "a line begins with device, lose, repeat, reorder, delay, seed, at, every, when, seconds or record"
        }
        PlantLineFault::BadName => "a name has 1 to 64 letters, digits, - and _",
        PlantLineFault::NoProfile => "the path of the device's profile is missing",
        PlantLineFault::BadAddress => "an address is four numbers below 256 with dots between them",
        PlantLineFault::BadPercent => "a percentage is a number from 0 to 100",
        PlantLineFault::BadDelay => "a delay is a number of milliseconds from 0 to 60000",
        PlantLineFault::BadSeed => "a seed is a number from 0 to 18446744073709551615",
        PlantLineFault::BadSeconds => "the seconds are a number from 1 to 1000000000",
        PlantLineFault::NoFolder => "the path of the folder is missing",
        _ => sentence_of_context(fault),
    }
}

/// What is wrong with a time, a call, or a line among the others, as a sentence.
fn sentence_of_context(fault: PlantLineFault) -> &'static str
    ensures { result.now ≡ sentence_of_context fault }
{
    match fault {
        PlantLineFault::BadTime => {
            "a time is a number of milliseconds up to 4294967295, and behind every it is not 0"
        }
        PlantLineFault::NoCall => {
            "a call is write, read, mode, start, stop, cut, pause, restart or send, and the words behind it; else it is expect, fail or pass"
        }
        PlantLineFault::BadCondition => {
            "a condition is output POINT = HEX, image SLOT = HEX, slot N and idle, opening, established, timed-out or closing, or owner POINT and none, lost, run, idle or of NODE"
        }
        PlantLineFault::NoDo => "behind when is a condition, and do, and what is done",
        PlantLineFault::NoScriptLine => "a line of a script begins with at, every or when",
        PlantLineFault::BadText =>
            "behind fail is a text of 1 to 200 bytes without control characters",
        PlantLineFault::BeforeDevice => "no device is before it",
        PlantLineFault::TooManyDevices => "a plant has at most 127 devices",
        PlantLineFault::SameName => "an earlier device has this name",
        PlantLineFault::SameAddress => "word 4: an earlier device has this address",
        PlantLineFault::LongScript => "a script has at most 256 lines",
        PlantLineFault::SaidTwice => "an earlier line says the same",
        _ => "a plant has at least one device",
    }
}

/// Appends the sentence of a bad line, with its number.
pub fn push_fault(out: &mut String, number: u64, fault: PlantLineFault) -> Result<(), OutOfMemory>
    ensures { OnOk result (string_bytes out.new ≡ string_bytes out.old ++ fault_text number fault) }
{
    let sentence = sentence_of(fault);
    write!(out, "line {number}: {sentence}")?;
    Ok(())
}

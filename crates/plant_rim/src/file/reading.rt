//! The text of a plant's file, read line by line.

ghost use Rattle.std.specs.Prelude.{◌≡◌, ◌<◌, ◌++◌, ◌∷◌, [], Ok, OnOk};
ghost use Rattle.plant_rim.specs.File.Plants.{plant_of};
ghost use Rattle.plant_rim.specs.File.Reading.{Adds, AddsNumbered, Answers, draft_after, numbered, plant_reading};
ghost use Rattle.plant_rim.specs.File.Scripts.{AddsLine, AddsSaid, script_after, script_reading};

use crate::file::draft::PlantDraft;
use crate::file::faults::{PlantFault, PlantLineFault, PlantReadFault};
use crate::file::line::{PlantLine, read_line};
use crate::file::plant::{MOST_SCRIPT_LINES, PlantFile};
use cip_types::{Items, OutOfMemory};
use station::ScriptLine;
use std::alloc::Global;
use trace_text::first_line;

/// The plant of a file.
///
/// The faults: `BadLine` with the number of the first line that is none or does not fit the lines before it, and what is wrong
/// with it (a file without a device is wrong at its last line); and `OutOfMemory` wherever an allocation was refused.
#[tactic(auto, unfolding(crate::specs::File::Reading::plant_reading))]
pub fn read_plant(alloc: Global, text: &[u8]) -> Result<PlantFile, PlantFault>
    ensures { Answers (plant_reading text.now) result }
{
    let mut draft = PlantDraft::new(alloc);
    let mut number = 1;
    let mut rest = text;
    while let Some((line, after)) = first_line(rest) {
        match add_numbered(alloc, &mut draft, number, line) {
            Ok(()) => {}
            Err(fault) => return Err(fault),
        }
        number += 1;
        rest = after;
    }
    match add_numbered(alloc, &mut draft, number, rest) {
        Ok(()) => whole(alloc, draft, number),
        Err(fault) => Err(fault),
    }
}

/// The script of a file: lines of a script alone.
///
/// The faults: `BadLine` with the number of the first line that is none, and what is wrong with it; and `OutOfMemory` wherever an
/// allocation was refused.
#[tactic(auto, unfolding(crate::specs::File::Scripts::script_reading))]
pub fn read_script_file(alloc: Global, text: &[u8]) -> Result<Items<ScriptLine>, PlantFault>
    ensures { Answers (script_reading text.now) result }
{
    let mut script = Vec::new(alloc);
    let mut number = 1;
    let mut rest = text;
    while let Some((line, after)) = first_line(rest) {
        match add_script_line(alloc, &mut script, number, line) {
            Ok(()) => {}
            Err(fault) => return Err(fault),
        }
        number += 1;
        rest = after;
    }
    match add_script_line(alloc, &mut script, number, rest) {
        Ok(()) => Ok(Items::from_vec(script)),
        Err(fault) => Err(fault),
    }
}

/// Adds the line of this number to a script.
fn add_script_line(
    alloc: Global,
    script: &mut Vec<ScriptLine>,
    number: u64,
    line: &[u8],
) -> Result<(), PlantFault>
    ensures { AddsLine (numbered number (script_after script.old.items line.now)) result script.new.items }
{
    match add_said(alloc, script, line) {
        Ok(()) => Ok(()),
        Err(PlantReadFault::Line(fault)) => Err(PlantFault::BadLine(number, fault)),
        Err(PlantReadFault::OutOfMemory) => Err(PlantFault::OutOfMemory),
    }
}

/// Adds a line of these bytes to a script.
#[tactic(auto, unfolding(crate::specs::File::Scripts::script_after))]
fn add_said(alloc: Global, script: &mut Vec<ScriptLine>, line: &[u8]) -> Result<(), PlantReadFault>
    ensures { AddsSaid (script_after script.old.items line.now) result script.new.items }
{
    match read_line(alloc, line) {
        Ok(PlantLine::Skipped) => Ok(()),
        Ok(PlantLine::Script(said)) if script.len() < MOST_SCRIPT_LINES => {
            push_said(script, said)?;
            Ok(())
        }
        Ok(PlantLine::Script(_)) => Err(PlantReadFault::Line(PlantLineFault::LongScript)),
        Ok(_) => Err(PlantReadFault::Line(PlantLineFault::NoScriptLine)),
        Err(PlantReadFault::Line(PlantLineFault::UnknownWord)) => {
            Err(PlantReadFault::Line(PlantLineFault::NoScriptLine))
        }
        Err(fault) => Err(fault),
    }
}

/// Adds a line to a script. OutOfMemory is the only fault.
fn push_said(script: &mut Vec<ScriptLine>, said: ScriptLine) -> Result<(), OutOfMemory>
    ensures { OnOk result (script.new.items ≡ script.old.items ++ said ∷ []) }
{
    script.push(said)?;
    Ok(())
}

/// Adds the line of this number.
fn add_numbered(
    alloc: Global,
    draft: &mut PlantDraft,
    number: u64,
    line: &[u8],
) -> Result<(), PlantFault>
    ensures { AddsNumbered (numbered number (draft_after draft.old line.now)) result draft.new }
{
    match add_line(alloc, draft, line) {
        Ok(()) => Ok(()),
        Err(PlantReadFault::Line(fault)) => Err(PlantFault::BadLine(number, fault)),
        Err(PlantReadFault::OutOfMemory) => Err(PlantFault::OutOfMemory),
    }
}

/// Adds a line of these bytes.
#[tactic(auto, unfolding(crate::specs::File::Reading::draft_after))]
fn add_line(alloc: Global, draft: &mut PlantDraft, line: &[u8]) -> Result<(), PlantReadFault>
    ensures { Adds (draft_after draft.old line.now) result draft.new }
{
    let given = read_line(alloc, line)?;
    draft.add(alloc, given)
}

/// The plant of a file whose last line has this number.
fn whole(alloc: Global, draft: PlantDraft, number: u64) -> Result<PlantFile, PlantFault>
    ensures { Answers (numbered number (plant_of draft)) result }
{
    match draft.plant(alloc) {
        Ok(plant) => Ok(plant),
        Err(PlantReadFault::Line(fault)) => Err(PlantFault::BadLine(number, fault)),
        Err(PlantReadFault::OutOfMemory) => Err(PlantFault::OutOfMemory),
    }
}

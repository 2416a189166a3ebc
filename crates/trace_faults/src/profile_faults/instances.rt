//! The instances of an adapter's points, in the order of the lines, and the first that an earlier one has too.

ghost use Rattle.std.specs.Prelude.{◌≡◌, ◌++◌, IfOk, IfSome, OnOk};
ghost use Rattle.adapter_table.specs.Profiles.{all_points, are_distinct};
ghost use Rattle.cip_events.specs.declared.profile_fault.ProfileFault.TheVariants as fault;
ghost use Rattle.trace_faults.specs.ProfileFaults.Defects.{Explains};
ghost use Rattle.trace_faults.specs.ProfileFaults.Named.{NamesWord};
ghost use Rattle.trace_faults.specs.ProfileFaults.Instances.{IsOf, place_of, differ, placed, placed_outputs, placed_inputs, placed_config, placed_points};

use crate::profile_faults::defects::{Defect, LineName, ProfileReason, WordPlace};
use adapter_table::{InputPoint, OutputPoint, Profile};
use cip_types::OutOfMemory;
use std::alloc::Global;

/// An instance, and the word that has it.
#[derive(Clone, Copy, PartialEq, Eq)]
pub struct PlacedInstance {
    pub instance: u32,
    pub place: WordPlace,
}

/// The first point whose instance an earlier one has. OutOfMemory is the only fault.
pub fn instance_reason(
    alloc: Global,
    profile: &Profile,
) -> Result<Option<ProfileReason>, OutOfMemory>
    ensures fault { IfOk result (λ found. Explains found (are_distinct (all_points profile.now)) fault.SameInstance) }
    ensures named { IfOk result (λ found. IfSome found (NamesWord profile.now)) }
{
    let points = placed_points(alloc, profile)?;
    Ok(repeated(points.as_slice()))
}

/// The instances of all points in the order of their lines.
fn placed_points(alloc: Global, profile: &Profile) -> Result<Vec<PlacedInstance>, OutOfMemory>
    ensures { IfOk result (λ points. points.items ≡ placed_points profile.now) }
{
    let mut points = Vec::new(alloc);
    push_outputs(&mut points, profile.outputs.as_slice())?;
    push_inputs(&mut points, profile.inputs.as_slice())?;
    push_config(&mut points, profile.config)?;
    points.push(placed(profile.input_only, LineName::Heartbeat, 0, 2))?;
    points.push(placed(profile.listen_only, LineName::Heartbeat, 0, 3))?;
    Ok(points)
}

fn push_outputs(
    points: &mut Vec<PlacedInstance>,
    outputs: &[OutputPoint],
) -> Result<(), OutOfMemory>
    ensures { OnOk result (points.new.items ≡ points.old.items ++ placed_outputs 0 outputs.now) }
{
    for (index, output) in outputs.iter().enumerate() {
        points.push(placed(output.instance, LineName::Output, index, 2))?;
    }
    Ok(())
}

fn push_inputs(points: &mut Vec<PlacedInstance>, inputs: &[InputPoint]) -> Result<(), OutOfMemory>
    ensures { OnOk result (points.new.items ≡ points.old.items ++ placed_inputs 0 inputs.now) }
{
    for (index, input) in inputs.iter().enumerate() {
        points.push(placed(input.instance, LineName::Input, index, 2))?;
    }
    Ok(())
}

fn push_config(
    points: &mut Vec<PlacedInstance>,
    config: Option<InputPoint>,
) -> Result<(), OutOfMemory>
    ensures { OnOk result (points.new.items ≡ points.old.items ++ placed_config config) }
{
    if let Some(config) = config {
        points.push(placed(config.instance, LineName::Config, 0, 2))?;
    }
    Ok(())
}

/// The instance at this word of the line of this name and index.
fn placed(instance: u32, line: LineName, index: usize, word: usize) -> PlacedInstance
    ensures { result ≡ placed instance line index word }
{
    PlacedInstance {
        instance,
        place: WordPlace { line, index, word },
    }
}

/// The first of these points whose instance an earlier one has.
fn repeated(points: &[PlacedInstance]) -> Option<ProfileReason>
    ensures fault { Explains result (differ points.now) fault.SameInstance }
    ensures point { IfSome result (IsOf points.now) }
{
    for (index, point) in points.iter().enumerate() {
        if let Some(other) = place_of(&points[..index], point.instance) {
            return Some(ProfileReason {
                place: point.place,
                defect: Defect::SameInstance(point.instance, other),
            });
        }
    }
    None
}

/// The place of the first of these points that has this instance.
fn place_of(points: &[PlacedInstance], instance: u32) -> Option<WordPlace>
    ensures { result ≡ place_of instance points.now }
{
    let point = points.iter().find(|point| point.instance == instance)?;
    Some(point.place)
}

//! What the applications of the line do.

ghost use Rattle.std.specs.Prelude.{◌≡◌, ◌+◌, [], ◌∷◌, ◌++◌, All, IfOk, OnOk, length, map};
ghost use Rattle.line_threads.specs.Scripts.{events_in, IsOwn};
ghost use Rattle.eip_line.specs.LineSetup.Scripts.{adapter_script, line_scripts, output_of, scanner_script, turn_of, turns_of, write_of};

use cip_tables::Event;
use cip_types::{Items, OutOfMemory};
use example_profiles::INPUT;
use std::alloc::Global;

/// The one slot of a scanner.
const SLOT: u32 = 0;

fn write(alloc: Global, point: u32, turn: u32) -> Result<Event, OutOfMemory>
    ensures { IfOk result (λ event. event ≡ write_of point turn) }
{
    Ok(Event::Write {
        point,
        bytes: Items::copy_of(alloc, &turn.to_le_bytes())?,
    })
}

fn add(script: &mut Vec<Event>, event: Event) -> Result<(), OutOfMemory>
    ensures { OnOk result (script.new.items ≡ script.old.items ++ event ∷ []) }
{
    script.push(event)?;
    Ok(())
}

/// One turn of an application: it writes the number of the turn to a point, if it has one, and a millisecond passes.
fn add_turn(
    alloc: Global,
    script: &mut Vec<Event>,
    turn: u32,
    point: Option<u32>,
) -> Result<(), OutOfMemory>
    ensures { OnOk result (script.new.items ≡ script.old.items ++ turn_of point turn) }
{
    if let Some(point) = point {
        add(script, write(alloc, point, turn)?)?;
    }
    add(script, Event::Tick { ms: 1 })
}

/// So many turns of an application. The first has number 1.
fn add_turns(
    alloc: Global,
    script: &mut Vec<Event>,
    turns: u32,
    point: Option<u32>,
) -> Result<(), OutOfMemory>
    ensures { OnOk result (script.new.items ≡ script.old.items ++ turns_of point turns) }
{
    for turn in 0..turns {
        add_turn(alloc, script, turn + 1, point)?;
    }
    Ok(())
}

/// The adapter's application writes the input in each turn.
fn adapter_script(alloc: Global, turns: u32) -> Result<Vec<Event>, OutOfMemory>
    ensures { IfOk result (λ script. script.items ≡ adapter_script turns) }
{
    let mut script = Vec::new(alloc);
    add_turns(alloc, &mut script, turns, Some(INPUT))?;
    Ok(script)
}

/// The point to which a scanner's application writes: scanner 0 alone has an output.
fn output_of(number: u8) -> Option<u32>
    ensures { result ≡ output_of number }
{
    if number == 0 { Some(SLOT) } else { None }
}

/// A scanner's application starts its slot and runs. That of scanner 0 writes the output in each turn.
fn scanner_script(alloc: Global, number: u8, turns: u32) -> Result<Vec<Event>, OutOfMemory>
    ensures { IfOk result (λ script. script.items ≡ scanner_script turns number) }
{
    let mut script = Vec::new(alloc);
    add(&mut script, Event::Start { slot: SLOT })?;
    add(&mut script, Event::Mode { run: true })?;
    add_turns(alloc, &mut script, turns, output_of(number))?;
    Ok(script)
}

/// The events of the applications and of time of the adapter and of so many scanners, in the order of `configs`, over so
/// many turns of a millisecond.
///
/// The error is `OutOfMemory`.
pub fn scripts(alloc: Global, scanners: u8, turns: u32) -> Result<Vec<Vec<Event>>, OutOfMemory>
    ensures scripts { IfOk result (λ scripts. map events_in scripts.items ≡ line_scripts scanners turns) }
    ensures own { IfOk result (λ scripts. All (λ script. IsOwn script.items) scripts.items) }
    ensures count { IfOk result (λ scripts. length scripts.items ≡ scanners + 1) }
{
    let mut scripts = Vec::new(alloc);
    add_script(&mut scripts, adapter_script(alloc, turns)?)?;
    for number in 0..scanners {
        add_script(&mut scripts, scanner_script(alloc, number, turns)?)?;
    }
    Ok(scripts)
}

fn add_script(scripts: &mut Vec<Vec<Event>>, script: Vec<Event>) -> Result<(), OutOfMemory>
    ensures { OnOk result (scripts.new.items ≡ scripts.old.items ++ script ∷ []) }
{
    scripts.push(script)?;
    Ok(())
}

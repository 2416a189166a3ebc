//! A story in a file, played.

ghost use Rattle.cip_tables.specs.Step.{AcceptsAll};

use crate::cast::{Cast, cast_of};
use crate::failure::{WorldFailure, unread_story};
use crate::played::PlayedWorld;
use crate::story::StoryLine;
use cip_tables::Device;
use cip_types::limits::LONGEST_TRACE;
use fast_device::FastDevice;
use plain_engine::PlainDevice;
use std::alloc::Global;
use std::io::{BufWriter, Write};
use std::rt::Files;
use trace_files::read_regular;

/// The end of a line.
const LINE_END: &[u8] = b"\n";

/// Plays the story of a file, over the fast engines or the plain ones, and prints its comments as they are and what each act
/// comes to. Nothing is printed if a line or a profile is bad.
///
/// The faults, in order: `Unread`, those of the first bad line, and `Write` and `OutOfMemory` wherever they come.
#[tactic(auto, using(cip_tables::specs::AnyDevices::both_accept_all))]
pub fn play_world<R, O>(rt: &R, file: &str, is_plain: bool, out: O) -> Result<(), WorldFailure>
where
    R: AllocGlobal + Files,
    O: Write + Drop,
{
    let alloc = rt.alloc();
    let text = match read_regular(rt, file, LONGEST_TRACE as u64) {
        Ok(text) => text,
        Err(fault) => return Err(unread_story(fault)),
    };
    let cast = cast_of(rt, file, text.as_slice())?;
    let Ok(mut out) = BufWriter::new(alloc, out) else {
        return Err(WorldFailure::OutOfMemory);
    };
    if is_plain {
        play::<PlainDevice, BufWriter<O>>(alloc, text.as_slice(), cast, &mut out)?;
    } else {
        play::<FastDevice, BufWriter<O>>(alloc, text.as_slice(), cast, &mut out)?;
    }
    match out.flush() {
        Ok(()) => Ok(()),
        Err(_) => Err(WorldFailure::Write),
    }
}

/// Plays the lines of a story.
fn play<D: Device + Drop, O: Write>(
    alloc: Global,
    text: &[u8],
    cast: Cast,
    out: &mut O,
) -> Result<(), WorldFailure>
    requires accepts { AcceptsAll D.accepts }
{
    let Cast {
        names,
        configs,
        lines,
    } = cast;
    let Ok(mut world) = PlayedWorld::<D>::new(alloc, names, configs) else {
        return Err(WorldFailure::OutOfMemory);
    };
    for (bytes, line) in text.split(|byte| *byte == b'\n').zip(lines.iter()) {
        play_line(&mut world, bytes, line, out)?;
    }
    Ok(())
}

/// Plays a line, and prints what it comes to.
fn play_line<D: Device + Drop, O: Write>(
    world: &mut PlayedWorld<D>,
    bytes: &[u8],
    line: &StoryLine,
    out: &mut O,
) -> Result<(), WorldFailure>
    requires accepts { AcceptsAll D.accepts }
{
    match line {
        StoryLine::Comment => {
            print(out, bytes)?;
            print(out, LINE_END)
        }
        StoryLine::Act { device, act } => {
            world.perform(*device, act)?;
            print(out, world.text().as_bytes())?;
            world.clear();
            Ok(())
        }
        _ => Ok(()),
    }
}

/// Prints a text.
fn print<O: Write>(out: &mut O, text: &[u8]) -> Result<(), WorldFailure> {
    match out.write_all(text) {
        Ok(()) => Ok(()),
        Err(_) => Err(WorldFailure::Write),
    }
}

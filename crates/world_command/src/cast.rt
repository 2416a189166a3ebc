//! A story, read: its devices, and the value of each of its lines.

use crate::failure::{WorldFailure, unread_profile};
use crate::story::{StoryDevice, StoryLine, StoryName, StoryReadFault, read_line};
use cip_tables::Config;
use cip_types::OutOfMemory;
use cip_types::limits::LONGEST_TRACE;
use segment_world::world_fault;
use std::alloc::Global;
use std::rt::Files;
use trace_files::read_regular;
use trace_text::{Trace, TraceFault, read_trace};

/// The devices of a story, and the value of each of its lines.
#[derive(Drop)]
pub(crate) struct Cast {
    pub names: Vec<StoryName>,
    pub configs: Vec<Config>,
    /// A line of a device is skipped.
    pub lines: Vec<StoryLine>,
}

/// The devices and the lines of the story in a file of this path.
///
/// The faults are those of the first bad line, and `OutOfMemory`.
pub(crate) fn cast_of<R: AllocGlobal + Files>(
    rt: &R,
    file: &str,
    text: &[u8],
) -> Result<Cast, WorldFailure> {
    let alloc = rt.alloc();
    let mut cast = Cast {
        names: Vec::new(alloc),
        configs: Vec::new(alloc),
        lines: Vec::new(alloc),
    };
    let mut is_begun = false;
    for (place, bytes) in text.split(|byte| *byte == b'\n').enumerate() {
        let number = (place as u64).wrapping_add(1);
        let line = match value_of(alloc, &cast, number, bytes)? {
            StoryLine::Device(_) if is_begun => return Err(WorldFailure::LateDevice(number)),
            StoryLine::Device(device) => {
                add_device(rt, file, &mut cast, number, device)?;
                StoryLine::Skipped
            }
            line => line,
        };
        is_begun = is_begun || matches!(line, StoryLine::Act { .. });
        cast.lines.push(line)?;
    }
    Ok(cast)
}

/// The value of the line of a number.
fn value_of(
    alloc: Global,
    cast: &Cast,
    number: u64,
    bytes: &[u8],
) -> Result<StoryLine, WorldFailure> {
    match read_line(alloc, cast.names.as_slice(), bytes) {
        Ok(line) => Ok(line),
        Err(StoryReadFault::Line(fault)) => Err(WorldFailure::Line(number, fault)),
        Err(StoryReadFault::OutOfMemory) => Err(WorldFailure::OutOfMemory),
    }
}

/// Adds the device of the line of a number, unless there is no network of it and the devices before it.
fn add_device<R: AllocGlobal + Files>(
    rt: &R,
    file: &str,
    cast: &mut Cast,
    number: u64,
    device: StoryDevice,
) -> Result<(), WorldFailure> {
    let path = path_beside(rt.alloc(), file, device.profile.as_str())?;
    let config = config_in(rt, path.as_str(), number)?;
    cast.configs.push(config)?;
    if let Some(fault) = world_fault(cast.configs.as_slice()) {
        return Err(WorldFailure::World(number, fault));
    }
    cast.names.push(device.name)?;
    Ok(())
}

/// A path of a file, which is relative to the folder of that file. OutOfMemory is the only fault.
fn path_beside(alloc: Global, file: &str, path: &str) -> Result<String, OutOfMemory> {
    match file.rsplit_once('/') {
        Some((folder, _)) if !path.starts_with('/') => Ok(format!(in alloc; "{folder}/{path}")?),
        _ => Ok(format!(in alloc; "{path}")?),
    }
}

/// The configuration in the file of the profile of a line.
fn config_in<R: AllocGlobal + Files>(
    rt: &R,
    path: &str,
    number: u64,
) -> Result<Config, WorldFailure> {
    let text = match read_regular(rt, path, LONGEST_TRACE as u64) {
        Ok(text) => text,
        Err(fault) => return Err(unread_profile(number, fault)),
    };
    match read_trace(rt.alloc(), text.as_slice()) {
        Ok(Trace { config, events }) if events.as_slice().is_empty() => Ok(config),
        Ok(_) => Err(WorldFailure::Events(number)),
        Err(TraceFault::OutOfMemory) => Err(WorldFailure::OutOfMemory),
        Err(fault) => Err(WorldFailure::Profile(number, fault)),
    }
}

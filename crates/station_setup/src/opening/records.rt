//! The record of a device, from its beginning on.

use cip_tables::Config;
use cip_types::OutOfMemory;
use command_lines::VERSION;
use station_record::{RecordFault, Recorder, place_of_record, push_timestamp};
use station_rim::{Entries, SharedRecord};
use std::fs::File;
use std::rt::{Clock, Files};
use std::sync::Wait;
use trace_words::Names;

/// The recorder of a device of this configuration, whose points have these names. Its entries go to a new file of this name. The
/// record has at most so many bytes.
///
/// The faults: `Refused` if the file cannot be begun, `Full` if its first lines have more bytes, and `OutOfMemory`.
pub fn recorder_in<R>(
    rt: R,
    record: &SharedRecord,
    config: &Config,
    names: &Names,
    path: String,
    most: u64,
) -> Result<Recorder<Entries<R>>, RecordFault>
where
    R: AllocGlobal + Files<File = File> + Clock + Wait + Copy + Drop,
{
    let alloc = rt.alloc();
    let Ok(place) = place_of_record(&rt, alloc, path) else {
        return Err(RecordFault::Refused);
    };
    let Ok(entries) = record.entries(rt, place) else {
        return Err(RecordFault::OutOfMemory);
    };
    match named_head(&rt, names) {
        Ok(head) => Recorder::begin(alloc, config, head.as_str(), most, entries),
        Err(OutOfMemory) => Err(RecordFault::OutOfMemory),
    }
}

/// The comment lines of a record: the first one, and those of the names.
fn named_head<R: AllocGlobal + Clock>(rt: &R, names: &Names) -> Result<String, OutOfMemory> {
    let mut head = head_of(rt)?;
    names.push_lines(&mut head)?;
    Ok(head)
}

/// The first line of a record: when it begins, and which program writes it.
pub fn head_of<R: AllocGlobal + Clock>(rt: &R) -> Result<String, OutOfMemory> {
    let ms = match rt.since_1970() {
        Ok(time) => u64::try_from(time.as_millis()).unwrap_or(0),
        Err(_) => 0,
    };
    let mut head = format!(in rt.alloc(); "# recorded from ")?;
    push_timestamp(&mut head, ms)?;
    write!(head, " by eip_station {VERSION}\n")?;
    Ok(head)
}

//! The records of files: a file with a profile begins one, and each other file continues the one before it.

use crate::fault::SettleFault;
use cip_types::Items;
use cip_types::limits::LONGEST_TRACE;
use fast_device::FastDevice;
use std::alloc::Global;
use std::rt::Files;
use trace_files::{FileFault, FilledRecord, read_record, read_regular};
use trace_outcomes::PlacedSum;
use trace_text::{Trace, TraceFault};

/// The records: of each the index of its first file, its trace, and the sums that it has in place of outcomes.
#[derive(Drop)]
pub(crate) struct FileRecords {
    pub firsts: Vec<usize>,
    pub traces: Vec<Trace>,
    pub sums: Vec<Items<PlacedSum>>,
}

/// The text of a record, and the index of its first file.
#[derive(Drop)]
struct RecordText {
    first: usize,
    text: Vec<u8>,
}

/// The records of files.
pub(crate) fn records_of<R: AllocGlobal + Files>(
    rt: &R,
    files: &[String],
) -> Result<FileRecords, SettleFault> {
    let alloc = rt.alloc();
    let mut records = FileRecords {
        firsts: Vec::new(alloc),
        traces: Vec::new(alloc),
        sums: Vec::new(alloc),
    };
    let mut last: Option<RecordText> = None;
    for (place, path) in files.iter().enumerate() {
        let bytes = match read_regular(rt, path.as_str(), LONGEST_TRACE as u64) {
            Ok(bytes) => bytes,
            Err(fault) => return Err(unread(place, fault)),
        };
        if begins_record(bytes.as_slice()) {
            add_record(alloc, &mut records, last.take())?;
            last = Some(RecordText {
                first: place,
                text: bytes,
            });
        } else {
            let Some(record) = &mut last else {
                return Err(SettleFault::Middle);
            };
            record.text.extend_from_slice(bytes.as_slice())?;
        }
    }
    add_record(alloc, &mut records, last)?;
    Ok(records)
}

/// Why the file at an index is not read.
fn unread(place: usize, fault: FileFault) -> SettleFault {
    match fault {
        FileFault::OutOfMemory => SettleFault::OutOfMemory,
        other => SettleFault::Unread(place, other),
    }
}

/// Reads the trace of a record's text, and its sums.
fn add_record(
    alloc: Global,
    records: &mut FileRecords,
    record: Option<RecordText>,
) -> Result<(), SettleFault> {
    let Some(record) = record else {
        return Ok(());
    };
    match read_record::<FastDevice>(alloc, record.text.as_slice()) {
        Ok(FilledRecord { trace, sums, .. }) => {
            records.firsts.push(record.first)?;
            records.traces.push(trace)?;
            records.sums.push(sums)?;
            Ok(())
        }
        Err(TraceFault::OutOfMemory) => Err(SettleFault::OutOfMemory),
        Err(fault) => Err(SettleFault::Trace(record.first, fault)),
    }
}

/// Whether a text begins a record: its first line that is not skipped begins a profile. A text without such a line
/// continues one.
fn begins_record(text: &[u8]) -> bool {
    let mut rest = text;
    for _ in 0..text.len() {
        match rest {
            [] => return false,
            [b'\n', after @ ..] => rest = after,
            [b'#', ..] => rest = behind_line(rest),
            _ => return begins_with(rest, b"adapter ") || begins_with(rest, b"scanner "),
        }
    }
    false
}

/// The text behind its first line.
fn behind_line(text: &[u8]) -> &[u8] {
    match text.iter().position(|byte| *byte == b'\n') {
        Some(end) => text.get(end..).unwrap_or(&[]),
        None => &[],
    }
}

fn begins_with(text: &[u8], word: &[u8]) -> bool {
    text.get(..word.len()) == Some(word)
}

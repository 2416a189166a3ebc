//! Records in files, settled.

use crate::fault::SettleFault;
use crate::files::{FileRecords, records_of};
use crate::words::{NamedRecords, push_fault};
use fast_device::FastDevice;
use record_settling::{RecordsFault, SettledRecords, settle_records};
use std::alloc::Global;
use std::io::Write;
use std::rt::Files;

/// Settles the records of files, of which each file with a profile begins one and each other file continues the one before
/// it. Prints a line: how much there is, or what is missing. It takes memory for all entries.
///
/// The faults, in order: `Unread`, `Middle` and `Trace` of the first file that has one, `Unsettled`, and `Write` and
/// `OutOfMemory` wherever they come.
pub fn settle_files<R, O>(rt: &R, files: &[String], out: O) -> Result<(), SettleFault>
where
    R: AllocGlobal + Files,
    O: Write + Drop,
{
    let alloc = rt.alloc();
    let FileRecords {
        firsts,
        traces,
        sums,
    } = records_of(rt, files)?;
    let records = NamedRecords {
        files,
        firsts: firsts.as_slice(),
        traces: traces.as_slice(),
    };
    match settle_records::<FastDevice>(alloc, records.traces, sums.as_slice()) {
        Ok(settled) => print_settled(alloc, out, records.traces.len(), &settled),
        Err(RecordsFault::OutOfMemory) => Err(SettleFault::OutOfMemory),
        Err(fault) => print_fault(alloc, out, records, fault),
    }
}

/// Prints that records settle.
fn print_settled<O: Write + Drop>(
    alloc: Global,
    out: O,
    records: usize,
    settled: &SettledRecords,
) -> Result<(), SettleFault> {
    let acts = settled.schedule.as_slice().len();
    let events = settled.events;
    let line = format!(in alloc; "settled: {records} records, {events} events, {acts} acts\n")?;
    print(out, line.as_bytes())
}

/// Prints why records do not settle.
fn print_fault<O: Write + Drop>(
    alloc: Global,
    out: O,
    records: NamedRecords<'_>,
    fault: RecordsFault,
) -> Result<(), SettleFault> {
    let mut line = String::new(alloc);
    push_fault(&mut line, records, fault)?;
    print(out, line.as_bytes())?;
    Err(SettleFault::Unsettled)
}

/// Prints a text.
fn print<O: Write + Drop>(out: O, text: &[u8]) -> Result<(), SettleFault> {
    let mut out = out;
    match out.write_all(text) {
        Ok(()) => Ok(()),
        Err(_) => Err(SettleFault::Write),
    }
}

//! The trace of files in words.

use crate::fault::{TracesFault, unread};
use cip_types::OutOfMemory;
use cip_types::limits::LONGEST_TRACE;
use fast_device::FastDevice;
use std::alloc::Global;
use std::fs::File;
use std::io::Write;
use std::rt::Files;
use trace_explain::explain_trace;
use trace_faults::explain_fault;
use trace_files::{FilledRecord, read_record, read_regular};
use trace_stepper::write_text;
use trace_text::{Trace, TraceFault, read_trace};
use trace_words::{Names, ReadNames, read_names};

/// Explains the trace of the files in words, or why they are none. It takes memory for all entries, those of a record with the
/// outcomes in whose place it has sums. If one has another sum, the number of the first such event is printed alone.
pub fn explain<R, O>(rt: &R, files: &[String], out: O) -> Result<(), TracesFault>
where
    R: AllocGlobal + Files<File = File>,
    O: Write + Drop,
{
    let alloc = rt.alloc();
    let text = text_of(rt, files)?;
    match trace_in(alloc, text.as_slice()) {
        Ok(whole) => {
            let names = names_in(alloc, text.as_slice())?;
            explain_whole(alloc, &whole, &names, out)
        }
        Err(TraceFault::OutOfMemory) => Err(TracesFault::OutOfMemory),
        Err(fault) => {
            let words = explain_fault(alloc, text.as_slice(), fault)?;
            print(out, words.as_bytes())?;
            Err(TracesFault::NoTrace)
        }
    }
}

/// The names that the comment lines of a text say. Its bad name lines are dropped here, apart from the trace.
fn names_in(alloc: Global, text: &[u8]) -> Result<Names, OutOfMemory> {
    let ReadNames { names, .. } = read_names(alloc, text)?;
    Ok(names)
}

/// Prints a trace in words, or the number of the first event that has another sum.
fn explain_whole<O: Write + Drop>(
    alloc: Global,
    whole: &WholeTrace,
    names: &Names,
    out: O,
) -> Result<(), TracesFault> {
    let Some(number) = whole.differs else {
        return print(out, explain_trace(alloc, &whole.trace, names)?.as_bytes());
    };
    let line = format!(in alloc; "differs {number}\n")?;
    print(out, line.as_bytes())?;
    Err(TracesFault::Differs)
}

/// A trace with its outcomes, and the number of the first event of a record that has another sum than a device's outcome.
#[derive(Drop)]
struct WholeTrace {
    trace: Trace,
    differs: Option<u64>,
}

/// The trace of a text. One that has sums is a record: it is played at a fresh device, whose outcomes take the places of the
/// sums.
fn trace_in(alloc: Global, text: &[u8]) -> Result<WholeTrace, TraceFault> {
    match read_trace(alloc, text) {
        Ok(trace) => Ok(WholeTrace {
            trace,
            differs: None,
        }),
        Err(TraceFault::BadLine(_)) => {
            let FilledRecord { trace, differs, .. } = read_record::<FastDevice>(alloc, text)?;
            Ok(WholeTrace { trace, differs })
        }
        Err(fault) => Err(fault),
    }
}

/// The bytes of the files, one behind another. A file has at most as many as a trace may have.
pub(crate) fn text_of<R>(rt: &R, files: &[String]) -> Result<Vec<u8>, TracesFault>
where
    R: AllocGlobal + Files<File = File>,
{
    let mut text = Vec::new(rt.alloc());
    for (place, path) in files.iter().enumerate() {
        let bytes = match read_regular(rt, path.as_str(), LONGEST_TRACE as u64) {
            Ok(bytes) => bytes,
            Err(fault) => return Err(unread(place, fault)),
        };
        text.extend_from_slice(bytes.as_slice())?;
    }
    Ok(text)
}

/// Prints a text.
pub(crate) fn print<O: Write + Drop>(out: O, text: &[u8]) -> Result<(), TracesFault> {
    let mut out = out;
    write_text(&mut out, text)?;
    match out.flush() {
        Ok(()) => Ok(()),
        Err(_) => Err(TracesFault::Write),
    }
}

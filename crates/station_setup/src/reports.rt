//! The file of a report on scripts.

ghost use Rattle.std.specs.Prelude.{◌≡◌, IfOk};
ghost use Rattle.station_setup.specs.Reports.{begun_text, ended_text, is_report, place_of_fault, place_of_text};

use cip_types::OutOfMemory;
use cip_types::limits::LONGEST_TRACE;
use script_checks::{REPORT_END, REPORT_HEAD};
use std::alloc::{AllocError, Global};
use std::fs::File;
use std::io::Write;
use std::rt::Files;
use thiserror::Error;
use trace_files::{FileFault, read_regular};

/// What a report has while its run goes on: a run that is killed leaves a failure.
const UNENDED: &[u8] =
    b"  <testsuite name=\"run\" tests=\"1\" failures=\"1\" skipped=\"0\">\n    <testcase classname=\"run\" name=\"ends\" time=\"0.000\">\n      <failure message=\"the run has not ended\"/>\n    </testcase>\n  </testsuite>\n";

/// Why a report is not written.
#[derive(Clone, Copy, Debug, PartialEq, Eq, Error)]
pub enum ReportFault {
    /// There is a file that is no report, and stays as it is.
    #[error("the report is not written: another file is there")]
    Taken,
    /// The system does not take it.
    #[error("the report cannot be written")]
    Unwritten,
    /// An allocation was refused.
    #[error("no memory")]
    OutOfMemory,
}

impl From<OutOfMemory> for ReportFault {
    fn from(_error: OutOfMemory) -> ReportFault {
        ReportFault::OutOfMemory
    }
}

impl From<AllocError> for ReportFault {
    fn from(_error: AllocError) -> ReportFault {
        ReportFault::OutOfMemory
    }
}

/// Writes the report of a run that goes on, if there is to be one, in the place of an earlier report or where nothing is. So a
/// run knows as it begins what cannot be written. The faults: `Taken`, then `Unwritten`; `OutOfMemory` wherever an
/// allocation was refused.
pub fn begin_report<R>(rt: &R, path: Option<&str>) -> Result<(), ReportFault>
where
    R: AllocGlobal + Files<File = File>,
{
    let Some(path) = path else {
        return Ok(());
    };
    match read_regular(rt, path, LONGEST_TRACE as u64) {
        Ok(text) => place_of_text(text.as_slice())?,
        Err(fault) => place_of_fault(fault)?,
    }
    let text = begun_report(rt.alloc())?;
    write_report(rt, path, text.as_slice())
}

/// Writes the report of these suites, if there is to be one, in the place of that of the run. The faults: `Unwritten`, and
/// `OutOfMemory` wherever an allocation was refused.
pub fn end_report<R>(rt: &R, path: Option<&str>, suites: &[u8]) -> Result<(), ReportFault>
where
    R: AllocGlobal + Files<File = File>,
{
    let Some(path) = path else {
        return Ok(());
    };
    let text = ended_report(rt.alloc(), suites)?;
    write_report(rt, path, text.as_slice())
}

/// Whether a report may be written over a text: no file but an earlier report is replaced.
fn place_of_text(text: &[u8]) -> Result<(), ReportFault>
    ensures { result ≡ place_of_text text.now }
{
    if is_report(text) {
        Ok(())
    } else {
        Err(ReportFault::Taken)
    }
}

/// Whether a report may be written where a file is not read, for this reason.
fn place_of_fault(fault: FileFault) -> Result<(), ReportFault>
    ensures { result ≡ place_of_fault fault }
{
    match fault {
        FileFault::Missing => Ok(()),
        FileFault::Special => Ok(()),
        FileFault::TooLong(_) => Err(ReportFault::Taken),
        FileFault::Unread => Err(ReportFault::Unwritten),
        FileFault::OutOfMemory => Err(ReportFault::OutOfMemory),
    }
}

/// Whether a text is that of a report, or none.
fn is_report(text: &[u8]) -> bool
    ensures { result ≡ is_report text.now }
{
    text.is_empty() || text.starts_with(REPORT_HEAD)
}

/// The report of a run that goes on. OutOfMemory is the only fault.
fn begun_report(alloc: Global) -> Result<Vec<u8>, OutOfMemory>
    ensures { IfOk result (λ text. text.items ≡ begun_text) }
{
    ended_report(alloc, UNENDED)
}

/// The report of these suites. OutOfMemory is the only fault.
fn ended_report(alloc: Global, suites: &[u8]) -> Result<Vec<u8>, OutOfMemory>
    ensures { IfOk result (λ text. text.items ≡ ended_text suites.now) }
{
    let mut text = Vec::new(alloc);
    text.extend_from_slice(REPORT_HEAD)?;
    text.extend_from_slice(suites)?;
    text.extend_from_slice(REPORT_END)?;
    Ok(text)
}

/// Writes the text of a report, in place of what is there.
fn write_report<R: Files<File = File>>(rt: &R, path: &str, text: &[u8]) -> Result<(), ReportFault> {
    let Ok(mut file) = File::create(rt, path) else {
        return Err(ReportFault::Unwritten);
    };
    match file.write_all(text) {
        Ok(()) => Ok(()),
        Err(_) => Err(ReportFault::Unwritten),
    }
}

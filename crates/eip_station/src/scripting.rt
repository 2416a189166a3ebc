//! The script of a station: its file, what came of it, and the report.

use crate::failure::Failure;
use crate::stationing::Stationed;
use cip_types::Items;
use cip_types::limits::LONGEST_TRACE;
use command_lines::word_from_end;
use plant_rim::{PlantFault, push_fault, read_script_file};
use station::{ScriptChecks, ScriptLine, ScriptReport};
use station_rim::{Rim, report_line};
use station_setup::end_report;
use std::fs::File;
use std::rt::Files;
use std::sync::Wait;
use trace_files::{FileFault, read_regular};

/// The script of the file that an option names; none, if none does. Reports why it is none.
pub fn script_in<R>(
    rt: R,
    rim: &Rim,
    words: &[String],
    from_end: Option<usize>,
) -> Result<Items<ScriptLine>, Failure>
where
    R: AllocGlobal + Files + Wait + Copy + Drop,
{
    let alloc = rt.alloc();
    let Some(left) = from_end else {
        return Ok(Items::new(alloc));
    };
    let path = word_from_end(words, left);
    let mut line = format!(in alloc; "eip_station: {path}")?;
    match read_regular(&rt, path, LONGEST_TRACE as u64) {
        Ok(text) => match read_script_file(alloc, text.as_slice()) {
            Ok(script) => return Ok(script),
            Err(PlantFault::OutOfMemory) => return Err(Failure::OutOfMemory),
            Err(PlantFault::BadLine(number, fault)) => {
                line.push_str(": ")?;
                push_fault(&mut line, number, fault)?;
                line.push_str("\n")?;
            }
        },
        Err(FileFault::OutOfMemory) => return Err(Failure::OutOfMemory),
        Err(fault) => write!(line, " {fault}\n")?,
    }
    report_line(rt, rim, line.as_bytes());
    Err(Failure::Script)
}

/// Says what came of the script of a station of this name, and writes the report. The fault is `Unpassed` if it has not passed.
pub fn judge<R>(
    setting: &Stationed<'_, R>,
    name: &str,
    checks: &ScriptChecks,
    path: Option<&str>,
) -> Result<(), Failure>
where
    R: AllocGlobal + Files<File = File> + Wait + Copy + Drop,
{
    let (rt, alloc) = (setting.rt, setting.rt.alloc());
    let report = ScriptReport {
        name,
        script: setting.script,
        checks,
    };
    let (mut text, mut suite) = (Vec::new(alloc), Vec::new(alloc));
    report.push_bad_lines(alloc, &mut text)?;
    report.push_summary(alloc, &mut text)?;
    if !text.is_empty() {
        report_line(rt, setting.rim, text.as_slice());
    }
    report.push_suite(alloc, &mut suite)?;
    end_report(&rt, path, suite.as_slice())?;
    if report.counts().failures > 0 {
        return Err(Failure::Unpassed);
    }
    Ok(())
}

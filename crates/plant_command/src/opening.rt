//! The file of a plant.

ghost use Rattle.std.specs.Prelude.{◌≡◌, ◌++◌, IfOk, OnOk};
ghost use Rattle.plant_command.specs.DeviceLines.{device_lines, device_number, is_device_line};
ghost use Rattle.plant_command.specs.Statuses.{unread_plant};

use crate::failure::PlantFailure;
use cip_types::OutOfMemory;
use cip_types::limits::LONGEST_TRACE;
use command_lines::Options;
use page_server::SharedPage;
use plant_rim::{PlantFault, PlantFile, push_fault, read_plant};
use station_rim::{Rim, report_line};
use std::alloc::Global;
use std::rt::Files;
use std::sync::Wait;
use trace_files::{FileFault, read_regular};
use trace_text::first_line;

/// The words of a plant: its file, its options, the folder of its records and the file of its report if options name them, and its
/// page if it has one.
#[derive(Clone, Copy)]
pub struct PlantSetting<'a> {
    pub file: &'a str,
    pub options: &'a Options,
    pub folder: Option<&'a str>,
    /// The file of the report on its scripts, if an option names one.
    pub report: Option<&'a str>,
    pub page: Option<&'a SharedPage>,
}

/// The names of the devices of a file, in its order; none if the file is no plant. OutOfMemory is the only fault.
pub fn names_in<R: Files + AllocGlobal>(rt: &R, file: &str) -> Result<Vec<String>, OutOfMemory> {
    let alloc = rt.alloc();
    let mut names = Vec::new(alloc);
    let text = match text_of(rt, file) {
        Ok(text) => text,
        Err(PlantFailure::OutOfMemory) => return Err(OutOfMemory),
        Err(_) => return Ok(names),
    };
    let plant = match read_plant(alloc, text.as_slice()) {
        Ok(plant) => plant,
        Err(PlantFault::OutOfMemory) => return Err(OutOfMemory),
        Err(PlantFault::BadLine(_, _)) => return Ok(names),
    };
    for device in plant.devices.as_slice() {
        let name = device.name.as_str();
        names.push(format!(in alloc; "{name}")?)?;
    }
    Ok(names)
}

/// A plant, and the numbers of its devices' lines, from 1 and in their order.
#[derive(Drop)]
pub(crate) struct NumberedPlant {
    pub(crate) plant: PlantFile,
    pub(crate) lines: Vec<u64>,
}

/// The plant of a file. Reports the first bad line.
pub(crate) fn plant_of<R>(rt: R, rim: &Rim, file: &str) -> Result<NumberedPlant, PlantFailure>
where
    R: Files + AllocGlobal + Wait + Copy + Drop,
{
    let alloc = rt.alloc();
    let text = text_of(&rt, file)?;
    match read_plant(alloc, text.as_slice()) {
        Ok(plant) => Ok(NumberedPlant {
            plant,
            lines: device_lines(alloc, text.as_slice())?,
        }),
        Err(PlantFault::OutOfMemory) => Err(PlantFailure::OutOfMemory),
        Err(PlantFault::BadLine(number, fault)) => {
            let mut line = format!(in alloc; "eip_station: {file}: ")?;
            push_fault(&mut line, number, fault)?;
            line.push_str("\n")?;
            report_line(rt, rim, line.as_bytes());
            Err(PlantFailure::Bad)
        }
    }
}

/// The numbers of the lines of devices in the text of a plant, from 1. OutOfMemory is the only fault.
fn device_lines(alloc: Global, text: &[u8]) -> Result<Vec<u64>, OutOfMemory>
    ensures { IfOk result (λ numbers. numbers.items ≡ device_lines text.now) }
{
    let mut numbers = Vec::new(alloc);
    let mut number = 1u64;
    let mut rest = text;
    while let Some((line, after)) = first_line(rest) {
        push_device_line(&mut numbers, number, line)?;
        number += 1;
        rest = after;
    }
    push_device_line(&mut numbers, number, rest)?;
    Ok(numbers)
}

/// Appends the number of a line, if it is the line of a device. OutOfMemory is the only fault.
fn push_device_line(numbers: &mut Vec<u64>, number: u64, line: &[u8]) -> Result<(), OutOfMemory>
    ensures { OnOk result (numbers.new.items ≡ numbers.old.items ++ device_number number line.now) }
{
    if is_device_line(line) {
        numbers.push(number)?;
    }
    Ok(())
}

/// Whether a line is that of a device: its first word, behind blanks.
fn is_device_line(line: &[u8]) -> bool
    ensures { result ≡ is_device_line line.now }
{
    line.trim_ascii().starts_with(b"device ")
}

/// The text of a file. The faults: `OutOfMemory` if it is not read for want of memory, else `Unread`.
fn text_of<R: Files + AllocGlobal>(rt: &R, file: &str) -> Result<Vec<u8>, PlantFailure> {
    match read_regular(rt, file, LONGEST_TRACE as u64) {
        Ok(text) => Ok(text),
        Err(fault) => Err(unread_plant(fault)),
    }
}

/// Why the file of a plant is not read.
fn unread_plant(fault: FileFault) -> PlantFailure
    ensures { result ≡ unread_plant fault }
{
    match fault {
        FileFault::OutOfMemory => PlantFailure::OutOfMemory,
        other => PlantFailure::Unread(other),
    }
}

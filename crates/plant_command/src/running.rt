//! A plant from its beginning to its end.

use crate::endings::{ends, is_late, is_over, seconds_of};
use crate::failure::PlantFailure;
use crate::opening::{NumberedPlant, PlantSetting, plant_of};
use crate::paths::path_beside;
use crate::reports::report_scripts;
use crate::setups::{Member, MemberSetup, device_names, setups_of};
use plant_rim::{PlantFile, PlantPhase, PlantView, SharedPlant, TypedLine, next_phase, read_typed};
use station::StationStep;
use station_lines::NextLine;
use station_rim::{Rim, SharedDevices, drain_lines, report_line};
use station_setup::{begin_report, end_of};
use std::fs::File;
use std::rt::{Clock, Files};
use std::sync::Wait;
use std::time::{Duration, Instant};
use std::{fs, thread};

/// A plant looks for typed lines, and whether it is over, so often, in milliseconds.
const CONSOLE_MS: u64 = 20;

/// At most so many lines are taken at a time.
const MOST_LINES: u32 = 64;

/// Runs the plant of a file until its time is over, its input ends, or none of its devices lives. Threads that `work` are to
/// take its jobs.
pub fn run_plant<R>(
    rt: R,
    rim: &Rim,
    plant: &SharedPlant,
    setting: &PlantSetting<'_>,
) -> Result<(), PlantFailure>
where
    R: AllocGlobal + Files<File = File> + Clock + Wait + Copy + Drop,
{
    let ran = run_file(rt, rim, plant, setting);
    drain_lines(&rt, rim);
    ran
}

/// Runs the plant of a file.
fn run_file<R>(
    rt: R,
    rim: &Rim,
    plant: &SharedPlant,
    setting: &PlantSetting<'_>,
) -> Result<(), PlantFailure>
where
    R: AllocGlobal + Files<File = File> + Clock + Wait + Copy + Drop,
{
    let NumberedPlant { plant: said, lines } = plant_of(rt, rim, setting.file)?;
    let seconds = seconds_of(setting.options.seconds, said.seconds);
    let folder = folder_of(rt, setting, &said)?;
    let folder = match &folder {
        Some(folder) => Some(folder.as_str()),
        None => None,
    };
    let setups = setups_of(rt, rim, setting, said, lines.as_slice(), folder)?;
    let names = device_names(rt.alloc(), setups.as_slice())?;
    let devices = SharedDevices::new(rt.alloc(), names)?;
    begin_report(&rt, setting.report)?;
    let members = begin_all(rt, plant, setups, &devices)?;
    let mut console = Console {
        rt,
        rim,
        plant,
        members: members.as_slice(),
        end_ms: end_of(seconds),
        passed_ms: 0,
        phase: PlantPhase::Running,
        phase_ms: 0,
        lines: 0,
        has_ended: false,
    };
    console.run()?;
    let judged = report_scripts(rt, plant, setting.report, members.len());
    match plant.state(&rt).failure {
        Some(failure) => Err(PlantFailure::Device(failure)),
        None => judged,
    }
}

/// Has all devices begin to live, the adapters first, so that scanners find their targets. Each knows these names of all.
fn begin_all<R>(
    rt: R,
    plant: &SharedPlant,
    setups: Vec<MemberSetup>,
    devices: &SharedDevices,
) -> Result<Vec<Member>, PlantFailure>
where
    R: AllocGlobal + Wait + Copy + Drop,
{
    let mut members = Vec::new(rt.alloc());
    let mut scanners = Vec::new(rt.alloc());
    for MemberSetup { mut setup, member } in setups {
        members.push(member)?;
        setup.devices = devices.share()?;
        if setup.scanner {
            scanners.push(setup)?;
        } else {
            plant.serve(&rt, setup)?;
        }
    }
    for setup in scanners {
        plant.serve(&rt, setup)?;
    }
    Ok(members)
}

/// The folder of the records, which is made if it is not there.
fn folder_of<R>(
    rt: R,
    setting: &PlantSetting<'_>,
    plant: &PlantFile,
) -> Result<Option<String>, PlantFailure>
where
    R: AllocGlobal + Files + Copy + Drop,
{
    let alloc = rt.alloc();
    let folder = match (setting.folder, &plant.record_path) {
        (Some(folder), _) => format!(in alloc; "{folder}")?,
        (None, Some(folder)) => path_beside(alloc, setting.file, folder.as_str())?,
        (None, None) => return Ok(None),
    };
    if matches!(fs::metadata(&rt, folder.as_str()), Ok(found) if found.is_dir()) {
        return Ok(Some(folder));
    }
    match fs::create_dir_all(&rt, folder.as_str()) {
        Ok(()) => Ok(Some(folder)),
        Err(_) => Err(PlantFailure::Folder),
    }
}

/// A plant that runs, seen from its input.
#[derive(Drop)]
struct Console<'a, R> {
    rt: R,
    rim: &'a Rim,
    plant: &'a SharedPlant,
    members: &'a [Member],
    end_ms: Option<u64>,
    passed_ms: u64,
    phase: PlantPhase,
    phase_ms: u64,
    lines: u64,
    has_ended: bool,
}

impl<'a, R> Console<'a, R>
where
    R: AllocGlobal + Clock + Wait + Copy + Drop,
{
    /// Runs until the plant has ended.
    fn run(&mut self) -> Result<(), PlantFailure> {
        let rt = self.rt;
        let Ok(origin) = Instant::now(&rt) else {
            return Err(PlantFailure::Clock);
        };
        for _ in rt.forever() {
            if self.phase == PlantPhase::Ended {
                return Ok(());
            }
            if self.phase == PlantPhase::Running {
                self.take_lines()?;
            }
            self.look(origin);
            thread::sleep(&rt, Duration::from_millis(CONSOLE_MS));
        }
        Ok(())
    }

    /// Looks how it is, and goes on to the next phase if it is time.
    fn look(&mut self, origin: Instant) {
        if let Ok(now) = Instant::now(&self.rt) {
            self.passed_ms = u64::try_from(now.duration_since(origin).as_millis()).unwrap_or(
                self.passed_ms,
            );
        }
        let state = self.plant.state(&self.rt);
        let is_late = is_late(self.end_ms, self.passed_ms);
        let view = PlantView {
            counts: state.counts,
            is_over: is_over(is_late, self.has_ended, state.is_stillborn),
            waited_ms: self.passed_ms.saturating_sub(self.phase_ms),
        };
        let next = next_phase(self.phase, view);
        if next != self.phase {
            self.phase = next;
            self.phase_ms = self.passed_ms;
            self.begin_phase();
        }
    }

    /// Ends the devices that a phase ends.
    fn begin_phase(&self) {
        for member in self.members {
            if ends(self.phase, member.scanner) {
                member.typed.end(&self.rt);
            }
        }
    }

    /// Takes the lines that were typed.
    fn take_lines(&mut self) -> Result<(), PlantFailure> {
        for _ in 0..MOST_LINES {
            let next = self.rim.input.next_line(&self.rt)?;
            match next {
                NextLine::Nothing => return Ok(()),
                NextLine::End => {
                    self.has_ended = true;
                    return Ok(());
                }
                NextLine::Line(line) => self.hand_on(line.as_slice())?,
            }
        }
        Ok(())
    }

    /// Hands a line on to the devices for which it is.
    fn hand_on(&mut self, line: &[u8]) -> Result<(), PlantFailure> {
        self.lines = self.lines.saturating_add(1);
        let typed = read_typed(self.rt.alloc(), line)?;
        match typed {
            TypedLine::Skipped => Ok(()),
            TypedLine::Status => {
                for member in self.members {
                    let bytes = line.len().saturating_add(1);
                    member.typed.offer(&self.rt, StationStep::Status, bytes);
                }
                Ok(())
            }
            TypedLine::Numbers => {
                for member in self.members {
                    let bytes = line.len().saturating_add(1);
                    member.typed.offer(&self.rt, StationStep::Numbers, bytes);
                }
                Ok(())
            }
            TypedLine::For { name_end, step } => {
                let name = line.get(..name_end).unwrap_or(&[]);
                self.hand_to(name, step, line.len().saturating_sub(name_end))
            }
            TypedLine::NoCall => self.report(
                "is no call: status [--csv], or NAME and write POINT HEX, read POINT, mode run, mode idle, start SLOT, stop SLOT, status [--csv], cut, pause MS, restart [same], send NODE HEX",
            ),
        }
    }

    /// Hands a step on to the device of a name. Its text has so many bytes.
    fn hand_to(
        &mut self,
        name: &[u8],
        step: StationStep,
        bytes: usize,
    ) -> Result<(), PlantFailure> {
        let Some(member) = self
            .members
            .iter()
            .find(|member| member.name.as_bytes() == name)
        else {
            return self.report("names no device");
        };
        if member.typed.offer(&self.rt, step, bytes) {
            return Ok(());
        }
        self.report("finds no room at its device")
    }

    /// Reports what is wrong with the line that was typed.
    fn report(&self, wrong: &str) -> Result<(), PlantFailure> {
        let number = self.lines;
        let line = format!(in self.rt.alloc();
            "eip_station: line {number} of standard input {wrong}\n"
        )?;
        report_line(self.rt, self.rim, line.as_bytes());
        Ok(())
    }
}

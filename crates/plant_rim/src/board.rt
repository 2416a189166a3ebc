//! The jobs that wait in a plant, and how it is.

ghost use Rattle.std.specs.Prelude.{◌≡◌, ◌++◌, ◌∷◌, [], None, false, drop, slice_get, OnOk, OnErr};
ghost use Rattle.plant_rim.specs.Boards.{device_begun, device_left, record_failed, record_waits, record_ended};
ghost use Rattle.plant_rim.specs.declared.jobs.PlantJob.TheVariants.{Serve, Write};

use crate::counts::PlantCounts;
use crate::failure::DeviceFailure;
use crate::jobs::{DeviceSetup, PlantJob};
use cip_types::{Items, OutOfMemory};
use script_checks::ReportCounts;
use station_rim::SharedRecord;
use std::alloc::Global;

/// What the threads and the plant know of one another.
#[derive(Clone, Copy)]
pub struct PlantState {
    pub counts: PlantCounts,
    /// The first failure of a device.
    pub failure: Option<DeviceFailure>,
    /// Whether a device could not begin its first life.
    pub is_stillborn: bool,
}

impl PlantState {
    /// Nothing is at work, and nothing has failed.
    fn none() -> PlantState
        ensures { result ≡ record {
          counts = record { devices = 0; scanners = 0; records = 0 };
          failure = None;
          is_stillborn = false;
        } }
    {
        PlantState {
            counts: PlantCounts::none(),
            failure: None,
            is_stillborn: false,
        }
    }

    /// A device lives no more, and has failed or not. The first failure is kept.
    pub(crate) fn leave(
        &mut self,
        scanner: bool,
        failure: Option<DeviceFailure>,
        is_stillborn: bool,
    )
        ensures { self.new ≡ device_left scanner failure is_stillborn self.old }
    {
        self.counts.leave(scanner);
        self.failure = self.failure.or(failure);
        self.is_stillborn |= is_stillborn;
    }

    /// A record is written to its end, or has failed.
    pub(crate) fn leave_record(&mut self, has_failed: bool)
        ensures { self.new ≡ record_ended has_failed self.old }
    {
        self.counts.leave_record();
        self.failure = self.failure.or(record_failed(has_failed));
    }
}

/// The failure of a record.
fn record_failed(has_failed: bool) -> Option<DeviceFailure>
    ensures { result ≡ record_failed has_failed }
{
    if has_failed {
        Some(DeviceFailure::RecordEnd)
    } else {
        None
    }
}

/// What came of the script of a device.
#[derive(Drop)]
pub struct ScriptOutcome {
    /// The number of the device in the file of its plant, from 0.
    pub place: usize,
    /// Its suite of the report.
    pub suite: Items<u8>,
    pub counts: ReportCounts,
}

/// The jobs that wait, the oldest first, how it is, and what came of the scripts of the devices that live no more.
#[derive(Drop)]
pub(crate) struct Board {
    waiting: Vec<PlantJob>,
    pub(crate) state: PlantState,
    scripts: Vec<ScriptOutcome>,
}

impl Board {
    /// No job waits.
    pub(crate) fn none(alloc: Global) -> Board {
        Board {
            waiting: Vec::new(alloc),
            state: PlantState::none(),
            scripts: Vec::new(alloc),
        }
    }

    /// Whether no job waits.
    pub(crate) fn is_idle(&self) -> bool {
        self.waiting.is_empty()
    }

    /// A device waits to be served. OutOfMemory is the only fault, and then nothing changes.
    pub(crate) fn serve(&mut self, setup: DeviceSetup) -> Result<(), OutOfMemory>
        ensures waits { OnOk result (self.new.waiting.items ≡ self.old.waiting.items ++ Serve setup ∷ []) }
        ensures counted { OnOk result (self.new.state ≡ device_begun setup.scanner self.old.state) }
        ensures unchanged { OnErr result
            ((self.new.waiting.items ≡ self.old.waiting.items) × (self.new.state ≡ self.old.state)) }
    {
        let scanner = setup.scanner;
        self.waiting.push(PlantJob::Serve(setup))?;
        self.state.counts.begin(scanner);
        Ok(())
    }

    /// A record waits to be written. OutOfMemory is the only fault, and then nothing changes.
    pub(crate) fn write(&mut self, entries: SharedRecord) -> Result<(), OutOfMemory>
        ensures waits { OnOk result (self.new.waiting.items ≡ self.old.waiting.items ++ Write entries ∷ []) }
        ensures counted { OnOk result (self.new.state ≡ record_waits self.old.state) }
        ensures unchanged { OnErr result
            ((self.new.waiting.items ≡ self.old.waiting.items) × (self.new.state ≡ self.old.state)) }
    {
        self.waiting.push(PlantJob::Write(entries))?;
        self.state.counts.begin_record();
        Ok(())
    }

    /// Keeps what came of a script. OutOfMemory is the only fault, and then nothing changes.
    pub(crate) fn judge(&mut self, outcome: ScriptOutcome) -> Result<(), OutOfMemory> {
        self.scripts.push(outcome)?;
        Ok(())
    }

    /// Takes what came of the script of the device of this number, if it is there.
    pub(crate) fn take_script(&mut self, place: usize) -> Option<ScriptOutcome> {
        let at = self
            .scripts
            .iter()
            .position(|outcome| outcome.place == place)?;
        Some(self.scripts.remove(at))
    }

    /// Takes the job that waits longest.
    pub(crate) fn take(&mut self) -> Option<PlantJob>
        ensures oldest { result ≡ slice_get self.old.waiting.items 0 }
        ensures left { self.new.waiting.items ≡ drop 1 self.old.waiting.items }
        ensures state { self.new.state ≡ self.old.state }
    {
        if self.waiting.is_empty() {
            return None;
        }
        Some(self.waiting.remove(0))
    }
}

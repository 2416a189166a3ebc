//! The jobs of a plant's threads: each thread takes one after another.

use crate::board::{Board, PlantState, ScriptOutcome};
use crate::failure::DeviceFailure;
use crate::incarnations::IncarnationSpan;
use crate::typed_steps::SharedSteps;
use cip_tables::Config;
use cip_types::{IdBlock, Items, OutOfMemory};
use command_lines::Options;
use page_feed::FeedEnd;
use station::ScriptLine;
use station_rim::{SharedDevices, SharedLines, SharedRecord};
use std::alloc::Global;
use std::sync::{Arc, Condvar, Mutex, Wait};
use trace_words::Names;

/// A device that is to live.
#[derive(Drop)]
pub struct DeviceSetup {
    /// The number of the device in the file of its plant, from 0.
    pub place: usize,
    pub name: String,
    pub config: Config,
    /// The names of its points.
    pub names: Names,
    /// The names of all devices of its plant.
    pub devices: SharedDevices,
    pub options: Options,
    pub script: Items<ScriptLine>,
    pub span: IncarnationSpan,
    /// The connection ids of all its lives, which no other device of the plant has.
    pub ids: IdBlock,
    pub typed: SharedSteps,
    /// The folder of its records, if it is recorded.
    pub folder: Option<String>,
    /// Where it tells its page, if there is one.
    pub page: Option<FeedEnd>,
    pub scanner: bool,
}

/// A job of a thread.
#[derive(Drop)]
pub enum PlantJob {
    /// A device lives, one life after another.
    Serve(DeviceSetup),
    /// The record of a life is written to its end.
    Write(SharedRecord),
}

/// A board, and what wakes the threads that wait for a job.
#[derive(Drop)]
struct SharedBoard {
    board: Mutex<Board>,
    more: Condvar,
}

/// What the threads of a plant share.
#[derive(Drop)]
pub struct SharedPlant {
    shared: Arc<SharedBoard, Global>,
    pub out: SharedLines,
    pub err: SharedLines,
}

impl SharedPlant {
    /// No job waits. What devices print goes to these outputs. OutOfMemory is the only fault.
    pub fn new(
        alloc: Global,
        out: &SharedLines,
        err: &SharedLines,
    ) -> Result<SharedPlant, OutOfMemory> {
        let shared = SharedBoard {
            board: Mutex::new(Board::none(alloc)),
            more: Condvar::new(),
        };
        let (out, err) = (out.share()?, err.share()?);
        match Arc::new(alloc, shared) {
            Ok(shared) => Ok(SharedPlant { shared, out, err }),
            Err(_) => Err(OutOfMemory),
        }
    }

    /// The same, for another thread. OutOfMemory is the only fault.
    pub fn share(&self) -> Result<SharedPlant, OutOfMemory> {
        let (out, err) = (self.out.share()?, self.err.share()?);
        match Arc::try_clone(&self.shared) {
            Ok(shared) => Ok(SharedPlant { shared, out, err }),
            Err(_) => Err(OutOfMemory),
        }
    }

    /// Has a thread serve a device. OutOfMemory is the only fault, and then none does.
    pub fn serve<R: Wait>(&self, rt: &R, setup: DeviceSetup) -> Result<(), OutOfMemory> {
        self.shared.board.lock(rt).serve(setup)?;
        self.shared.more.notify_one();
        Ok(())
    }

    /// Has a thread write a record to its end. OutOfMemory is the only fault, and then none does.
    pub fn write<R: Wait>(&self, rt: &R, record: SharedRecord) -> Result<(), OutOfMemory> {
        self.shared.board.lock(rt).write(record)?;
        self.shared.more.notify_one();
        Ok(())
    }

    /// Waits for a job, and takes it: the one that waits longest.
    pub fn next_job<R: Wait>(&self, rt: &R) -> Option<PlantJob> {
        let board = self.shared.board.lock(rt);
        let mut board = self
            .shared
            .more
            .wait_while(rt, board, |board| board.is_idle());
        board.take()
    }

    /// A device lives no more, and has failed or not. The first failure is kept.
    pub fn leave<R: Wait>(
        &self,
        rt: &R,
        scanner: bool,
        failure: Option<DeviceFailure>,
        is_stillborn: bool,
    ) {
        let mut board = self.shared.board.lock(rt);
        board.state.leave(scanner, failure, is_stillborn);
    }

    /// A record is written to its end, or has failed.
    pub fn leave_record<R: Wait>(&self, rt: &R, has_failed: bool) {
        self.shared.board.lock(rt).state.leave_record(has_failed);
    }

    /// Keeps what came of a script. OutOfMemory is the only fault.
    pub fn judge<R: Wait>(&self, rt: &R, outcome: ScriptOutcome) -> Result<(), OutOfMemory> {
        self.shared.board.lock(rt).judge(outcome)
    }

    /// Takes what came of the script of the device of this number, if it lives no more.
    pub fn take_script<R: Wait>(&self, rt: &R, place: usize) -> Option<ScriptOutcome> {
        self.shared.board.lock(rt).take_script(place)
    }

    /// How it is.
    pub fn state<R: Wait>(&self, rt: &R) -> PlantState {
        self.shared.board.lock(rt).state
    }
}

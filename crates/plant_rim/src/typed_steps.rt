//! The steps that are typed at a device of a plant, on their way from the thread that reads the input to that of the device.

ghost use Rattle.std.specs.Prelude.{◌≡◌};

use crate::step_queue::StepQueue;
use cip_types::OutOfMemory;
use mio::Waker;
use station::{StationStep, TypedSteps};
use std::alloc::Global;
use std::sync::{Arc, Mutex, Wait};

/// The steps that wait, and what wakes the device that takes them.
#[derive(Drop)]
struct UntakenSteps {
    queue: StepQueue,
    waker: Option<Waker>,
}

/// The steps that are typed at a device.
#[derive(Drop)]
pub struct SharedSteps {
    untaken: Arc<Mutex<UntakenSteps>, Global>,
}

impl SharedSteps {
    /// No step was typed. OutOfMemory is the only fault.
    pub fn new(alloc: Global) -> Result<SharedSteps, OutOfMemory> {
        let untaken = Mutex::new(UntakenSteps {
            queue: StepQueue::none(alloc),
            waker: None,
        });
        match Arc::new(alloc, untaken) {
            Ok(untaken) => Ok(SharedSteps { untaken }),
            Err(_) => Err(OutOfMemory),
        }
    }

    /// The same steps, for another thread. OutOfMemory is the only fault.
    pub fn share(&self) -> Result<SharedSteps, OutOfMemory> {
        match Arc::try_clone(&self.untaken) {
            Ok(untaken) => Ok(SharedSteps { untaken }),
            Err(_) => Err(OutOfMemory),
        }
    }

    /// The steps, for a device that this waker wakes.
    pub fn steps<R: Wait + Drop>(self, rt: R, waker: Waker) -> WaitingSteps<R> {
        self.untaken.lock(&rt).waker = Some(waker);
        WaitingSteps { rt, typed: self }
    }

    /// A step was typed, whose text has so many bytes: wakes the device. False if there is no room for it.
    pub fn offer<R: Wait>(&self, rt: &R, step: StationStep, bytes: usize) -> bool {
        let taken = self.untaken.lock(rt).queue.offer(step, bytes);
        self.wake(rt);
        taken
    }

    /// No more steps are typed: wakes the device, whose life is over behind those that wait.
    pub fn end<R: Wait>(&self, rt: &R) {
        self.untaken.lock(rt).queue.end();
        self.wake(rt);
    }

    /// Wakes the device, if it waits at a port already.
    fn wake<R: Wait>(&self, rt: &R) {
        if let Some(waker) = &self.untaken.lock(rt).waker {
            let _ = waker.wake();
        }
    }
}

/// The steps that another thread types.
#[derive(Drop)]
pub struct WaitingSteps<R: Wait + Drop> {
    rt: R,
    typed: SharedSteps,
}

impl<R: Wait + Drop> TypedSteps for WaitingSteps<R> {
    ghost types = { λ old typed new. new ≡ old };

    fn next_typed(&mut self) -> Result<Option<StationStep>, OutOfMemory> {
        Ok(self.typed.untaken.lock(&self.rt).queue.next())
    }
}

//! An alarm that a thread of its own rings.

use crate::alarm::times::{AlarmStep, alarm_step, ns_behind, sets_anew};
use cip_types::OutOfMemory;
use mio::Waker;
use std::alloc::Global;
use std::rt::Clock;
use std::sync::atomic::{AtomicU64, Ordering};
use std::sync::{Arc, Mutex, Wait};
use std::thread::Parker;
use std::time::{Duration, Instant};

/// An alarm that is not set.
const NOT_SET: u64 = 0;

/// What a port and the thread of its alarm share.
#[derive(Drop)]
struct AlarmState {
    /// The moment from which times are counted; None if the clock could not be read: then the alarm never rings.
    origin: Option<Instant>,
    /// When the alarm rings, in nanoseconds behind the origin.
    due_ns: AtomicU64,
    /// Where the thread waits.
    parker: Parker,
    /// What ends the wait of the port.
    waker: Mutex<Option<Waker>>,
}

/// An alarm, which a port sets and a thread of its own rings.
#[derive(Drop)]
pub struct Alarm {
    state: Arc<AlarmState, Global>,
}

impl Alarm {
    /// An alarm that is not set, of no port yet. OutOfMemory is the only fault.
    pub fn new<R: Clock>(alloc: Global, rt: &R) -> Result<Alarm, OutOfMemory> {
        let state = AlarmState {
            origin: Instant::now(rt).ok(),
            due_ns: AtomicU64::new(NOT_SET),
            parker: Parker::new(),
            waker: Mutex::new(None),
        };
        match Arc::new(alloc, state) {
            Ok(state) => Ok(Alarm { state }),
            Err(_) => Err(OutOfMemory),
        }
    }

    /// The same alarm, for its port or its thread. OutOfMemory is the only fault.
    pub fn share(&self) -> Result<Alarm, OutOfMemory> {
        match Arc::try_clone(&self.state) {
            Ok(state) => Ok(Alarm { state }),
            Err(_) => Err(OutOfMemory),
        }
    }

    /// From now on it rings by this waker.
    pub fn ring_by<R: Wait>(&self, rt: &R, waker: Waker) {
        *self.state.waker.lock(rt) = Some(waker);
    }

    /// Sets the alarm for a wait from now to its end, unless it is set to a time within it. It wakes the thread only where
    /// the alarm is set anew.
    pub fn set(&self, now: Instant, end: Instant) {
        let state = &self.state;
        let now_ns = ns_behind(state.origin, now);
        let end_ns = ns_behind(state.origin, end);
        let due_ns = state.due_ns.load(Ordering::SeqCst);
        if sets_anew(due_ns, now_ns, end_ns) {
            state.due_ns.store(end_ns, Ordering::SeqCst);
            state.parker.unpark();
        }
    }

    /// Rings the alarm each time that it is due: the work of its thread, without end.
    pub fn keep_ringing<R: Wait + Clock>(&self, rt: &R) {
        for _ in rt.forever() {
            self.step(rt);
        }
    }

    /// Waits for the time of the alarm or for another setting, or rings.
    fn step<R: Wait + Clock>(&self, rt: &R) {
        let state = &self.state;
        let due_ns = state.due_ns.load(Ordering::SeqCst);
        match alarm_step(due_ns, self.now_ns(rt)) {
            AlarmStep::Rest => state.parker.park(rt),
            AlarmStep::Sleep(ns) => state.parker.park_timeout(rt, Duration::from_nanos(ns)),
            AlarmStep::Ring => self.ring(rt, due_ns),
        }
    }

    /// The time by the clock. One that cannot be read is at its end, so that no thread waits for it.
    fn now_ns<R: Clock>(&self, rt: &R) -> u64 {
        match Instant::now(rt) {
            Ok(now) => ns_behind(self.state.origin, now),
            Err(_) => u64::MAX,
        }
    }

    /// Ends the wait of the port, unless the alarm was set anew meanwhile.
    fn ring<R: Wait>(&self, rt: &R, due_ns: u64) {
        let state = &self.state;
        let order = Ordering::SeqCst;
        if state
            .due_ns
            .compare_exchange(due_ns, NOT_SET, order, order)
            .is_err()
        {
            return;
        }
        if let Some(waker) = &*state.waker.lock(rt) {
            let _ = waker.wake();
        }
    }
}

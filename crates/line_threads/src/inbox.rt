//! What waits for a device.

ghost use Rattle.std.specs.Prelude.{◌<◌};

use cip_events::Arrival;
use cip_types::OutOfMemory;
use circular_buffer::HeapCircularBuffer;
use std::alloc::Global;
use std::sync::{Mutex, Wait};

/// Arrivals in the order in which they were put, under a lock of their own.
///
/// No contract says what is in an inbox: it is what other threads put and took.
#[derive(Drop)]
pub struct Inbox {
    ring: Mutex<HeapCircularBuffer<Arrival>>,
}

impl Inbox {
    /// An empty inbox for so many arrivals. `OutOfMemory` is the only error.
    pub fn new(alloc: Global, capacity: usize) -> Result<Inbox, OutOfMemory>
        requires { 0 < capacity }
    {
        let ring = HeapCircularBuffer::with_capacity(alloc, capacity)?;
        Ok(Inbox {
            ring: Mutex::new(ring),
        })
    }

    /// An inbox for so many arrivals that begins with one. `OutOfMemory` is the only error.
    pub fn with_first(
        alloc: Global,
        capacity: usize,
        arrival: Arrival,
    ) -> Result<Inbox, OutOfMemory>
        requires { 0 < capacity }
    {
        let mut ring = HeapCircularBuffer::with_capacity(alloc, capacity)?;
        ring.push_back(arrival);
        Ok(Inbox {
            ring: Mutex::new(ring),
        })
    }

    /// Waits for the lock, and puts an arrival last. If the inbox is full, its oldest arrival is lost, and is returned. Takes
    /// no memory.
    pub fn put<R: Wait>(&self, rt: &R, arrival: Arrival) -> Option<Arrival> {
        self.ring.lock(rt).push_back(arrival)
    }

    /// Waits for the lock, and takes the oldest arrival, if there is one. Takes no memory.
    pub fn take<R: Wait>(&self, rt: &R) -> Option<Arrival> {
        self.ring.lock(rt).pop_front()
    }
}

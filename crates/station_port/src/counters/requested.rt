//! A port says that a request waits which reads what its host has counted.

use cip_types::OutOfMemory;
use std::alloc::Global;
use std::sync::Arc;
use std::sync::atomic::{AtomicBool, Ordering};

/// Whether a request waits that reads what the host has counted: a port sets it, and who gives the device the counters takes it.
#[derive(Drop)]
pub struct CountersRequested {
    requested: Arc<AtomicBool, Global>,
}

impl CountersRequested {
    /// No request waits. OutOfMemory is the only fault.
    pub fn new(alloc: Global) -> Result<CountersRequested, OutOfMemory> {
        match Arc::new(alloc, AtomicBool::new(false)) {
            Ok(requested) => Ok(CountersRequested { requested }),
            Err(_) => Err(OutOfMemory),
        }
    }

    /// The same, for a port or for who takes it. OutOfMemory is the only fault.
    pub fn share(&self) -> Result<CountersRequested, OutOfMemory> {
        match Arc::try_clone(&self.requested) {
            Ok(requested) => Ok(CountersRequested { requested }),
            Err(_) => Err(OutOfMemory),
        }
    }

    /// A request waits.
    pub fn set(&self) {
        self.requested.store(true, Ordering::SeqCst);
    }

    /// Whether a request waits, of which nobody was told yet.
    pub fn take(&self) -> bool {
        if self.requested.load(Ordering::SeqCst) {
            self.requested.store(false, Ordering::SeqCst);
            return true;
        }
        false
    }
}

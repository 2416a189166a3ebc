//! What can hold a worker at a step.

/// Asked at each step of a device, with the device's place in the line. An answer of no ends the worker with
/// `LineFault::Gate`. A gate may wait, so a test can hold a worker here.
pub trait Gate {
    /// Asked before the lock of the device is taken.
    fn before(&self, device: usize) -> bool;

    /// Asked while the lock is held. After a no there is no step.
    fn inside(&self, device: usize) -> bool;

    /// Asked once the receipt is there, and the lock is released.
    fn after(&self, device: usize) -> bool;
}

/// The gate that always answers yes.
#[derive(Clone, Copy)]
pub struct Open;

impl Gate for Open {
    fn before(&self, _device: usize) -> bool {
        true
    }

    fn inside(&self, _device: usize) -> bool {
        true
    }

    fn after(&self, _device: usize) -> bool {
        true
    }
}

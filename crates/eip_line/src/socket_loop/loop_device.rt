//! A device at its port, with its clock.

ghost use Rattle.std.specs.Prelude.{◌≡◌, true, OnOk};
ghost use Rattle.eip_line.specs.SocketLoop.Turning.{IsReadTimes};

use crate::socket_loop::fault::LoopFault;
use cip_tables::Device;
use udp_runner::{Clock, Port, drive};

/// A device at its port, with a clock of its own.
#[derive(Drop)]
pub struct LoopDevice<P, C, D> {
    pub port: P,
    pub device: D,
    pub clock: C,
}

impl<P: Port, C: Clock, D: Device> LoopDevice<P, C, D> {
    /// Drives the device for one turn, which reads the clock once.
    pub fn turn(&mut self) -> Result<(), LoopFault>
        ensures { OnOk result
            (C.is_scripted ≡ true → IsReadTimes 1 (C.coming self.old.clock) (C.coming self.new.clock)) }
    {
        // (`drive` requires that the count of failures can rise)
        if self.port.failures() == u64::MAX {
            return Err(LoopFault::Port);
        }
        drive(&mut self.port, &mut self.device, &mut self.clock, 1)?;
        Ok(())
    }
}

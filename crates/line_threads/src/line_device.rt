//! A device of a line, under its lock.

ghost use Rattle.std.specs.Prelude.{◌≡◌, true, None, All, IfOk};
ghost use Rattle.cip_tables.specs.Step.{AcceptsAll, config_fault};
ghost use Rattle.settling.specs.Search.Histories.{config_in, configs_of};
ghost use Rattle.line_threads.specs.Accounts.{HasItsReceipts};
ghost use Rattle.line_threads.specs.Lines.{byte_of};

use crate::fault::LineFault;
use crate::receipts::are_for;
use crate::worker::Locked;
use cip_events::{Event, NewFault};
use cip_tables::{Config, Device};
use cip_types::OutOfMemory;
use device_lock::{Book, BookFault, History, LockedDevice, Receipt, Segment};
use std::alloc::Global;
use std::marker::Model;
use std::sync::Wait;

/// A device under a lock of its own, with the configuration that it was made of. Contracts see the configuration.
#[derive(Drop)]
pub struct LineDevice<D: Device + Drop> {
    config: Config,
    device: LockedDevice<D>,
}

impl<D: Device + Drop> Model for LineDevice<D> {
    ghost use Rattle.std.specs.Prelude.{◌≡◌, true, None};
    ghost use Rattle.cip_tables.specs.Step.{config_fault};
    ghost use Rattle.cip_tables.specs.declared.table.Config.{Config};
    ghost use Rattle.line_threads.specs.Lines.{byte_of};

    ghost Value = { Config };

    ghost view = { λ d. d.config };

    ghost invariant = { λ d.
        (config_fault d.config ≡ None) × (D.accepts d.config ≡ true) × (d.device ≡ byte_of d.config) };
}

impl<D: Device + Drop> Locked for LineDevice<D> {
    ghost device = { λ d. byte_of d };

    fn step_if<R: Wait, F: FnOnce() -> bool>(
        &self,
        rt: &R,
        event: Event,
        inside: F,
    ) -> Result<Option<Receipt>, BookFault> {
        self.device.step_if(rt, event, inside)
    }
}

impl<D: Device + Drop> LineDevice<D> {
    /// The fresh device of a configuration without a fault. `OutOfMemory` is the only error.
    pub fn new(alloc: Global, config: Config) -> Result<LineDevice<D>, OutOfMemory>
        requires accepts { D.accepts config ≡ true }
        requires valid { config_fault config ≡ None }
        ensures { IfOk result (λ device. device ≡ config) }
    {
        let device = locked(alloc, config.copy(alloc)?)?;
        Ok(LineDevice { config, device })
    }

    /// What happened at the device, of which these are the receipts, in order. The errors, in order: `TraceFull` if the
    /// book began its last segment, and `OutOfMemory`.
    pub fn into_history(self, alloc: Global, receipts: &[Receipt]) -> Result<History, LineFault>
        ensures config { IfOk result (λ history. config_in history ≡ self) }
        ensures receipts { IfOk result (HasItsReceipts receipts.now) }
    {
        let LineDevice { config, device } = self;
        let byte = device.incarnation();
        let segments = segments_of(alloc, device)?;
        // (None comes from lack of memory: a book begins with a fresh device)
        let Some(history) = History::new::<D>(alloc, config, segments) else {
            return Err(LineFault::OutOfMemory);
        };
        // (never so: one worker alone steps the device, and keeps the receipts in order)
        if !are_for(receipts, byte, history.events()) {
            return Err(LineFault::OutOfMemory);
        }
        Ok(history)
    }
}

/// A fresh device under a lock.
fn locked<D: Device + Drop>(alloc: Global, config: Config) -> Result<LockedDevice<D>, OutOfMemory>
    requires accepts { D.accepts config ≡ true }
    requires valid { config_fault config ≡ None }
    ensures { IfOk result (λ device. device ≡ byte_of config) }
{
    match D::new(alloc, config) {
        Ok(device) => Ok(LockedDevice::new(Book::new(alloc, device)?)),
        Err(NewFault::OutOfMemory) => Err(OutOfMemory),
        // (a valid configuration that is accepted is refused for lack of memory alone)
        Err(_) => unreachable!(),
    }
}

/// The one segment of a device's book.
fn segments_of<D: Device + Drop>(
    alloc: Global,
    device: LockedDevice<D>,
) -> Result<Vec<Segment>, LineFault> {
    let mut book = device.into_book();
    if book.segment() == u16::MAX {
        return Err(LineFault::TraceFull);
    }
    let mut segments = Vec::with_capacity(alloc, 1)?;
    segments.push(book.rotate()?)?;
    Ok(segments)
}

/// Fresh devices of configurations without a fault, in order. `OutOfMemory` is the only error.
pub fn open_devices<D: Device + Drop>(
    alloc: Global,
    configs: &[Config],
) -> Result<Vec<LineDevice<D>>, OutOfMemory>
    requires accepts { AcceptsAll D.accepts }
    requires valid { All (λ config. config_fault config ≡ None) configs.now }
    ensures { IfOk result (λ devices. devices.items ≡ configs.now) }
{
    let mut devices = Vec::new(alloc);
    for config in configs {
        let device = LineDevice::new(alloc, config.copy(alloc)?)?;
        devices.push(device)?;
    }
    Ok(devices)
}

/// What happened at each device, in order, where these are the receipts of all. The errors, in order: the first fault of a
/// history.
pub fn close_devices<D: Device + Drop>(
    alloc: Global,
    devices: Vec<LineDevice<D>>,
    receipts: &[Receipt],
) -> Result<Vec<History>, LineFault>
    ensures configs { IfOk result (λ histories. configs_of histories.items ≡ devices.items) }
    ensures receipts { IfOk result (λ histories. All (HasItsReceipts receipts.now) histories.items) }
{
    let mut histories = Vec::new(alloc);
    for device in devices {
        let history = device.into_history(alloc, receipts)?;
        histories.push(history)?;
    }
    Ok(histories)
}

//! Devices: their making, their steps, their copies.

use crate::calls::{Compared, Difference, MemoryCall, Refusals, Trial, are_same};
use cip_events::{Event, NewFault, Outcome, StepFault};
use cip_tables::{Config, Device, TableCopy};
use cip_types::OutOfMemory;
use plain_engine::{PlainAdapter, PlainScanner};
use std::alloc::Global;
use std::marker::PhantomData;
use trace_text::{Recorded, Trace};

/// A device that can be made of a copy of a table.
pub trait Restore {
    /// The device whose table is the copied one.
    fn of_copy(alloc: Global, copy: &TableCopy) -> Result<Self, NewFault>;
}

impl Restore for PlainAdapter {
    fn of_copy(alloc: Global, copy: &TableCopy) -> Result<Self, NewFault> {
        PlainAdapter::from_copy(alloc, copy)
    }
}

impl Restore for PlainScanner {
    fn of_copy(alloc: Global, copy: &TableCopy) -> Result<Self, NewFault> {
        PlainScanner::from_copy(alloc, copy)
    }
}

impl Compared for TableCopy {
    fn is_same_as(&self, other: &TableCopy) -> bool {
        self.same(other)
    }
}

/// Whether two devices have the same table.
pub fn is_device_like<D: Device>(device: &D, twin: &D) -> Result<bool, OutOfMemory> {
    are_same(device.copy(), twin.copy())
}

/// The outcome of a step, or that it was refused memory.
pub fn answered(outcome: Outcome) -> Result<Outcome, OutOfMemory> {
    match outcome {
        Ok(answer) => Ok(Ok(answer)),
        Err(StepFault::OutOfMemory) => Err(OutOfMemory),
        Err(fault) => Ok(Err(fault)),
    }
}

/// A fresh device of a configuration.
pub fn made<D: Device>(alloc: Global, config: &Config) -> Result<D, OutOfMemory> {
    match config.copy(alloc) {
        Ok(config) => D::new(alloc, config).map_err(|_| OutOfMemory),
        Err(refused) => Err(refused),
    }
}

/// The making of a device, from a copy of its configuration.
pub struct DeviceMaking<D>(PhantomData<D>);

impl<D: Device + Drop> MemoryCall for DeviceMaking<D> {
    type On = ();

    type Input = Config;

    type Given = D;

    fn make(alloc: Global, _on: &mut (), config: &Config) -> Result<D, OutOfMemory> {
        made(alloc, config)
    }

    fn is_same(given: &D, expected: &D) -> Result<bool, OutOfMemory> {
        is_device_like(given, expected)
    }

    fn is_like(_on: &(), _twin: &()) -> Result<bool, OutOfMemory> {
        Ok(true)
    }
}

/// The step at an event of a trace.
struct DeviceStep<D>(PhantomData<D>);

impl<D: Device> MemoryCall for DeviceStep<D> {
    type On = D;

    type Input = (Event, Recorded);

    type Given = Outcome;

    fn make(
        _alloc: Global,
        device: &mut D,
        input: &(Event, Recorded),
    ) -> Result<Outcome, OutOfMemory> {
        answered(device.step(&input.0))
    }

    fn is_same(given: &Outcome, expected: &Outcome) -> Result<bool, OutOfMemory> {
        Ok(given == expected)
    }

    fn is_like(device: &D, twin: &D) -> Result<bool, OutOfMemory> {
        is_device_like(device, twin)
    }
}

/// The call of `write_point` for an event Write of a trace, and a step at any other event.
struct Write<D>(PhantomData<D>);

impl<D: Device> MemoryCall for Write<D> {
    type On = D;

    type Input = (Event, Recorded);

    type Given = Outcome;

    fn make(
        _alloc: Global,
        device: &mut D,
        input: &(Event, Recorded),
    ) -> Result<Outcome, OutOfMemory> {
        match &input.0 {
            Event::Write { point, bytes } => answered(device.write_point(*point, bytes.as_slice())),
            event => answered(device.step(event)),
        }
    }

    fn is_same(given: &Outcome, expected: &Outcome) -> Result<bool, OutOfMemory> {
        Ok(given == expected)
    }

    fn is_like(device: &D, twin: &D) -> Result<bool, OutOfMemory> {
        is_device_like(device, twin)
    }
}

/// The copy of a device's table.
struct Copying<D>(PhantomData<D>);

impl<D: Device> MemoryCall for Copying<D> {
    type On = D;

    type Input = ();

    type Given = TableCopy;

    fn make(_alloc: Global, device: &mut D, _input: &()) -> Result<TableCopy, OutOfMemory> {
        device.copy()
    }

    fn is_same(given: &TableCopy, expected: &TableCopy) -> Result<bool, OutOfMemory> {
        Ok(given.same(expected))
    }

    fn is_like(device: &D, twin: &D) -> Result<bool, OutOfMemory> {
        is_device_like(device, twin)
    }
}

/// The making of a device of a copy.
struct Restoring<D>(PhantomData<D>);

impl<D: Device + Restore + Drop> MemoryCall for Restoring<D> {
    type On = ();

    type Input = TableCopy;

    type Given = D;

    fn make(alloc: Global, _on: &mut (), copy: &TableCopy) -> Result<D, OutOfMemory> {
        D::of_copy(alloc, copy).map_err(|_| OutOfMemory)
    }

    fn is_same(given: &D, expected: &D) -> Result<bool, OutOfMemory> {
        is_device_like(given, expected)
    }

    fn is_like(_on: &(), _twin: &()) -> Result<bool, OutOfMemory> {
        Ok(true)
    }
}

/// Refuses requests where a device is made of a copy of another.
fn refuse_restoring<D: Device + Restore + Drop>(
    refusals: &mut Refusals,
    device: &D,
) -> Result<(), Difference> {
    match device.copy() {
        Ok(copy) => refusals.in_call::<Restoring<D>>(&mut (), &mut (), &copy),
        Err(refused) => Err(Difference::from(refused)),
    }
}

/// A device that is made of a trace's configuration and stepped at its events. At last it is copied, and restored.
pub struct Stepped<D>(PhantomData<D>);

impl<D: Device + Restore + Drop> Trial for Stepped<D> {
    type On = D;

    type Input = Trace;

    fn begin(alloc: Global, trace: &Trace) -> Result<D, OutOfMemory> {
        made(alloc, &trace.config)
    }

    fn refuse(
        refusals: &mut Refusals,
        device: &mut D,
        twin: &mut D,
        trace: &Trace,
    ) -> Result<(), Difference> {
        refusals.in_call::<DeviceMaking<D>>(&mut (), &mut (), &trace.config)?;
        refusals.in_calls::<DeviceStep<D>>(device, twin, trace.events.as_slice())?;
        refusals.in_call::<Copying<D>>(device, twin, &())?;
        refuse_restoring(refusals, device)
    }
}

/// A device whose points are written by `write_point`.
pub struct Written<D>(PhantomData<D>);

impl<D: Device + Drop> Trial for Written<D> {
    type On = D;

    type Input = Trace;

    fn begin(alloc: Global, trace: &Trace) -> Result<D, OutOfMemory> {
        made(alloc, &trace.config)
    }

    fn refuse(
        refusals: &mut Refusals,
        device: &mut D,
        twin: &mut D,
        trace: &Trace,
    ) -> Result<(), Difference> {
        refusals.in_calls::<Write<D>>(device, twin, trace.events.as_slice())
    }
}

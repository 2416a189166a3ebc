//! Lines on their way to an output, with the names of points, slots and devices behind them.

use cip_types::OutOfMemory;
use station_lines::LineSink;
use std::alloc::Global;
use std::sync::Arc;
use trace_words::{DeviceNames, Names, push_labelled};

/// The names of a plant's devices at their addresses, for each of its threads.
#[derive(Drop)]
pub struct SharedDevices {
    devices: Arc<DeviceNames, Global>,
}

impl SharedDevices {
    /// These names. OutOfMemory is the only fault.
    pub fn new(alloc: Global, devices: DeviceNames) -> Result<SharedDevices, OutOfMemory> {
        match Arc::new(alloc, devices) {
            Ok(devices) => Ok(SharedDevices { devices }),
            Err(_) => Err(OutOfMemory),
        }
    }

    /// No names. OutOfMemory is the only fault.
    pub fn none(alloc: Global) -> Result<SharedDevices, OutOfMemory> {
        SharedDevices::new(alloc, DeviceNames::none(alloc))
    }

    /// The same, for another thread. OutOfMemory is the only fault.
    pub fn share(&self) -> Result<SharedDevices, OutOfMemory> {
        match Arc::try_clone(&self.devices) {
            Ok(devices) => Ok(SharedDevices { devices }),
            Err(_) => Err(OutOfMemory),
        }
    }
}

/// Lines that go to another sink with their names behind them. Where there is no name, or no memory for it, they go as they are.
#[derive(Drop)]
pub struct LabelledLines<S> {
    names: Names,
    devices: SharedDevices,
    text: Vec<u8>,
    sink: S,
}

impl<S: LineSink> LabelledLines<S> {
    /// Lines with these names. Takes no memory.
    pub fn new(alloc: Global, names: Names, devices: SharedDevices, sink: S) -> Self
    where
        S: Drop,
    {
        LabelledLines {
            names,
            devices,
            text: Vec::new(alloc),
            sink,
        }
    }

    /// Has the text with its names ready. False if it is to go as it is: there are no names, or there is no memory.
    fn label(&mut self, text: &[u8]) -> bool {
        let devices: &DeviceNames = &self.devices.devices;
        if self.names.is_empty() && devices.is_empty() {
            return false;
        }
        self.text.clear();
        push_labelled(&mut self.text, &self.names, devices, text).is_ok()
    }
}

impl<S: LineSink> LineSink for LabelledLines<S> {
    fn line(&mut self, text: &[u8]) {
        if self.label(text) {
            self.sink.line(self.text.as_slice());
        } else {
            self.sink.line(text);
        }
    }

    fn state(&mut self, text: &[u8]) -> bool {
        if self.label(text) {
            self.sink.state(self.text.as_slice())
        } else {
            self.sink.state(text)
        }
    }
}

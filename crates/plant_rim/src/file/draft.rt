//! What the lines of a plant's file say so far.

ghost use Rattle.std.specs.Prelude.{◌≡◌, ◌++◌, ◌∷◌, [], IfOk, OnOk};
ghost use Rattle.plant_rim.specs.File.Lines.{Reads};
ghost use Rattle.plant_rim.specs.File.Plants.{device_with_fault, device_with_line, devices_of, draft_with, has_address, has_name, has_node, is_at, misfit, no_draft, no_options, options_with, plant_of};
ghost use Rattle.plant_rim.specs.File.Reading.{Adds};

use crate::file::faults::{PlantLineFault, PlantReadFault};
use crate::file::line::{FaultSetting, PlantLine};
use crate::file::plant::{
    FaultOptions, MOST_DEVICES, MOST_SCRIPT_LINES, PlantDevice, PlantFile, PlantWord,
};
use cip_types::{Items, Node, OutOfMemory};
use station::ScriptLine;
use std::alloc::Global;
use std::mem;

/// The devices before the last one, the last one, and what the lines so far say of the plant.
#[derive(Drop)]
pub struct PlantDraft {
    pub devices: Items<PlantDevice>,
    pub last: Option<PlantDevice>,
    pub seconds: Option<u32>,
    pub record_path: Option<PlantWord>,
}

impl PlantDraft {
    /// No lines. Takes no memory.
    pub fn new(alloc: Global) -> PlantDraft
        ensures { result ≡ no_draft }
    {
        PlantDraft {
            devices: Items::new(alloc),
            last: None,
            seconds: None,
            record_path: None,
        }
    }

    /// Adds a line. After a fault the draft is of no use.
    pub fn add(&mut self, alloc: Global, line: PlantLine) -> Result<(), PlantReadFault>
        ensures { Adds (draft_with self.old line) result self.new }
    {
        match line {
            PlantLine::Skipped => Ok(()),
            PlantLine::Device {
                name,
                profile,
                address,
            } => self.add_device(alloc, name, profile, address),
            PlantLine::Fault(given) => self.add_fault(given),
            PlantLine::Script(given) => self.add_script(given),
            PlantLine::Seconds(seconds) => self.add_seconds(seconds),
            PlantLine::Record(path) => self.add_record(path),
        }
    }

    /// Adds a device.
    fn add_device(
        &mut self,
        alloc: Global,
        name: PlantWord,
        profile: PlantWord,
        address: Option<Node>,
    ) -> Result<(), PlantReadFault>
        ensures { Adds (draft_with self.old (PlantLine.Device name profile address)) result self.new }
    {
        self.end_device(alloc)?;
        if let Some(fault) = misfit(self.devices.as_slice(), name.as_str(), address) {
            return Err(PlantReadFault::Line(fault));
        }
        self.last = Some(PlantDevice {
            name,
            profile,
            address,
            faults: FaultOptions::none(),
            script: Items::new(alloc),
        });
        Ok(())
    }

    /// No more lines belong to the last device.
    fn end_device(&mut self, alloc: Global) -> Result<(), OutOfMemory>
        ensures { OnOk result (self.new ≡ record self.old { devices = devices_of self.old; last = None }) }
    {
        let Some(device) = self.last.take() else {
            return Ok(());
        };
        let devices = mem::replace(&mut self.devices, Items::new(alloc));
        self.devices = with_item(devices, device)?;
        Ok(())
    }

    /// Adds a setting of the last device.
    fn add_fault(&mut self, given: FaultSetting) -> Result<(), PlantReadFault>
        ensures { Adds (draft_with self.old (PlantLine.Fault given)) result self.new }
    {
        let Some(device) = self.last.take() else {
            return Err(PlantReadFault::Line(PlantLineFault::BeforeDevice));
        };
        match with_fault(device, given) {
            Ok(device) => {
                self.last = Some(device);
                Ok(())
            }
            Err(fault) => Err(PlantReadFault::Line(fault)),
        }
    }

    /// Adds a line of the last device's script.
    fn add_script(&mut self, given: ScriptLine) -> Result<(), PlantReadFault>
        ensures { Adds (draft_with self.old (PlantLine.Script given)) result self.new }
    {
        let Some(device) = self.last.take() else {
            return Err(PlantReadFault::Line(PlantLineFault::BeforeDevice));
        };
        self.last = Some(with_line(device, given)?);
        Ok(())
    }

    /// Adds how long the plant runs.
    fn add_seconds(&mut self, seconds: u32) -> Result<(), PlantReadFault>
        ensures { Adds (draft_with self.old (PlantLine.Seconds seconds)) result self.new }
    {
        if self.seconds.is_some() {
            return Err(PlantReadFault::Line(PlantLineFault::SaidTwice));
        }
        self.seconds = Some(seconds);
        Ok(())
    }

    /// Adds where the records are.
    fn add_record(&mut self, path: PlantWord) -> Result<(), PlantReadFault>
        ensures { Adds (draft_with self.old (PlantLine.Record path)) result self.new }
    {
        if self.record_path.is_some() {
            return Err(PlantReadFault::Line(PlantLineFault::SaidTwice));
        }
        self.record_path = Some(path);
        Ok(())
    }

    /// The plant of all lines.
    pub fn plant(self, alloc: Global) -> Result<PlantFile, PlantReadFault>
        ensures { Reads (plant_of self) result }
    {
        let mut draft = self;
        draft.end_device(alloc)?;
        if draft.devices.as_slice().is_empty() {
            return Err(PlantReadFault::Line(PlantLineFault::NoDevice));
        }
        Ok(PlantFile {
            devices: draft.devices,
            seconds: draft.seconds,
            record_path: draft.record_path,
        })
    }
}

impl FaultOptions {
    /// Nothing is said.
    fn none() -> FaultOptions
        ensures { result ≡ no_options }
    {
        FaultOptions {
            lose: None,
            repeat: None,
            reorder: None,
            delay_ms: None,
            seed: None,
        }
    }
}

/// Items with one more.
fn with_item<T>(items: Items<T>, item: T) -> Result<Items<T>, OutOfMemory>
where
    T: Drop,
    ensures { IfOk result (λ longer. longer ≡ items ++ item ∷ []) }
{
    let mut items = items.into_vec();
    items.push(item)?;
    Ok(Items::from_vec(items))
}

/// Why a device is not one more beside these.
fn misfit(devices: &[PlantDevice], name: &str, address: Option<Node>) -> Option<PlantLineFault>
    ensures { result ≡ misfit devices.now name.now address }
{
    if devices.len() >= MOST_DEVICES {
        return Some(PlantLineFault::TooManyDevices);
    }
    if has_name(name, devices) {
        return Some(PlantLineFault::SameName);
    }
    if has_address(address, devices) {
        return Some(PlantLineFault::SameAddress);
    }
    None
}

/// Whether one of these devices has the name.
fn has_name(name: &str, devices: &[PlantDevice]) -> bool
    ensures { result ≡ has_name name.now devices.now }
{
    devices.iter().any(|device| device.name.as_str() == name)
}

/// Whether one of these devices has the address, if there is one.
fn has_address(address: Option<Node>, devices: &[PlantDevice]) -> bool
    ensures { result ≡ has_address address devices.now }
{
    match address {
        Some(node) => has_node(node, devices),
        None => false,
    }
}

fn has_node(node: Node, devices: &[PlantDevice]) -> bool
    ensures { result ≡ has_node node devices.now }
{
    devices.iter().any(|device| is_at(node, device.address))
}

/// Whether an address is this one.
fn is_at(node: Node, address: Option<Node>) -> bool
    ensures { result ≡ is_at node address }
{
    match address {
        Some(address) => address.0 == node.0,
        None => false,
    }
}

/// A device with one setting more.
fn with_fault(device: PlantDevice, given: FaultSetting) -> Result<PlantDevice, PlantLineFault>
    ensures { result ≡ device_with_fault device given }
{
    let faults = options_with(device.faults, given)?;
    Ok(PlantDevice { faults, ..device })
}

/// Settings with one more.
fn options_with(options: FaultOptions, given: FaultSetting) -> Result<FaultOptions, PlantLineFault>
    ensures { result ≡ options_with options given }
{
    match given {
        FaultSetting::Lose(percent) if options.lose.is_none() => Ok(FaultOptions {
            lose: Some(percent),
            ..options
        }),
        FaultSetting::Repeat(percent) if options.repeat.is_none() => Ok(FaultOptions {
            repeat: Some(percent),
            ..options
        }),
        FaultSetting::Reorder(percent) if options.reorder.is_none() => Ok(FaultOptions {
            reorder: Some(percent),
            ..options
        }),
        FaultSetting::Delay(ms) if options.delay_ms.is_none() => Ok(FaultOptions {
            delay_ms: Some(ms),
            ..options
        }),
        FaultSetting::Seed(seed) if options.seed.is_none() => Ok(FaultOptions {
            seed: Some(seed),
            ..options
        }),
        _ => Err(PlantLineFault::SaidTwice),
    }
}

/// A device with one line more in its script.
fn with_line(device: PlantDevice, given: ScriptLine) -> Result<PlantDevice, PlantReadFault>
    ensures { Reads (device_with_line device given) result }
{
    if device.script.as_slice().len() >= MOST_SCRIPT_LINES {
        return Err(PlantReadFault::Line(PlantLineFault::LongScript));
    }
    let mut device = device;
    device.script = with_item(device.script, given)?;
    Ok(device)
}

//! The names of a plant's devices at their addresses.

ghost use Rattle.std.specs.Prelude.{◌≡◌, ◌++◌, ◌∷◌, [], IfOk, OnOk, option_map, string_bytes};
ghost use Rattle.trace_words.specs.PointNames.Things.{device_name, devices_in, found_device};
ghost use Rattle.trace_words.specs.Words.{node_word};

use crate::push_node;
use cip_types::{Node, OutOfMemory};
use std::alloc::Global;

/// A device: its address as a word, and its name.
#[derive(Drop)]
struct DeviceName {
    address: String,
    name: String,
}

/// The names of a plant's devices at their addresses.
#[derive(Drop)]
pub struct DeviceNames {
    devices: Vec<DeviceName>,
}

impl DeviceNames {
    /// No device. Takes no memory.
    pub fn none(alloc: Global) -> DeviceNames
        ensures { devices_in result ≡ [] }
    {
        DeviceNames {
            devices: Vec::new(alloc),
        }
    }

    /// Adds a device at an address. The fault: an allocation was refused.
    pub fn add(&mut self, alloc: Global, node: Node, name: &str) -> Result<(), OutOfMemory>
        ensures { OnOk result (devices_in self.new ≡ devices_in self.old ++ (node_word node, name.now) ∷ []) }
    {
        let device = DeviceName {
            address: word_of(alloc, node)?,
            name: format!(in alloc; "{name}")?,
        };
        self.devices.push(device)?;
        Ok(())
    }

    /// The name of the first device whose address this word is.
    pub fn of(&self, address: &[u8]) -> Option<&str>
        ensures { option_map (λ name. name.now) result ≡ device_name (devices_in self.now) address.now }
    {
        self.found(address)
    }

    /// The name of the first device at an address.
    fn found(&self, address: &[u8]) -> Option<&str>
        ensures { option_map (λ name. name.now) result ≡ found_device self.now.devices.items address.now }
    {
        let found = self
            .devices
            .iter()
            .find(|device| device.address.as_bytes() == address)?;
        Some(found.name.as_str())
    }

    /// Whether no device has a name.
    pub fn is_empty(&self) -> bool {
        self.devices.is_empty()
    }
}

/// An address as a word. The fault: an allocation was refused.
fn word_of(alloc: Global, node: Node) -> Result<String, OutOfMemory>
    ensures { IfOk result (λ word. string_bytes word ≡ node_word node) }
{
    let mut word = String::new(alloc);
    push_node(&mut word, node)?;
    Ok(word)
}

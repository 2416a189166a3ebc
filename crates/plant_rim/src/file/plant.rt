//! A plant, as its file says it.

use cip_types::{Items, Node, OutOfMemory};
use port_faults::FaultRates;
use station::ScriptLine;
use std::alloc::Global;
use std::marker::Model;

/// The most devices of a plant: so each has at least two incarnations of its own.
pub const MOST_DEVICES: usize = 127;

/// The most lines of a device's script.
pub const MOST_SCRIPT_LINES: usize = 256;

/// A name or a path.
#[derive(Drop)]
pub struct PlantWord {
    text: String,
}

impl Model for PlantWord {
    ghost use Rattle.std.specs.Prelude.{List, ℕ, string_bytes};

    ghost Value = { List ℕ };

    ghost view = { λ word. string_bytes word.text };
}

impl PlantWord {
    ghost use Rattle.std.specs.Prelude.{◌≡◌, IfOk};

    /// A copy of a text. OutOfMemory is the only fault.
    pub fn copy_of(alloc: Global, text: &str) -> Result<PlantWord, OutOfMemory>
        ensures { IfOk result (λ word. word ≡ text.now) }
    {
        let mut copy = String::new(alloc);
        copy.push_str(text)?;
        Ok(PlantWord { text: copy })
    }

    /// The text.
    pub fn as_str(&self) -> &str
        ensures { result.now ≡ self.now }
    {
        self.text.as_str()
    }
}

/// What becomes of the datagrams that arrive at a device, as far as the file says it.
#[derive(Clone, Copy, PartialEq, Eq)]
pub struct FaultOptions {
    /// The percentage of the datagrams that are lost.
    pub lose: Option<u8>,
    /// The percentage that arrive twice.
    pub repeat: Option<u8>,
    /// The percentage that the next one overtakes.
    pub reorder: Option<u8>,
    /// The most milliseconds that a datagram waits.
    pub delay_ms: Option<u16>,
    /// The seed by which these are drawn.
    pub seed: Option<u64>,
}

impl FaultOptions {
    ghost use Rattle.std.specs.Prelude.{◌≡◌};
    ghost use Rattle.plant_rim.specs.File.Plants.{rates_of};

    /// What becomes of the datagrams: nothing, where the file says nothing.
    pub fn rates(&self) -> FaultRates
        ensures { result ≡ rates_of self.now }
    {
        FaultRates {
            lose: self.lose.unwrap_or(0),
            repeat: self.repeat.unwrap_or(0),
            reorder: self.reorder.unwrap_or(0),
            delay_ms: self.delay_ms.unwrap_or(0),
            seed: self.seed.unwrap_or(0),
        }
    }
}

/// A device of a plant.
#[derive(Drop)]
pub struct PlantDevice {
    pub name: PlantWord,
    /// The path of its profile, as it is in the file.
    pub profile: PlantWord,
    /// Its address, in place of that of its profile.
    pub address: Option<Node>,
    pub faults: FaultOptions,
    pub script: Items<ScriptLine>,
}

/// A plant, as its file says it: at least one device.
#[derive(Drop)]
pub struct PlantFile {
    /// At least one device, and at most `MOST_DEVICES`.
    pub devices: Items<PlantDevice>,
    /// How long it runs, if it ends.
    pub seconds: Option<u32>,
    /// The path of the folder of its records, as it is in the file.
    pub record_path: Option<PlantWord>,
}

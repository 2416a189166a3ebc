//! Spare buffers for frames that a device may send.

ghost use Rattle.std.specs.Prelude.{◌≡◌, ◌≤◌, ◌<◌, ◌+◌, length, IsOk, IfOk, OnOk};

use cip_types::limits::LONGEST_MESSAGE;
use cip_types::{Items, OutOfMemory};
use std::alloc::Global;
use std::marker::Model;

/// The most frames of an answer.
pub const MOST_FRAMES: usize = 64;

/// Spare buffers. Contracts see them as their number. Each has the capacity for the longest frame.
#[derive(Drop)]
pub struct Buffers {
    alloc: Global,
    spares: Vec<Vec<u8>>,
}

impl Model for Buffers {
    ghost use Rattle.std.specs.Prelude.{ℕ, length};
    ghost use Rattle.segment_world.specs.Transit.Spares.{AreSpare};

    ghost Value = { ℕ };

    ghost view = { λ b. length b.spares.items };

    ghost invariant = { λ b. AreSpare b.spares.items };
}

impl Buffers {
    /// Makes an empty store of buffers. Takes no memory.
    pub fn new(alloc: Global) -> Buffers
        ensures { result ≡ 0 }
    {
        Buffers {
            alloc,
            spares: Vec::new(alloc),
        }
    }

    /// Adds buffers until there are as many as an answer can need. `OutOfMemory` is the only error; buffers that were
    /// added stay.
    pub fn refill(&mut self) -> Result<(), OutOfMemory>
        ensures kept { OnOk result (64 ≤ self.new) }
        ensures more { self.old ≤ self.new }
    {
        while self.spares.len() < MOST_FRAMES {
            let spare = Vec::with_capacity(self.alloc, LONGEST_MESSAGE)?;
            self.spares.push(spare)?;
        }
        Ok(())
    }

    /// Takes one buffer and fills it with these bytes. Takes no memory for at most 2,048 bytes. `OutOfMemory` is the only
    /// error. It comes only for longer ones, or if there is no buffer.
    pub fn filled(&mut self, bytes: &[u8]) -> Result<Items<u8>, OutOfMemory>
        ensures bytes { IfOk result (λ filled. filled ≡ bytes.now) }
        ensures room { 0 < self.old → length bytes.now ≤ 2048 → IsOk result }
        ensures left { self.old ≤ self.new + 1 }
    {
        let Some(mut buffer) = self.spares.pop() else {
            return Err(OutOfMemory);
        };
        buffer.extend_from_slice(bytes)?;
        Ok(Items::from_vec(buffer))
    }
}

//! The memory of a datagram that a later one can use.

ghost use Rattle.std.specs.Prelude.{◌≡◌, IfOk};

use cip_types::{Items, OutOfMemory};
use std::alloc::Global;

/// The memory of the last datagram that the device has taken.
#[derive(Drop)]
pub struct SpareBytes {
    bytes: Option<Vec<u8>>,
}

impl SpareBytes {
    /// No memory yet.
    pub fn none() -> SpareBytes {
        SpareBytes { bytes: None }
    }

    /// A copy of the bytes of a datagram, in the spare memory. Takes memory only if there is none or too little. The
    /// fault: an allocation was refused.
    pub fn copy(&mut self, alloc: Global, datagram: &[u8]) -> Result<Items<u8>, OutOfMemory>
        ensures { IfOk result (λ copy. copy ≡ datagram.now) }
    {
        let mut bytes = self.bytes.take().unwrap_or(Vec::new(alloc));
        bytes.clear();
        bytes.extend_from_slice(datagram)?;
        Ok(Items::from_vec(bytes))
    }

    /// Keeps the memory of these bytes. Takes no memory.
    pub fn keep(&mut self, bytes: Items<u8>) {
        self.bytes = Some(bytes.into_vec());
    }
}

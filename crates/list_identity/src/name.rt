//! The product name of a device.

ghost use Rattle.std.specs.Prelude.{◌≡◌, ◌<◌, length, IfOk, IfErr};
ghost use Rattle.list_identity.specs.Names.{name_front};
ghost use Rattle.list_identity.specs.declared.name.NameFault.TheVariants.{TooLong};

use cip_types::{Items, OutOfMemory};
use std::alloc::Global;
use std::marker::Model;
use thiserror::Error;

/// A product name has at most so many bytes.
///
/// Volume 1, chapter 5, Identity object, attribute 7.
pub const LONGEST_NAME: usize = 32;

/// Why bytes are no product name.
#[derive(Clone, Copy, Debug, PartialEq, Eq, Error)]
pub enum NameFault {
    /// More than 32 bytes.
    #[error("a product name of more than 32 bytes")]
    TooLong,
    /// An allocation was refused.
    #[error("no memory")]
    OutOfMemory,
}

impl From<OutOfMemory> for NameFault {
    ghost use Rattle.list_identity.specs.declared.name.NameFault.TheVariants as fault;

    ghost from_gives = { λ _ f. f ≡ fault.OutOfMemory };

    fn from(_refused: OutOfMemory) -> NameFault {
        NameFault::OutOfMemory
    }
}

/// The name of a product: at most 32 bytes of text. Contracts see it as its bytes.
#[derive(Drop)]
pub struct ProductName {
    bytes: Items<u8>,
}

impl Model for ProductName {
    ghost use Rattle.std.specs.Prelude.{List, ℕ, ◌≤◌, length};

    ghost Value = { List ℕ };

    ghost view = { λ name. name.bytes };

    ghost invariant = { λ name. length name.bytes ≤ 32 };
}

impl ProductName {
    /// The name of these bytes. The faults, in order: `TooLong`, `OutOfMemory`.
    pub fn new(alloc: Global, text: &[u8]) -> Result<ProductName, NameFault>
        ensures name { IfOk result (λ name. name ≡ text.now) }
        ensures fault { IfErr result (λ fault. 32 < length text.now → fault ≡ TooLong) }
        ensures long { IfOk result (λ _. length text.now < 33) }
        ensures short { IfErr result (λ fault. fault ≡ TooLong → 32 < length text.now) }
    {
        if text.len() > LONGEST_NAME {
            return Err(NameFault::TooLong);
        }
        Ok(ProductName {
            bytes: Items::copy_of(alloc, text)?,
        })
    }

    /// The name of at most 32 bytes of a text, from its front. The only fault is a refused allocation.
    pub fn front_of(alloc: Global, text: &[u8]) -> Result<ProductName, OutOfMemory>
        ensures { IfOk result (λ name. name ≡ name_front text.now) }
    {
        Ok(ProductName {
            bytes: Items::copy_of(alloc, front(text))?,
        })
    }

    /// The bytes of the name: at most 32.
    pub fn as_slice(&self) -> &[u8]
        ensures same { result.now ≡ self.now }
        ensures few { length result.now < 33 }
    {
        self.bytes.as_slice()
    }
}

/// At most 32 bytes, from the front.
fn front(text: &[u8]) -> &[u8]
    ensures same { result.now ≡ name_front text.now }
    ensures few { length result.now < 33 }
{
    if text.len() < LONGEST_NAME {
        return text;
    }
    &text[..LONGEST_NAME]
}

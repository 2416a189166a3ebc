//! The bytes of a datagram.

ghost use Rattle.std.specs.Prelude.{◌≡◌, ◌≤◌, ◌+◌, ◌++◌, IfOk, length, take};

use cip_types::OutOfMemory;
use std::alloc::Global;
use std::marker::Model;

/// The number of bytes that the value stores inline.
const FEW: usize = 56;

/// Bytes in order. Contracts see them as a list. Up to 56 bytes are stored inline and take no memory.
#[derive(Drop)]
pub struct SmallBytes {
    kept: KeptBytes,
}

#[derive(Drop)]
pub(crate) enum KeptBytes {
    /// The first of these, of this number.
    Few(usize, [u8; FEW]),
    Many(Vec<u8>),
}

impl Model for SmallBytes {
    ghost use Rattle.std.specs.Prelude.{List, ℕ};
    ghost use Rattle.cip_events.specs.Kept.{kept_bytes, FitBytes};

    ghost Value = { List ℕ };

    ghost view = { λ o. kept_bytes o.kept };

    ghost invariant = { λ o. FitBytes o.kept };
}

/// Copies bytes to a position, over the bytes there.
#[inline(always)]
fn copy_in(places: &mut [u8], start: usize, source: &[u8])
    requires { start + length source.now ≤ length places.old }
    ensures front { take (start + length source.now) places.new ≡ take start places.old ++ source.now }
    ensures len { length places.new ≡ length places.old }
{
    places[start..start + source.len()].copy_from_slice(source);
}

impl SmallBytes {
    /// The bytes of a vector. Takes no memory.
    pub fn from_vec(vec: Vec<u8>) -> Self
        ensures { result ≡ vec.items }
    {
        SmallBytes {
            kept: KeptBytes::Many(vec),
        }
    }

    /// The bytes of `front` and then those of `back`. Up to 56 take no memory. OutOfMemory is the only fault.
    #[inline(always)]
    pub fn joined(alloc: Global, front: &[u8], back: &[u8]) -> Result<Self, OutOfMemory>
        ensures { IfOk result (λ joined. joined ≡ front.now ++ back.now) }
    {
        let len = front.len().saturating_add(back.len());
        if len > FEW {
            let mut bytes = Vec::with_capacity(alloc, len)?;
            bytes.extend_from_slice(front)?;
            bytes.extend_from_slice(back)?;
            return Ok(SmallBytes::from_vec(bytes));
        }
        let mut few = [0; FEW];
        copy_in(&mut few, 0, front);
        copy_in(&mut few, front.len(), back);
        Ok(SmallBytes {
            kept: KeptBytes::Few(len, few),
        })
    }

    /// The bytes.
    #[inline(always)]
    pub fn as_slice(&self) -> &[u8]
        ensures { result.now ≡ self.now }
    {
        match &self.kept {
            KeptBytes::Few(count, bytes) => &bytes[..*count],
            KeptBytes::Many(bytes) => bytes.as_slice(),
        }
    }
}

impl PartialEq for SmallBytes {
    ghost use Rattle.std.specs.Prelude.{nat_eq};
    ghost use Rattle.std.specs.Cmp.{partial_equiv_from_equiv};
    ghost use Rattle.std.specs.Cmp.Lexicographic.{pointwise, nat_list_eq_equiv};

    ghost eq = { λ x y. pointwise nat_eq x y };

    ghost laws = { partial_equiv_from_equiv nat_list_eq_equiv };

    fn eq(&self, other: &Self) -> bool {
        self.as_slice() == other.as_slice()
    }
}

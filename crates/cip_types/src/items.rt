//! Lists of values.

ghost use Rattle.std.specs.Prelude.{◌≡◌, [], ◌∷◌, IfOk, length, replicate};

use crate::memory::OutOfMemory;
use std::alloc::Global;
use std::marker::Model;

/// Values in order. Contracts and definitions see them as a list.
#[derive(Drop)]
pub struct Items<T> {
    vec: Vec<T>,
}

impl<T> Model for Items<T> {
    ghost use Rattle.std.specs.Prelude.{List};

    ghost Value = { List T };

    ghost view = { λ s. s.vec.items };
}

impl<T> Items<T> {
    /// No values. Takes no memory.
    pub fn new(alloc: Global) -> Self
        ensures { result ≡ [] }
    {
        Items {
            vec: Vec::new(alloc),
        }
    }

    /// The values of a vector. Takes no memory.
    pub fn from_vec(vec: Vec<T>) -> Self
        ensures { result ≡ vec.items }
    {
        Items { vec }
    }

    /// A vector of the values. Takes no memory.
    pub fn into_vec(self) -> Vec<T>
        ensures { result.items ≡ self }
    {
        let Items { vec } = self;
        vec
    }

    /// The values.
    pub fn as_slice(&self) -> &[T]
        ensures { result.now ≡ self.now }
    {
        self.vec.as_slice()
    }
}

impl<T: Drop> Items<T> {
    /// One value. OutOfMemory is the only fault.
    pub fn one(alloc: Global, value: T) -> Result<Self, OutOfMemory>
        ensures { IfOk result (λ items. items ≡ value ∷ []) }
    {
        let mut vec = Vec::new(alloc);
        vec.push(value)?;
        Ok(Items { vec })
    }
}

impl<T: Copy> Items<T> {
    /// A copy of some values. OutOfMemory is the only fault.
    pub fn copy_of(alloc: Global, values: &[T]) -> Result<Self, OutOfMemory>
        ensures { IfOk result (λ items. items ≡ values.now) }
    {
        Ok(Items {
            vec: Vec::from_slice(alloc, values)?,
        })
    }
}

impl Items<u8> {
    /// Zero bytes of this number. OutOfMemory is the only fault.
    pub fn zeros(alloc: Global, len: usize) -> Result<Self, OutOfMemory>
        ensures { IfOk result (λ bytes. bytes ≡ replicate len 0) }
    {
        Ok(Items {
            vec: vec![in alloc; 0; len]?,
        })
    }

    /// Overwrites the bytes with others of the same number. Takes no memory.
    pub fn overwrite(&mut self, bytes: &[u8])
        requires { length self.old ≡ length bytes.now }
        ensures { self.new ≡ bytes.now }
    {
        self.vec.copy_from_slice(bytes);
    }

    /// Makes all bytes zero. Takes no memory.
    pub fn zero(&mut self)
        ensures { self.new ≡ replicate (length self.old) 0 }
    {
        zero_bytes(&mut self.vec);
    }
}

fn zero_bytes(bytes: &mut [u8])
    ensures { bytes.new ≡ replicate (length bytes.old) 0 }
{
    for byte in bytes.iter_mut() {
        *byte = 0;
    }
}

impl<T: PartialEq> PartialEq for Items<T> {
    ghost use Rattle.std.specs.Cmp.Lexicographic.{pointwise, lists_per};

    ghost eq = { λ x y. pointwise T.eq x y };

    ghost laws = { lists_per T.laws };

    fn eq(&self, other: &Self) -> bool {
        self.vec == other.vec
    }
}

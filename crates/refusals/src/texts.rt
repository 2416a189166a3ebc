//! Traces as text: their reading and their writing.

use crate::calls::MemoryCall;
use cip_types::OutOfMemory;
use std::alloc::Global;
use trace_text::{read_trace, write_trace};

/// A trace that is read and written again.
pub struct Rewriting;

impl MemoryCall for Rewriting {
    type On = ();

    type Input = Vec<u8>;

    type Given = String;

    fn make(alloc: Global, _on: &mut (), text: &Vec<u8>) -> Result<String, OutOfMemory> {
        match read_trace(alloc, text.as_slice()) {
            Ok(trace) => write_trace(alloc, &trace),
            Err(_) => Err(OutOfMemory),
        }
    }

    fn is_same(given: &String, expected: &String) -> Result<bool, OutOfMemory> {
        Ok(given.as_str() == expected.as_str())
    }

    fn is_like(_on: &(), _twin: &()) -> Result<bool, OutOfMemory> {
        Ok(true)
    }
}

//! The names of a device's points, slots and bits for its page, as JSON.

use cip_types::OutOfMemory;
use serde_json::Value;
use std::alloc::Global;
use trace_words::{Named, Names, push_text};

/// The names of a device: nothing, if it has none.
pub fn names_text(alloc: Global, names: &Names) -> Result<String, OutOfMemory> {
    let mut text = String::new(alloc);
    if names.is_empty() {
        return Ok(text);
    }
    push_text(&mut text, "{")?;
    for place in 0..usize::MAX {
        let Some((named, name)) = names.at(place) else {
            break;
        };
        if place > 0 {
            push_text(&mut text, ",")?;
        }
        push_key(&mut text, named)?;
        let name = Value::String(format!(in alloc; "{name}")?).to_string(alloc)?;
        push_text(&mut text, name.as_str())?;
    }
    push_text(&mut text, "}")?;
    Ok(text)
}

/// Appends the key of what is named: `150`, `slot 3`, or `150.2.7` of bit 7 in byte 2.
fn push_key(text: &mut String, named: Named) -> Result<(), OutOfMemory> {
    match named {
        Named::Point(point) => write!(text, "\"{point}\":")?,
        Named::Slot(slot) => write!(text, "\"slot {slot}\":")?,
        Named::Bit(point, byte, bit) => write!(text, "\"{point}.{byte}.{bit}\":")?,
    }
    Ok(())
}

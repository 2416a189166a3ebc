//! The names of a story's devices.

ghost use Rattle.std.specs.Prelude.{◌≡◌};
ghost use Rattle.world_command.specs.Story.Names.{device_at, is_name};

use cip_types::OutOfMemory;
use std::alloc::Global;
use std::marker::Model;

/// A name, or a path.
#[derive(Drop)]
pub struct StoryName {
    text: String,
}

impl Model for StoryName {
    ghost use Rattle.std.specs.Prelude.{List, ℕ, string_bytes};

    ghost Value = { List ℕ };

    ghost view = { λ name. string_bytes name.text };
}

impl StoryName {
    ghost use Rattle.std.specs.Prelude.{◌≡◌, IfOk};

    /// A copy of a text. OutOfMemory is the only fault.
    pub fn copy_of(alloc: Global, text: &str) -> Result<StoryName, OutOfMemory>
        ensures { IfOk result (λ name. name ≡ text.now) }
    {
        let mut copy = String::new(alloc);
        copy.push_str(text)?;
        Ok(StoryName { text: copy })
    }

    /// The text.
    pub fn as_str(&self) -> &str
        ensures { result.now ≡ self.now }
    {
        self.text.as_str()
    }
}

/// The index of the first device with a name.
pub fn device_at(names: &[StoryName], name: &str) -> Option<usize>
    ensures { result ≡ device_at names.now name.now }
{
    names.iter().position(|other| other.as_str() == name)
}

/// Whether a word can be the name of a device, with which the line of its act begins.
pub fn is_name(word: &str) -> bool
    ensures { result ≡ is_name word.now }
{
    !word.is_empty() && word != "device"
}

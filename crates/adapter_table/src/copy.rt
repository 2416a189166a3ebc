//! Copies of profiles, and tables with a later counter.

ghost use Rattle.std.specs.Prelude.{◌≡◌, ◌≤◌, ◌↔◌, IfOk, IsTrue};
ghost use Rattle.adapter_table.specs.Whole.{IsWhole};
ghost use Rattle.cip_types.specs.Ids.{end_number};

use crate::profile::{Description, Profile};
use crate::table::AdapterTable;
use cip_types::{Items, OutOfMemory};
use std::alloc::Global;

impl Description {
    /// A copy of the description.
    pub fn copy(&self, alloc: Global) -> Result<Description, OutOfMemory>
        ensures { IfOk result (λ copy. copy ≡ self.now) }
    {
        let name = Items::copy_of(alloc, self.name.as_slice())?;
        let mac = Items::copy_of(alloc, self.mac.as_slice())?;
        Ok(Description {
            serial: self.serial,
            name,
            port: self.port,
            speed: self.speed,
            flags: self.flags,
            mac,
            inactivity: self.inactivity,
        })
    }
}

/// A copy of a description, if there is one.
fn copy_description(
    alloc: Global,
    description: &Option<Description>,
) -> Result<Option<Description>, OutOfMemory>
    ensures { IfOk result (λ copy. copy ≡ description.now) }
{
    match description {
        Some(description) => Ok(Some(description.copy(alloc)?)),
        None => Ok(None),
    }
}

impl Profile {
    /// A copy of the profile.
    pub fn copy(&self, alloc: Global) -> Result<Profile, OutOfMemory>
        ensures { IfOk result (λ copy. copy ≡ self.now) }
    {
        let outputs = Items::copy_of(alloc, self.outputs.as_slice())?;
        let inputs = Items::copy_of(alloc, self.inputs.as_slice())?;
        let description = copy_description(alloc, &self.description)?;
        let objects = Items::copy_of(alloc, self.objects.as_slice())?;
        Ok(Profile {
            incarnation: self.incarnation,
            node: self.node,
            mask: self.mask,
            identity: self.identity,
            outputs,
            inputs,
            config: self.config,
            input_only: self.input_only,
            listen_only: self.listen_only,
            description,
            limits: self.limits,
            objects,
            ids: self.ids,
        })
    }
}

impl AdapterTable {
    /// Whether two tables are equal. Takes no memory.
    pub fn same(&self, other: &AdapterTable) -> bool
        ensures { IsTrue result ↔ (self.now ≡ other.now) }
    {
        self == other
    }

    /// The table with a later number for the next connection id. Takes no memory.
    ///
    /// The number is no less than the present one, and at most that behind the last id of the table's blocks. Without a stated
    /// block that is 16,777,216.
    pub fn with_next_id(self, counter: u32) -> AdapterTable
        requires whole { IsWhole self }
        requires later { self.next_id ≤ counter }
        requires last { counter ≤ end_number self.ids }
        ensures value { result ≡ record self { next_id = counter } }
        ensures whole { IsWhole result }
    {
        AdapterTable {
            next_id: counter,
            ..self
        }
    }
}

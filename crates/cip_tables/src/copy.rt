//! Copies of the tables and of the configurations of devices.

ghost use Rattle.std.specs.Prelude.{◌≡◌, ◌≤◌, ◌↔◌, IfOk, IsTrue};
ghost use Rattle.cip_tables.specs.declared.table.DeviceTable.{DeviceTable};
ghost use Rattle.cip_tables.specs.declared.table.DeviceTable.TheVariants.{Adapter, Scanner};
ghost use Rattle.cip_types.specs.Ids.{end_number};
ghost use Rattle.adapter_table.specs.Whole.{IsWhole};
ghost use Rattle.scanner_table.specs.Whole.{IsWholeScanner};
ghost use Rattle.cip_tables.specs.Whole.{IsWholeDevice, ids_of, next_id_of, with_next_id};

use crate::table::{Config, DeviceTable};
use adapter_table::AdapterTable;
use cip_types::OutOfMemory;
use scanner_table::{ScannerTable, later_counters_keep_tables_whole};
use std::alloc::Global;
use std::marker::Model;

/// A copy of a device's table. Contracts see it as that table, which is whole. A device can be made from a copy,
/// and goes on from that table.
#[derive(Drop)]
pub struct TableCopy {
    table: DeviceTable,
}

impl Model for TableCopy {
    ghost Value = { DeviceTable };

    ghost view = { λ c. c.table };

    ghost invariant = { λ c. IsWholeDevice c.table };
}

impl TableCopy {
    /// Makes a copy of a whole table of an adapter. Takes no memory.
    pub fn adapter(table: AdapterTable) -> TableCopy
        requires { IsWhole table }
        ensures { result ≡ Adapter table }
    {
        TableCopy {
            table: DeviceTable::Adapter(table),
        }
    }

    /// Makes a copy of a whole table of a scanner. Takes no memory.
    pub fn scanner(table: ScannerTable) -> TableCopy
        requires { IsWholeScanner table }
        ensures { result ≡ Scanner table }
    {
        TableCopy {
            table: DeviceTable::Scanner(table),
        }
    }

    /// Returns the table, which is whole.
    pub fn table(&self) -> &DeviceTable
        ensures value { result.now ≡ self.now }
        ensures whole { IsWholeDevice self.now }
    {
        &self.table
    }

    /// Returns whether two copies have equal tables. A table of an adapter never equals one of a scanner. Takes no
    /// memory.
    pub fn same(&self, other: &TableCopy) -> bool
        ensures { IsTrue result ↔ (self.now ≡ other.now) }
    {
        match (&self.table, &other.table) {
            (DeviceTable::Adapter(table), DeviceTable::Adapter(other)) => table.same(other),
            (DeviceTable::Scanner(table), DeviceTable::Scanner(other)) => table.same(other),
            (DeviceTable::Adapter(_), DeviceTable::Scanner(_)) => false,
            (DeviceTable::Scanner(_), DeviceTable::Adapter(_)) => false,
        }
    }

    /// Moves the number of the next connection id forward. Takes no memory.
    ///
    /// The new number is no less than the present one, and at most that behind the last id of the table's blocks. Without a
    /// stated block that is 16,777,216.
    pub fn with_next_id(self, counter: u32) -> TableCopy
        requires later { next_id_of self ≤ counter }
        requires last { counter ≤ end_number (ids_of self) }
        ensures { result ≡ with_next_id self counter }
    {
        match self.table {
            DeviceTable::Adapter(table) => TableCopy::adapter(table.with_next_id(counter)),
            DeviceTable::Scanner(table) => {
                // The table stays whole, as `TableCopy::scanner` requires.
                later_counters_keep_tables_whole();
                TableCopy::scanner(table.with_next_id(counter))
            }
        }
    }
}

impl Config {
    /// Copies the configuration. `OutOfMemory` is the only error.
    pub fn copy(&self, alloc: Global) -> Result<Config, OutOfMemory>
        ensures { IfOk result (λ copy. copy ≡ self.now) }
    {
        match self {
            Config::Adapter(profile) => Ok(Config::Adapter(profile.copy(alloc)?)),
            Config::Scanner(profile) => Ok(Config::Scanner(profile.copy(alloc)?)),
        }
    }
}

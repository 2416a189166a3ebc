//! The table and the configuration of a device of either kind.

use adapter_table::{AdapterTable, Profile};
use scanner_table::{ScannerProfile, ScannerTable};

/// The table of a device: its whole state.
#[derive(PartialEq, Drop)]
pub enum DeviceTable {
    /// The table of an adapter.
    Adapter(AdapterTable),
    /// The table of a scanner.
    Scanner(ScannerTable),
}

/// The configuration of a device.
#[derive(PartialEq, Drop)]
pub enum Config {
    /// The profile of an adapter.
    Adapter(Profile),
    /// The profile of a scanner.
    Scanner(ScannerProfile),
}

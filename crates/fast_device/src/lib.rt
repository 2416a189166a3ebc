//! The fast device of either kind. Each of its steps is the table's.
#![tactic(auto)]

use adapter_engine::FastAdapter;
use cip_tables::AnyDevice;
use scanner_engine::FastScanner;

/// A fast adapter or a fast scanner, as its configuration says.
pub type FastDevice = AnyDevice<FastAdapter, FastScanner>;

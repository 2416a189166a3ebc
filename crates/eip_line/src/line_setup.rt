//! A line of an adapter and up to eight scanners of it: its devices, and what their applications do.

mod devices;
mod line;
mod script;

pub use devices::{ADAPTER, adapter_config, configs, scanner_config, scanner_node};
pub use line::line_of;
pub use script::scripts;

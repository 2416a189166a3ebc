//! The electronic data sheet of an adapter: the text by which configuration tools know a device.
//!
//! Volume 1, chapter 7, electronic data sheets.
#![tactic(auto)]

mod classes;
mod connections;
mod device;
mod manager;
mod names;
mod offer;
mod points;
mod sheet;

pub use names::{SheetNames, is_name};
pub use sheet::write_sheet;

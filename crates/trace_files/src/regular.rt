//! Files that are read: regular ones alone, and up to a limit. A pipe or a device may give bytes for ever, or none.

mod fault;
mod reading;

pub use fault::FileFault;
pub use reading::{open_regular, read_regular};

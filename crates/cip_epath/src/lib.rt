//! Paths of the Connection Manager and of explicit requests: lists of segments, as bytes.
//!
//! Volume 1, appendix C, data management: segment types.
#![tactic(auto)]

mod any_path;
mod builder;
mod check;
pub mod class;
mod fault;
mod key;
mod laws;
mod message_path;
mod path;
mod read;
mod reading;
mod segment;
mod write;

pub use any_path::{is_other_serial, key_serial, read_any_message_path, read_any_path};
pub use check::check_key;
pub use fault::PathFault;
pub use key::{ElectronicKey, KeyFault};
pub use laws::reads_back;
pub use message_path::read_message_path;
pub use path::{ConnPath, Target};
pub use read::{read_path, read_target};
pub use write::{path_len, put_path, write_path, write_target};

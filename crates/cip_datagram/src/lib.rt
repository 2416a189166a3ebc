//! Class 1 datagrams: the implicit data of connections, as bytes.
//!
//! Volume 2, chapter 2, common packet format, and chapter 3, class 0 and class 1 connected data.
#![tactic(auto)]

mod datagram;
mod fixed;
pub mod item;
mod laws;
mod mode;
mod read;
mod write;

pub use datagram::{Datagram, DatagramFault};
pub use laws::reads_back;
pub use mode::{header, read_header};
pub use read::read_datagram;
pub use write::{fixed_part, write_datagram};

//! A line of devices, each stepped by a thread of its own, over a simulated network of streams and datagrams.
#![tactic(auto)]

mod fault;
mod gate;
mod inbox;
mod line;
mod line_device;
mod line_stream;
mod openings;
mod receipts;
mod sending;
mod worker;

pub use fault::LineFault;
pub use gate::{Gate, Open};
pub use inbox::Inbox;
pub use line::{Line, LineRun, run_line};
pub use line_stream::LineStream;
pub use sending::Network;
pub use settling::{Settled, Unsettled, settle};
pub use worker::{Locked, work};

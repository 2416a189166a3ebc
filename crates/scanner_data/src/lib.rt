//! Class 1 data at a scanner: the datagrams that its slots receive, the outputs and the mode that its application sets,
//! and the datagrams that its slots send. Only sent datagrams take memory.
//!
//! Volume 1, chapter 3, class 1 transport, real time formats and run/idle; Volume 2, chapter 2, sequenced
//! address item.
#![tactic(auto)]

mod deliveries;
mod outputs;
mod productions;
mod states;
mod written;

pub use deliveries::receive;
pub use outputs::{set_mode, write};
pub use productions::{due_datagrams, produce};
pub use states::slot_report;

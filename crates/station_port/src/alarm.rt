//! An alarm of a port: a thread of its own ends a wait of the port at a moment between two milliseconds.

mod ringing;
mod times;

pub use ringing::Alarm;
pub use times::{AlarmStep, alarm_step, ns_behind, sets_anew};

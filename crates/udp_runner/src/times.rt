//! The times of a turn: what a device is given of the time that passes, for how long no connection of a packet interval times
//! out, how long a port waits, and when a loop that never waits rests.

mod owed_time;
mod rests;
mod timeouts;
mod waits;

pub use owed_time::{OwedTime, passed_ns};
pub use rests::BusyTime;
pub use timeouts::before_timeout;
pub use waits::{wait_length, whole_ms};

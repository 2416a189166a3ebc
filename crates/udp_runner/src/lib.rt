//! Drives a device over a port and a clock: ports and clocks, turns of a device, and a port over memory with
//! a stepped clock. A `KeptPort` ends streams by rules of its own: what its station tells it of peers, and what it
//! reports of streams.
//!
//! `times` are the times of a turn: what a device is told of passing time, how long nothing times out, when a busy loop rests.
//! `groups` are the multicast groups of a station: whether its port sends to groups, and of which it receives datagrams.
#![tactic(auto)]

mod fault;
mod groups;
mod in_time;
mod kept_memory;
mod kept_port;
mod memory;
mod observer;
mod outlet;
mod output;
mod port;
mod report;
mod runner;
mod times;

pub use fault::{PortFault, RunFault};
pub use groups::{
    DataGroup, GroupPort, add_group, group_port, has_group, is_due, is_group, is_to_add,
    next_try_ms, sent_port, uses_groups,
};
pub use in_time::turn_in_time;
pub use kept_port::KeptPort;
pub use memory::{MemoryPort, SteppedClock};
pub use observer::{Observer, Unobserved};
pub use outlet::AtPort;
pub use output::{Output, SentOutput};
pub use port::{Clock, Port};
pub use report::{EndCause, PortReport, RefusalCause};
pub use runner::{act, drive, drive_watched, turn_waiting};
pub use times::{BusyTime, OwedTime, before_timeout, passed_ns, wait_length, whole_ms};

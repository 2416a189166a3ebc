//! A simulated network: devices, a log of every datagram that was ever sent, and streams between the devices. A test or
//! a program performs one act at a time, and an act makes at most one event at one device.
//!
//! `transit` is what is on its way: every datagram that was ever sent, and the frames that wait on streams. `lives` are devices
//! that restart: their lives are the devices of a world.
#![tactic(auto)]

mod act;
mod configs;
mod devices;
mod fault;
pub mod laws;
pub mod lives;
mod reception;
mod traffic;
mod transit;
mod world;

pub use act::{Act, ActFault, Call};
pub use configs::{DeviceKey, has_key, node_of, nodes_of, world_fault};
pub use fault::WorldFault;
pub use lives::{Plant, RestartFault};
pub use reception::{receiver_of, sender_of};
pub use transit::{Direction, Endpoints, QueueFront, SentLog, Streams};
pub use world::{MOST_STREAM_NUMBERS, World};

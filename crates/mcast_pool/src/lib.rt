//! The producers of a device's connections: one for each point to point connection, and one for each group of
//! multicast connections of an input.
//!
//! Volume 1, chapter 3, class 1 transport; Volume 2, chapter 3, multicast connections.
#![tactic(auto)]

mod group;
mod groups;
mod pool;

pub use group::Group;
pub use pool::{Joined, MOST_SUBSCRIBERS, Pool};

//! The multicast groups of a station: whether its port sends to groups, and of which groups it receives datagrams.

mod group;
mod group_use;

pub use group::{DataGroup, GroupPort};
pub use group_use::{
    add_group, group_port, has_group, is_due, is_group, is_to_add, next_try_ms, sent_port,
    uses_groups,
};

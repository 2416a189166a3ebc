//! The addresses that producers send to.

ghost use Rattle.std.specs.Prelude.{◌≡◌, ◌≤◌, length};
ghost use Rattle.adapter_table.specs.Opening.{address_of};

use adapter_table::{Profile, multicast_address};
use cip_types::Node;

/// The address that a producer sends to: its group, or its one consumer.
pub fn address_of(profile: &Profile, peer: Node, multicast: bool, point: u32) -> Node
    requires { length profile.now.inputs ≤ 8 }
    ensures { result ≡ address_of profile.now peer multicast point }
{
    if multicast {
        multicast_address(profile, point)
    } else {
        peer
    }
}

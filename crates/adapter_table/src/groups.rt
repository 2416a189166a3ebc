//! The multicast addresses that the producers of a device send to.

ghost use Rattle.std.specs.Prelude.{◌≡◌, ◌≤◌, ◌<◌, ◌^◌, length};
ghost use Rattle.std.specs.List.{position, position_or_len};
ghost use Rattle.adapter_table.specs.Profiles.{is_at, host_id};
ghost use Rattle.adapter_table.specs.Opening.{multicast_address};

use crate::profile::{InputPoint, Profile};
use cip_types::Node;

/// The first multicast address of all, 239.192.1.0.
const FIRST_MULTICAST: u64 = 0xEFC0_0100;

fn input_position(inputs: &[InputPoint], point: u32) -> Option<usize>
    ensures { result ≡ position (is_at point) inputs.now }
{
    inputs.iter().position(|input| input.instance == point)
}

#[tactic(auto, using(cip_types::specs::Indices::position_or, cip_types::specs::Indices::place_bound))]
fn place_of_input(inputs: &[InputPoint], point: u32) -> usize
    ensures value { result ≡ position_or_len (is_at point) inputs.now }
    ensures bound { result ≤ length inputs.now }
{
    input_position(inputs, point).unwrap_or(inputs.len())
}

/// The bits of an address that name the host in its network.
fn host_id(node: Node, mask: u32) -> u64
    ensures value { result ≡ host_id node.0 mask }
    ensures bound { result < 2 ^ 32 }
{
    let size = (1u64 << 32) - u64::from(mask);
    u64::from(node.0) % size
}

/// The multicast address of an input's producer. Takes no memory.
///
/// Volume 2, chapter 3, multicast address allocation.
pub fn multicast_address(profile: &Profile, point: u32) -> Node
    requires { length profile.now.inputs ≤ 8 }
    ensures { result ≡ multicast_address profile.now point }
{
    let host = host_id(profile.node, profile.mask);
    let block = 32 * (host.saturating_sub(1) % 1024);
    let place = place_of_input(profile.inputs.as_slice(), point);
    Node((FIRST_MULTICAST + block + place as u64) as u32)
}

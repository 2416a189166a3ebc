//! Which groups a port uses.

ghost use Rattle.std.specs.Prelude.{◌≡◌, OnOk};
ghost use Rattle.std.specs.List.{list_any};
ghost use Rattle.udp_runner.specs.Groups.GroupUse.{receives_itself, group_port, is_due, is_group, is_loopback, is_same, is_to_add, next_try, sent_port, uses_groups, with_group};

use crate::groups::group::DataGroup;
use cip_types::limits::UDP_PORT;
use cip_types::{Node, OutOfMemory};

/// The addresses of this host alone: 127.0.0.0 to 127.255.255.255.
const FIRST_LOOPBACK: u32 = 0x7F00_0000;

const LAST_LOOPBACK: u32 = 0x7FFF_FFFF;

/// The first address of a group, 224.0.0.0, and the one behind the last, 240.0.0.0.
const FIRST_GROUP: u32 = 0xE000_0000;

const BEHIND_GROUPS: u32 = 0xF000_0000;

/// A group whose socket could not be bound is tried again after so many milliseconds.
const TRY_AGAIN_MS: u64 = 5_000;

/// Whether the port of a station at this address uses groups: as an option says it, or else unless it is an address of this host
/// alone, which no group reaches.
pub fn uses_groups(said: Option<bool>, address: Node) -> bool
    ensures { result ≡ uses_groups said address }
{
    match said {
        Some(said) => said,
        None => !is_loopback(address),
    }
}

/// Whether an address is one of this host alone: 127.0.0.0 to 127.255.255.255.
///
/// RFC 1122, section 3.2.1.3.
fn is_loopback(address: Node) -> bool
    ensures { result ≡ is_loopback address }
{
    FIRST_LOOPBACK <= address.0 && address.0 <= LAST_LOOPBACK
}

/// Whether an address is that of a group: 224.0.0.0 to 239.255.255.255.
///
/// RFC 1112, section 4.
pub fn is_group(address: Node) -> bool
    ensures { result ≡ is_group address }
{
    FIRST_GROUP <= address.0 && address.0 < BEHIND_GROUPS
}

/// The UDP port to which a datagram to this address goes, where this one is that of a peer: at a group it is the one that replies
/// name.
pub fn sent_port(address: Node, peer_port: u16) -> u16
    ensures { result ≡ sent_port address peer_port }
{
    if is_group(address) {
        UDP_PORT
    } else {
        peer_port
    }
}

/// The UDP port of a group whose item names this one: 0 names none, and is the standard's.
pub fn group_port(named: u16) -> u16
    ensures { result ≡ group_port named }
{
    if named == 0 { UDP_PORT } else { named }
}

/// Whether a port at this address and UDP port receives the datagrams of a group without a further socket: one at 0.0.0.0 does,
/// if they go to its UDP port.
fn receives_itself(address: Node, udp: u16, group: DataGroup) -> bool
    ensures { result ≡ receives_itself address udp group }
{
    address.0 == 0 && udp == group.port
}

/// Whether a group is among these.
pub fn has_group(groups: &[DataGroup], group: DataGroup) -> bool
    ensures { result ≡ list_any (is_same group) groups.now }
{
    groups.iter().any(|other| is_same(group, other))
}

/// Whether these are one group.
fn is_same(group: DataGroup, other: &DataGroup) -> bool
    ensures { result ≡ is_same group other.now }
{
    group.address == other.address && group.port == other.port
}

/// Whether a port at this address and UDP port adds a socket for a group: unless it has one, or needs none.
pub fn is_to_add(address: Node, udp: u16, group: DataGroup, has_socket: bool) -> bool
    ensures { result ≡ is_to_add address udp group has_socket }
{
    !has_socket && !receives_itself(address, udp, group)
}

/// Adds a group, if there is one and it is not among these. The only fault is a refused allocation.
pub fn add_group(groups: &mut Vec<DataGroup>, group: Option<DataGroup>) -> Result<(), OutOfMemory>
    ensures { OnOk result (groups.new.items ≡ with_group groups.old.items group) }
{
    let Some(group) = group else {
        return Ok(());
    };
    if has_group(groups.as_slice(), group) {
        return Ok(());
    }
    groups.push(group)?;
    Ok(())
}

/// When the socket of a group that could not be bound now is tried again.
pub fn next_try_ms(now_ms: u64) -> u64
    ensures { result ≡ next_try now_ms }
{
    now_ms.saturating_add(TRY_AGAIN_MS)
}

/// Whether a group is to be tried again: it has no socket, and its time has come.
pub fn is_due(bound: bool, next_ms: u64, now_ms: u64) -> bool
    ensures { result ≡ is_due bound next_ms now_ms }
{
    !bound && next_ms <= now_ms
}

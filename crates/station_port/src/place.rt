//! Where a station is, where it sends, and when it ends a silent stream.

ghost use Rattle.std.specs.Prelude.{◌≡◌, None, true};
ghost use Rattle.udp_runner.specs.Groups.GroupUse.{uses_groups};
ghost use Rattle.station_port.specs.Items.{originator_use, target_use};

use crate::named_ports::ItemUse;
use cip_types::Node;
use cip_types::limits::{TCP_PORT, UDP_PORT};
use udp_runner::uses_groups;

/// The encapsulation inactivity time-out, in seconds.
///
/// Volume 2, chapter 5, TCP/IP Interface object.
const INACTIVITY_S: u16 = 120;
/// The mask of a network of one address.
const NO_NETWORK: u32 = 0xFFFF_FFFF;

/// Where a station is, and where it sends.
#[derive(Clone, Copy)]
pub struct StationPlace {
    /// The IPv4 address of its sockets. 0.0.0.0 is each address of the host.
    pub address: Node,
    /// The mask of its network, whose broadcast address finds it. 255.255.255.255: no network has it.
    pub mask: u32,
    /// The TCP port of encapsulation messages, which is the UDP port of inquiries too.
    pub tcp: u16,
    /// The UDP port of its class 1 datagrams.
    pub udp: u16,
    /// The UDP port of its peers' class 1 datagrams.
    pub peer_udp: u16,
    /// Whether it uses groups: a datagram of a multicast connection is sent once, to the group's address, and not to each
    /// consumer, and a scanner receives what is sent to the groups of its slots.
    pub multicast: bool,
    /// An adapter ends a stream over which no whole message came for so many seconds; 0: none.
    pub inactivity_s: u16,
    /// Whether a scanner names its UDP port in its requests to open a connection, if it is another one than the standard's, and sends
    /// the datagrams of a connection where its target says; and an adapter sends those to the port that its originator has named.
    pub item_ports: bool,
}

impl StationPlace {
    /// A station at this address, with the standard's ports and its time-out, which does what its replies say: it uses groups,
    /// unless its address is one of this host alone, and the ports that originators name.
    pub fn at(address: Node) -> StationPlace
        ensures { result ≡ record { address = address; mask = 4294967295; tcp = 44818; udp = 2222; peer_udp = 2222; multicast = uses_groups None address; inactivity_s = 120; item_ports = true } }
    {
        StationPlace {
            address,
            mask: NO_NETWORK,
            tcp: TCP_PORT,
            udp: UDP_PORT,
            peer_udp: UDP_PORT,
            multicast: uses_groups(None, address),
            inactivity_s: INACTIVITY_S,
            item_ports: true,
        }
    }

    /// What an adapter's port does with socket address items.
    pub(crate) fn target_use(&self) -> ItemUse
        ensures { result ≡ target_use self.now }
    {
        if self.item_ports {
            ItemUse::Honoured
        } else {
            ItemUse::Unused
        }
    }

    /// What a scanner's port does with socket address items.
    pub(crate) fn originator_use(&self) -> ItemUse
        ensures { result ≡ originator_use self.now }
    {
        if !self.item_ports {
            ItemUse::Unused
        } else if self.udp == UDP_PORT {
            ItemUse::Obeyed
        } else {
            ItemUse::Named(self.udp)
        }
    }
}

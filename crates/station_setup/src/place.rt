//! Where a station is, what becomes of the datagrams that arrive there, and when it ends.

ghost use Rattle.std.specs.Prelude.{◌≡◌};
ghost use Rattle.station_setup.specs.Settings.{adapter_place, end_of, given_or, inactivity_of, own_place, place_of, port_of, rates_of, scanner_place};

use crate::describing::node_of;
use adapter_table::{Description, Profile};
use cip_tables::{Config, ScannerProfile};
use cip_types::Node;
use cip_types::limits::TCP_PORT;
use command_lines::Options;
use port_faults::FaultRates;
use station_port::StationPlace;
use udp_runner::uses_groups;

/// The mask of a network of one address.
const NO_NETWORK: u32 = 0xFFFF_FFFF;

/// Where the station of a device is.
pub(crate) fn own_place(options: &Options, config: &Config) -> StationPlace
    ensures { result ≡ own_place options.now config.now }
{
    match config {
        Config::Adapter(profile) => adapter_place(options, profile),
        Config::Scanner(profile) => scanner_place(options, profile),
    }
}

/// Where an adapter station is, and its inactivity time-out: as its description says.
pub fn adapter_place(options: &Options, profile: &Profile) -> StationPlace
    ensures { result ≡ adapter_place options.now profile.now }
{
    let tcp = port_of(&profile.description);
    let inactivity_s = inactivity_of(&profile.description);
    place_of(options, profile.node, profile.mask, tcp, inactivity_s)
}

/// The TCP port of a description, or the standard's.
fn port_of(description: &Option<Description>) -> u16
    ensures { result ≡ port_of description.now }
{
    match description {
        Some(description) => description.port,
        None => TCP_PORT,
    }
}

/// The inactivity time-out of a description, or none.
fn inactivity_of(description: &Option<Description>) -> u16
    ensures { result ≡ inactivity_of description.now }
{
    match description {
        Some(description) => description.inactivity,
        None => 0,
    }
}

/// Where a scanner station is. No inquiry finds it, and it ends no silent stream.
pub fn scanner_place(options: &Options, profile: &ScannerProfile) -> StationPlace
    ensures { result ≡ scanner_place options.now profile.now }
{
    let tcp = options.tcp.unwrap_or(TCP_PORT);
    place_of(options, profile.node, NO_NETWORK, tcp, 0)
}

/// Where a station is: at the address of its options, or of its profile, in the network of this mask.
fn place_of(options: &Options, node: Node, mask: u32, tcp: u16, inactivity_s: u16) -> StationPlace
    ensures { result ≡ place_of options.now node mask tcp inactivity_s }
{
    StationPlace {
        address: given_or(options.address, node),
        mask,
        tcp,
        udp: options.udp,
        peer_udp: options.peer_udp,
        multicast: uses_groups(options.multicast, node_of(options.address, node)),
        inactivity_s,
        item_ports: options.item_ports,
    }
}

/// What becomes of the datagrams that arrive.
pub fn rates_of(options: &Options) -> FaultRates
    ensures { result ≡ rates_of options.now }
{
    FaultRates {
        lose: options.lose,
        repeat: options.repeat,
        reorder: options.reorder,
        delay_ms: options.delay_ms,
        seed: options.seed,
    }
}

/// The address of the options, or that of the profile.
fn given_or(address: Option<Node>, node: Node) -> Node
    ensures { result ≡ given_or address node }
{
    match address {
        Some(address) => address,
        None => node,
    }
}

/// When a station or a plant ends that runs for so many seconds, in milliseconds since it began. One without seconds has no end.
pub fn end_of(seconds: Option<u32>) -> Option<u64>
    ensures { result ≡ end_of seconds }
{
    match seconds {
        Some(seconds) => Some(u64::from(seconds) * 1_000),
        None => None,
    }
}

//! Opens the streams that histories name.

ghost use Rattle.std.specs.Prelude.{◌≡◌, ◌<◌, ◌≤◌, ◌^◌, [], length, position, OnOk};
ghost use Rattle.settling.specs.Search.Histories.{events_of_all, has_node, node_in, nodes_of};
ghost use Rattle.settling.specs.Search.Openings.{named, named_by, named_in, open_act, opener, pair_if, pair_of, peer_if, peer_in, Opened, Opening};

use crate::search::placement::perform;
use cip_tables::{Config, Device, Event};
use cip_types::{Node, OutOfMemory};
use device_lock::History;
use segment_world::{Act, World};

/// One more than the stream that an event names.
fn named_of(event: &Event) -> u32
    ensures named { result ≡ named event.now }
    ensures small { result ≤ 65536 }
{
    match event {
        Event::StreamOpened { stream, .. } => u32::from(*stream) + 1,
        Event::Frame { stream, .. } => u32::from(*stream) + 1,
        Event::StreamCut { stream } => u32::from(*stream) + 1,
        _ => 0,
    }
}

fn named_among(events: &[Event]) -> u32
    ensures named { result ≡ named_in events.now }
    ensures small { result ≤ 65536 }
{
    let mut most = 0;
    for event in events {
        most = named_of(event).max(most);
    }
    most
}

/// How many streams are opened: up to the greatest number that is named.
pub fn count_named(histories: &[History]) -> u32
    ensures named { result ≡ named_by (events_of_all histories.now) }
    ensures small { result ≤ 65536 }
{
    let mut most = 0;
    for history in histories {
        most = named_among(history.events()).max(most);
    }
    most
}

/// The peer that an event names as the other end of this stream.
fn peer_of(number: u32, event: &Event) -> Option<Node>
    ensures { result ≡ peer_if number event.now }
{
    match event {
        Event::StreamOpened { stream, peer } => {
            if u32::from(*stream) == number {
                Some(*peer)
            } else {
                None
            }
        }
        _ => None,
    }
}

fn peer_among(number: u32, events: &[Event]) -> Option<Node>
    ensures { result ≡ peer_in number events.now }
{
    for event in events {
        if let Some(peer) = peer_of(number, event) {
            return Some(peer);
        }
    }
    None
}

/// The first device that is reported of this stream, and the peer that it is reported.
fn opener_of(number: u32, histories: &[History]) -> Option<(usize, Node)>
    ensures { result ≡ opener number 0 (events_of_all histories.now) }
{
    for (device, history) in histories.iter().enumerate() {
        if let Some(peer) = peer_among(number, history.events()) {
            return Some((device, peer));
        }
    }
    None
}

fn node_of(history: &History) -> Node
    ensures { result ≡ node_in history.now }
{
    match history.config() {
        Config::Adapter(profile) => profile.node,
        Config::Scanner(profile) => profile.node,
    }
}

/// The device that has an address.
fn device_of_node(histories: &[History], peer: Node) -> Option<usize>
    ensures { result ≡ position (has_node peer.0) histories.now }
{
    histories
        .iter()
        .position(|history| node_of(history).0 == peer.0)
}

fn pair_with(device: usize, other: Option<usize>) -> (usize, usize)
    ensures { result ≡ pair_if device other }
{
    match other {
        None => (0, 1),
        Some(place) => {
            if device == place {
                (0, 1)
            } else {
                (device, place)
            }
        }
    }
}

/// The devices between which a stream is opened.
#[tactic(auto, using(crate::specs::Search::Lemmas::Listing::position_node))]
fn pair_for(histories: &[History], number: u32) -> (usize, usize)
    ensures { result ≡ pair_of (nodes_of histories.now) (events_of_all histories.now) number }
{
    match opener_of(number, histories) {
        None => (0, 1),
        Some((device, peer)) => pair_with(device, device_of_node(histories, peer)),
    }
}

fn open_act(pair: (usize, usize)) -> Act
    requires from { pair.0 < 2 ^ 32 }
    requires to { pair.1 < 2 ^ 32 }
    ensures { result ≡ open_act pair }
{
    Act::OpenStream {
        from: pair.0 as u32,
        to: pair.1 as u32,
    }
}

/// Opens the streams below a number, each between its pair of devices.
pub fn open_streams<D: Device + Drop>(
    world: &mut World<D>,
    acts: &mut Vec<Act>,
    histories: &[History],
    count: u32,
) -> Result<(), OutOfMemory>
    requires opening { Opening world.old (events_of_all histories.now) }
    requires nodes { world.old.nodes ≡ nodes_of histories.now }
    requires none { acts.old.items ≡ [] }
    requires two { 1 < length histories.now }
    requires devices { length histories.now < 2 ^ 32 }
    requires small { count ≤ 65536 }
    ensures { OnOk result (Opened world.old (events_of_all histories.now) count acts.new.items world.new) }
{
    for number in 0..count {
        let act = open_act(pair_for(histories, number));
        perform(world, acts, act)?;
    }
    Ok(())
}

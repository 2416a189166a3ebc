//! The sockets of the groups whose datagrams a scanner's port receives. The host joins a group, and no port does: a socket at the
//! group's address then receives its datagrams, where one at the station's own address receives none.

use crate::place::StationPlace;
use crate::streams::{DATAGRAMS, make_room, shared_socket};
use cip_types::limits::MOST_SLOTS;
use cip_types::{Node, OutOfMemory};
use mio::net::UdpSocket;
use mio::{Interest, Registry};
use socket_port::received;
use std::alloc::Global;
use std::net::{Net, SocketAddr};
use udp_runner::{DataGroup, PortFault, has_group, is_due, is_to_add, next_try_ms};

/// A group of a slot.
#[derive(Drop)]
struct GroupSocket {
    group: DataGroup,
    /// None as long as it cannot be bound.
    socket: Option<UdpSocket>,
    /// When it is tried again.
    next_ms: u64,
}

/// The sockets of groups.
#[derive(Drop)]
pub(crate) struct GroupSockets {
    /// The address and the UDP port of the port's own socket.
    address: Node,
    udp: u16,
    sockets: Vec<GroupSocket>,
    /// The groups that could not be bound, and are not told yet.
    unbound: Vec<DataGroup>,
    /// The groups take turns: this one is asked first.
    first: usize,
}

impl GroupSockets {
    /// No sockets, at the port of a station at this place. One that uses groups has room for those of all slots, so that nothing
    /// takes memory later. The only fault is a refused allocation.
    pub(crate) fn none(alloc: Global, place: &StationPlace) -> Result<GroupSockets, OutOfMemory> {
        let most = if place.multicast { MOST_SLOTS } else { 0 };
        Ok(GroupSockets {
            address: place.address,
            udp: place.udp,
            sockets: Vec::with_capacity(alloc, most)?,
            unbound: Vec::with_capacity(alloc, most)?,
            first: 0,
        })
    }

    /// From now on the datagrams of these groups are received, and of no others. A port that uses no groups has room for none.
    pub(crate) fn receive_groups<R: Net>(
        &mut self,
        rt: &R,
        registry: &Registry,
        groups: &[DataGroup],
        now_ms: u64,
    ) {
        self.sockets.retain(|held| has_group(groups, held.group));
        self.unbound.clear();
        for group in groups {
            let has_socket = self.sockets.iter().any(|held| held.group == *group);
            if is_to_add(self.address, self.udp, *group, has_socket) {
                self.add(rt, registry, *group, now_ms);
            }
        }
    }

    /// Adds a group. One that cannot be bound is to be told.
    fn add<R: Net>(&mut self, rt: &R, registry: &Registry, group: DataGroup, now_ms: u64) {
        if self.sockets.len() == self.sockets.capacity() {
            return;
        }
        let socket = group_socket(rt, registry, group);
        if socket.is_none() {
            // (there is room for each group)
            let _ = self.unbound.push(group);
        }
        let _ = self.sockets.push(GroupSocket {
            group,
            socket,
            next_ms: next_try_ms(now_ms),
        });
    }

    /// Tries a group again that could not be bound and is due, one at most. Whether it is bound now.
    pub(crate) fn try_again<R: Net>(&mut self, rt: &R, registry: &Registry, now_ms: u64) -> bool {
        for held in self.sockets.iter_mut() {
            if is_due(held.socket.is_some(), held.next_ms, now_ms) {
                held.socket = group_socket(rt, registry, held.group);
                held.next_ms = next_try_ms(now_ms);
                return held.socket.is_some();
            }
        }
        false
    }

    /// The next group that could not be bound, once for each, the last one first.
    pub(crate) fn next_unbound(&mut self) -> Option<DataGroup> {
        self.unbound.pop()
    }

    /// The next datagram of a group in the buffer: the number of its bytes, and its sender. The group behind the one whose datagram
    /// was received last is asked first, and each group once.
    pub(crate) fn receive(
        &mut self,
        buffer: &mut [u8],
    ) -> Result<Option<(usize, SocketAddr)>, PortFault> {
        let count = self.sockets.len();
        let first = if self.first < count { self.first } else { 0 };
        for place in first..count {
            if let Some(came) = self.receive_at(place, buffer)? {
                return Ok(Some(came));
            }
        }
        for place in 0..first {
            if let Some(came) = self.receive_at(place, buffer)? {
                return Ok(Some(came));
            }
        }
        Ok(None)
    }

    /// The next datagram of one group.
    fn receive_at(
        &mut self,
        place: usize,
        buffer: &mut [u8],
    ) -> Result<Option<(usize, SocketAddr)>, PortFault> {
        let Some(held) = self.sockets.get(place) else {
            return Ok(None);
        };
        let Some(socket) = &held.socket else {
            return Ok(None);
        };
        let came = received(socket.recv_from(buffer))?;
        if came.is_some() {
            self.first = place.saturating_add(1);
        }
        Ok(came)
    }
}

/// A socket at the address and the UDP port of a group, which a wait reports.
fn group_socket<R: Net>(rt: &R, registry: &Registry, group: DataGroup) -> Option<UdpSocket> {
    let mut socket = shared_socket(rt, group.address, group.port)?;
    make_room(&socket);
    match registry.register(&mut socket, DATAGRAMS, Interest::READABLE) {
        Ok(()) => Some(socket),
        Err(_) => None,
    }
}

//! Requests to open a connection whose T->O datagrams go to its originator alone, and requests to close one.

ghost use Rattle.std.specs.Prelude.{◌≡◌};
ghost use Rattle.station_port.specs.NamedPorts.Closing.{closed_in, closed_triad, packet_closed_triad};
ghost use Rattle.station_port.specs.NamedPorts.Naming.{any_opening_len, any_packet_opening_len, is_opening, is_point_to_point, opening_len, packet_opening_len};

use cip_encap::command::SEND_RR_DATA;
use cip_encap::{read_any_items, read_items, read_message};
use cip_netparams::ConnectionType;
use cip_router::{RouterRequest, read_router_request};
use cip_types::Triad;

/// The bytes of the request that a message brings, if it asks to open a connection whose T->O datagrams go to its originator
/// alone. (The datagrams of a multicast connection go where the reply says.)
///
/// Volume 1, chapter 3, Forward_Open service.
pub(crate) fn opening_len(message: &[u8]) -> Option<usize>
    ensures { result ≡ opening_len message.now }
{
    match read_message(message) {
        Ok(message) if message.command == SEND_RR_DATA => packet_opening_len(message.data),
        _ => None,
    }
}

/// The bytes of the request among these items, if it asks for that.
fn packet_opening_len(items: &[u8]) -> Option<usize>
    ensures { result ≡ packet_opening_len items.now }
{
    match read_items(items) {
        Ok(packet) if is_opening(packet.data) => Some(packet.data.len()),
        _ => None,
    }
}

/// The same of a message with items of any type behind its request, as a described device takes it.
///
/// Volume 1, chapter 3, Forward_Open service.
pub(crate) fn any_opening_len(message: &[u8]) -> Option<usize>
    ensures { result ≡ any_opening_len message.now }
{
    match read_message(message) {
        Ok(message) if message.command == SEND_RR_DATA => any_packet_opening_len(message.data),
        _ => None,
    }
}

/// The bytes of the request among these items and others, if it asks for that.
fn any_packet_opening_len(items: &[u8]) -> Option<usize>
    ensures { result ≡ any_packet_opening_len items.now }
{
    match read_any_items(items) {
        Ok(packet) if is_opening(packet.data) => Some(packet.data.len()),
        _ => None,
    }
}

/// Whether a request asks for that.
fn is_opening(request: &[u8]) -> bool
    ensures { result ≡ is_opening request.now }
{
    match read_router_request(request) {
        RouterRequest::Opening(_service, open) => is_point_to_point(open.t_o_params.kind),
        _ => false,
    }
}

/// Whether the datagrams of this direction go to one device alone.
fn is_point_to_point(kind: ConnectionType) -> bool
    ensures { result ≡ is_point_to_point kind }
{
    match kind {
        ConnectionType::PointToPoint => true,
        ConnectionType::Null | ConnectionType::Multicast | ConnectionType::Reserved => false,
    }
}

/// The triad of the connection that a message asks to close, if it does.
///
/// Volume 1, chapter 3, Forward_Close service.
pub(crate) fn closed_triad(message: &[u8]) -> Option<Triad>
    ensures { result ≡ closed_triad message.now }
{
    match read_message(message) {
        Ok(message) if message.command == SEND_RR_DATA => packet_closed_triad(message.data),
        _ => None,
    }
}

/// The triad that the request among these items asks to close.
fn packet_closed_triad(items: &[u8]) -> Option<Triad>
    ensures { result ≡ packet_closed_triad items.now }
{
    match read_items(items) {
        Ok(packet) => closed_in(packet.data),
        Err(_) => None,
    }
}

/// The triad that a request asks to close.
fn closed_in(request: &[u8]) -> Option<Triad>
    ensures { result ≡ closed_in request.now }
{
    match read_router_request(request) {
        RouterRequest::Closing(close) => Some(close.triad),
        _ => None,
    }
}

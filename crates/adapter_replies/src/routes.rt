//! The routes of requests, on which their replies go.

ghost use Rattle.std.specs.Prelude.{◌≡◌, ◌≤◌, ◌^◌};
ghost use Rattle.std.specs.Option.{option_map};
ghost use Rattle.adapter_table.specs.Connected.{service_in};
ghost use Rattle.adapter_table.specs.Streams.{session_of};
ghost use Rattle.adapter_table.specs.declared.table.AdapterTable.{AdapterTable};
ghost use Rattle.adapter_replies.specs.Routes.{is_connected, last_message_route, message_route, peer_of, view_request_header, waiting_route};
ghost use Rattle.cip_router.specs.Frames.{request_header_of, request_header_in};
ghost use Rattle.cip_encap.specs.Message.{view_message, view_header};

use adapter_table::{Stream, session_of};
use cip_encap::command::{SEND_RR_DATA, SEND_UNIT_DATA};
use cip_encap::{ConnectedPacket, MessageHeader, MessageView};
use cip_types::{ConnId, Ms, Node};
use messaging::{Class3Connection, Requester, Waiting};

/// The header fields that a reply returns from its request: the command, the session handle and the sender context.
///
/// Volume 2, chapter 2, encapsulation messages.
#[derive(Clone, Copy, PartialEq, Eq)]
pub struct RequestHeader {
    pub command: u16,
    pub session: u32,
    pub context: u64,
}

impl RequestHeader {
    /// The fields that the reply to a whole message returns.
    pub fn of_message(message: &MessageView<'_>) -> RequestHeader
        ensures { view_request_header result ≡ request_header_of (view_message message.now) }
    {
        RequestHeader {
            command: message.command,
            session: message.session,
            context: message.context,
        }
    }

    /// The fields that the reply to a header without its whole message returns.
    pub fn of_header(header: &MessageHeader) -> RequestHeader
        ensures { view_request_header result ≡ request_header_in (view_header header.now) }
    {
        RequestHeader {
            command: header.command,
            session: header.session,
            context: header.context,
        }
    }

    /// The fields that a reply over a stream returns of a request of this command and sender context.
    fn over(stream: &Stream, command: u16, context: u64) -> RequestHeader
        ensures { result ≡ record { command = command; session = session_of stream.now; context = context } }
    {
        RequestHeader {
            command,
            session: session_of(stream),
            context,
        }
    }
}

/// The service of a message.
fn service_in(bytes: &[u8]) -> u8
    ensures { result ≡ service_in bytes.now }
{
    match bytes {
        [] => 0,
        [service, ..] => *service,
    }
}

/// A message of a class 3 connection, as the route of a request: the number of its stream, the header fields that the
/// reply returns, the T->O id and size of the connection, the sequence count and the service of the message, the node
/// that sent it, the O->T id of the connection, and the deadline of its next message.
///
/// Volume 1, chapter 3, transport class 3; Volume 2, chapter 2, SendUnitData.
#[derive(Clone, Copy)]
pub struct ConnectionRoute {
    pub number: u16,
    pub request_header: RequestHeader,
    pub t_o_id: ConnId,
    pub t_o_size: u32,
    pub count: u16,
    pub service: u8,
    pub peer: Node,
    pub id: ConnId,
    pub deadline: Ms,
}

impl ConnectionRoute {
    /// The message of a connection that a frame over a stream brings at a time.
    pub fn over(
        class3: &Class3Connection,
        number: u16,
        request_header: RequestHeader,
        packet: &ConnectedPacket<'_>,
        clock: Ms,
    ) -> ConnectionRoute
        requires waits { class3.now.watchdog.0 ≤ 5120000 }
        requires time { clock.0 ≤ 2 ^ 48 }
        ensures { (t : AdapterTable) → t.clock ≡ clock
            → result ≡ message_route t class3.now number request_header packet.now.count
            (service_in packet.now.message.now) }
    {
        ConnectionRoute {
            number,
            request_header,
            t_o_id: class3.t_o_id,
            t_o_size: class3.t_o_size,
            count: packet.count,
            service: service_in(packet.message),
            peer: class3.peer,
            id: class3.o_t_id,
            deadline: Ms(clock.0 + class3.watchdog.0),
        }
    }

    /// The last message of a connection, by the O->T id, count and service that a request keeps which waits for its
    /// answer.
    fn last_of(class3: &Class3Connection, id: ConnId, count: u16, service: u8) -> ConnectionRoute
        ensures { result ≡ last_message_route class3.now id count service }
    {
        let stream = Stream {
            number: class3.stream,
            peer: class3.peer,
            registered: true,
        };
        ConnectionRoute {
            number: class3.stream,
            request_header: RequestHeader::over(&stream, SEND_UNIT_DATA, 0),
            t_o_id: class3.t_o_id,
            t_o_size: class3.t_o_size,
            count,
            service,
            peer: class3.peer,
            id,
            deadline: class3.deadline,
        }
    }
}

/// The route on which a request came, and on which its reply goes.
#[derive(Clone, Copy)]
pub enum Route {
    /// A peer, over no stream.
    Peer(Node),
    /// A stream, in an unconnected message with these header fields.
    ///
    /// Volume 2, chapter 2, SendRRData.
    Stream(Stream, RequestHeader),
    /// A message of a class 3 connection.
    ///
    /// Volume 2, chapter 2, SendUnitData.
    Connection(ConnectionRoute),
}

impl Route {
    /// The peer that sent the request.
    pub fn peer(&self) -> Node
        ensures { result ≡ peer_of self.now }
    {
        match self {
            Route::Peer(peer) => *peer,
            Route::Stream(stream, _) => stream.peer,
            Route::Connection(way) => way.peer,
        }
    }

    /// Whether a message of a class 3 connection brought the request.
    pub fn is_connected(&self) -> bool
        ensures { result ≡ is_connected self.now }
    {
        match self {
            Route::Peer(_) | Route::Stream(..) => false,
            Route::Connection(_) => true,
        }
    }

    /// The route of a request that waits, with the class 3 connection whose last message it is. A request of such a
    /// message has a route if the connection is open.
    pub fn of_waiting(request: &Waiting, class3: Option<&Class3Connection>) -> Option<Route>
        ensures { result ≡ waiting_route request.now (option_map (λ lent. lent.now) class3.entry) }
    {
        match request.asker {
            Requester::Peer(peer) => Some(Route::Peer(peer)),
            Requester::Stream { number, context } => {
                let stream = Stream {
                    number,
                    peer: request.peer,
                    registered: true,
                };
                let request_header = RequestHeader::over(&stream, SEND_RR_DATA, context);
                Some(Route::Stream(stream, request_header))
            }
            Requester::Class3Connection { id, count } => match class3 {
                Some(class3) => Some(Route::Connection(ConnectionRoute::last_of(
                    class3,
                    id,
                    count,
                    request.service,
                ))),
                None => None,
            },
        }
    }
}

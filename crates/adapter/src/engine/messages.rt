//! Messages of class 3 connections.

ghost use Rattle.std.specs.Prelude.{◌≡◌, ◌+◌, Ok, IfOk, length, nat_lt};
ghost use Rattle.cip_events.specs.Answers.{plain_answer};
ghost use Rattle.cip_events.specs.Outcomes.{Follows};
ghost use Rattle.cip_events.specs.declared.event.Answer.{Answer};
ghost use Rattle.cip_events.specs.declared.event.Verdict.TheVariants as verdict;
ghost use Rattle.adapter_replies.specs.Routes.{view_request_header};
ghost use Rattle.adapter_table.specs.Encapsulation.{framed, outside_session, send_unit_data, unit_replied};
ghost use Rattle.cip_encap.specs.Connected.{view_connected};
ghost use Rattle.messaging.specs.Changes.{repeated};
ghost use Rattle.adapter_table.specs.Messages.{with_messages};

use super::Adapter;
use adapter_replies::{
    ConnectionRoute, RequestHeader, Route, read_connected_items_for, repeated_answer,
};
use adapter_table::{Description, has_session};
use cip_encap::ConnectedPacket;
use cip_tables::{Answer, Delivery, EncapStatus, Outcome, Stream, Verdict};
use cip_types::OutOfMemory;
use indexed_connections::ConnectionTable;
use messaging::Class3Connection;

/// Whether a message, behind its sequence count, is longer than the connection's O->T size.
fn is_too_long(class3: &Class3Connection, bytes: &[u8]) -> bool
    ensures { result ≡ nat_lt class3.now.o_t_size (2 + length bytes.now) }
{
    let size = class3.o_t_size as usize;
    size < 2 || size - 2 < bytes.len()
}

/// The status of a message outside its session: a described device names the session, any other refuses the message as an
/// unknown command.
fn outside_session(description: &Option<Description>) -> EncapStatus
    ensures { result ≡ outside_session description.now }
{
    match description {
        Some(_) => EncapStatus::InvalidSession,
        None => EncapStatus::InvalidCommand,
    }
}

impl<T: ConnectionTable> Adapter<T> {
    /// The last message again, if the kept reply found memory: nothing but the deadline changes.
    fn repeat(&mut self, way: &ConnectionRoute, answer: Result<Answer, OutOfMemory>) -> Outcome
        ensures { (next : Answer) → IfOk answer (λ made. made ≡ next) → Follows (Ok (
          next,
          with_messages self.old (repeated self.old.messaging way.now.id way.now.deadline),
        )) self.old result self.new }
    {
        self.state.repeat(way, answer?)
    }

    /// A message that no connection takes has no reply.
    fn undelivered(&mut self, why: Delivery) -> Outcome
        ensures { Follows (Ok (plain_answer (verdict.Delivered why), self.old)) self.old result self.new }
    {
        Ok(Answer::plain(self.state.alloc(), Verdict::Delivered(why)))
    }

    /// A message of a class 3 connection over a stream: longer than its O->T size, or the last one again, or new.
    fn receive_message(
        &mut self,
        stream: &Stream,
        request_header: RequestHeader,
        packet: &ConnectedPacket<'_>,
    ) -> Outcome
        ensures { Follows (Ok (framed stream.now.number (view_request_header request_header)
            (unit_replied self.old stream.now (Ok (view_connected packet.now))))) self.old result self.new }
    {
        // What a connection keeps of its last reply is short, and its watchdog within the limit.
        self.state.is_whole();
        let (alloc, clock) = (self.state.alloc(), self.state.clock());
        let Some(class3) = self
            .state
            .messaging()
            .find_class3(stream.number, packet.connection)
        else {
            return self.undelivered(Delivery::UnknownId);
        };
        if is_too_long(class3, packet.message) {
            return self.undelivered(Delivery::WrongSize);
        }
        let way = ConnectionRoute::over(class3, stream.number, request_header, packet, clock);
        if class3.repeats_last(packet.count) {
            let answer = repeated_answer(alloc, &way, class3.reply.as_slice());
            return self.repeat(&way, answer);
        }
        self.serve(Route::Connection(way), packet.message)
    }

    /// SendUnitData.
    pub(crate) fn send_unit_data(
        &mut self,
        stream: &Stream,
        request_header: RequestHeader,
        body: &[u8],
    ) -> Outcome
        ensures { Follows (Ok (framed stream.now.number (view_request_header request_header)
            (send_unit_data self.old stream.now request_header.session body.now))) self.old result self.new }
    {
        if !has_session(stream, request_header.session) {
            let why = outside_session(&self.state.profile().description);
            return self.refuse_frame(stream.number, request_header, why);
        }
        let Ok(packet) = read_connected_items_for(&self.state.profile().description, body) else {
            return self.refuse_frame(stream.number, request_header, EncapStatus::IncorrectData);
        };
        self.receive_message(stream, request_header, &packet)
    }
}

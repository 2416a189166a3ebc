//! The class 3 connections of an adapter and the requests that its application has to answer, as an adapter keeps
//! them.

ghost use Rattle.std.specs.Prelude.{◌≡◌, ◌≤◌, ◌^◌, false, find, map, IfOk, OnOk, OnErr};
ghost use Rattle.std.specs.List.{list_any};
ghost use Rattle.std.specs.Option.{option_map};
ghost use Rattle.messaging.specs.Changes.{answered, referred, referred_over, executed, fresh_messaging, has_request_number, lacks_room, lacks_share, repeated, replied, stream_class3_connections, waiting_for, with_class3, without_class3, without_stream};
ghost use Rattle.messaging.specs.Class3Connections.{class3_count, class3_triad, has_class3_triad, is_class3, is_last_message};
ghost use Rattle.messaging.specs.Times.{aged, first_moment, is_idle, late_class3_connections, late_replies, late_reply, late_waiting, without_late_class3_connections, without_late_waiting};

use crate::class3::Class3Connection;
use crate::class3_connections::{
    class3_count, copied, execute, find_class3, find_last, find_triad, has_triad, keep_off_stream,
    keep_other_triads, repeat, reply_to, stream_triads,
};
use crate::late::{
    find_last_on_time, first_class3_end, first_request_end, has_late_class3, has_late_request,
    keep_early, keep_on_time, late_requests, late_text, late_triads,
};
use crate::requests::{Requester, Waiting};
use crate::table::Messaging;
use crate::waiting::{
    find_waiting, keep_answerable, keep_elsewhere, keep_other_numbers, request_count,
};
use cip_types::{ConnId, Items, Ms, Node, OutOfMemory, Triad};
use std::alloc::Global;
use std::marker::Model;

/// The requests that wait for the application at one time.
pub const MOST_WAITING: usize = 16;

/// Those of one node, where they are shared by node.
pub const MOST_OF_NODE: usize = 4;

/// The milliseconds that the application has to answer a request.
pub const ANSWER_TIME_MS: u64 = 10_000;

/// The class 3 connections of an adapter, and the requests that its application has to answer.
///
/// What a call refuses for want of memory leaves all as it was.
#[derive(Drop)]
pub struct MessagingState {
    class3_connections: Vec<Class3Connection>,
    waiting: Vec<Waiting>,
    next_number: u64,
}

impl Model for MessagingState {
    ghost use Rattle.messaging.specs.declared.table.Messaging.{Messaging};

    ghost Value = { Messaging };

    ghost view = { λ s. record {
      class3_connections = s.class3_connections.items;
      waiting = s.waiting.items;
      next_number = s.next_number;
    } };
}

impl MessagingState {
    /// No connection, and no request: the first one gets this number. Takes no memory.
    pub fn new(alloc: Global, first: u64) -> MessagingState
        ensures { result ≡ fresh_messaging first }
    {
        MessagingState {
            class3_connections: Vec::new(alloc),
            waiting: Vec::new(alloc),
            next_number: first,
        }
    }

    /// The same connections and requests as a table has. `OutOfMemory` is the only error.
    pub fn holding(alloc: Global, table: &Messaging) -> Result<MessagingState, OutOfMemory>
        ensures { IfOk result (λ state. state ≡ table.now) }
    {
        let class3_connections = copied(alloc, table.class3_connections.as_slice())?;
        let waiting = Vec::from_slice(alloc, table.waiting.as_slice())?;
        Ok(MessagingState {
            class3_connections,
            waiting,
            next_number: table.next_number,
        })
    }

    /// A copy of the connections and requests. `OutOfMemory` is the only error.
    pub fn copy(&self, alloc: Global) -> Result<Messaging, OutOfMemory>
        ensures { IfOk result (λ table. table ≡ self.now) }
    {
        let class3_connections = copied(alloc, &self.class3_connections)?;
        let waiting = Vec::from_slice(alloc, &self.waiting)?;
        Ok(Messaging {
            class3_connections: Items::from_vec(class3_connections),
            waiting: Items::from_vec(waiting),
            next_number: self.next_number,
        })
    }

    fn again(&self, alloc: Global) -> Result<MessagingState, OutOfMemory>
        ensures { IfOk result (λ state. state ≡ self.now) }
    {
        let class3_connections = copied(alloc, &self.class3_connections)?;
        let waiting = Vec::from_slice(alloc, &self.waiting)?;
        Ok(MessagingState {
            class3_connections,
            waiting,
            next_number: self.next_number,
        })
    }

    /// The connections in the order of their openings. Takes no memory.
    pub fn class3_connections(&self) -> &[Class3Connection]
        ensures { result.now ≡ self.now.class3_connections }
    {
        &self.class3_connections
    }

    /// The requests that wait for the application, in the order of their numbers. Takes no memory.
    pub fn waiting(&self) -> &[Waiting]
        ensures { result.now ≡ self.now.waiting }
    {
        &self.waiting
    }

    /// The number of the next request to the application. Takes no memory.
    pub fn next_number(&self) -> u64
        ensures { result ≡ self.now.next_number }
    {
        self.next_number
    }

    /// The connection of a message that came over a stream with this O->T id. Takes no memory.
    ///
    /// Volume 2, chapter 2, SendUnitData.
    pub fn find_class3(&self, stream: u16, id: ConnId) -> Option<&Class3Connection>
        ensures { option_map (λ lent. lent.now) result ≡ find (is_class3 stream id) self.now.class3_connections }
    {
        find_class3(&self.class3_connections, stream, id)
    }

    /// The connection of an O->T id whose last message has this count. Takes no memory.
    pub fn find_last(&self, id: ConnId, count: u16) -> Option<&Class3Connection>
        ensures { option_map (λ lent. lent.now) result
            ≡ find (is_last_message id count) self.now.class3_connections }
    {
        find_last(&self.class3_connections, id, count)
    }

    /// The connection of a triad. Takes no memory.
    pub fn find_triad(&self, triad: Triad) -> Option<&Class3Connection>
        ensures { option_map (λ lent. lent.now) result ≡ find (has_class3_triad triad) self.now.class3_connections }
    {
        find_triad(&self.class3_connections, triad)
    }

    /// Whether the triad is that of a connection. Takes no memory.
    pub fn has_triad(&self, triad: Triad) -> bool
        ensures { result ≡ list_any (has_class3_triad triad) self.now.class3_connections }
    {
        has_triad(&self.class3_connections, triad)
    }

    /// How many connections a node opened. Takes no memory.
    pub fn class3_count(&self, node: Node) -> usize
        ensures { result ≡ class3_count self.now.class3_connections node }
    {
        class3_count(&self.class3_connections, node)
    }

    /// The request of a number that waits for the application. Takes no memory.
    pub fn find_waiting(&self, number: u64) -> Option<Waiting>
        ensures { result ≡ find (has_request_number number) self.now.waiting }
    {
        find_waiting(&self.waiting, number)
    }

    /// Whether the application cannot be asked: 16 requests wait for it, or no number is left. Takes no memory.
    pub fn lacks_room(&self) -> bool
        ensures { result ≡ lacks_room self.now }
    {
        self.waiting.len() >= MOST_WAITING || self.next_number == u64::MAX
    }

    /// Whether no request of a node can wait: the application cannot be asked, or, where the requests are shared by
    /// node, 4 of the node wait. Takes no memory.
    pub fn lacks_share(&self, shared: bool, node: Node) -> bool
        ensures { result ≡ lacks_share shared self.now node }
    {
        self.lacks_room() || (shared && request_count(&self.waiting, node) >= MOST_OF_NODE)
    }
}

// CONNECTIONS AND STREAMS

impl MessagingState {
    /// A connection is opened, the last one. `OutOfMemory` is the only error.
    #[tactic(auto, unfolding(crate::specs::Changes::with_class3))]
    pub fn open(&mut self, class3: Class3Connection) -> Result<(), OutOfMemory>
        ensures ok { OnOk result (self.new ≡ with_class3 self.old class3) }
        ensures err { OnErr result (self.new ≡ self.old) }
    {
        self.class3_connections.push(class3)?;
        Ok(())
    }

    /// The connection of a triad is closed, and what it asked waits no more. Takes no memory.
    #[tactic(auto, unfolding(crate::specs::Changes::without_class3))]
    pub fn close(&mut self, triad: Triad)
        ensures { self.new ≡ without_class3 self.old triad }
    {
        keep_other_triads(&mut self.class3_connections, triad);
        keep_answerable(&self.class3_connections, &mut self.waiting);
    }

    /// The triads of the connections that live on a stream, in the order of their openings. `OutOfMemory` is the only
    /// error.
    pub fn stream_triads(&self, alloc: Global, stream: u16) -> Result<Vec<Triad>, OutOfMemory>
        ensures { IfOk result (λ triads. triads.items
            ≡ map class3_triad (stream_class3_connections self.now stream)) }
    {
        stream_triads(alloc, &self.class3_connections, stream)
    }

    /// A stream ends, and its connections with it: no answer goes over it or them. Takes no memory.
    #[tactic(auto, unfolding(crate::specs::Changes::without_stream))]
    pub fn end_stream(&mut self, stream: u16)
        ensures { self.new ≡ without_stream self.old stream }
    {
        keep_elsewhere(&mut self.waiting, stream);
        keep_off_stream(&mut self.class3_connections, stream);
        keep_answerable(&self.class3_connections, &mut self.waiting);
    }
}

// MESSAGES, AND REQUESTS TO THE APPLICATION

impl MessagingState {
    /// A message of a new count was executed on the connection of an O->T id, with this reply. Takes no memory.
    ///
    /// Volume 1, chapter 3, transport class 3.
    #[tactic(auto, unfolding(crate::specs::Changes::executed))]
    pub fn execute(&mut self, id: ConnId, count: u16, reply: Items<u8>, deadline: Ms)
        ensures { self.new ≡ executed self.old id count reply deadline }
    {
        execute(&mut self.class3_connections, id, count, reply, deadline);
        keep_answerable(&self.class3_connections, &mut self.waiting);
    }

    /// The last message of the connection of an O->T id was repeated. Takes no memory.
    ///
    /// Volume 1, chapter 3, transport class 3.
    #[tactic(auto, unfolding(crate::specs::Changes::repeated))]
    pub fn repeat(&mut self, id: ConnId, deadline: Ms)
        ensures { self.new ≡ repeated self.old id deadline }
    {
        repeat(&mut self.class3_connections, id, deadline);
    }

    /// The next request to the application.
    fn next_waiting(&self, peer: Node, asker: Requester, service: u8, clock: Ms) -> Waiting
        requires { clock.0 ≤ 2 ^ 48 }
        ensures { result ≡ waiting_for self.now.next_number peer asker service clock }
    {
        Waiting {
            number: self.next_number,
            peer,
            asker,
            service,
            deadline: Ms(clock.0 + ANSWER_TIME_MS),
        }
    }

    /// A node asks the application. The request gets the next number. `OutOfMemory` is the only error.
    #[tactic(auto, unfolding(crate::specs::Changes::referred))]
    pub fn ask(
        &mut self,
        peer: Node,
        asker: Requester,
        service: u8,
        clock: Ms,
    ) -> Result<(), OutOfMemory>
        requires room { lacks_room self.old ≡ false }
        requires time { clock.0 ≤ 2 ^ 48 }
        ensures ok { OnOk result (self.new ≡ referred self.old peer asker service clock) }
        ensures err { OnErr result (self.new ≡ self.old) }
    {
        let waiting = self.next_waiting(peer, asker, service, clock);
        self.waiting.push(waiting)?;
        self.next_number += 1;
        Ok(())
    }

    /// A message of a new count on the connection of an O->T id, which a node sent, asks the application: it is
    /// executed, and has no reply yet. The request gets the next number. `OutOfMemory` is the only error.
    ///
    /// Volume 1, chapter 3, transport class 3.
    #[tactic(auto, unfolding(crate::specs::Changes::referred, crate::specs::Changes::executed, crate::specs::Changes::referred_over))]
    pub fn ask_over(
        &mut self,
        alloc: Global,
        peer: Node,
        message: (ConnId, u16),
        service: u8,
        deadline: Ms,
        clock: Ms,
    ) -> Result<(), OutOfMemory>
        requires room { lacks_room self.old ≡ false }
        requires time { clock.0 ≤ 2 ^ 48 }
        ensures ok { OnOk result
            (self.new ≡ referred_over self.old peer message.0 message.1 service deadline clock) }
        ensures err { OnErr result (self.new ≡ self.old) }
    {
        let (id, count) = message;
        let asker = Requester::Class3Connection { id, count };
        let waiting = self.next_waiting(peer, asker, service, clock);
        self.waiting.reserve(1)?;
        execute(
            &mut self.class3_connections,
            id,
            count,
            Items::new(alloc),
            deadline,
        );
        keep_answerable(&self.class3_connections, &mut self.waiting);
        self.waiting.push_reserved(waiting);
        self.next_number += 1;
        Ok(())
    }

    /// A request was answered, and waits no more. Takes no memory.
    #[tactic(auto, unfolding(crate::specs::Changes::answered))]
    pub fn answer(&mut self, number: u64)
        ensures { self.new ≡ answered self.old number }
    {
        keep_other_numbers(&mut self.waiting, number);
    }

    /// The message of this count has this reply from now on, if it is still the last one of its connection. Takes no
    /// memory.
    #[tactic(auto, unfolding(crate::specs::Changes::replied))]
    pub fn reply(&mut self, id: ConnId, count: u16, reply: Items<u8>)
        ensures { self.new ≡ replied self.old id count reply }
    {
        reply_to(&mut self.class3_connections, id, count, reply);
    }
}

// TIME

impl MessagingState {
    /// Whether no deadline of a connection or of a request has come at this time. Takes no memory.
    pub fn is_idle(&self, clock: Ms) -> bool
        ensures { result ≡ is_idle clock self.now }
    {
        !(has_late_class3(&self.class3_connections, clock)
            || has_late_request(&self.waiting, clock))
    }

    /// The first time at which a deadline of a connection or of a request comes; `u64::MAX` if there is none. Takes no
    /// memory.
    #[tactic(auto, unfolding(crate::specs::Times::first_moment))]
    pub fn first_moment(&self) -> Ms
        ensures { result.0 ≡ first_moment self.now }
    {
        Ms(first_class3_end(&self.class3_connections).min(first_request_end(&self.waiting)))
    }

    /// The triads of the connections whose deadline has come, by their deadlines and then in the order of their
    /// openings. `OutOfMemory` is the only error.
    ///
    /// Volume 1, chapter 3, inactivity watchdog.
    pub fn late_triads(&self, alloc: Global, clock: Ms) -> Result<Vec<Triad>, OutOfMemory>
        ensures { IfOk result (λ triads. triads.items ≡ map class3_triad (late_class3_connections clock self.now)) }
    {
        late_triads(alloc, &self.class3_connections, clock)
    }

    /// The requests that the device answers in place of the application once the late connections have ended, in the
    /// order of their numbers. `OutOfMemory` is the only error.
    #[tactic(auto, unfolding(crate::specs::Times::without_late_class3_connections))]
    pub fn late_waiting(&self, alloc: Global, clock: Ms) -> Result<Vec<Waiting>, OutOfMemory>
        ensures { IfOk result (λ late. late.items
            ≡ late_waiting clock (without_late_class3_connections clock self.now)) }
    {
        late_requests(alloc, &self.class3_connections, &self.waiting, clock)
    }

    /// The connection of an O->T id whose last message has this count, once the late connections have ended. Takes no
    /// memory.
    #[tactic(auto, unfolding(crate::specs::Times::without_late_class3_connections))]
    pub fn find_last_on_time(&self, clock: Ms, id: ConnId, count: u16) -> Option<&Class3Connection>
        ensures { option_map (λ lent. lent.now) result
            ≡ find (is_last_message id count) (without_late_class3_connections clock self.now).class3_connections }
    {
        find_last_on_time(&self.class3_connections, clock, id, count)
    }

    #[tactic(auto, unfolding(crate::specs::Times::without_late_class3_connections))]
    fn end_late_class3_connections(&mut self, clock: Ms)
        ensures { self.new ≡ without_late_class3_connections clock self.old }
    {
        keep_on_time(&mut self.class3_connections, clock);
        keep_answerable(&self.class3_connections, &mut self.waiting);
    }

    fn reply_late(
        &mut self,
        alloc: Global,
        asker: Requester,
        service: u8,
    ) -> Result<(), OutOfMemory>
        ensures { OnOk result (self.new ≡ late_reply asker service self.old) }
    {
        match asker {
            Requester::Peer(_) | Requester::Stream { .. } => Ok(()),
            Requester::Class3Connection { id, count } => {
                self.reply(id, count, late_text(alloc, service)?);
                Ok(())
            }
        }
    }

    fn reply_each(&mut self, alloc: Global, late: &[Waiting]) -> Result<(), OutOfMemory>
        ensures { OnOk result (self.new ≡ late_replies late.now self.old) }
    {
        for request in late {
            self.reply_late(alloc, request.asker, request.service)?;
        }
        Ok(())
    }

    #[tactic(auto, unfolding(crate::specs::Times::without_late_waiting, crate::specs::Times::without_late_class3_connections, crate::specs::Times::aged))]
    fn aged(&self, alloc: Global, clock: Ms) -> Result<MessagingState, OutOfMemory>
        ensures { IfOk result (λ state. state ≡ aged clock self.now) }
    {
        let late = self.late_waiting(alloc, clock)?;
        let mut next = self.again(alloc)?;
        next.end_late_class3_connections(clock);
        keep_early(&mut next.waiting, clock);
        next.reply_each(alloc, &late)?;
        Ok(next)
    }

    /// Late connections end, and late requests wait no more. The reply of the device to a late request stays with the
    /// class 3 connection that brought it. `OutOfMemory` is the only error.
    ///
    /// Volume 1, chapter 3, transport class 3 and inactivity watchdog.
    pub fn age(&mut self, alloc: Global, clock: Ms) -> Result<(), OutOfMemory>
        ensures ok { OnOk result (self.new ≡ aged clock self.old) }
        ensures err { OnErr result (self.new ≡ self.old) }
    {
        let next = self.aged(alloc, clock)?;
        *self = next;
        Ok(())
    }
}

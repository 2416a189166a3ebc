//! Messages of class 3 connections are executed, and repeated.

ghost use Rattle.std.specs.Prelude.{◌≡◌, Ok, Some, ◌≤◌, false, true, length};
ghost use Rattle.adapter_replies.specs.Objects.Views.{view_own};
ghost use Rattle.cip_events.specs.Answers.{plain_answer};
ghost use Rattle.cip_events.specs.Outcomes.{Follows};
ghost use Rattle.std.specs.List.{list_any};
ghost use Rattle.adapter_table.specs.Messages.{with_messages};
ghost use Rattle.adapter_table.specs.Own.{referred_verdict};
ghost use Rattle.adapter_table.specs.Requests.{router_refusal};
ghost use Rattle.messaging.specs.Changes.{executed, lacks_room, referred_over, repeated};
ghost use Rattle.messaging.specs.Class3Connections.{has_class3_id};
ghost use Rattle.adapter_replies.specs.Serving.{finished, kept_on};

use super::AdapterState;
use adapter_replies::{ConnectionRoute, OwnRequest, Route, referred_answer, reply_and_text};
use adapter_table::laws::tables_are_whole;
use cip_tables::{Answer, Outcome, Reply, Status};
use cip_types::Items;
use indexed_connections::ConnectionTable;

impl<T: ConnectionTable> AdapterState<T> {
    /// A message was executed, and its connection keeps the text of the reply.
    #[tactic(auto, unfolding(adapter_table::specs::Messages::messages_table))]
    fn execute(&mut self, way: &ConnectionRoute, text: Vec<u8>, answer: Answer) -> Outcome
        requires { length text.items ≤ 1404 }
        ensures { Follows (Ok (
          answer,
          with_messages self.old
              (executed self.old.messaging way.now.id way.now.count text.items way.now.deadline),
        ))
            self.old result self.new }
    {
        // The table stays whole.
        tables_are_whole();
        let reply = Items::from_vec(text);
        self.messaging
            .execute(way.id, way.count, reply, way.deadline);
        Ok(answer)
    }

    /// The answer to a request goes out on its route, and nothing else changes. A class 3 connection keeps the text of
    /// the reply.
    pub fn keep(&mut self, route: Route, text: Vec<u8>, answer: Answer) -> Outcome
        requires { length text.items ≤ 1404 }
        ensures { Follows (Ok (answer, kept_on self.old route text.items)) self.old result self.new }
    {
        match route {
            Route::Connection(way) => self.execute(&way, text, answer),
            Route::Peer(_) | Route::Stream(..) => Ok(answer),
        }
    }

    /// A request that the message router refuses.
    pub fn refuse(&mut self, route: Route, service: u8, why: Status) -> Outcome
        ensures { Follows (Ok (finished self.old route (Some (router_refusal self.old service why))))
            self.old result self.new }
    {
        let reply = Reply::Refused(service, why.fault(), None);
        let (answer, text) = reply_and_text(self.alloc, route, &reply, Vec::new(self.alloc))?;
        self.keep(route, text, answer)
    }

    /// A message asks the application.
    #[tactic(auto, unfolding(adapter_table::specs::Messages::messages_table))]
    pub(super) fn ask_over(&mut self, way: &ConnectionRoute, own: &OwnRequest<'_>) -> Outcome
        requires room { lacks_room self.old.messaging ≡ false }
        requires open { list_any (has_class3_id way.now.id) self.old.messaging.class3_connections ≡ true }
        ensures { Follows (Ok (
          plain_answer (referred_verdict self.old (view_own own.now)),
          with_messages self.old
              (referred_over self.old.messaging way.now.peer way.now.id way.now.count own.now.service
              way.now.deadline self.old.clock),
        ))
            self.old result self.new }
    {
        // The table stays whole.
        tables_are_whole();
        let answer = referred_answer(self.alloc, self.messaging.next_number(), own)?;
        let named = (way.id, way.count);
        let (peer, deadline, clock) = (way.peer, way.deadline, self.clock);
        self.messaging
            .ask_over(self.alloc, peer, named, own.service, deadline, clock)?;
        Ok(answer)
    }

    /// The last message again: nothing but the deadline changes.
    #[tactic(auto, unfolding(adapter_table::specs::Messages::messages_table))]
    pub fn repeat(&mut self, way: &ConnectionRoute, answer: Answer) -> Outcome
        ensures { Follows (Ok (
          answer,
          with_messages self.old (repeated self.old.messaging way.now.id way.now.deadline),
        ))
            self.old result self.new }
    {
        // The table stays whole.
        tables_are_whole();
        self.messaging.repeat(way.id, way.deadline);
        Ok(answer)
    }
}

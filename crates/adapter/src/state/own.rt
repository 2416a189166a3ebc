//! The application is asked, and its answers end the wait of a request.

ghost use Rattle.std.specs.Prelude.{◌≡◌, Ok, ◌≤◌, false, true, length};
ghost use Rattle.adapter_replies.specs.Objects.Views.{view_own};
ghost use Rattle.cip_events.specs.Outcomes.{Follows};
ghost use Rattle.adapter_table.specs.Messages.{with_messages};
ghost use Rattle.messaging.specs.Changes.{lacks_room, answered, can_be_answered, replied, waiting_for};
ghost use Rattle.adapter_table.specs.MessagesSound.{RouteIsOpen};
ghost use Rattle.adapter_table.specs.Own.{cannot_ask, referred_table, referred_verdict};
ghost use Rattle.cip_events.specs.Answers.{plain_answer};
ghost use Rattle.adapter_replies.specs.Serving.{IsOpenRoute, own_on, referred_on, replied_on};

use super::AdapterState;
use adapter_replies::{ConnectionRoute, OwnRequest, Route, referred_answer};
use adapter_table::laws::tables_are_whole;
use cip_tables::{Answer, Outcome, Status};
use cip_types::{Items, Node};
use indexed_connections::ConnectionTable;
use messaging::Requester;

impl<T: ConnectionTable> AdapterState<T> {
    /// Whether no request of a node can wait for the application. Takes no memory.
    fn cannot_ask(&self, peer: Node) -> bool
        ensures { result ≡ cannot_ask self.now peer }
    {
        let shared = self.assemblies.profile().limits.shares_requests();
        self.messaging.lacks_share(shared, peer)
    }

    /// A node asks the application in no message of a class 3 connection, and the request waits for its answer.
    #[tactic(auto, unfolding(adapter_table::specs::Messages::messages_table))]
    fn refer(&mut self, peer: Node, asker: Requester, own: &OwnRequest<'_>) -> Outcome
        requires room { lacks_room self.old.messaging ≡ false }
        requires open { RouteIsOpen self.old.streams asker }
        requires answerable { can_be_answered self.old.messaging.class3_connections
            (waiting_for self.old.messaging.next_number peer asker own.now.service self.old.clock) ≡ true }
        ensures { Follows (Ok (
          plain_answer (referred_verdict self.old (view_own own.now)),
          referred_table self.old peer asker (view_own own.now),
        ))
            self.old result self.new }
    {
        // The table stays whole.
        tables_are_whole();
        let answer = referred_answer(self.alloc, self.messaging.next_number(), own)?;
        self.messaging.ask(peer, asker, own.service, self.clock)?;
        Ok(answer)
    }

    /// The application is asked, and the request waits for its answer.
    fn wait_on(&mut self, route: Route, own: &OwnRequest<'_>) -> Outcome
        requires room { lacks_room self.old.messaging ≡ false }
        requires open { IsOpenRoute self.old route }
        ensures { Follows (Ok (referred_on self.old route (view_own own.now))) self.old result self.new }
    {
        match route {
            Route::Peer(peer) => self.refer(peer, Requester::Peer(peer), own),
            Route::Stream(stream, request_header) => {
                let asker = Requester::Stream {
                    number: stream.number,
                    context: request_header.context,
                };
                self.refer(stream.peer, asker, own)
            }
            Route::Connection(way) => self.ask_over(&way, own),
        }
    }

    /// A request to an object of the maker's own: it is refused where no more can wait, else the application is asked.
    #[tactic(auto, using(adapter_table::specs::Lemmas::RequestLemmas::leaves_room))]
    pub fn ask(&mut self, route: Route, own: &OwnRequest<'_>) -> Outcome
        requires { IsOpenRoute self.old route }
        ensures { Follows (Ok (own_on self.old route (view_own own.now))) self.old result self.new }
    {
        if self.cannot_ask(route.peer()) {
            return self.refuse(route, own.service, Status::ResourceUnavailable);
        }
        self.wait_on(route, own)
    }

    /// The answer goes out, and the request of the number waits no more. No open class 3 connection keeps the reply.
    #[tactic(auto, unfolding(adapter_table::specs::Messages::messages_table))]
    pub fn settle_unkept(&mut self, number: u64, answer: Answer) -> Outcome
        ensures { Follows (Ok (answer, with_messages self.old (answered self.old.messaging number)))
            self.old result self.new }
    {
        // The table stays whole.
        tables_are_whole();
        self.messaging.answer(number);
        Ok(answer)
    }

    /// The same of a request that is the last message of a class 3 connection, which keeps the text of the reply.
    #[tactic(auto, unfolding(adapter_table::specs::Messages::messages_table))]
    fn settle_message(
        &mut self,
        number: u64,
        way: &ConnectionRoute,
        text: Vec<u8>,
        answer: Answer,
    ) -> Outcome
        requires { length text.items ≤ 1404 }
        ensures { Follows (Ok (
          answer,
          with_messages self.old
              (answered (replied self.old.messaging way.now.id way.now.count text.items) number),
        ))
            self.old result self.new }
    {
        // The table stays whole.
        tables_are_whole();
        self.messaging
            .reply(way.id, way.count, Items::from_vec(text));
        self.messaging.answer(number);
        Ok(answer)
    }

    /// The answer goes out on the route of a request, which waits no more.
    pub fn settle(&mut self, number: u64, route: Route, text: Vec<u8>, answer: Answer) -> Outcome
        requires { length text.items ≤ 1404 }
        ensures { Follows (Ok (
          answer,
          with_messages self.old (answered (replied_on self.old.messaging route text.items) number),
        ))
            self.old result self.new }
    {
        match route {
            Route::Connection(way) => self.settle_message(number, &way, text, answer),
            Route::Peer(_) | Route::Stream(..) => self.settle_unkept(number, answer),
        }
    }
}

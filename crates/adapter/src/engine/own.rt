//! Requests to objects of the maker's own: the application answers.

ghost use Rattle.std.specs.Prelude.{Ok, Some};
ghost use Rattle.cip_router.specs.Replies.{view_reply};
ghost use Rattle.adapter_replies.specs.Routes.{IsWritable};
ghost use Rattle.adapter_replies.specs.Serving.{responded_on};
ghost use Rattle.cip_events.specs.Outcomes.{Follows};
ghost use Rattle.adapter_table.specs.Answering.{respond, responded};

use super::Adapter;
use adapter_replies::{Route, found_last, reply_and_text};
use cip_tables::{Answer, Outcome, Reply, StepFault, Verdict};
use indexed_connections::ConnectionTable;
use messaging::Waiting;

/// The bytes of data of the application's longest answer.
const LONGEST_ANSWER: usize = 1_400;

impl<T: ConnectionTable> Adapter<T> {
    /// The application answers the request of a number on its route.
    fn answer_on(&mut self, number: u64, route: Route, reply: &Reply<'_>) -> Outcome
        requires { IsWritable (view_reply reply.now) }
        ensures { Follows (Ok (responded_on self.old number (Some route) (view_reply reply.now)))
            self.old result self.new }
    {
        let none = Vec::new(self.state.alloc());
        let (answer, text) = reply_and_text(self.state.alloc(), route, reply, none)?;
        self.state.settle(number, route, text, answer)
    }

    /// The application answers a request that waits. Where the class 3 connection that brought it is not open any more,
    /// no reply goes out.
    fn answer_request(&mut self, request: &Waiting, reply: &Reply<'_>) -> Outcome
        requires { IsWritable (view_reply reply.now) }
        ensures { Follows (Ok (responded self.old request.now (view_reply reply.now))) self.old result self.new }
    {
        let class3 = found_last(self.state.messaging(), request.asker);
        match Route::of_waiting(request, class3) {
            Some(route) => self.answer_on(request.number, route, reply),
            None => {
                let answer = Answer::plain(self.state.alloc(), Verdict::Done);
                self.state.settle_unkept(request.number, answer)
            }
        }
    }

    /// The application answers the request of a number.
    #[tactic(auto, unfolding(adapter_table::specs::Answering::respond))]
    pub(crate) fn respond(&mut self, number: u64, status: u8, bytes: &[u8]) -> Outcome
        ensures { Follows (respond self.old number status bytes.now) self.old result self.new }
    {
        let Some(request) = self.state.messaging().find_waiting(number) else {
            return Err(StepFault::NotAllowedNow);
        };
        if bytes.len() > LONGEST_ANSWER {
            return Err(StepFault::WrongLength);
        }
        let reply = Reply::Own(request.service, status, bytes);
        self.answer_request(&request, &reply)
    }
}

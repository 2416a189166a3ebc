//! Class 3 connections are opened and closed.

ghost use Rattle.std.specs.Prelude.{◌≡◌, ◌+◌, [], Ok, Some, None, ◌≤◌, ◌∷◌};
ghost use Rattle.cip_types.specs.Ids.{end_number};
ghost use Rattle.cip_fwdopen.specs.Open.{view_open};
ghost use Rattle.cip_fwdopen.specs.Services.{is_large_open};
ghost use Rattle.adapter_replies.specs.Routes.{routed};
ghost use Rattle.cip_events.specs.Outcomes.{Follows};
ghost use Rattle.adapter_table.specs.Class3Opening.{admitted_class3, class3_refusal, class3_view, opened_class3, served_class3};
ghost use Rattle.adapter_table.specs.Counting.{tallied};
ghost use Rattle.adapter_table.specs.Messages.{with_messages};
ghost use Rattle.adapter_table.specs.Requests.{counted_by};
ghost use Rattle.adapter_table.specs.declared.counters.Tally.TheVariants as tally;
ghost use Rattle.cip_router.specs.Requests.{opening};
ghost use Rattle.adapter_table.specs.MessagesSound.{IsCarried};
ghost use Rattle.app_rules.specs.Stages.{class3_times};
ghost use Rattle.app_rules.specs.Views.{seen_class3_connections};
ghost use Rattle.cip_router.specs.Replies.{closed};
ghost use Rattle.messaging.specs.Changes.{without_class3};
ghost use Rattle.cip_events.specs.declared.event.Notice.TheVariants as notice;

use super::AdapterState;
use adapter_replies::{Route, class3_opened, one_notice, reply_answer};
use adapter_table::Tally;
use adapter_table::laws::tables_are_whole;
use app_rules::{Class3Times, Class3View, admit_class3, whole_request};
use cip_events::Notice;
use cip_fwdopen::{OpenRequest, OpenService};
use cip_productions::first_deadline;
use cip_tables::{Outcome, Reply, Stream};
use cip_types::{Items, Node, Triad, id_at, ids_left};
use indexed_connections::ConnectionTable;
use messaging::Class3Connection;

impl<T: ConnectionTable> AdapterState<T> {
    /// The class 3 connection that an admitted request over a stream opens.
    #[tactic(auto, unfolding(adapter_table::specs::Class3Opening::opened_class3))]
    fn opened_class3(
        &self,
        stream: &Stream,
        request: &OpenRequest<&[u8]>,
        times: Class3Times,
    ) -> Class3Connection
        requires times { times ≡ class3_times (view_open request.now) }
        requires waits { times.watchdog.0 ≤ 5120000 }
        requires left { self.now.next_id + 1 ≤ end_number self.now.ids }
        ensures { result ≡ opened_class3 self.now stream.now (view_open request.now) }
    {
        Class3Connection {
            triad: request.triad,
            peer: stream.peer,
            stream: stream.number,
            o_t_id: id_at(&self.ids, self.next_id),
            t_o_id: request.t_o_id,
            o_t_api_ms: times.o_t_api_ms,
            t_o_api_ms: times.t_o_api_ms,
            o_t_size: u32::from(request.o_t_params.size),
            t_o_size: u32::from(request.t_o_params.size),
            watchdog: times.watchdog,
            opening: self.next_id,
            last: None,
            reply: Items::new(self.alloc),
            deadline: first_deadline(self.clock, times.watchdog),
        }
    }

    /// Opens the class 3 connection of an admitted request.
    #[tactic(auto, unfolding(adapter_table::specs::Messages::messages_table))]
    fn open_class3(
        &mut self,
        route: Route,
        stream: &Stream,
        service: OpenService,
        request: &OpenRequest<&[u8]>,
        times: Class3Times,
    ) -> Outcome
        requires carried { IsCarried self.old.streams stream.now.number }
        requires admitted { class3_refusal (class3_view self.old stream.now.peer request.now.triad)
            (view_open request.now) ≡ None }
        requires times { times ≡ class3_times (view_open request.now) }
        ensures { Follows (Ok (routed self.old route
            (Some (counted_by (opening (is_large_open service) (view_open request.now))
            (admitted_class3 self.old (is_large_open service)
            (opened_class3 self.old stream.now (view_open request.now))))))) self.old result self.new }
    {
        // The table stays whole.
        tables_are_whole();
        let class3 = self.opened_class3(stream, request, times);
        let notice = Notice::Opened(class3.triad, class3.o_t_id);
        let notices = one_notice(self.alloc, notice)?;
        let reply = Reply::Opened(service, class3_opened(&class3));
        let answer = reply_answer(self.alloc, route, &reply, None, notices)?;
        let openings = self.counted_openings(class3.peer)?;
        self.messaging.open(class3)?;
        self.next_id += 1;
        self.openings = openings;
        self.count(Some(Tally::Opened));
        Ok(answer)
    }

    /// The state that the checks of a class 3 connection read, for a triad that a peer requests.
    #[tactic(auto, using(crate::proofs::StateMessaging::some_is_any))]
    fn class3_view(&self, peer: Node, triad: Triad) -> Class3View<'_>
        ensures { seen_class3_connections result ≡ class3_view self.now peer triad }
    {
        Class3View {
            profile: self.assemblies.profile(),
            in_use: self.table.find(triad).is_some() || self.messaging.has_triad(triad),
            ids_left: ids_left(&self.ids, self.next_id),
            count: self.messaging.class3_connections().len(),
            node_count: self.messaging.class3_count(peer),
            opened_enough: self.has_opened_enough(peer),
        }
    }

    /// A Forward_Open of a class 3 connection, which lives on the stream.
    #[tactic(auto, unfolding(adapter_table::specs::Class3Opening::served_class3))]
    pub(super) fn forward_open_class3(
        &mut self,
        route: Route,
        stream: &Stream,
        service: OpenService,
        request: &OpenRequest<&[u8]>,
    ) -> Outcome
        requires { IsCarried self.old.streams stream.now.number }
        ensures { Follows (Ok (routed self.old route
            (Some (counted_by (opening (is_large_open service) (view_open request.now))
            (served_class3 self.old stream.now
            (is_large_open service) (view_open request.now)))))) self.old result self.new }
    {
        let request = &whole_request(&self.assemblies.profile().description, request);
        match admit_class3(&self.class3_view(stream.peer, request.triad), request) {
            Ok(times) => self.open_class3(route, stream, service, request, times),
            Err(why) => self.refuse_open(route, service, request, why),
        }
    }

    /// The close of the class 3 connection of a triad.
    #[tactic(auto, unfolding(adapter_table::specs::Messages::messages_table))]
    pub(super) fn close_class3(&mut self, route: Route, triad: Triad) -> Outcome
        ensures { Follows (Ok (routed self.old route (Some (record {
          reply = closed triad;
          address = None;
          notices = notice.Closed triad ∷ [];
          table = tallied (Some tally.Closed) (with_messages self.old (without_class3 self.old.messaging triad));
        })))) self.old result self.new }
    {
        // The table stays whole.
        tables_are_whole();
        let notices = one_notice(self.alloc, Notice::Closed(triad))?;
        let answer = reply_answer(self.alloc, route, &Reply::Closed(triad), None, notices)?;
        self.messaging.close(triad);
        self.count(Some(Tally::Closed));
        Ok(answer)
    }
}

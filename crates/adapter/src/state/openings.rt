//! Connections are opened.

ghost use Rattle.std.specs.Prelude.{◌≡◌, ◌+◌, Ok, Some, IfOk, ◌≤◌, length};
ghost use Rattle.std.specs.Option.{option_map, ForSome};
ghost use Rattle.cip_types.specs.Ids.{end_number};
ghost use Rattle.cip_fwdopen.specs.Open.{view_open};
ghost use Rattle.cip_fwdopen.specs.Services.{is_large_open};
ghost use Rattle.adapter_table.specs.Checks.{Gives, config_bytes, view_admission, drawn_ids};
ghost use Rattle.adapter_table.specs.StatedLimits.{limited_admission};
ghost use Rattle.adapter_table.specs.Opening.{opened_row, opened_production, opened_state, opened_t_o_id, configured};
ghost use Rattle.cip_router.specs.Requests.{opening};
ghost use Rattle.adapter_table.specs.Requests.{admitted_open, counted_by, refused_open, served_open};
ghost use Rattle.adapter_replies.specs.Routes.{peer_of, routed};
ghost use Rattle.adapter_replies.specs.Serving.{IsOpenRoute, opening_served, stream_opening};
ghost use Rattle.adapter_table.specs.MessagesSound.{IsCarried};
ghost use Rattle.cip_events.specs.Outcomes.{Follows};
ghost use Rattle.assembly_set.specs.Assemblies.{config_len};

use super::AdapterState;
use adapter_replies::{
    Route, address_of, opened_address, opened_reply, opening_notices, reply_answer,
};
use adapter_table::laws::{admitted_requests_fit, tables_are_whole};
use adapter_table::{Tally, open_tally};
use app_rules::{View, admit, opening_refusal, whole_request};
use assembly_set::AssemblySet;
use cip_fwdopen::{OpenRequest, OpenService};
use cip_netparams::is_message_trigger;
use cip_productions::{first_deadline, first_production, pace_of};
use cip_tables::{Admission, Outcome, Production, Refusal, Reply, Row, State, Stream};
use cip_types::{ConnId, Node, id_at, ids_left};
use indexed_connections::ConnectionTable;

impl<T: ConnectionTable> AdapterState<T> {
    /// The bytes of the configuration.
    fn config_bytes(&self) -> Option<&[u8]>
        ensures { option_map (λ lent. lent.now) result ≡ config_bytes self.now.values self.now.profile.config }
    {
        match self.assemblies.profile().config {
            Some(config) => self.assemblies.read(config.instance).ok(),
            None => None,
        }
    }

    /// The connection that an open request of a peer is admitted as, or why it is refused. Takes no memory.
    fn judge<'a>(
        &self,
        peer: Node,
        request: &OpenRequest<&'a [u8]>,
    ) -> Result<Admission<'a>, Refusal>
        ensures admission { Gives view_admission result (limited_admission self.now peer (view_open request.now)) }
        ensures drawn { IfOk result (λ a. a.drawn ≡ drawn_ids a.multicast a.group) }
    {
        let view = View {
            profile: self.assemblies.profile(),
            config: self.config_bytes(),
            connections: &self.table,
            ids_left: ids_left(&self.ids, self.next_id),
            talks: self.messaging.has_triad(request.triad),
            opened_enough: self.has_opened_enough(peer),
        };
        admit(&view, peer, request)
    }

    /// The production that a new connection starts.
    fn production(&self, peer: Node, admission: &Admission<'_>) -> Production
        ensures { result ≡ opened_production self.now peer (view_admission admission.now) }
    {
        let point = admission.produced;
        let address = address_of(self.assemblies.profile(), peer, admission.multicast, point);
        first_production(
            self.clock,
            self.next_id,
            address,
            admission.trigger,
            admission.inhibit,
        )
    }

    /// The state of a connection that is opened: it shares a producer, or starts one.
    fn opened_state(&self, peer: Node, admission: &Admission<'_>) -> State
        ensures { result ≡ opened_state self.now peer (view_admission admission.now) admission.now.group }
    {
        match admission.group {
            Some(member) => member.state,
            None => State::Established(self.production(peer, admission)),
        }
    }

    /// The T->O id of a connection that is opened.
    fn opened_t_o_id(&self, request: &OpenRequest<&[u8]>, admission: &Admission<'_>) -> ConnId
        requires { self.now.next_id + drawn_ids admission.now.multicast admission.now.group ≤ end_number self.now.ids }
        ensures { result
            ≡ opened_t_o_id self.now (view_open request.now) admission.now.multicast admission.now.group }
    {
        match admission.group {
            Some(member) => member.t_o_id,
            None if admission.multicast => id_at(&self.ids, self.next_id + 1),
            None => request.t_o_id,
        }
    }

    /// The connection that an admitted request opens.
    #[tactic(auto, unfolding(adapter_table::specs::Opening::opened_row))]
    fn opened_row(&self, peer: Node, request: &OpenRequest<&[u8]>, admission: &Admission<'_>) -> Row
        requires waits { admission.now.watchdog.0 ≤ 5120000 }
        requires left { self.now.next_id + drawn_ids admission.now.multicast admission.now.group
            ≤ end_number self.now.ids }
        requires draws { 1 ≤ drawn_ids admission.now.multicast admission.now.group }
        ensures { result ≡ opened_row self.now peer (view_open request.now) (view_admission admission.now) }
    {
        Row {
            triad: request.triad,
            peer,
            kind: admission.kind,
            consumed: admission.consumed,
            produced: admission.produced,
            o_t_id: id_at(&self.ids, self.next_id),
            t_o_id: self.opened_t_o_id(request, admission),
            o_t_api_ms: admission.o_t_api_ms,
            t_o_api_ms: admission.t_o_api_ms,
            o_t_pace_ms: pace_of(admission.trigger, admission.o_t_api_ms, admission.inhibit),
            watchdog: admission.watchdog,
            multicast: admission.multicast,
            opening: self.next_id,
            last: None,
            mode: None,
            deadline: first_deadline(self.clock, admission.watchdog),
            state: self.opened_state(peer, admission),
        }
    }

    /// Opens the connection of an admitted request.
    #[tactic(auto, unfolding(adapter_table::specs::Requests::admitted_open, adapter_table::specs::Opening::opened_table))]
    fn open(
        &mut self,
        route: Route,
        service: OpenService,
        request: &OpenRequest<&[u8]>,
        admitted: &Admission<'_>,
    ) -> Outcome
        requires admitted { limited_admission self.old (peer_of route) (view_open request.now)
            ≡ Ok (view_admission admitted.now) }
        requires drawn { admitted.now.drawn ≡ drawn_ids admitted.now.multicast admitted.now.group }
        ensures { Follows (Ok
            (routed self.old route (Some (counted_by (opening (is_large_open service) (view_open request.now))
            (admitted_open self.old (peer_of route) (is_large_open service)
            (view_open request.now) (view_admission admitted.now)))))) self.old result self.new }
    {
        // The table stays whole, and what was admitted is within the limits.
        tables_are_whole();
        admitted_requests_fit();
        let row = self.opened_row(route.peer(), request, admitted);
        let replaced = self.table.replaced(row.triad);
        let notices = opening_notices(self.alloc, replaced, &row)?;
        let reply = Reply::Opened(service, opened_reply(&row));
        let answer = reply_answer(self.alloc, route, &reply, opened_address(&row), notices)?;
        let openings = self.counted_openings(row.peer)?;
        self.table.open(replaced, row)?;
        configure(&mut self.assemblies, admitted.segment);
        self.next_id += admitted.drawn;
        self.openings = openings;
        self.count(Some(Tally::Opened));
        Ok(answer)
    }

    /// A Forward_Open that is refused, with its triad: nothing changes but its count.
    pub(super) fn refuse_open(
        &mut self,
        route: Route,
        service: OpenService,
        request: &OpenRequest<&[u8]>,
        why: Refusal,
    ) -> Outcome
        ensures { Follows (Ok (routed self.old route
            (Some (counted_by (opening (is_large_open service) (view_open request.now))
            (refused_open self.old (is_large_open service) (view_open request.now) why))))) self.old result self.new }
    {
        let profile = self.assemblies.profile();
        let reply = opening_refusal(profile, &self.table, service, request, why);
        let answer = self.reply(route, reply)?;
        self.count(Some(open_tally(why)));
        Ok(answer)
    }

    /// A Forward_Open of a connection of class 1.
    #[tactic(auto, unfolding(adapter_table::specs::Requests::served_open))]
    fn forward_open_class1(
        &mut self,
        route: Route,
        service: OpenService,
        request: &OpenRequest<&[u8]>,
    ) -> Outcome
        ensures { Follows (Ok (routed self.old route
            (Some (counted_by (opening (is_large_open service) (view_open request.now))
            (served_open self.old (peer_of route) (is_large_open service)
            (view_open request.now)))))) self.old result self.new }
    {
        let request = &whole_request(&self.assemblies.profile().description, request);
        match self.judge(route.peer(), request) {
            Ok(admitted) => self.open(route, service, request, &admitted),
            Err(why) => self.refuse_open(route, service, request, why),
        }
    }

    /// A Forward_Open over a stream: a class 3 connection lives on the stream, one of another class on none.
    fn forward_open_over(
        &mut self,
        route: Route,
        stream: &Stream,
        service: OpenService,
        request: &OpenRequest<&[u8]>,
    ) -> Outcome
        requires carried { IsCarried self.old.streams stream.now.number }
        requires peer { peer_of route ≡ stream.now.peer }
        ensures { Follows (Ok (routed self.old route
            (Some (counted_by (opening (is_large_open service) (view_open request.now))
            (stream_opening self.old stream.now
            (is_large_open service) (view_open request.now)))))) self.old result self.new }
    {
        if is_message_trigger(request.trigger) {
            return self.forward_open_class3(route, stream, service, request);
        }
        self.forward_open_class1(route, service, request)
    }

    /// A Forward_Open of either size, by its class and route.
    pub fn forward_open(
        &mut self,
        route: Route,
        service: OpenService,
        request: &OpenRequest<&[u8]>,
    ) -> Outcome
        requires { IsOpenRoute self.old route }
        ensures { Follows (Ok (routed self.old route
            (Some (counted_by (opening (is_large_open service) (view_open request.now))
            (opening_served self.old route (is_large_open service)
            (view_open request.now)))))) self.old result self.new }
    {
        match route {
            Route::Stream(stream, _) => self.forward_open_over(route, &stream, service, request),
            Route::Peer(_) | Route::Connection(_) => {
                self.forward_open_class1(route, service, request)
            }
        }
    }
}

/// Stores a data segment at the configuration, if there is one to store. Takes no memory.
#[tactic(auto, using(crate::proofs::Admitted::configured_none))]
fn configure(assemblies: &mut AssemblySet, segment: Option<&[u8]>)
    requires { ForSome (option_map (λ lent. lent.now) segment)
        (λ bytes. config_len assemblies.old.profile ≡ Some (length bytes)) }
    ensures { assemblies.new
        ≡ record assemblies.old {
          values = configured assemblies.old.profile.config
              (option_map (λ lent. lent.now) segment.entry) assemblies.old.values;
        } }
{
    if let Some(segment) = segment {
        assemblies.configure(segment);
    }
}

//! An adapter over any table of connections.

mod carrying;
mod messages;
mod objects;
mod own;
mod streams;

ghost use Rattle.std.specs.Prelude.{◌≡◌, ◌≢◌, Ok, Err, None, IfOk, IfErr, true};
ghost use Rattle.cip_router.specs.Requests.{view_router_request};
ghost use Rattle.adapter_table.specs.Requests.{counted_once, requested};
ghost use Rattle.adapter_replies.specs.Serving.{IsOpenRoute, barred_service, finished, requested_on, served_on, service_served};
ghost use Rattle.adapter_table.specs.Step.{adapter_step};
ghost use Rattle.cip_events.specs.Outcomes.{Follows};
ghost use Rattle.cip_tables.specs.Step.{is_datagram};

use crate::state::AdapterState;
use adapter_replies::{ObjectRequest, Route, own_request, unserved_answer};
use cip_fwdopen::service::FORWARD_CLOSE;
use cip_tables::{
    Answer, AnyConnection, Class3Report, Config, ConnectionReport, ConsumerCounts, Delivery,
    Device, DeviceTable, DeviceTotals, Event, NewFault, Outcome, RouterRequest, SlotReport, Status,
    StepFault, StreamReport, TableCopy, Verdict, read_router_request,
};
use cip_types::{Ms, Node, OutOfMemory, Triad};
use indexed_connections::ConnectionTable;
use std::alloc::Global;
use std::marker::Model;

/// An adapter over a table of connections, which contracts see as its table.
#[derive(Drop)]
pub struct Adapter<T: ConnectionTable> {
    state: AdapterState<T>,
}

impl<T: ConnectionTable> Model for Adapter<T> {
    ghost use Rattle.adapter_table.specs.declared.table.AdapterTable.{AdapterTable};

    ghost Value = { AdapterTable };

    ghost view = { λ a. a.state };
}

// REQUESTS

/// The service that is refused on a route, since no message of a class 3 connection opens or closes a connection.
fn barred_service(route: Route, request: &RouterRequest<'_>) -> Option<u8>
    ensures { result ≡ barred_service route (view_router_request request.now) }
{
    if !route.is_connected() {
        return None;
    }
    match request {
        RouterRequest::Closing(_) => Some(FORWARD_CLOSE),
        RouterRequest::Opening(service, _) => Some(service.code()),
        RouterRequest::Nothing | RouterRequest::Refused(..) | RouterRequest::Object(..) => None,
    }
}

impl<T: ConnectionTable> Adapter<T> {
    /// A request by its service, on a route that can bring it.
    fn serve_service(&mut self, route: Route, request: RouterRequest<'_>) -> Outcome
        requires open { IsOpenRoute self.old route }
        requires unbarred { barred_service route (view_router_request request) ≡ None }
        ensures { Follows (Ok (finished self.old route (counted_once (view_router_request request.entry)
            (service_served self.old route (view_router_request request.entry))))) self.old result self.new }
    {
        match request {
            RouterRequest::Nothing => Ok(unserved_answer(self.state.alloc(), route)?),
            RouterRequest::Refused(service, why) => self.state.refuse_counted(route, service, why),
            RouterRequest::Closing(request) => self.state.forward_close(route, &request),
            RouterRequest::Object(service, class, instance, attribute, body) => {
                let request = ObjectRequest {
                    service,
                    attribute,
                    body,
                };
                self.object(route, class, instance, request)
            }
            RouterRequest::Opening(service, request) => {
                self.state.forward_open(route, service, &request)
            },
        }
    }

    /// A request to no object of the maker's own.
    fn serve_router(&mut self, route: Route, request: RouterRequest<'_>) -> Outcome
        requires { IsOpenRoute self.old route }
        ensures { Follows (Ok (finished self.old route (counted_once (view_router_request request.entry)
            (served_on self.old route (view_router_request request.entry))))) self.old result self.new }
    {
        match barred_service(route, &request) {
            Some(service) => self.state.refuse_counted(route, service, Status::Service),
            None => self.serve_service(route, request),
        }
    }

    /// A request on its route: one to an object of the maker's own asks the application.
    #[tactic(auto, unfolding(adapter_replies::specs::Serving::requested_on))]
    pub(crate) fn serve(&mut self, route: Route, bytes: &[u8]) -> Outcome
        requires { IsOpenRoute self.old route }
        ensures { Follows (Ok (requested_on self.old route bytes.now)) self.old result self.new }
    {
        let request = read_router_request(bytes);
        match own_request(self.state.profile().objects.as_slice(), &request) {
            Some(own) => self.state.ask(route, &own),
            None => self.serve_router(route, request),
        }
    }

    /// A request of a peer, over no stream.
    #[tactic(auto, using(adapter_replies::specs::RouteLaws::peer_is))]
    fn request(&mut self, peer: Node, bytes: &[u8]) -> Outcome
        ensures { Follows (Ok (requested self.old peer bytes.now)) self.old result self.new }
    {
        self.serve(Route::Peer(peer), bytes)
    }
}

// EVENTS

impl<T: ConnectionTable> Adapter<T> {
    /// Any event. It is not inlined, so that `step` is, and an idle tick stays cheap.
    #[inline(never)]
    fn take(&mut self, event: &Event) -> Outcome
        ensures step { Follows (adapter_step self.old event.now) self.old result self.new }
        ensures no_memory { is_datagram event.now ≡ true → result ≢ Err StepFault.OutOfMemory }
    {
        match event {
            Event::Request { peer, bytes } => self.request(*peer, bytes.as_slice()),
            Event::StreamOpened { stream, peer } => self.state.open_stream(*stream, *peer),
            Event::Frame { stream, bytes } => self.frame(*stream, bytes.as_slice()),
            Event::StreamCut { stream } => self.cut_stream(*stream),
            Event::Datagram { peer, bytes } => {
                let delivery = self.state.receive(*peer, bytes.as_slice());
                Ok(Answer::plain(self.state.alloc(), Verdict::Delivered(delivery)))
            }
            Event::Inquiry { peer, bytes } => self.inquire(*peer, bytes.as_slice()),
            Event::Write { point, bytes } => self.state.write(*point, bytes.as_slice()),
            Event::Read { point } => self.state.read(*point),
            Event::Tick { ms } => self.state.tick(*ms),
            Event::Mode { .. }
            | Event::Start { .. }
            | Event::Stop { .. }
            | Event::Explicit { .. } => Err(StepFault::NotAllowedNow),
            Event::Respond {
                number,
                status,
                bytes,
            } => self.respond(*number, *status, bytes.as_slice()),
            Event::Counters { bytes } => self.state.say_counters(bytes.as_slice()),
            Event::Ids { block } => self.state.take_ids(*block),
        }
    }
}

impl<T: ConnectionTable> Device for Adapter<T> {
    ghost use Rattle.cip_tables.specs.declared.table.DeviceTable.{DeviceTable};
    ghost use Rattle.cip_tables.specs.Step.{makes_adapter};

    ghost table = { λ adapter. DeviceTable.Adapter adapter };

    ghost accepts = { makes_adapter };

    fn is_accepted(config: &Config) -> bool {
        match config {
            Config::Adapter(_) => true,
            Config::Scanner(_) => false,
        }
    }

    fn new(alloc: Global, config: Config) -> Result<Self, NewFault> {
        let profile = match config {
            Config::Adapter(profile) => profile,
            Config::Scanner(scanner) => {
                scanner.check()?;
                return Err(NewFault::WrongKind);
            }
        };
        profile.check()?;
        let state = AdapterState::new(alloc, &profile)?;
        Ok(Adapter { state })
    }

    #[inline(always)]
    #[tactic(auto, unfolding(cip_tables::specs::Step::step), using(cip_tables::specs::FollowLaws::adapter_follows))]
    fn step(&mut self, event: &Event) -> Outcome {
        match event {
            Event::Tick { ms } => self.state.tick(*ms),
            _ => self.take(event),
        }
    }

    #[tactic(auto, unfolding(cip_tables::specs::Step::step))]
    fn deliver(&mut self, peer: Node, bytes: &[u8]) -> Delivery {
        self.state.receive(peer, bytes)
    }

    #[tactic(auto, unfolding(cip_tables::specs::Step::step), using(cip_tables::specs::FollowLaws::adapter_follows))]
    fn write_point(&mut self, point: u32, bytes: &[u8]) -> Outcome {
        self.state.write(point, bytes)
    }

    #[tactic(auto, unfolding(cip_tables::specs::Step::step, adapter_table::specs::Step::read))]
    fn read_point(&self, point: u32) -> Result<&[u8], StepFault> {
        let bytes = self.state.assemblies().read(point).ok();
        bytes.ok_or(StepFault::NoSuchPoint)
    }

    fn copy(&self) -> Result<TableCopy, OutOfMemory> {
        // The table is whole.
        self.state.is_whole();
        Ok(TableCopy::adapter(self.state.copy()?))
    }

    fn owner(&self, output: u32) -> Option<ConnectionReport> {
        self.state.owner(output)
    }

    fn consumers(&self, input: u32) -> ConsumerCounts {
        self.state.consumers(input)
    }

    fn connection(&self, place: u32) -> Option<ConnectionReport> {
        self.state.connection(place)
    }

    fn class3_connection(&self, place: u32) -> Option<Class3Report> {
        self.state.class3_connection(place)
    }

    fn connection_of(&self, triad: Triad) -> Option<AnyConnection> {
        self.state.connection_of(triad)
    }

    fn slot(&self, _number: u32) -> Option<SlotReport> {
        None
    }

    fn stream(&self, place: u32) -> Option<StreamReport> {
        self.state.stream(place)
    }

    fn totals(&self) -> DeviceTotals {
        self.state.totals()
    }

    fn next_wake(&self) -> Ms {
        self.state.next_wake()
    }

    fn is_whole(&self) {
        // Gives the prover the invariant of what the adapter holds.
        self.state.is_whole();
    }
}

impl<T: ConnectionTable> Adapter<T> {
    ghost use Rattle.cip_events.specs.Faults.{IsRefusedAs};
    ghost use Rattle.cip_tables.specs.declared.table.DeviceTable.{DeviceTable};
    ghost use Rattle.cip_tables.specs.Step.{is_adapter};

    /// The adapter whose table is the copied one.
    ///
    /// The faults, in order: `WrongKind` if the copy is of a scanner's table, `OutOfMemory`.
    pub fn from_copy(alloc: Global, copy: &TableCopy) -> Result<Self, NewFault>
        ensures table { IfOk result (λ adapter. DeviceTable.Adapter adapter ≡ copy.now) }
        ensures fault { IfErr result (λ fault. IsRefusedAs None (is_adapter copy.now) fault) }
    {
        let DeviceTable::Adapter(table) = copy.table() else {
            return Err(NewFault::WrongKind);
        };
        let state = AdapterState::holding(alloc, table)?;
        Ok(Adapter { state })
    }
}

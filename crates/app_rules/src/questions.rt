//! What the checks of a request find, and the questions that they ask.

ghost use Rattle.std.specs.Prelude.{◌≡◌, ◌==◌, ◌&&◌, length, nat_lt, nat_le, not};
ghost use Rattle.std.specs.List.{list_any};
ghost use Rattle.std.specs.Option.{option_map};
ghost use Rattle.cip_epath.specs.Path.{view_path};
ghost use Rattle.cip_fwdopen.specs.Open.{view_open};
ghost use Rattle.cip_productions.specs.declared.kind.Kind.{Kind};
ghost use Rattle.cip_productions.specs.Kinds.{is_owner, is_listener};
ghost use Rattle.adapter_table.specs.Rows.{most_rows, is_established, is_timed_out, drives, is_supported};
ghost use Rattle.adapter_table.specs.Checks.{view_admission, check, is_unserved, is_below_least, inhibit_of, lacks_pace, served_inhibit, is_known_config, consumed_point_of, group_of, joined, named_len, has_other_length, has_other_bytes, has_other_o_t_size, has_other_t_o_size, joins, has_other_trigger, has_other_inhibit, drawn_ids};
ghost use Rattle.adapter_table.specs.StatedLimits.{has_no_place, has_node_enough, exceeds};
ghost use Rattle.app_rules.specs.Views.{view_named_points};
ghost use Rattle.app_rules.specs.Stages.{IsPassed, path_inhibit, admission_at};

use crate::connections::ConnectionsView;
use crate::view::View;
use adapter_table::{
    Admission, ConsumedPoint, InputPoint, NodeLimits, Places, Profile, Row, State,
};
use cip_epath::ConnPath;
use cip_fwdopen::OpenRequest;
use cip_netparams::Trigger;
use cip_productions::Kind;
use cip_router::Refusal;
use cip_types::{Ms, Node};

/// The transport that a request asks for: whether its producer sends to a group, its trigger and production inhibit
/// time, its actual packet intervals, both in milliseconds, and the time-out of its watchdog.
#[derive(Clone, Copy)]
pub struct Transport {
    pub multicast: bool,
    pub trigger: Trigger,
    pub inhibit: u8,
    pub o_t_api_ms: u32,
    pub t_o_api_ms: u32,
    pub watchdog: Ms,
}

/// The points that a path names: the consumer, the input that is produced, and the group that is joined.
#[derive(Clone, Copy)]
pub struct NamedPoints<'a> {
    pub path: ConnPath<'a>,
    pub consumer: ConsumedPoint,
    pub input: InputPoint,
    pub group: Option<Row>,
}

/// The refusal of a check, if it fails.
pub fn refuse_if(fails: bool, why: Refusal) -> Result<(), Refusal>
    ensures { IsPassed (check fails why) result }
{
    if fails { Err(why) } else { Ok(()) }
}

/// Whether the multiplier is out of range, or a redundant owner is requested.
pub fn is_unserved(request: &OpenRequest<&[u8]>) -> bool
    ensures { result ≡ is_unserved (view_open request.now) }
{
    request.multiplier > 7 || request.o_t_params.redundant || request.t_o_params.redundant
}

/// Whether a packet interval is below the least that the maker states.
pub fn is_below_least(least: Option<u32>, request: &OpenRequest<&[u8]>) -> bool
    ensures { result ≡ is_below_least least (view_open request.now) }
{
    match least {
        Some(least) => request.o_t_rpi < least || request.t_o_rpi < least,
        None => false,
    }
}

/// The production inhibit time that applies, in milliseconds: a cyclic producer has none.
pub fn served_inhibit(trigger: Trigger, path: &Option<ConnPath<'_>>) -> u8
    ensures { result ≡ served_inhibit trigger (path_inhibit (option_map view_path path.now)) }
{
    match (trigger, path) {
        (Trigger::ChangeOfState, Some(path)) => path.inhibit.unwrap_or(0),
        (Trigger::ChangeOfState, None) | (Trigger::Cyclic, _) => 0,
    }
}

/// The production inhibit time that a path asks for, in milliseconds.
fn inhibit_of(path: &Option<ConnPath<'_>>) -> u8
    ensures { result ≡ inhibit_of (option_map view_path path.now) }
{
    match path {
        Some(path) => path.inhibit.unwrap_or(0),
        None => 0,
    }
}

/// Whether the maker states how far ahead numbers can be, and the request asks for changes of state that are never held
/// back.
pub fn lacks_pace(
    within: Option<u32>,
    request: &OpenRequest<&[u8]>,
    path: &Option<ConnPath<'_>>,
) -> bool
    ensures { result ≡ lacks_pace within (view_open request.now) (option_map view_path path.now) }
{
    match (within, Trigger::read(request.trigger)) {
        (Some(_), Some(Trigger::ChangeOfState)) => inhibit_of(path) == 0,
        (Some(_), Some(Trigger::Cyclic)) | (Some(_), None) | (None, _) => false,
    }
}

/// Whether a path names no configuration, or the adapter's.
pub fn is_known_config(profile: &Profile, path: &ConnPath<'_>) -> bool
    ensures { result ≡ is_known_config profile.now.config (view_path path.now).config }
{
    match (profile.config, path.config) {
        (_, None) => true,
        (None, Some(_)) => false,
        (Some(config), Some(named)) => config.instance == named,
    }
}

/// The application type of a connection that consumes the point, and the length of its data.
pub fn consumed_point_of(profile: &Profile, point: u32) -> Option<ConsumedPoint>
    ensures { result ≡ consumed_point_of profile.now point }
{
    let (kind, len) = if let Some(output) = profile.output(point) {
        (Kind::ExclusiveOwner, output.len)
    } else if profile.input_only == point {
        (Kind::InputOnly, 0)
    } else if profile.listen_only == point {
        (Kind::ListenOnly, 0)
    } else {
        return None;
    };
    Some(ConsumedPoint { kind, len })
}

/// The first connection of the group that a multicast connection joins.
pub fn joined<C: ConnectionsView>(connections: &C, multicast: bool, point: u32) -> Option<Row>
    ensures { result ≡ joined multicast (group_of (C.rows connections.now) point) }
{
    if multicast {
        connections.group_of(point)
    } else {
        None
    }
}

/// How many ids an opening draws: one for the O->T direction, and one more if it starts a multicast producer.
///
/// Volume 1, chapter 3, connection ids.
fn drawn_ids(multicast: bool, group: &Option<Row>) -> u32
    ensures { result ≡ drawn_ids multicast group.now }
{
    match group {
        None if multicast => 2,
        None | Some(_) => 1,
    }
}

/// The connection that a request of these points and this transport is admitted as.
pub fn admission_at<'a>(points: &NamedPoints<'a>, transport: &Transport) -> Admission<'a>
    ensures admission { view_admission result ≡ admission_at (view_named_points points.now) transport.now }
    ensures drawn { result.drawn ≡ drawn_ids result.multicast result.group }
{
    Admission {
        kind: points.consumer.kind,
        consumed: points.path.consumed,
        produced: points.path.produced,
        multicast: transport.multicast,
        trigger: transport.trigger,
        inhibit: transport.inhibit,
        o_t_api_ms: transport.o_t_api_ms,
        t_o_api_ms: transport.t_o_api_ms,
        watchdog: transport.watchdog,
        group: points.group,
        drawn: drawn_ids(transport.multicast, &points.group),
        segment: points.path.config.and(points.path.segment),
    }
}

/// Whether the data segment has another length than the configuration that the path names.
pub fn misfits_config<C: ConnectionsView>(view: &View<'_, C>, points: &NamedPoints<'_>) -> bool
    ensures { result ≡ has_other_length (named_len view.now.profile.now.config (view_path points.now.path).config)
        (view_path points.now.path).segment }
{
    let Some(segment) = points.path.segment else {
        return false;
    };
    match (view.profile.config, points.path.config) {
        (Some(config), Some(_)) => segment.len() as u64 != config.len,
        (_, None) | (None, Some(_)) => !segment.is_empty(),
    }
}

/// Whether the data segment would change the configuration under an established connection.
pub fn changes_config<C: ConnectionsView>(view: &View<'_, C>, admission: &Admission<'_>) -> bool
    ensures { result ≡ (list_any is_established (C.rows view.now.connections.now)
        && has_other_bytes (view_admission admission.now).segment (option_map (λ lent. lent.now) view.now.config)) }
{
    match (admission.segment, view.config) {
        (Some(segment), Some(present)) => view.connections.has_established() && segment != present,
        (None, _) | (Some(_), None) => false,
    }
}

/// Whether an O->T size is not that of the consumed point: a sequence count, and an owner's data behind a
/// run/idle header.
pub fn has_other_o_t_size(request: &OpenRequest<&[u8]>, points: &NamedPoints<'_>) -> bool
    ensures { result ≡ has_other_o_t_size (view_open request.now) (view_named_points points.now) }
{
    let size = request.o_t_params.size;
    match points.consumer.kind {
        Kind::ExclusiveOwner => size < 6 || u64::from(size) - 6 != points.consumer.len,
        Kind::InputOnly | Kind::ListenOnly => size != 2,
    }
}

/// Whether a T->O size is not that of the produced point: a sequence count and the input.
pub fn has_other_t_o_size(request: &OpenRequest<&[u8]>, points: &NamedPoints<'_>) -> bool
    ensures { result ≡ has_other_t_o_size (view_open request.now) (view_named_points points.now) }
{
    let size = request.t_o_params.size;
    size < 2 || u64::from(size) - 2 != points.input.len
}

/// Whether another connection owns the output.
pub fn is_owned<C: ConnectionsView>(view: &View<'_, C>, admission: &Admission<'_>) -> bool
    ensures { result ≡ (is_owner admission.now.kind
        && list_any (drives admission.now.consumed) (C.rows view.now.connections.now)) }
{
    admission.kind == Kind::ExclusiveOwner && view.connections.is_driven(admission.consumed)
}

/// Whether a listen-only connection asks for a producer of its own.
pub fn listens_alone(admission: &Admission<'_>) -> bool
    ensures { result ≡ (is_listener admission.now.kind && not admission.now.multicast) }
{
    admission.kind == Kind::ListenOnly && !admission.multicast
}

/// Whether no connection of another kind supports the listen-only connection.
pub fn is_unsupported<C: ConnectionsView>(view: &View<'_, C>, admission: &Admission<'_>) -> bool
    ensures { result ≡ (is_listener admission.now.kind
        && not (is_supported (C.rows view.now.connections.now) Kind.ListenOnly admission.now.produced)) }
{
    admission.kind == Kind::ListenOnly && !view.connections.is_supported(admission.produced)
}

/// Whether the group that is joined has another T->O packet interval.
pub fn joins_other_api(admission: &Admission<'_>) -> bool
    ensures { result
        ≡ joins admission.now.group (λ member. not (admission.now.t_o_api_ms == member.t_o_api_ms)) }
{
    match &admission.group {
        Some(member) => admission.t_o_api_ms != member.t_o_api_ms,
        None => false,
    }
}

/// Whether the production of the group that is joined has another trigger.
pub fn joins_other_trigger(admission: &Admission<'_>) -> bool
    ensures { result
        ≡ joins admission.now.group (λ member. has_other_trigger admission.now.trigger member.state) }
{
    match &admission.group {
        Some(
            Row {
                state: State::Established(production),
                ..
            },
        ) => admission.trigger != production.trigger,
        _ => false,
    }
}

/// Whether the production of the group that is joined has another production inhibit time.
pub fn joins_other_inhibit(admission: &Admission<'_>) -> bool
    ensures { result
        ≡ joins admission.now.group (λ member. has_other_inhibit admission.now.inhibit member.state) }
{
    match &admission.group {
        Some(
            Row {
                state: State::Established(production),
                ..
            },
        ) => admission.inhibit != production.inhibit,
        _ => false,
    }
}

/// Whether fewer ids are left than the opening draws.
pub fn lacks_ids<C>(view: &View<'_, C>, admission: &Admission<'_>) -> bool
    requires { admission.now.drawn ≡ drawn_ids admission.now.multicast admission.now.group }
    ensures { result ≡ nat_lt view.now.ids_left (drawn_ids admission.now.multicast admission.now.group) }
{
    view.ids_left < admission.drawn
}

/// Whether there are 64 connections, and none has timed out.
pub fn lacks_capacity<C: ConnectionsView>(view: &View<'_, C>) -> bool
    ensures { result ≡ (nat_le most_rows (length (C.rows view.now.connections.now))
        && not (list_any is_timed_out (C.rows view.now.connections.now))) }
{
    view.connections.is_full() && !view.connections.has_timed_out()
}

/// Whether established connections of the application type have all its places.
fn has_no_place<C: ConnectionsView>(connections: &C, places: Option<Places>, kind: Kind) -> bool
    ensures { result ≡ has_no_place places (C.rows connections.now) kind }
{
    match places {
        Some(places) => connections.kind_count(kind) >= usize::from(places.of(kind)),
        None => false,
    }
}

/// Whether the node has as many established connections as one node can have.
fn has_node_enough<C: ConnectionsView>(
    connections: &C,
    limits: Option<NodeLimits>,
    peer: Node,
) -> bool
    ensures { result ≡ has_node_enough limits (C.rows connections.now) peer }
{
    match limits {
        Some(limits) => connections.node_count(peer) >= usize::from(limits.connections),
        None => false,
    }
}

/// Whether a connection of this application type, opened by this node, is more than the maker states.
pub fn exceeds<C: ConnectionsView>(view: &View<'_, C>, peer: Node, kind: Kind) -> bool
    ensures { result ≡ exceeds view.now.profile.now.limits (C.rows view.now.connections.now) peer kind }
{
    let limits = view.profile.limits;
    has_no_place(view.connections, limits.places, kind)
        || has_node_enough(view.connections, limits.node_connections, peer)
}

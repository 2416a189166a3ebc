//! The checks of a request, from the top: 2; 3 to 8; 9; 10 to 15; 17; 16. `admit` lists them.

ghost use Rattle.std.specs.Prelude.{◌≡◌, IfOk};
ghost use Rattle.std.specs.Option.{option_map};
ghost use Rattle.cip_epath.specs.Path.{view_path};
ghost use Rattle.cip_fwdopen.specs.Open.{view_open};
ghost use Rattle.adapter_table.specs.Checks.{Gives, view_admission, verdict, points_of, admitted_at, drawn_ids, is_multicast};
ghost use Rattle.adapter_table.specs.Describing.{fixed};
ghost use Rattle.adapter_table.specs.StatedLimits.{limited, paced};
ghost use Rattle.app_rules.specs.Views.{seen, view_named_points};
ghost use Rattle.app_rules.specs.Stages.{request_check, points_check, transport_of, IsPassed};

use crate::connections::ConnectionsView;
use crate::describing::is_variable;
use crate::paths::{key_check, key_of, readable};
use crate::questions::{
    NamedPoints, Transport, admission_at, changes_config, consumed_point_of, exceeds,
    has_other_o_t_size, has_other_t_o_size, is_below_least, is_known_config, is_owned, is_unserved,
    is_unsupported, joined, joins_other_api, joins_other_inhibit, joins_other_trigger,
    lacks_capacity, lacks_ids, lacks_pace, listens_alone, misfits_config, refuse_if,
    served_inhibit,
};
use crate::view::View;
use adapter_table::Admission;
use cip_epath::{ConnPath, class};
use cip_fwdopen::OpenRequest;
use cip_netparams::ConnectionType::{Multicast, PointToPoint};
use cip_netparams::{Trigger, api_of, timeout_of};
use cip_router::Refusal;
use cip_types::Node;

/// The connection that a request is admitted as, or the refusal of the first check that fails. Takes no memory.
///
/// 1. The data are as long as their fields and path size say (0x13 shorter, 0x15 longer): the reader of the request
///    checks it before this call.
/// 2. Each segment of the path reads (0x0315).
/// 3. No established connection, and none of class 3, has the triad (0x0100).
/// 4. The key names this device: vendor and product (0x0114), device type (0x0115), revision (0x0116), and the serial
///    number of a described one (0x0114).
/// 5. The O->T type is point to point (0x0123), the T->O type that or multicast (0x0124).
/// 6. The transport class is 1, and the trigger cyclic or change of state (0x0103).
/// 7. The multiplier is at most 7, and no redundant owner is requested (0x0108).
/// 8. Each packet interval is 1 microsecond to 10 seconds, and no shorter than the least that the maker states
///    (0x0111), and the inhibit time is no longer than the T->O one, and not 0 at changes of state if the maker states
///    how far ahead numbers can be (0x011B).
/// 9. The path is of the Assembly class (0x0117), and names the configuration (0x0129), a consumed (0x012A) and a
///    produced (0x012B) point.
/// 10. The data segment has the length of the configuration (0x0126), and does not change it while a connection is
///     established (0x0106).
/// 11. The O->T size (0x0127) and the T->O size (0x0128) are those of the points.
/// 12. The output has no owner (0x0106).
/// 13. A listen-only connection is multicast (0x0124) and has support (0x0119).
/// 14. A joining connection has the T->O packet interval (0x0111), trigger (0x0103) and inhibit time (0x0111) of its
///     group.
/// 15. Ids are left, and there are fewer than 64 connections or one has timed out (0x0113).
/// 16. Fewer connections of the application type are established than the maker states places for, and fewer of the
///     peer's than the maker states for one node, and the peer has opened fewer in its second than the maker states
///     (0x0113).
/// 17. A device that is described is asked for data of a fixed size (0x0127, 0x0128). It comes before 16.
///
/// Volume 1, chapter 3, Forward_Open service and Connection Manager extended status codes.
pub fn admit<'a, C: ConnectionsView>(
    view: &View<'_, C>,
    peer: Node,
    request: &OpenRequest<&'a [u8]>,
) -> Result<Admission<'a>, Refusal>
    ensures limited { Gives view_admission result (paced view.now.opened_enough
        (limited view.now.profile.now.limits (C.rows view.now.connections.now) peer
        (fixed view.now.profile.now.description (view_open request.now)
        (verdict (seen C.rows view.now request.now.triad) (view_open request.now))))) }
    ensures drawn { IfOk result (λ a. a.drawn ≡ drawn_ids a.multicast a.group) }
{
    let admission = judge_fixed(view, request)?;
    // 16
    refuse_if(
        exceeds(view, peer, admission.kind),
        Refusal::OutOfConnections,
    )?;
    refuse_if(view.opened_enough, Refusal::OutOfConnections)?;
    Ok(admission)
}

/// The connection that a request is admitted as by the checks 2 to 15, or the refusal of the first that fails, or of 17.
fn judge_fixed<'a, C: ConnectionsView>(
    view: &View<'_, C>,
    request: &OpenRequest<&'a [u8]>,
) -> Result<Admission<'a>, Refusal>
    ensures fixed { Gives view_admission result (fixed view.now.profile.now.description (view_open request.now)
        (verdict (seen C.rows view.now request.now.triad) (view_open request.now))) }
    ensures drawn { IfOk result (λ a. a.drawn ≡ drawn_ids a.multicast a.group) }
{
    let admission = judge(view, request)?;
    // 17
    let description = &view.profile.description;
    refuse_if(
        is_variable(description, &request.o_t_params),
        Refusal::ConsumedSize,
    )?;
    refuse_if(
        is_variable(description, &request.t_o_params),
        Refusal::ProducedSize,
    )?;
    Ok(admission)
}

/// The connection that a request is admitted as, or the refusal of the first of the checks 2 to 15 that fails.
#[tactic(auto, unfolding(adapter_table::specs::Checks::verdict), using(crate::proofs::Order::verdict_is_staged))]
fn judge<'a, C: ConnectionsView>(
    view: &View<'_, C>,
    request: &OpenRequest<&'a [u8]>,
) -> Result<Admission<'a>, Refusal>
    ensures verdict { Gives view_admission result
        (verdict (seen C.rows view.now request.now.triad) (view_open request.now)) }
    ensures drawn { IfOk result (λ a. a.drawn ≡ drawn_ids a.multicast a.group) }
{
    // 2
    let path = readable(&view.profile.description, request.path)?;
    let transport = transport_of(view, request, &path)?;
    let points = points_of(view, request, path, transport.multicast)?;
    let admission = admission_at(&points, &transport);
    check_points(view, request, &points, &admission)?;
    Ok(admission)
}

/// The transport that is requested, or the refusal of the first of the checks 3 to 8 that fails.
#[tactic(auto, unfolding(crate::specs::Stages::request_check))]
fn transport_of<C: ConnectionsView>(
    view: &View<'_, C>,
    request: &OpenRequest<&[u8]>,
    path: &Option<ConnPath<'_>>,
) -> Result<Transport, Refusal>
    ensures passed { IsPassed (request_check (seen C.rows view.now request.now.triad) (view_open request.now)
        (option_map view_path path.now)) result }
    ensures found { IfOk result
        (λ found. found ≡ transport_of (view_open request.now) (option_map view_path path.now)) }
{
    // 3
    refuse_if(
        view.connections.is_open(request.triad) || view.talks,
        Refusal::InUse,
    )?;
    // 4
    key_check(view.profile, request.path, key_of(path))?;
    // 5
    let (consumed, produced) = (request.o_t_params.kind, request.t_o_params.kind);
    let multicast = produced == Multicast;
    refuse_if(consumed != PointToPoint, Refusal::ConsumedType)?;
    refuse_if(
        !multicast && produced != PointToPoint,
        Refusal::ProducedType,
    )?;
    // 6
    let trigger = Trigger::read(request.trigger).ok_or(Refusal::Trigger)?;
    // 7
    refuse_if(is_unserved(request), Refusal::Parameter)?;
    // 8
    let o_t_api_ms = api_of(request.o_t_rpi).ok_or(Refusal::PacketInterval)?;
    let t_o_api_ms = api_of(request.t_o_rpi).ok_or(Refusal::PacketInterval)?;
    let least = view.profile.limits.least_rpi;
    refuse_if(is_below_least(least, request), Refusal::PacketInterval)?;
    let inhibit = served_inhibit(trigger, path);
    refuse_if(t_o_api_ms < u32::from(inhibit), Refusal::InhibitTime)?;
    let within = view.profile.limits.newer;
    refuse_if(lacks_pace(within, request, path), Refusal::InhibitTime)?;
    Ok(Transport {
        multicast,
        trigger,
        inhibit,
        o_t_api_ms,
        t_o_api_ms,
        // The multiplier is at most 7 by check 7, so there is a time-out.
        watchdog: timeout_of(request.multiplier, o_t_api_ms).unwrap(),
    })
}

/// The points that a path names, or the refusal of check 9.
fn points_of<'a, C: ConnectionsView>(
    view: &View<'_, C>,
    request: &OpenRequest<&'a [u8]>,
    path: Option<ConnPath<'a>>,
    multicast: bool,
) -> Result<NamedPoints<'a>, Refusal>
    requires { multicast ≡ is_multicast request.now.t_o_params.kind }
    ensures { Gives view_named_points result
        (points_of (seen C.rows view.now request.now.triad) (view_open request.now) (option_map view_path path.entry)) }
{
    let profile = view.profile;
    // 9
    let path = path.ok_or(Refusal::Path)?;
    refuse_if(path.class != class::ASSEMBLY, Refusal::Path)?;
    refuse_if(!is_known_config(profile, &path), Refusal::ConfigurationPath)?;
    let consumer = consumed_point_of(profile, path.consumed).ok_or(Refusal::ConsumedPath)?;
    let input = profile.input(path.produced).ok_or(Refusal::ProducedPath)?;
    let group = joined(view.connections, multicast, path.produced);
    Ok(NamedPoints {
        path,
        consumer,
        input,
        group,
    })
}

/// The refusal of the first of the checks 10 to 15 that fails.
#[tactic(auto, unfolding(crate::specs::Stages::points_check))]
fn check_points<C: ConnectionsView>(
    view: &View<'_, C>,
    request: &OpenRequest<&[u8]>,
    points: &NamedPoints<'_>,
    admission: &Admission<'_>,
) -> Result<(), Refusal>
    requires admission { view_admission admission.now
        ≡ admitted_at (view_open request.now) (view_named_points points.now) }
    requires drawn { admission.now.drawn ≡ drawn_ids admission.now.multicast admission.now.group }
    ensures { IsPassed (points_check (seen C.rows view.now request.now.triad) (view_open request.now)
        (view_named_points points.now)) result }
{
    // 10
    refuse_if(misfits_config(view, points), Refusal::ConfigurationSize)?;
    refuse_if(changes_config(view, admission), Refusal::Ownership)?;
    // 11
    refuse_if(has_other_o_t_size(request, points), Refusal::ConsumedSize)?;
    refuse_if(has_other_t_o_size(request, points), Refusal::ProducedSize)?;
    // 12
    refuse_if(is_owned(view, admission), Refusal::Ownership)?;
    // 13
    refuse_if(listens_alone(admission), Refusal::ProducedType)?;
    refuse_if(is_unsupported(view, admission), Refusal::NoSupport)?;
    // 14
    refuse_if(joins_other_api(admission), Refusal::PacketInterval)?;
    refuse_if(joins_other_trigger(admission), Refusal::Trigger)?;
    refuse_if(joins_other_inhibit(admission), Refusal::PacketInterval)?;
    // 15
    refuse_if(lacks_ids(view, admission), Refusal::OutOfConnections)?;
    refuse_if(lacks_capacity(view), Refusal::OutOfConnections)
}

//! The checks of a request to open a class 3 connection, from the top: 2 to 5, 7 to 9, 11, 15, 16. `admit_class3` lists
//! them.

ghost use Rattle.std.specs.Prelude.{◌≡◌, IfOk, nat_le, nat_lt};
ghost use Rattle.std.specs.Option.{option_map};
ghost use Rattle.cip_epath.specs.ElectronicKey.{view_key};
ghost use Rattle.cip_epath.specs.Reading.{seen};
ghost use Rattle.cip_fwdopen.specs.Open.{view_open};
ghost use Rattle.adapter_table.specs.Checks.{is_point_to_point, segment_check};
ghost use Rattle.adapter_table.specs.Class3Opening.{are_enough, class3_refusal, message_path_check, named_key, node_places};
ghost use Rattle.adapter_table.specs.Profiles.{class3_places};
ghost use Rattle.messaging.specs.Class3Connections.{most_class3_connections};
ghost use Rattle.app_rules.specs.Stages.{IsPassed, class3_times};
ghost use Rattle.app_rules.specs.Views.{seen_class3_connections};

use crate::paths::{key_check, opening_message_path};
use crate::questions::{is_below_least, is_unserved, refuse_if};
use crate::view::Class3View;
use cip_epath::{ElectronicKey, PathFault};
use cip_fwdopen::OpenRequest;
use cip_netparams::{ConnectionType, api_of, timeout_of};
use cip_router::Refusal;
use cip_types::Ms;

/// The most class 3 connections of an adapter.
const MOST_CLASS3_CONNECTIONS: usize = 64;

/// The times of a class 3 connection: its actual packet intervals in milliseconds, and the time-out of its watchdog.
#[derive(Clone, Copy)]
pub struct Class3Times {
    pub o_t_api_ms: u32,
    pub t_o_api_ms: u32,
    pub watchdog: Ms,
}

/// The refusal of a path with a segment that does not read.
fn check_segments(path: &Result<Option<ElectronicKey>, PathFault>) -> Result<(), Refusal>
    ensures { IsPassed (segment_check (seen (option_map view_key) path.now)) result }
{
    match path {
        Ok(_) | Err(PathFault::Shape) => Ok(()),
        Err(_) => Err(Refusal::Segment),
    }
}

/// The key of a path that reads, if it has one.
fn named_key(path: &Result<Option<ElectronicKey>, PathFault>) -> Option<ElectronicKey>
    ensures { option_map view_key result ≡ named_key (seen (option_map view_key) path.now) }
{
    match path {
        Ok(key) => *key,
        Err(_) => None,
    }
}

/// The refusal of a path that is not that of the message router alone.
fn check_message_path(path: &Result<Option<ElectronicKey>, PathFault>) -> Result<(), Refusal>
    ensures { IsPassed (message_path_check (seen (option_map view_key) path.now)) result }
{
    match path {
        Ok(_) => Ok(()),
        Err(_) => Err(Refusal::Path),
    }
}

fn is_point_to_point(kind: ConnectionType) -> bool
    ensures { result ≡ is_point_to_point kind }
{
    kind == ConnectionType::PointToPoint
}

/// Whether no id is left.
fn has_no_id(view: &Class3View<'_>) -> bool
    ensures { result ≡ nat_lt view.now.ids_left 1 }
{
    view.ids_left == 0
}

/// Whether there are 64 class 3 connections.
fn is_full(view: &Class3View<'_>) -> bool
    ensures { result ≡ nat_le most_class3_connections view.now.count }
{
    view.count >= MOST_CLASS3_CONNECTIONS
}

/// Whether there are as many class 3 connections as the maker states places for.
fn has_no_place(view: &Class3View<'_>) -> bool
    ensures { result ≡ are_enough (class3_places view.now.profile.now.limits.places) view.now.count }
{
    match view.profile.limits.class3_places() {
        Some(most) => view.count >= usize::from(most),
        None => false,
    }
}

/// Whether the node has as many class 3 connections as one node can have.
fn has_node_enough(view: &Class3View<'_>) -> bool
    ensures { result ≡ are_enough (node_places view.now.profile.now.limits.node_connections) view.now.node_count }
{
    match view.profile.limits.node_connections {
        Some(limits) => view.node_count >= usize::from(limits.connections),
        None => false,
    }
}

/// The times of the class 3 connection that a request opens, or the refusal of the first check that fails. Takes no
/// memory.
///
/// The checks have the numbers of `admit`. The class and trigger are those of class 3 (6), and there are neither data
/// nor owners nor groups (10, 12 to 14).
///
/// 2. Each segment of the path reads (0x0315).
/// 3. No connection of any class and state has the triad (0x0100).
/// 4. The key names this device: vendor and product (0x0114), device type (0x0115), revision (0x0116), and the serial
///    number of a described one (0x0114).
/// 5. The O->T type (0x0123) and the T->O type (0x0124) are point to point.
/// 7. The multiplier is at most 7, and no redundant owner is requested (0x0108).
/// 8. Each packet interval is 1 microsecond to 10 seconds, and no shorter than the least that the maker states
///    (0x0111).
/// 9. The path is that of the message router alone (0x0117).
/// 11. The O->T size (0x0127) and the T->O size (0x0128) are not 0.
/// 15. Ids are left, and there are fewer than 64 class 3 connections (0x0113).
/// 16. There are fewer of them than the maker states places for, the node has fewer of them than the maker states for
///     one node, and has opened fewer connections in its second than the maker states (0x0113).
///
/// Volume 1, chapter 3, Forward_Open service, transport class 3, and Connection Manager extended status codes.
#[tactic(auto, unfolding(adapter_table::specs::Class3Opening::class3_refusal))]
pub fn admit_class3(
    view: &Class3View<'_>,
    request: &OpenRequest<&[u8]>,
) -> Result<Class3Times, Refusal>
    ensures passed { IsPassed (class3_refusal (seen_class3_connections view.now) (view_open request.now)) result }
    ensures times { IfOk result (λ times. times ≡ class3_times (view_open request.now)) }
{
    // 2
    let path = opening_message_path(&view.profile.description, request.path);
    check_segments(&path)?;
    // 3
    refuse_if(view.in_use, Refusal::InUse)?;
    // 4
    key_check(view.profile, request.path, named_key(&path))?;
    // 5
    let (consumed, produced) = (request.o_t_params.kind, request.t_o_params.kind);
    refuse_if(!is_point_to_point(consumed), Refusal::ConsumedType)?;
    refuse_if(!is_point_to_point(produced), Refusal::ProducedType)?;
    // 7
    refuse_if(is_unserved(request), Refusal::Parameter)?;
    // 8
    let o_t_api_ms = api_of(request.o_t_rpi).ok_or(Refusal::PacketInterval)?;
    let t_o_api_ms = api_of(request.t_o_rpi).ok_or(Refusal::PacketInterval)?;
    let least = view.profile.limits.least_rpi;
    refuse_if(is_below_least(least, request), Refusal::PacketInterval)?;
    // 9
    check_message_path(&path)?;
    // 11
    refuse_if(request.o_t_params.size == 0, Refusal::ConsumedSize)?;
    refuse_if(request.t_o_params.size == 0, Refusal::ProducedSize)?;
    // 15
    refuse_if(has_no_id(view), Refusal::OutOfConnections)?;
    refuse_if(is_full(view), Refusal::OutOfConnections)?;
    // 16
    refuse_if(has_no_place(view), Refusal::OutOfConnections)?;
    refuse_if(has_node_enough(view), Refusal::OutOfConnections)?;
    refuse_if(view.opened_enough, Refusal::OutOfConnections)?;
    Ok(Class3Times {
        o_t_api_ms,
        t_o_api_ms,
        // The multiplier is at most 7 by check 7, so there is a time-out.
        watchdog: timeout_of(request.multiplier, o_t_api_ms).unwrap(),
    })
}

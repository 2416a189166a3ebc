//! The reply to a request that is refused, which names acceptable packet intervals where those are what is refused.

ghost use Rattle.std.specs.Prelude.{◌≡◌};
ghost use Rattle.std.specs.Result.{result_ok};
ghost use Rattle.cip_fwdopen.specs.Open.{view_open};
ghost use Rattle.cip_fwdopen.specs.Services.{is_large_open};
ghost use Rattle.cip_router.specs.Replies.{view_reply, HasStatus, GetsFew};
ghost use Rattle.adapter_table.specs.Checks.{is_multicast};
ghost use Rattle.adapter_table.specs.Intervals.{whole_us, whole_request, interval_says, accepted_us, joined_by, t_o_says, accepted_t_o_us, acceptable, refuses_one, open_refusal};
ghost use Rattle.adapter_table.specs.Paths.{opening_path};
ghost use Rattle.adapter_table.specs.Requests.{open_service};

use crate::connections::ConnectionsView;
use crate::describing::opening_fault;
use crate::paths::opening_path;
use crate::questions::joined;
use adapter_table::{Description, MILLISECOND_US, Profile, Row, least_us, ms_us};
use cip_fwdopen::{AcceptableIntervals, OpenRequest, OpenService};
use cip_netparams::ConnectionType;
use cip_router::{Refusal, Reply};
use cip_types::limits::LONGEST_RPI_US;

/// The packet interval that a device takes a requested one for: a described one counts whole milliseconds, and rounds down.
fn whole_us(description: &Option<Description>, rpi: u32) -> u32
    ensures { result ≡ whole_us description.now rpi }
{
    match description {
        Some(_) if rpi >= 1 && rpi <= LONGEST_RPI_US => MILLISECOND_US * (rpi / MILLISECOND_US),
        Some(_) | None => rpi,
    }
}

/// The request that a device takes a request for. A described one grants no packet interval that is longer than the requested
/// one, in whole milliseconds. Takes no memory.
///
/// Volume 1, chapter 3, requested and actual packet interval.
pub fn whole_request<'a>(
    description: &Option<Description>,
    request: &OpenRequest<&'a [u8]>,
) -> OpenRequest<&'a [u8]>
    ensures { view_open result ≡ whole_request description.now (view_open request.now) }
{
    let mut whole = *request;
    whole.o_t_rpi = whole_us(description, request.o_t_rpi);
    whole.t_o_rpi = whole_us(description, request.t_o_rpi);
    whole
}

/// What is said of a packet interval: 2, it is below the least; 3, it is above the greatest; 0, it is accepted.
fn interval_says(least: u32, rpi: u32) -> u8
    ensures { result ≡ interval_says least rpi }
{
    if rpi < least {
        2
    } else if rpi > LONGEST_RPI_US {
        3
    } else {
        0
    }
}

/// The packet interval that is accepted in place of a requested one.
fn accepted_us(least: u32, rpi: u32) -> u32
    ensures { result ≡ accepted_us least rpi }
{
    if rpi < least {
        least
    } else if rpi > LONGEST_RPI_US {
        LONGEST_RPI_US
    } else {
        rpi
    }
}

/// What is said of the T->O packet interval; 4, it is another than that of the group that is joined.
fn t_o_says(least: u32, group: &Option<Row>, rpi: u32) -> u8
    ensures { result ≡ t_o_says least group.now rpi }
{
    match group {
        Some(member) if rpi.div_ceil(MILLISECOND_US) == member.t_o_api_ms => 0,
        Some(_) => 4,
        None => interval_says(least, rpi),
    }
}

/// The T->O packet interval that is accepted: that of the group that is joined, if there is one.
fn accepted_t_o_us(least: u32, group: &Option<Row>, rpi: u32) -> u32
    ensures { result ≡ accepted_t_o_us least group.now rpi }
{
    match group {
        Some(member) => ms_us(member.t_o_api_ms),
        None => accepted_us(least, rpi),
    }
}

/// The packet intervals that are acceptable in place of those of a request.
fn acceptable(least: u32, group: &Option<Row>, request: &OpenRequest<&[u8]>) -> AcceptableIntervals
    ensures { result ≡ acceptable least group.now (view_open request.now) }
{
    AcceptableIntervals {
        o_t_says: interval_says(least, request.o_t_rpi),
        t_o_says: t_o_says(least, group, request.t_o_rpi),
        o_t_us: accepted_us(least, request.o_t_rpi),
        t_o_us: accepted_t_o_us(least, group, request.t_o_rpi),
    }
}

/// The first connection of the group that the request joins.
fn joined_by<C: ConnectionsView>(
    profile: &Profile,
    connections: &C,
    request: &OpenRequest<&[u8]>,
) -> Option<Row>
    ensures { result ≡ joined_by (C.rows connections.now) (is_multicast request.now.t_o_params.kind)
        (result_ok (opening_path profile.now.description request.now.path.now)) }
{
    let multicast = request.t_o_params.kind == ConnectionType::Multicast;
    match opening_path(&profile.description, request.path) {
        Ok(path) => joined(connections, multicast, path.produced),
        Err(_) => None,
    }
}

/// Whether one of the two is not accepted.
fn refuses_one(intervals: &AcceptableIntervals) -> bool
    ensures { result ≡ refuses_one intervals.now }
{
    intervals.o_t_says != 0 || intervals.t_o_says != 0
}

/// The reply to a request that is refused, with its triad. A described device that refuses packet intervals says which are
/// acceptable: at least a millisecond and the maker's least, at most 10 seconds, and those of the group that is joined. Takes
/// no memory.
///
/// Volume 1, chapter 3, Connection Manager extended status codes.
pub fn opening_refusal<C: ConnectionsView>(
    profile: &Profile,
    connections: &C,
    service: OpenService,
    request: &OpenRequest<&[u8]>,
    why: Refusal,
) -> Reply<'static>
    ensures reply { view_reply result ≡ open_refusal profile.now (C.rows connections.now)
        (open_service (is_large_open service)) (view_open request.now) why }
    ensures status { HasStatus (view_reply result) }
    ensures few { GetsFew (view_reply result) }
{
    let least = least_us(profile.limits.least_rpi);
    let group = joined_by(profile, connections, request);
    let intervals = acceptable(least, &group, request);
    let described = profile.description.is_some();
    if described && why == Refusal::PacketInterval && refuses_one(&intervals) {
        return Reply::Unacceptable(service.code(), intervals, request.triad);
    }
    let fault = opening_fault(&profile.description, request, why);
    Reply::Refused(service.code(), fault, Some(request.triad))
}

//! Class 3 connections and requests whose deadline has come.

ghost use Rattle.std.specs.Prelude.{◌≡◌, not, filter, find, map, IfOk};
ghost use Rattle.std.specs.List.{list_any};
ghost use Rattle.std.specs.Option.{option_map};
ghost use Rattle.cip_types.specs.Order.{in_order};
ghost use Rattle.messaging.specs.Changes.{can_be_answered};
ghost use Rattle.messaging.specs.Class3Connections.{class3_triad, is_last_message};
ghost use Rattle.messaging.specs.Endings.{by_ending, ending_of, ending_triad};
ghost use Rattle.messaging.specs.Times.{by_class3_deadline, class3_end, first_of, is_late_class3, is_late_request, late_text, on_time, request_end};

use crate::class3::Class3Connection;
use crate::requests::{Requester, Waiting};
use cip_fwdopen::service::REPLY;
use cip_types::{ConnId, Items, Ms, Order, OutOfMemory, Triad, sorted};
use std::alloc::Global;

// CLASS 3 CONNECTIONS

/// When a connection ends, and which one it is.
#[derive(Clone, Copy)]
pub(crate) struct Class3End {
    triad: Triad,
    deadline: Ms,
    opening: u32,
}

/// The order by deadlines, and then by openings.
struct ByEnding;

impl Order<Class3End> for ByEnding {
    ghost before = { λ _ ending other. by_ending ending other };

    fn is_before(&self, item: &Class3End, other: &Class3End) -> bool {
        let (deadline, later) = (item.deadline.0, other.deadline.0);
        deadline < later || (deadline == later && item.opening < other.opening)
    }
}

/// Whether a connection's deadline has come. Takes no memory.
///
/// Volume 1, chapter 3, inactivity watchdog.
pub(crate) fn is_late_class3(class3: &Class3Connection, clock: Ms) -> bool
    ensures { result ≡ is_late_class3 clock class3.now }
{
    class3.deadline.0 <= clock.0
}

fn endings(
    alloc: Global,
    class3_connections: &[Class3Connection],
    clock: Ms,
) -> Result<Vec<Class3End>, OutOfMemory>
    ensures { IfOk result
        (λ endings. endings.items ≡ map ending_of (filter (is_late_class3 clock) class3_connections.now)) }
{
    let mut endings = Vec::new(alloc);
    for class3 in class3_connections {
        if is_late_class3(class3, clock) {
            endings.push(Class3End {
                triad: class3.triad,
                deadline: class3.deadline,
                opening: class3.opening,
            })?;
        }
    }
    Ok(endings)
}

fn triads_of(alloc: Global, endings: &[Class3End]) -> Result<Vec<Triad>, OutOfMemory>
    ensures { IfOk result (λ triads. triads.items ≡ map ending_triad endings.now) }
{
    let mut triads = Vec::new(alloc);
    for ending in endings {
        triads.push(ending.triad)?;
    }
    Ok(triads)
}

/// The triads of the connections whose deadline has come, by their deadlines and then in the order of their openings.
/// `OutOfMemory` is the only error.
///
/// Volume 1, chapter 3, inactivity watchdog.
pub(crate) fn late_triads(
    alloc: Global,
    class3_connections: &[Class3Connection],
    clock: Ms,
) -> Result<Vec<Triad>, OutOfMemory>
    ensures { IfOk result
        (λ triads. triads.items
        ≡ map class3_triad (in_order by_class3_deadline (filter (is_late_class3 clock) class3_connections.now))) }
{
    let endings = endings(alloc, class3_connections, clock)?;
    let ordered = sorted(alloc, &endings, &ByEnding)?;
    triads_of(alloc, &ordered)
}

/// Removes the connections whose deadline has come. Takes no memory.
pub(crate) fn keep_on_time(class3_connections: &mut Vec<Class3Connection>, clock: Ms)
    ensures { class3_connections.new.items ≡ on_time clock class3_connections.old.items }
{
    class3_connections.retain(|class3| !is_late_class3(class3, clock));
}

/// Whether the deadline of a connection has come. Takes no memory.
pub(crate) fn has_late_class3(class3_connections: &[Class3Connection], clock: Ms) -> bool
    ensures { result ≡ list_any (is_late_class3 clock) class3_connections.now }
{
    class3_connections
        .iter()
        .any(|class3| is_late_class3(class3, clock))
}

/// The first deadline of the connections; `u64::MAX` if there is none. Takes no memory.
pub(crate) fn first_class3_end(class3_connections: &[Class3Connection]) -> u64
    ensures { result ≡ first_of class3_end class3_connections.now }
{
    let mut first = u64::MAX;
    for class3 in class3_connections {
        first = first.min(class3.deadline.0);
    }
    first
}

// REQUESTS

/// Whether a request's deadline has come. Takes no memory.
pub(crate) fn is_late_request(waiting: &Waiting, clock: Ms) -> bool
    ensures { result ≡ is_late_request clock waiting.now }
{
    waiting.deadline.0 <= clock.0
}

fn has_last_on_time(
    class3_connections: &[Class3Connection],
    clock: Ms,
    id: ConnId,
    count: u16,
) -> bool
    ensures { result ≡ list_any (is_last_message id count) (on_time clock class3_connections.now) }
{
    for class3 in class3_connections {
        if !is_late_class3(class3, clock) && class3.is_last_message(id, count) {
            return true;
        }
    }
    false
}

/// The connection of an O->T id whose last message has this count, if its deadline has not come. Takes no memory.
pub(crate) fn find_last_on_time(
    class3_connections: &[Class3Connection],
    clock: Ms,
    id: ConnId,
    count: u16,
) -> Option<&Class3Connection>
    ensures { option_map (λ lent. lent.now) result
        ≡ find (is_last_message id count) (on_time clock class3_connections.now) }
{
    for class3 in class3_connections {
        if !is_late_class3(class3, clock) && class3.is_last_message(id, count) {
            return Some(class3);
        }
    }
    None
}

fn can_be_answered_still(
    class3_connections: &[Class3Connection],
    clock: Ms,
    waiting: &Waiting,
) -> bool
    ensures { result ≡ can_be_answered (on_time clock class3_connections.now) waiting.now }
{
    match waiting.asker {
        Requester::Peer(_) | Requester::Stream { .. } => true,
        Requester::Class3Connection { id, count } => has_last_on_time(
            class3_connections,
            clock,
            id,
            count,
        ),
    }
}

/// The requests whose deadline has come, without those that can be answered no more since their connection's deadline
/// has come, too. `OutOfMemory` is the only error.
pub(crate) fn late_requests(
    alloc: Global,
    class3_connections: &[Class3Connection],
    waiting: &[Waiting],
    clock: Ms,
) -> Result<Vec<Waiting>, OutOfMemory>
    ensures { IfOk result
        (λ late. late.items
        ≡ filter (is_late_request clock)
        (filter (can_be_answered (on_time clock class3_connections.now)) waiting.now)) }
{
    let mut late = Vec::new(alloc);
    for request in waiting {
        if can_be_answered_still(class3_connections, clock, request)
            && is_late_request(request, clock)
        {
            late.push(*request)?;
        }
    }
    Ok(late)
}

/// Removes the requests whose deadline has come. Takes no memory.
pub(crate) fn keep_early(waiting: &mut Vec<Waiting>, clock: Ms)
    ensures { waiting.new.items ≡ filter (λ w. not (is_late_request clock w)) waiting.old.items }
{
    waiting.retain(|request| !is_late_request(request, clock));
}

/// Whether the deadline of a request has come. Takes no memory.
pub(crate) fn has_late_request(waiting: &[Waiting], clock: Ms) -> bool
    ensures { result ≡ list_any (is_late_request clock) waiting.now }
{
    waiting
        .iter()
        .any(|request| is_late_request(request, clock))
}

/// The first deadline of the requests; `u64::MAX` if there is none. Takes no memory.
pub(crate) fn first_request_end(waiting: &[Waiting]) -> u64
    ensures { result ≡ first_of request_end waiting.now }
{
    let mut first = u64::MAX;
    for request in waiting {
        first = first.min(request.deadline.0);
    }
    first
}

/// The general status of the device's reply in place of the application: vendor specific.
///
/// Volume 1, appendix B.
const LATE_STATUS: u8 = 0x1F;

/// The reply of the device to a request of this service that the application did not answer in time. `OutOfMemory` is
/// the only error.
///
/// Volume 1, chapter 2, message router response.
pub fn late_text(alloc: Global, service: u8) -> Result<Items<u8>, OutOfMemory>
    ensures { IfOk result (λ text. text ≡ late_text service) }
{
    Items::copy_of(alloc, &[REPLY + service % REPLY, 0, LATE_STATUS, 0])
}

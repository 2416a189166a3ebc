//! Requests to objects of the maker's own: what the application is asked, and its answers on the routes of the requests.

ghost use Rattle.std.specs.Prelude.{◌≡◌, IfOk, option_to_list};
ghost use Rattle.std.specs.List.{flat_map};
ghost use Rattle.std.specs.Option.{option_map};
ghost use Rattle.messaging.specs.Times.{late_waiting, without_late_class3_connections};
ghost use Rattle.adapter_replies.specs.Objects.Views.{view_own};
ghost use Rattle.adapter_table.specs.Ticks.{late_frames};
ghost use Rattle.adapter_replies.specs.Messages.{referred_answer, found_last};

use crate::answers::reply_frame;
use crate::objects::OwnRequest;
use crate::routes::Route;
use cip_events::{Answer, Frame, Verdict};
use cip_router::{Reply, Status};
use cip_types::{Items, Ms, OutOfMemory};
use messaging::{Class3Connection, MessagingState, Requester, Waiting};
use std::alloc::Global;

// REQUESTS TO THE APPLICATION

/// The answer to a request of this number that the application has to answer. `OutOfMemory` is the only error.
pub fn referred_answer(
    alloc: Global,
    number: u64,
    request: &OwnRequest<'_>,
) -> Result<Answer, OutOfMemory>
    ensures { IfOk result (λ answer. answer ≡ referred_answer number (view_own request.now)) }
{
    let data = Items::copy_of(alloc, request.body)?;
    let verdict = Verdict::Asked {
        number,
        service: request.service,
        class: request.class,
        instance: request.instance,
        attribute: request.attribute,
        data,
    };
    Ok(Answer::plain(alloc, verdict))
}

// ITS ANSWERS

/// The class 3 connection whose last message is the request, if it is open.
pub fn found_last(messaging: &MessagingState, asker: Requester) -> Option<&Class3Connection>
    ensures { option_map (λ lent. lent.now) result ≡ found_last messaging.now asker }
{
    match asker {
        Requester::Class3Connection { id, count } => messaging.find_last(id, count),
        Requester::Peer(_) | Requester::Stream { .. } => None,
    }
}

// ANSWERS IN PLACE OF THE APPLICATION

/// The class 3 connection whose last message is the request, if it is still open once the late ones have ended.
fn found_on_time(
    messaging: &MessagingState,
    clock: Ms,
    asker: Requester,
) -> Option<&Class3Connection>
    ensures { option_map (λ lent. lent.now) result
        ≡ found_last (without_late_class3_connections clock messaging.now) asker }
{
    match asker {
        Requester::Class3Connection { id, count } => messaging.find_last_on_time(clock, id, count),
        Requester::Peer(_) | Requester::Stream { .. } => None,
    }
}

/// The frame that answers a late request, if it can still be answered.
fn late_frame(
    alloc: Global,
    messaging: &MessagingState,
    clock: Ms,
    request: &Waiting,
) -> Result<Option<Frame>, OutOfMemory>
    ensures { IfOk result (λ frame. option_to_list frame
        ≡ late_frames (without_late_class3_connections clock messaging.now) request.now) }
{
    let class3 = found_on_time(messaging, clock, request.asker);
    let Some(route) = Route::of_waiting(request, class3) else {
        return Ok(None);
    };
    let status = Status::VendorSpecific.fault().general;
    let reply = Reply::Own(request.service, status, &[]);
    Ok(Some(reply_frame(alloc, route, &reply, None)?))
}

/// The frames that answer these late requests, in their order, where they can still be answered.
fn frames_of(
    alloc: Global,
    messaging: &MessagingState,
    clock: Ms,
    late: &[Waiting],
) -> Result<Vec<Frame>, OutOfMemory>
    ensures { IfOk result (λ frames. frames.items
        ≡ flat_map (late_frames (without_late_class3_connections clock messaging.now)) late.now) }
{
    let mut frames = Vec::new(alloc);
    for request in late {
        if let Some(frame) = late_frame(alloc, messaging, clock, request)? {
            frames.push(frame)?;
        }
    }
    Ok(frames)
}

/// The frames that answer the late requests in place of the application, in the order of their numbers, once the late
/// class 3 connections have ended. `OutOfMemory` is the only error.
pub fn late_frames(
    alloc: Global,
    messaging: &MessagingState,
    clock: Ms,
) -> Result<Vec<Frame>, OutOfMemory>
    ensures { IfOk result (λ frames. frames.items
        ≡ flat_map (late_frames (without_late_class3_connections clock messaging.now))
        (late_waiting clock (without_late_class3_connections clock messaging.now))) }
{
    let late = messaging.late_waiting(alloc, clock)?;
    frames_of(alloc, messaging, clock, &late)
}

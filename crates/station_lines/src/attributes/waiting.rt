//! What was requested of targets, until it ends.

ghost use Rattle.std.specs.Prelude.{◌≡◌, ◌++◌, [], OnOk, string_bytes};
ghost use Rattle.station_lines.specs.Attributes.Requested.{requested_after, requested_at, requested_without, has_number, last_after, next_number, with_requested};
ghost use Rattle.station_lines.specs.Attributes.Replies.{answer_lines, requested_behind, requested_left, requested_past, requested_through, notice_line, notice_lines, verdict_line};

use crate::attributes::replies::{ReplyMoment, TargetReply, push_reply, push_unanswered};
use crate::attributes::requested::{RequestedAttribute, requested_of};
use cip_events::{Answer, Event, Notice, Verdict};
use cip_types::OutOfMemory;
use std::alloc::Global;

/// At most so many requests are kept: a scanner has no more that wait for their replies.
const MOST_PENDING: usize = 16;

/// The requests for attributes that wait for their replies, and the number of the last explicit request.
#[derive(Drop)]
pub struct PendingAttributes {
    last: u32,
    requested: Vec<RequestedAttribute>,
}

impl PendingAttributes {
    /// Nothing was requested yet. Takes no memory.
    pub fn none(alloc: Global) -> PendingAttributes
        ensures requested { result.requested.items ≡ [] }
        ensures last { result.last ≡ 0 }
    {
        PendingAttributes {
            last: 0,
            requested: Vec::new(alloc),
        }
    }

    /// The number of the next request: one above that of the last one.
    pub fn next_number(&self) -> u32
        ensures { result ≡ next_number self.now.last }
    {
        self.last.wrapping_add(1)
    }

    /// Notes an event that the device has accepted. The fault: an allocation was refused, and what it asks is not kept.
    pub fn note(&mut self, event: &Event) -> Result<(), OutOfMemory>
        ensures requested { OnOk result
            (self.new.requested.items ≡ requested_after event.now self.old.requested.items) }
        ensures last { self.new.last ≡ last_after event.now self.old.last }
    {
        let Event::Explicit {
            target,
            number,
            bytes,
        } = event
        else {
            return Ok(());
        };
        self.last = *number;
        add(
            &mut self.requested,
            requested_of(*target, *number, bytes.as_slice()),
        )
    }

    /// Appends the lines of an answer: of the reply that it brings, and of each request that has none. These wait no
    /// more. The fault: an allocation was refused, and not all is appended.
    pub fn push_answer(
        &mut self,
        out: &mut String,
        moment: ReplyMoment,
        answer: &Answer,
    ) -> Result<(), OutOfMemory>
        ensures text { OnOk result (string_bytes out.new ≡ string_bytes out.old
            ++ answer_lines moment answer.now.verdict answer.now.notices self.old.requested.items) }
        ensures left { OnOk result
            (self.new.requested.items ≡ requested_left answer.now.verdict answer.now.notices self.old.requested.items) }
        ensures last { self.new.last ≡ self.old.last }
    {
        push_verdict(&mut self.requested, out, moment, &answer.verdict)?;
        push_notices(&mut self.requested, out, moment, answer.notices.as_slice())
    }
}

/// Adds what was requested, if there are fewer than 16. The fault: an allocation was refused, and it is not added.
fn add(
    requested: &mut Vec<RequestedAttribute>,
    new: Option<RequestedAttribute>,
) -> Result<(), OutOfMemory>
    ensures { OnOk result (requested.new.items ≡ with_requested new requested.old.items) }
{
    let Some(new) = new else {
        return Ok(());
    };
    if requested.len() < MOST_PENDING {
        requested.push(new)?;
    }
    Ok(())
}

/// Whether a request has this number.
fn has_number(requested: &RequestedAttribute, number: u32) -> bool
    ensures { result ≡ has_number number requested.now }
{
    requested.number == number
}

/// What was requested under this number.
fn requested_at(requested: &[RequestedAttribute], number: u32) -> Option<RequestedAttribute>
    ensures { result ≡ requested_at number requested.now }
{
    requested
        .iter()
        .copied()
        .find(|other| has_number(other, number))
}

/// Takes what was requested under this number off the list. Takes no memory.
fn remove(requested: &mut Vec<RequestedAttribute>, number: u32)
    ensures { requested.new.items ≡ requested_without number requested.old.items }
{
    requested.retain(|other| !has_number(other, number));
}

/// Takes what was requested under this number off the list.
fn take(requested: &mut Vec<RequestedAttribute>, number: u32) -> Option<RequestedAttribute>
    ensures found { result ≡ requested_at number requested.old.items }
    ensures left { requested.new.items ≡ requested_without number requested.old.items }
{
    let found = requested_at(requested.as_slice(), number);
    remove(requested, number);
    found
}

/// Appends the line of a verdict, if it is a reply to what was requested.
fn push_verdict(
    requested: &mut Vec<RequestedAttribute>,
    out: &mut String,
    moment: ReplyMoment,
    verdict: &Verdict,
) -> Result<(), OutOfMemory>
    ensures text { OnOk result (string_bytes out.new ≡ string_bytes out.old
        ++ verdict_line moment requested.old.items verdict.now) }
    ensures left { requested.new.items ≡ requested_behind verdict.now requested.old.items }
{
    match verdict {
        Verdict::Replied {
            number,
            status,
            additional,
            data,
        } => {
            let reply = TargetReply {
                status: *status,
                additional: additional.as_slice(),
                content: data.as_slice(),
            };
            push_reply(out, moment, take(requested, *number), reply)
        }
        _ => Ok(()),
    }
}

/// Appends the line of a notice, if it ends what was requested.
fn push_notice(
    requested: &mut Vec<RequestedAttribute>,
    out: &mut String,
    moment: ReplyMoment,
    notice: &Notice,
) -> Result<(), OutOfMemory>
    ensures text { OnOk result (string_bytes out.new ≡ string_bytes out.old
        ++ notice_line moment requested.old.items notice.now) }
    ensures left { requested.new.items ≡ requested_past notice.now requested.old.items }
{
    match notice {
        Notice::Unanswered(number, why) => {
            push_unanswered(out, moment, take(requested, *number), *why)
        }
        _ => Ok(()),
    }
}

/// Appends the lines of notices.
fn push_notices(
    requested: &mut Vec<RequestedAttribute>,
    out: &mut String,
    moment: ReplyMoment,
    notices: &[Notice],
) -> Result<(), OutOfMemory>
    ensures text { OnOk result (string_bytes out.new ≡ string_bytes out.old
        ++ notice_lines moment notices.now requested.old.items) }
    ensures left { OnOk result (requested.new.items ≡ requested_through notices.now requested.old.items) }
{
    for notice in notices {
        push_notice(requested, out, moment, notice)?;
    }
    Ok(())
}

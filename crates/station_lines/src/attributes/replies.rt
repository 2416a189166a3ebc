//! The lines of replies to requests for attributes, and of requests that have none.

ghost use Rattle.std.specs.Prelude.{◌≡◌, ◌++◌, OnOk, string_bytes};
ghost use Rattle.station_lines.specs.Attributes.Replies.{requested_text, attribute_text, moment_text, numbers_text, reason_text, reply_line, reply_text, service_word, status_text, success_text, unanswered_line};

use crate::attributes::names::known_attribute;
use crate::attributes::requested::{AttributeService, RequestedAttribute, TargetAttribute};
use crate::attributes::texts::push_raw;
use crate::attributes::values::push_value;
use cip_events::Unanswered;
use cip_types::OutOfMemory;
use trace_words::{push_bytes, push_digits, push_node, push_text, status_name};

/// When a request ended: at the event of this number, at this time in milliseconds.
#[derive(Clone, Copy, PartialEq, Eq)]
pub struct ReplyMoment {
    pub number: u64,
    pub ms: u64,
}

/// A reply of a target's message router: general status, bytes of the additional status, and data.
#[derive(Clone, Copy)]
pub(crate) struct TargetReply<'a> {
    pub status: u8,
    pub additional: &'a [u8],
    pub content: &'a [u8],
}

/// Appends the line of a reply, if it is to what was requested.
pub(crate) fn push_reply(
    out: &mut String,
    moment: ReplyMoment,
    requested: Option<RequestedAttribute>,
    reply: TargetReply<'_>,
) -> Result<(), OutOfMemory>
    ensures { OnOk result (string_bytes out.new ≡ string_bytes out.old
        ++ reply_line moment requested reply.entry.status reply.entry.additional.now reply.entry.content.now) }
{
    let Some(requested) = requested else {
        return Ok(());
    };
    push_requested(out, moment, requested)?;
    push_reply_text(out, requested, reply)?;
    push_text(out, "\n")
}

/// Appends the line of what has no reply, if it was requested.
pub(crate) fn push_unanswered(
    out: &mut String,
    moment: ReplyMoment,
    requested: Option<RequestedAttribute>,
    why: Unanswered,
) -> Result<(), OutOfMemory>
    ensures { OnOk result (string_bytes out.new ≡ string_bytes out.old ++ unanswered_line moment requested why) }
{
    let Some(requested) = requested else {
        return Ok(());
    };
    push_requested(out, moment, requested)?;
    push_reason(out, why)?;
    push_text(out, "\n")
}

/// Appends what was requested.
fn push_requested(
    out: &mut String,
    moment: ReplyMoment,
    requested: RequestedAttribute,
) -> Result<(), OutOfMemory>
    ensures { OnOk result (string_bytes out.new ≡ string_bytes out.old ++ requested_text moment requested) }
{
    push_moment(out, moment)?;
    push_text(out, service_word(requested.service))?;
    push_node(out, requested.at.target)?;
    push_numbers(out, requested.at)?;
    Ok(())
}

/// Appends the number of the last event, and the time.
fn push_moment(out: &mut String, moment: ReplyMoment) -> Result<(), OutOfMemory>
    ensures { OnOk result (string_bytes out.new ≡ string_bytes out.old ++ moment_text moment) }
{
    let (number, ms) = (moment.number, moment.ms);
    write!(out, "{number} at {ms}")?;
    Ok(())
}

/// The word of a service.
fn service_word(service: AttributeService) -> &'static str
    ensures { result.now ≡ service_word service }
{
    match service {
        AttributeService::Get => " get ",
        AttributeService::Set => " set ",
    }
}

/// Appends class, instance and attribute.
fn push_numbers(out: &mut String, at: TargetAttribute) -> Result<(), OutOfMemory>
    ensures { OnOk result (string_bytes out.new ≡ string_bytes out.old ++ numbers_text at) }
{
    let (class, instance, attribute) = (at.class, at.instance, at.attribute);
    write!(out, " {class} {instance} {attribute} ")?;
    Ok(())
}

/// Appends what a reply says.
fn push_reply_text(
    out: &mut String,
    requested: RequestedAttribute,
    reply: TargetReply<'_>,
) -> Result<(), OutOfMemory>
    ensures { OnOk result (string_bytes out.new ≡ string_bytes out.old
        ++ reply_text requested reply.entry.status reply.entry.additional.now reply.entry.content.now) }
{
    if reply.status == 0 {
        push_success(out, requested, reply.content)
    } else {
        push_status(out, reply.status, reply.additional)
    }
}

/// Appends that an attribute was set, or its value.
fn push_success(
    out: &mut String,
    requested: RequestedAttribute,
    content: &[u8],
) -> Result<(), OutOfMemory>
    ensures { OnOk result (string_bytes out.new ≡ string_bytes out.old
        ++ success_text requested requested.service content.now) }
{
    match requested.service {
        AttributeService::Get => push_attribute(out, requested.at, content),
        AttributeService::Set => push_text(out, "done"),
    }
}

/// Appends the value of an attribute behind its name.
fn push_attribute(out: &mut String, at: TargetAttribute, content: &[u8]) -> Result<(), OutOfMemory>
    ensures { OnOk result (string_bytes out.new ≡ string_bytes out.old ++ attribute_text at content.now) }
{
    let Some((kind, name)) = known_attribute(at.class, at.instance, at.attribute) else {
        return push_raw(out, content);
    };
    push_text(out, name)?;
    push_text(out, " ")?;
    push_value(out, kind, content)
}

/// Appends a general status, its name, and the bytes of the additional status.
fn push_status(out: &mut String, status: u8, additional: &[u8]) -> Result<(), OutOfMemory>
    ensures { OnOk result (string_bytes out.new ≡ string_bytes out.old ++ status_text status additional.now) }
{
    push_text(out, "status ")?;
    push_digits(out, &[status])?;
    push_text(out, " (")?;
    push_text(out, status_name(status))?;
    push_text(out, ") additional ")?;
    push_bytes(out, additional)?;
    Ok(())
}

/// Appends why there is no reply.
fn push_reason(out: &mut String, why: Unanswered) -> Result<(), OutOfMemory>
    ensures { OnOk result (string_bytes out.new ≡ string_bytes out.old ++ reason_text why) }
{
    match why {
        Unanswered::TimedOut => push_text(out, "unanswered timed-out"),
        Unanswered::Lost => push_text(out, "unanswered lost"),
        Unanswered::Encap(status) => {
            write!(out, "unanswered encap {status}")?;
            Ok(())
        }
        Unanswered::Unreadable => push_text(out, "unanswered unreadable"),
    }
}

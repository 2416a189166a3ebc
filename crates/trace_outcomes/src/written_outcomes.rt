//! Outcomes as they are written.

ghost use Rattle.std.specs.Prelude.{◌≡◌, ◌++◌, OnOk, IfOk, string_bytes, flat_map, codes, decimal};
ghost use Rattle.trace_words.specs.Words.{bytes_word};
ghost use Rattle.trace_lines.specs.Kinds.{instance_word};
ghost use Rattle.trace_outcomes.specs.WrittenOutcomes.{fault_word, delivery_word, object_words, verdict_words, triad_words, refusal_words, reason_words, recipient_words, frame_line, outgoing_line, notice_words, notice_line, answer_text, outcome_text};

use cip_events::{
    Answer, Delivery, Frame, Notice, Outcome, OutgoingDatagram, Reason, Recipient, StepFault,
    Unanswered, Verdict,
};
use cip_types::{Fault, Mismatch, OutOfMemory, Triad};
use std::alloc::Global;
use trace_words::{
    push_bytes, push_digits, push_last_bytes, push_node, push_nodes, push_number, push_text,
};

/// The lines for the outcome of event number `number`: the verdict, and then the frames, the datagrams and the notices
/// of its answer, each in order; or the fault.
pub fn write_outcome(alloc: Global, number: u64, outcome: &Outcome) -> Result<String, OutOfMemory>
    ensures { IfOk result (λ text. string_bytes text ≡ outcome_text number outcome.now) }
{
    let mut text = String::new(alloc);
    push_outcome(&mut text, number, outcome)?;
    Ok(text)
}

/// Appends the same lines. If an allocation is refused, a part of them may be appended.
pub fn push_outcome(out: &mut String, number: u64, outcome: &Outcome) -> Result<(), OutOfMemory>
    ensures { OnOk result (string_bytes out.new ≡ string_bytes out.old ++ outcome_text number outcome.now) }
{
    match outcome {
        Ok(answer) => push_answer(out, number, answer),
        Err(fault) => Ok(write!(out, "{number} fault {}\n", fault_name(*fault))?),
    }
}

fn push_answer(out: &mut String, number: u64, answer: &Answer) -> Result<(), OutOfMemory>
    ensures { OnOk result (string_bytes out.new ≡ string_bytes out.old ++ answer_text number answer.now) }
{
    push_front(out, number, " ")?;
    push_verdict(out, &answer.verdict)?;
    out.push_str("\n")?;
    push_frames(out, number, answer.frames.as_slice())?;
    push_outgoing_datagrams(out, number, answer.datagrams.as_slice())?;
    push_notices(out, number, answer.notices.as_slice())
}

/// Appends what a line begins with: the number of the event, and what follows it.
fn push_front(out: &mut String, number: u64, behind: &str) -> Result<(), OutOfMemory>
    ensures { OnOk result (string_bytes out.new ≡ string_bytes out.old ++ (decimal number ++ behind.now)) }
{
    push_number(out, number)?;
    push_text(out, behind)
}

/// The name of a fault, which is that of its case.
fn fault_name(fault: StepFault) -> &'static str
    ensures { result.now ≡ fault_word fault }
{
    match fault {
        StepFault::OutOfMemory => "OutOfMemory",
        StepFault::TickTooLong => "TickTooLong",
        StepFault::ClockEnd => "ClockEnd",
        StepFault::NoSuchPoint => "NoSuchPoint",
        StepFault::WrongLength => "WrongLength",
        StepFault::NoSuchSlot => "NoSuchSlot",
        StepFault::NotAllowedNow => "NotAllowedNow",
    }
}

/// Appends the words of a verdict. If an allocation is refused, a part of them may be appended.
pub fn push_verdict(out: &mut String, verdict: &Verdict) -> Result<(), OutOfMemory>
    ensures { OnOk result (string_bytes out.new ≡ string_bytes out.old ++ verdict_words verdict.now) }
{
    match verdict {
        Verdict::Done => push_text(out, "done"),
        Verdict::BadFrame => push_text(out, "bad-frame"),
        Verdict::Ignored => push_text(out, "ignored"),
        Verdict::Value(bytes) => {
            out.push_str("value ")?;
            push_bytes(out, bytes.as_slice())
        }
        Verdict::Delivered(delivery) => push_text(out, delivery_name(*delivery)),
        Verdict::Replied {
            number,
            status,
            additional,
            data,
        } => {
            write!(out, "replied {number} ")?;
            push_digits(out, &[*status])?;
            push_reply_bytes(out, additional.as_slice(), data.as_slice())
        }
        Verdict::Asked {
            number,
            service,
            class,
            instance,
            attribute,
            data,
        } => {
            write!(out, "asked {number} ")?;
            push_object(
                out,
                *service,
                *class,
                *instance,
                *attribute,
                data.as_slice(),
            )
        }
    }
}

/// Appends the service code, class, instance and attribute of a request, and its data.
fn push_object(
    out: &mut String,
    service: u8,
    class: u32,
    instance: u32,
    attribute: Option<u32>,
    data: &[u8],
) -> Result<(), OutOfMemory>
    ensures { OnOk result
        (string_bytes out.new ≡ string_bytes out.old ++ object_words service class instance attribute «data».now) }
{
    write!(out, "{service} {class} {instance} ")?;
    push_attribute(out, attribute)?;
    out.push_str(" ")?;
    push_bytes(out, data)
}

/// Appends the number of an attribute, or a dash for none.
fn push_attribute(out: &mut String, attribute: Option<u32>) -> Result<(), OutOfMemory>
    ensures { OnOk result (string_bytes out.new ≡ string_bytes out.old ++ instance_word attribute) }
{
    match attribute {
        Some(attribute) => push_number(out, u64::from(attribute)),
        None => push_text(out, "-"),
    }
}

/// Appends the bytes of an additional status and the data of a reply, each behind a space.
fn push_reply_bytes(out: &mut String, additional: &[u8], data: &[u8]) -> Result<(), OutOfMemory>
    ensures { OnOk result
        (string_bytes out.new ≡ string_bytes out.old
        ++ (codes " " ++ (bytes_word additional.now ++ (codes " " ++ bytes_word «data».now)))) }
{
    out.push_str(" ")?;
    push_bytes(out, additional)?;
    out.push_str(" ")?;
    push_bytes(out, data)
}

/// The word for the delivery of a datagram.
fn delivery_name(delivery: Delivery) -> &'static str
    ensures { result.now ≡ delivery_word delivery }
{
    match delivery {
        Delivery::Applied => "applied",
        Delivery::Idle => "idle",
        Delivery::Heartbeat => "heartbeat",
        Delivery::Duplicate => "duplicate",
        Delivery::Old => "old",
        Delivery::UnknownId => "unknown",
        Delivery::WrongSize => "wrong-size",
        Delivery::Malformed => "malformed",
    }
}

fn push_frames(out: &mut String, number: u64, frames: &[Frame]) -> Result<(), OutOfMemory>
    ensures { OnOk result (string_bytes out.new ≡ string_bytes out.old ++ flat_map (frame_line number) frames.now) }
{
    for frame in frames {
        push_front(out, number, " ")?;
        push_recipient(out, frame.to)?;
        push_last_bytes(out, frame.bytes.as_slice())?;
    }
    Ok(())
}

fn push_outgoing_datagrams(
    out: &mut String,
    number: u64,
    outgoing_datagrams: &[OutgoingDatagram],
) -> Result<(), OutOfMemory>
    ensures { OnOk result
        (string_bytes out.new ≡ string_bytes out.old ++ flat_map (outgoing_line number) outgoing_datagrams.now) }
{
    for outgoing in outgoing_datagrams {
        push_front(out, number, " send ")?;
        push_node(out, outgoing.address)?;
        out.push_str(" ")?;
        push_nodes(out, outgoing.nodes.as_slice())?;
        push_last_bytes(out, outgoing.bytes.as_slice())?;
    }
    Ok(())
}

fn push_notices(out: &mut String, number: u64, notices: &[Notice]) -> Result<(), OutOfMemory>
    ensures { OnOk result (string_bytes out.new ≡ string_bytes out.old ++ flat_map (notice_line number) notices.now) }
{
    for notice in notices {
        push_front(out, number, " note ")?;
        push_notice_words(out, *notice)?;
        out.push_str("\n")?;
    }
    Ok(())
}

fn push_recipient(out: &mut String, recipient: Recipient) -> Result<(), OutOfMemory>
    ensures { OnOk result (string_bytes out.new ≡ string_bytes out.old ++ recipient_words recipient) }
{
    match recipient {
        Recipient::Stream(stream) => {
            out.push_str("frame ")?;
            push_number(out, u64::from(stream))
        }
        Recipient::Peer(node) => {
            out.push_str("reply ")?;
            push_node(out, node)
        }
    }
}

fn push_notice_words(out: &mut String, notice: Notice) -> Result<(), OutOfMemory>
    ensures { OnOk result (string_bytes out.new ≡ string_bytes out.old ++ notice_words notice) }
{
    match notice {
        Notice::Opened(triad, id) => {
            push_triad(out, "opened ", triad)?;
            out.push_str(" ")?;
            push_digits(out, id.0.to_be_bytes().as_slice())
        }
        Notice::Closed(triad) => push_triad(out, "closed ", triad),
        Notice::Expired(triad) => push_triad(out, "expired ", triad),
        Notice::Dropped(triad) => push_triad(out, "dropped ", triad),
        Notice::Replaced(triad) => push_triad(out, "replaced ", triad),
        Notice::StreamClosed(stream) => Ok(write!(out, "stream-closed {stream}")?),
        Notice::Slot(slot, state) => Ok(write!(out, "slot {slot} {state}")?),
        Notice::Refused(slot, why) => {
            write!(out, "refused {slot} ")?;
            push_reason(out, why)
        }
        Notice::NoIds(slot) => Ok(write!(out, "no-ids {slot}")?),
        Notice::Reset(kind) => Ok(write!(out, "reset {kind}")?),
        Notice::Unanswered(number, why) => push_unanswered(out, number, why),
    }
}

fn push_unanswered(out: &mut String, number: u32, why: Unanswered) -> Result<(), OutOfMemory>
    ensures { OnOk result
        (string_bytes out.new ≡ string_bytes out.old ++ notice_words (Notice.Unanswered number why)) }
{
    match why {
        Unanswered::TimedOut => Ok(write!(out, "unanswered {number} timed-out")?),
        Unanswered::Lost => Ok(write!(out, "unanswered {number} lost")?),
        Unanswered::Encap(status) => Ok(write!(out, "unanswered {number} encap {status}")?),
        Unanswered::Unreadable => Ok(write!(out, "unanswered {number} unreadable")?),
    }
}

fn push_reason(out: &mut String, why: Reason) -> Result<(), OutOfMemory>
    ensures { OnOk result (string_bytes out.new ≡ string_bytes out.old ++ reason_words why) }
{
    match why {
        Reason::Encap(status) => Ok(write!(out, "encap {status}")?),
        Reason::Unreadable => push_text(out, "unreadable"),
        Reason::Mismatch(Mismatch::Triad) => push_text(out, "mismatch Triad"),
        Reason::Mismatch(Mismatch::Id) => push_text(out, "mismatch Id"),
        Reason::Mismatch(Mismatch::Api) => push_text(out, "mismatch Api"),
        Reason::Cip(fault) | Reason::Mismatch(Mismatch::Refused(fault)) => push_refusal(out, fault),
    }
}

fn push_refusal(out: &mut String, fault: Fault) -> Result<(), OutOfMemory>
    ensures { OnOk result (string_bytes out.new ≡ string_bytes out.old ++ refusal_words fault) }
{
    out.push_str("cip ")?;
    push_digits(out, &[fault.general])?;
    out.push_str(" ")?;
    match fault.extended {
        Some(extended) => push_digits(out, extended.to_be_bytes().as_slice()),
        None => push_text(out, "-"),
    }
}

fn push_triad(out: &mut String, front: &str, triad: Triad) -> Result<(), OutOfMemory>
    ensures { OnOk result (string_bytes out.new ≡ string_bytes out.old ++ (front.now ++ triad_words triad)) }
{
    write!(
        out,
        "{front}{} {} {}",
        triad.serial, triad.vendor, triad.originator
    )?;
    Ok(())
}

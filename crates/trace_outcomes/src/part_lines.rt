//! The lines of a recorded outcome.

ghost use Rattle.std.specs.Prelude.{◌≡◌};
ghost use Rattle.trace_words.specs.Reader.{unread_words, Takes, next_word};
ghost use Rattle.trace_outcomes.specs.Parts.{bytes_to, outgoing_reader, fault_of, verdict_of, replied_reader, own_request_reader, part_reader};

use crate::notice_lines::read_notice;
use crate::part::Part;
use cip_events::{
    Consumers, Delivery, Frame, OutgoingDatagram, Recipient, SmallBytes, StepFault, Verdict,
};
use std::alloc::Global;
use trace_words::{TextFault, Words};

/// What follows the number of an event: a part of its outcome.
pub fn read_part(alloc: Global, words: &mut Words<'_>) -> Result<Part, TextFault>
    ensures { Takes (part_reader (unread_words words.old)) result (unread_words words.new) }
{
    let word = words.word()?;
    match word {
        "value" => {
            let bytes = words.bytes(alloc)?;
            words.last(Part::Verdict(Verdict::Value(bytes)))
        }
        "replied" => read_replied(alloc, words).map(Part::Verdict),
        "asked" => read_own_request(alloc, words).map(Part::Verdict),
        "fault" => {
            let fault = read_fault(words)?;
            words.last(Part::Fault(fault))
        }
        "reply" => {
            let node = words.node()?;
            read_bytes_to(alloc, words, Recipient::Peer(node)).map(Part::Frame)
        }
        "frame" => {
            let stream = words.u16()?;
            read_bytes_to(alloc, words, Recipient::Stream(stream)).map(Part::Frame)
        }
        "send" => read_outgoing(alloc, words).map(Part::Datagram),
        "note" => read_notice(alloc, words).map(Part::Notice),
        _ => {
            let verdict = read_verdict(word).ok_or(TextFault::Bad)?;
            words.last(Part::Verdict(verdict))
        }
    }
}

/// A verdict without data by its word.
#[tactic(auto, unfolding(crate::specs::Parts::verdict_of))]
fn read_verdict(word: &str) -> Option<Verdict>
    ensures { result ≡ verdict_of word.now }
{
    match word {
        "done" => Some(Verdict::Done),
        "bad-frame" => Some(Verdict::BadFrame),
        "ignored" => Some(Verdict::Ignored),
        "applied" => Some(Verdict::Delivered(Delivery::Applied)),
        "idle" => Some(Verdict::Delivered(Delivery::Idle)),
        "heartbeat" => Some(Verdict::Delivered(Delivery::Heartbeat)),
        "duplicate" => Some(Verdict::Delivered(Delivery::Duplicate)),
        "old" => Some(Verdict::Delivered(Delivery::Old)),
        "unknown" => Some(Verdict::Delivered(Delivery::UnknownId)),
        "wrong-size" => Some(Verdict::Delivered(Delivery::WrongSize)),
        "malformed" => Some(Verdict::Delivered(Delivery::Malformed)),
        _ => None,
    }
}

/// What follows `replied`: `NUMBER STATUS ADDITIONAL DATA`.
fn read_replied(alloc: Global, words: &mut Words<'_>) -> Result<Verdict, TextFault>
    ensures { Takes (replied_reader (unread_words words.old)) result (unread_words words.new) }
{
    let replied = Verdict::Replied {
        number: words.u32()?,
        status: words.general(alloc)?,
        additional: words.bytes(alloc)?,
        data: words.bytes(alloc)?,
    };
    words.last(replied)
}

/// What follows `asked`: `NUMBER SERVICE CLASS INSTANCE ATTRIBUTE DATA`.
fn read_own_request(alloc: Global, words: &mut Words<'_>) -> Result<Verdict, TextFault>
    ensures { Takes (own_request_reader (unread_words words.old)) result (unread_words words.new) }
{
    let request = Verdict::Asked {
        number: words.u64()?,
        service: words.u8()?,
        class: words.u32()?,
        instance: words.u32()?,
        attribute: words.u32_or_none()?,
        data: words.bytes(alloc)?,
    };
    words.last(request)
}

/// A fault by its name.
#[tactic(auto, unfolding(crate::specs::Parts::fault_of))]
fn read_fault(words: &mut Words<'_>) -> Result<StepFault, TextFault>
    ensures { Takes (next_word fault_of (unread_words words.old)) result (unread_words words.new) }
{
    match words.word()? {
        "OutOfMemory" => Ok(StepFault::OutOfMemory),
        "TickTooLong" => Ok(StepFault::TickTooLong),
        "ClockEnd" => Ok(StepFault::ClockEnd),
        "NoSuchPoint" => Ok(StepFault::NoSuchPoint),
        "WrongLength" => Ok(StepFault::WrongLength),
        "NoSuchSlot" => Ok(StepFault::NoSuchSlot),
        "NotAllowedNow" => Ok(StepFault::NotAllowedNow),
        _ => Err(TextFault::Bad),
    }
}

fn read_bytes_to(alloc: Global, words: &mut Words<'_>, to: Recipient) -> Result<Frame, TextFault>
    ensures { Takes (bytes_to to (unread_words words.old)) result (unread_words words.new) }
{
    let bytes = words.bytes(alloc)?;
    words.last(Frame { to, bytes })
}

/// What follows `send`: `ADDRESS NODES HEX`.
fn read_outgoing(alloc: Global, words: &mut Words<'_>) -> Result<OutgoingDatagram, TextFault>
    ensures { Takes (outgoing_reader (unread_words words.old)) result (unread_words words.new) }
{
    let outgoing = OutgoingDatagram {
        address: words.node()?,
        nodes: Consumers::from_vec(words.nodes(alloc)?.into_vec()),
        bytes: SmallBytes::from_vec(words.bytes(alloc)?.into_vec()),
    };
    words.last(outgoing)
}

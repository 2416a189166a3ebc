//! An outcome as it is recorded, part by part.

ghost use Rattle.std.specs.Prelude.{◌≡◌, ◌++◌, ◌∷◌, [], IfOk};
ghost use Rattle.trace_words.specs.Reader.{Finds};
ghost use Rattle.trace_text.specs.Recorded.{with_frame, with_datagram, recorded_with};

use cip_events::{Answer, Frame, Outcome, OutgoingDatagram};
use cip_types::{Items, OutOfMemory};
use std::alloc::Global;
use trace_outcomes::Part;
use trace_words::TextFault;

/// A recorded outcome with one part more.
pub fn recorded_with(
    alloc: Global,
    recorded: Option<Outcome>,
    part: Part,
) -> Result<Outcome, TextFault>
    ensures { Finds (recorded_with recorded part) result }
{
    match (recorded, part) {
        (None, Part::Verdict(verdict)) => Ok(Ok(Answer::plain(alloc, verdict))),
        (None, Part::Fault(fault)) => Ok(Err(fault)),
        (Some(Ok(answer)), Part::Frame(frame)) => Ok(Ok(with_frame(answer, frame)?)),
        (Some(Ok(answer)), Part::Datagram(outgoing)) => Ok(Ok(with_datagram(answer, outgoing)?)),
        (Some(Ok(answer)), Part::Notice(notice)) => Ok(Ok(Answer {
            notices: with_item(answer.notices, notice)?,
            ..answer
        })),
        _ => Err(TextFault::Bad),
    }
}

fn with_frame(answer: Answer, frame: Frame) -> Result<Answer, TextFault>
    ensures { Finds (with_frame answer frame) result }
{
    if !answer.datagrams.as_slice().is_empty() || !answer.notices.as_slice().is_empty() {
        return Err(TextFault::Bad);
    }
    Ok(Answer {
        frames: with_item(answer.frames, frame)?,
        ..answer
    })
}

fn with_datagram(answer: Answer, outgoing: OutgoingDatagram) -> Result<Answer, TextFault>
    ensures { Finds (with_datagram answer outgoing) result }
{
    if !answer.notices.as_slice().is_empty() {
        return Err(TextFault::Bad);
    }
    Ok(Answer {
        datagrams: with_item(answer.datagrams, outgoing)?,
        ..answer
    })
}

/// Values, and one more. The first value takes the memory of one alone, since most outcomes have one frame, one
/// datagram or one notice; from the second on the capacity is doubled.
pub fn with_item<T: Drop>(items: Items<T>, item: T) -> Result<Items<T>, OutOfMemory>
    ensures { IfOk result (λ more. more ≡ items ++ item ∷ []) }
{
    let mut vec = items.into_vec();
    if vec.is_empty() {
        vec.reserve_exact(1)?;
    }
    vec.push(item)?;
    Ok(Items::from_vec(vec))
}

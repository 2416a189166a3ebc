//! The sum of an outcome over the text of its lines.

ghost use Rattle.std.specs.Prelude.{◌≡◌, ◌↔◌, IsTrue, Ok};
ghost use Rattle.trace_outcomes.specs.Sums.Sums.{HasSumOver, sum_over};

use crate::sums::check_sequence::crc32;
use crate::sums::verdict::{PlainVerdict, plain_of};
use cip_events::{Answer, Outcome};

/// What a record has of an outcome in place of its lines: the verdict, how many frames, datagrams and notices there are,
/// and the CRC-32 of the lines.
#[derive(Clone, Copy, Debug, PartialEq, Eq)]
pub struct OutcomeSum {
    pub verdict: PlainVerdict,
    pub frames: u64,
    pub datagrams: u64,
    pub notices: u64,
    pub crc: u32,
}

/// A sum in the place of the outcome of an entry, whose index is counted from 0.
#[derive(Clone, Copy, Debug, PartialEq, Eq)]
pub struct PlacedSum {
    pub place: usize,
    pub sum: OutcomeSum,
}

/// The sum of an outcome whose lines are this text. A fault has none, and neither has an answer whose verdict has data.
/// Takes no memory.
pub fn sum_over(text: &[u8], outcome: &Outcome) -> Option<OutcomeSum>
    ensures { result ≡ sum_over text.now outcome.now }
{
    match outcome {
        Ok(answer) => answer_sum(text, answer),
        Err(_) => None,
    }
}

fn answer_sum(text: &[u8], answer: &Answer) -> Option<OutcomeSum>
    ensures { result ≡ sum_over text.now (Ok answer.now) }
{
    let verdict = plain_of(&answer.verdict)?;
    Some(OutcomeSum {
        verdict,
        frames: answer.frames.as_slice().len() as u64,
        datagrams: answer.datagrams.as_slice().len() as u64,
        notices: answer.notices.as_slice().len() as u64,
        crc: crc32(text),
    })
}

/// Whether an outcome whose lines are this text has the recorded sum, if one is recorded. Takes no memory.
pub fn has_sum(text: &[u8], outcome: &Outcome, recorded: Option<OutcomeSum>) -> bool
    ensures { IsTrue result ↔ HasSumOver text.now outcome.now recorded }
{
    match recorded {
        None => true,
        Some(recorded) => sum_over(text, outcome) == Some(recorded),
    }
}

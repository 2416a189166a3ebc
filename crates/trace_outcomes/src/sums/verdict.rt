//! Verdicts of one word.

ghost use Rattle.std.specs.Prelude.{◌≡◌};
ghost use Rattle.trace_outcomes.specs.Sums.Sums.{plain_of, verdict_in};
ghost use Rattle.trace_outcomes.specs.Sums.SumLines.{plain_verdict_of};

use cip_events::{Delivery, Verdict};

/// A verdict that is one word, without data.
#[derive(Clone, Copy, Debug, PartialEq, Eq)]
pub enum PlainVerdict {
    Done,
    BadFrame,
    Ignored,
    Delivered(Delivery),
}

/// A verdict without data; None if it has some.
pub(crate) fn plain_of(verdict: &Verdict) -> Option<PlainVerdict>
    ensures { result ≡ plain_of verdict.now }
{
    match verdict {
        Verdict::Done => Some(PlainVerdict::Done),
        Verdict::BadFrame => Some(PlainVerdict::BadFrame),
        Verdict::Ignored => Some(PlainVerdict::Ignored),
        Verdict::Delivered(delivery) => Some(PlainVerdict::Delivered(*delivery)),
        _ => None,
    }
}

/// A verdict by its word.
#[tactic(auto, unfolding(crate::specs::Sums::SumLines::plain_verdict_of))]
pub(crate) fn read_plain_verdict(word: &str) -> Option<PlainVerdict>
    ensures { result ≡ plain_verdict_of word.now }
{
    match word {
        "done" => Some(PlainVerdict::Done),
        "bad-frame" => Some(PlainVerdict::BadFrame),
        "ignored" => Some(PlainVerdict::Ignored),
        "applied" => Some(PlainVerdict::Delivered(Delivery::Applied)),
        "idle" => Some(PlainVerdict::Delivered(Delivery::Idle)),
        "heartbeat" => Some(PlainVerdict::Delivered(Delivery::Heartbeat)),
        "duplicate" => Some(PlainVerdict::Delivered(Delivery::Duplicate)),
        "old" => Some(PlainVerdict::Delivered(Delivery::Old)),
        "unknown" => Some(PlainVerdict::Delivered(Delivery::UnknownId)),
        "wrong-size" => Some(PlainVerdict::Delivered(Delivery::WrongSize)),
        "malformed" => Some(PlainVerdict::Delivered(Delivery::Malformed)),
        _ => None,
    }
}

/// The verdict itself. Takes no memory.
pub(crate) fn verdict_in(plain: PlainVerdict) -> Verdict
    ensures { result ≡ verdict_in plain }
{
    match plain {
        PlainVerdict::Done => Verdict::Done,
        PlainVerdict::BadFrame => Verdict::BadFrame,
        PlainVerdict::Ignored => Verdict::Ignored,
        PlainVerdict::Delivered(delivery) => Verdict::Delivered(delivery),
    }
}

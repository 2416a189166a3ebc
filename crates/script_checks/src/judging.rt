//! How an expectation is judged: what is decided at a moment.

ghost use Rattle.std.specs.Prelude.{◌≡◌};
ghost use Rattle.script_checks.specs.Judging.{JudgementsAreExact, deadline, judgement};

/// What is decided of an expectation at a moment.
#[derive(Clone, Copy, Debug, PartialEq, Eq)]
pub enum ExpectationState {
    /// Nothing: its condition does not hold, and its time is not over.
    Waiting,
    /// It is met: its condition holds, and its time is not over.
    Met,
    /// It has failed: its time is over.
    Failed,
}

/// The last moment at which an expectation can be met that begins now. Times are in milliseconds.
pub fn deadline(now_ms: u64, within_ms: u32) -> u64
    ensures { result ≡ deadline now_ms within_ms }
{
    now_ms.saturating_add(u64::from(within_ms))
}

/// What is decided now of an expectation that can be met until then, whose condition holds or not.
pub fn judged(holds: bool, now_ms: u64, until_ms: u64) -> ExpectationState
    ensures { result ≡ judgement holds now_ms until_ms }
{
    if until_ms < now_ms {
        return ExpectationState::Failed;
    }
    if holds {
        ExpectationState::Met
    } else {
        ExpectationState::Waiting
    }
}

/// An expectation is met exactly where its condition holds up to its deadline, fails exactly behind it, and waits else.
pub fn judgements_are_exact()
    ensures { JudgementsAreExact }
{}

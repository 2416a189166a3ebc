//! Explicit requests that end without a reply.

ghost use Rattle.std.specs.Prelude.{◌≡◌, ◌++◌, OnOk, filter, map};
ghost use Rattle.std.specs.List.{list_any};
ghost use Rattle.scanner_table.specs.Explicit.{others, unanswered_notice};
ghost use Rattle.explicit_requests.specs.Endings.{ends, why_of};

use cip_events::{Notice, Unanswered};
use cip_types::{Ms, OutOfMemory};
use scanner_table::PendingExplicit;

/// What ends explicit requests without a reply.
#[derive(Clone, Copy)]
pub enum ExplicitEnd {
    /// The requests whose deadline has come at this time end.
    Late(Ms),
    /// The requests of this stream end with it.
    Over(u16),
}

fn ends(end: ExplicitEnd, explicit: &PendingExplicit) -> bool
    ensures { result ≡ ends end explicit.now }
{
    match end {
        ExplicitEnd::Late(clock) => explicit.deadline.0 <= clock.0,
        ExplicitEnd::Over(stream) => explicit.stream == stream,
    }
}

fn why_of(end: ExplicitEnd) -> Unanswered
    ensures { result ≡ why_of end }
{
    match end {
        ExplicitEnd::Late(_) => Unanswered::TimedOut,
        ExplicitEnd::Over(_) => Unanswered::Lost,
    }
}

/// Returns whether one of the requests ends. Takes no memory.
#[inline(always)]
pub fn ends_any(end: ExplicitEnd, pending: &[PendingExplicit]) -> bool
    ensures { result ≡ list_any (ends end) pending.now }
{
    pending.iter().any(|explicit| ends(end, explicit))
}

/// Adds a notice for each request that ends, in their order. `OutOfMemory` is the only error.
pub fn report_ended(
    end: ExplicitEnd,
    pending: &[PendingExplicit],
    notices: &mut Vec<Notice>,
) -> Result<(), OutOfMemory>
    ensures { OnOk result
        (notices.new.items ≡ notices.old.items
        ++ map (unanswered_notice (why_of end)) (filter (ends end) pending.now)) }
{
    for explicit in pending {
        if ends(end, explicit) {
            notices.push(Notice::Unanswered(explicit.number, why_of(end)))?;
        }
    }
    Ok(())
}

/// Removes the requests that end. The others stay, in their order. Takes no memory.
pub fn keep_others(end: ExplicitEnd, pending: &mut Vec<PendingExplicit>)
    ensures { pending.new.items ≡ others (ends end) pending.old.items }
{
    pending.retain(|explicit| !ends(end, explicit));
}

//! The explicit requests without a reply yet.

ghost use Rattle.std.specs.Prelude.{◌≡◌, ◌++◌, ◌∷◌, [], OnOk, OnErr, find};
ghost use Rattle.std.specs.List.{list_any};
ghost use Rattle.cip_tables.specs.Wakes.{explicit_due};
ghost use Rattle.scanner_table.specs.Explicit.{awaits, has_number, is_request, others};

use cip_types::{Ms, OutOfMemory};
use scanner_table::PendingExplicit;

/// Returns the request of this number that waits for its reply on a stream, if any. The number is the scanner's, which is
/// the request's sender context. Takes no memory.
///
/// Volume 2, chapter 2, sender context.
pub fn find_pending(
    pending: &[PendingExplicit],
    stream: u16,
    request: u64,
) -> Option<PendingExplicit>
    ensures { result ≡ find (awaits stream request) pending.now }
{
    pending.iter().copied().find(|explicit| explicit.stream == stream
        && explicit.request == request)
}

/// Returns whether the application gave a request this number. Takes no memory.
pub(crate) fn has_number(pending: &[PendingExplicit], number: u32) -> bool
    ensures { result ≡ list_any (has_number number) pending.now }
{
    pending.iter().any(|explicit| explicit.number == number)
}

/// Returns the first deadline of the requests; `u64::MAX` if there is none. Takes no memory.
pub fn first_deadline(pending: &[PendingExplicit]) -> Ms
    ensures { result.0 ≡ explicit_due pending.now }
{
    let mut first = u64::MAX;
    for explicit in pending {
        first = first.min(explicit.deadline.0);
    }
    Ms(first)
}

/// Adds a request behind the others. Without memory for it the list stays.
pub fn add_pending(
    pending: &mut Vec<PendingExplicit>,
    explicit: PendingExplicit,
) -> Result<(), OutOfMemory>
    ensures ok { OnOk result (pending.new.items ≡ pending.old.items ++ explicit ∷ []) }
    ensures err { OnErr result (pending.new.items ≡ pending.old.items) }
{
    pending.push(explicit)?;
    Ok(())
}

/// Removes the request of this number. The others stay, in their order. Takes no memory.
pub fn remove_pending(pending: &mut Vec<PendingExplicit>, request: u64)
    ensures { pending.new.items ≡ others (is_request request) pending.old.items }
{
    pending.retain(|explicit| explicit.request != request);
}

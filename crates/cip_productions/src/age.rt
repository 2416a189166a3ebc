//! How long a connection has accepted no datagram.

ghost use Rattle.std.specs.Prelude.{◌≡◌, ◌≤◌, ◌^◌};
ghost use Rattle.cip_productions.specs.Ages.{age_of};

use crate::acceptance::Accepted;
use crate::beginning::first_deadline;
use cip_types::Ms;

/// The time since a connection accepted its newest datagram, or since its opening before the first one, in
/// milliseconds.
#[derive(Clone, Copy, PartialEq, Eq)]
pub enum Age {
    /// It has accepted no datagram. The time since it was opened.
    SinceOpening(Ms),
    /// The time since it accepted the newest one.
    SinceAccepted(Ms),
}

/// The age of the newest datagram that a connection accepted, by its watchdog's time-out and its deadline. Takes no
/// memory.
///
/// Volume 1, chapter 3, inactivity watchdog.
pub fn age_of(clock: Ms, last: Option<Accepted>, watchdog: Ms, deadline: Ms) -> Age
    requires time { clock.0 ≤ 2 ^ 48 }
    requires waits { watchdog.0 ≤ 5120000 }
    ensures { result ≡ age_of clock last watchdog deadline }
{
    match last {
        None => Age::SinceOpening(Ms(first_deadline(clock, watchdog).0.saturating_sub(deadline.0))),
        Some(_) => Age::SinceAccepted(Ms((clock.0 + watchdog.0).saturating_sub(deadline.0))),
    }
}

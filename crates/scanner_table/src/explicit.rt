//! Explicit requests of the application to the targets of a scanner.

ghost use Rattle.scanner_table.specs.ExplicitReplies.{RepliesAreToPending};
ghost use Rattle.scanner_table.specs.Pending.{ExplicitArePending};
ghost use Rattle.scanner_table.specs.Runs.{IsLaw};

use cip_types::Ms;

/// The explicit requests that wait for their replies at one time.
pub const MOST_EXPLICIT: usize = 16;

/// The least bytes of an explicit request: its service, and the size of its path.
pub const SHORTEST_EXPLICIT: usize = 2;

/// The most bytes of an explicit request.
///
/// Volume 1, chapter 3, unconnected messaging.
pub const LONGEST_EXPLICIT: usize = 504;

/// An explicit request without a reply yet.
#[derive(Clone, Copy, PartialEq, Eq)]
pub struct PendingExplicit {
    /// The number that the application gave the request.
    pub number: u32,
    /// The number of the request at the scanner, which is its sender context.
    pub request: u64,
    /// The stream over which the request went.
    pub stream: u16,
    /// The time at which the scanner gives the request up.
    pub deadline: Ms,
    /// The service of the request.
    pub service: u8,
}

/// At most 16 explicit requests wait for a reply. No two have one number, of the application's or of the scanner's. The
/// scanner's number is below the next request number. The stream of each is open, and each waits at most
/// `open_timeout` milliseconds from the present time on; the deadline of none has come, if that time is not 0.
///
/// A fresh table has the property, and each step and each list of events keeps it.
pub fn explicit_requests_are_pending()
    ensures { IsLaw ExplicitArePending }
{}

/// A reply that a scanner tells its application came as a frame over the stream of a pending request, with the number of
/// that request as its sender context. The verdict has the number that the application gave that request, and what the
/// message replies to its service; the request is pending no more.
pub fn replies_are_to_pending_requests()
    ensures { RepliesAreToPending }
{}

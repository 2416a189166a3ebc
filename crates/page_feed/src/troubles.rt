//! What of a device's events and a station's reports are troubles.

ghost use Rattle.std.specs.Prelude.{◌≡◌};
ghost use Rattle.page_feed.specs.Troubles.{is_trouble_notice};

use cip_events::{Notice, SlotPhase};

/// Whether a notice says that something went wrong: a connection timed out or was dropped, a slot timed out or is not opened, a
/// request stays without a reply, or a peer requests a reset.
pub(crate) fn is_trouble_notice(notice: &Notice) -> bool
    ensures { result ≡ is_trouble_notice notice.now }
{
    match notice {
        Notice::Expired(_) => true,
        Notice::Dropped(_) => true,
        Notice::Slot(_, state) => *state == SlotPhase::TimedOut.number(),
        Notice::Refused(_, _) => true,
        Notice::NoIds(_) => true,
        Notice::Reset(_) => true,
        Notice::Unanswered(_, _) => true,
        _ => false,
    }
}

/// Whether a station reports that a stream is open, which is no trouble.
pub(crate) fn is_opening(report: &str) -> bool {
    report.ends_with(" is open\n")
}

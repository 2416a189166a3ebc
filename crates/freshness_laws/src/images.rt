//! What the image of an established slot holds, and how old it is.

ghost use Rattle.freshness_laws.specs.Images.{ImagesHoldNewestData, SlotsAcceptInTime};

use device_laws::scanner_runs::runs_fold_events;
use device_laws::{accepted_numbers_are_newer, openings_are_numbered, ticks_leave_none_late};
use scanner_table::counters_never_fall;

/// The image of an established slot is the data of the newest datagram with new data that the slot's connection accepted: all that
/// the connection accepted after it repeats its count. Before the first accepted datagram the image is zeros.
///
/// Volume 1, chapter 3, class 1 transport.
pub fn images_hold_newest_data()
    ensures { ImagesHoldNewestData }
{
    runs_fold_events();
    openings_are_numbered();
    accepted_numbers_are_newer();
    ticks_leave_none_late();
    counters_never_fall();
}

/// The connection of an established slot has accepted its newest datagram at most its time-out ago. Before its first one, it was
/// established at most the time-out ago, or at most 10,000 ms ago if the time-out is shorter. So no image is older than its watchdog.
///
/// Volume 1, chapter 3, inactivity watchdog.
pub fn slots_accept_in_time()
    ensures { SlotsAcceptInTime }
{
    runs_fold_events();
    openings_are_numbered();
    accepted_numbers_are_newer();
    ticks_leave_none_late();
    counters_never_fall();
}

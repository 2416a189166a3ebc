//! How old outputs and images are over every schedule.

ghost use Rattle.schedule_ages.specs.Ages.{ConnectionsAcceptInTime, ImagesHoldNewestData, OtherOutputsAreActed, RunOutputsAreFresh, SlotsAcceptInTime};

use freshness_laws::{
    connections_accept_in_time, images_hold_newest_data,
    outputs_are_no_older_than_their_watchdog as outputs_of_runs, slots_accept_in_time,
};

/// In every schedule no output is older than its watchdog, by its own device's ticks.
///
/// - `accept`: each established connection accepted its newest datagram at most its time-out ago, or was opened within the first one.
/// - `run`: under an owner in run mode the output holds the owner's newest data, and the owner's newest accepted datagram brought
///   or repeated them at most the connection's time-out ago.
/// - `others`: every other output holds what its idle or its fault action left, or zeros if nothing ever did.
///
/// Volume 1, chapter 3, run/idle, inactivity watchdog and connection timeouts.
pub fn outputs_are_no_older_than_their_watchdog()
    ensures accept { ConnectionsAcceptInTime }
    ensures run { RunOutputsAreFresh }
    ensures others { OtherOutputsAreActed }
{
    connections_accept_in_time();
    outputs_of_runs();
}

/// In every schedule the image of an established slot is the data of the newest datagram with new data that its connection accepted,
/// and the newest one came at most the connection's time-out ago, by the scanner's own ticks. Before the first one it is zeros.
///
/// Volume 1, chapter 3, class 1 transport, inactivity watchdog.
pub fn images_are_no_older_than_their_watchdog()
    ensures newest { ImagesHoldNewestData }
    ensures accept { SlotsAcceptInTime }
{
    images_hold_newest_data();
    slots_accept_in_time();
}

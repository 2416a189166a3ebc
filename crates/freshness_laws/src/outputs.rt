//! How old what an adapter holds can be.

ghost use Rattle.freshness_laws.specs.InTime.{ConnectionsAcceptInTime};
ghost use Rattle.freshness_laws.specs.Outputs.{RunOutputsAreFresh, OtherOutputsAreActed};

use adapter_table::laws as steps;
use cip_tables::laws as runs;
use device_laws::outputs_hold_newest_data;

/// Each established connection of an adapter has accepted its newest datagram at most its time-out ago. Before its first one, it
/// was opened at most the time-out ago, or at most 10,000 ms ago if the time-out is shorter.
///
/// Volume 1, chapter 3, inactivity watchdog.
pub fn connections_accept_in_time()
    ensures { ConnectionsAcceptInTime }
{
    steps::tables_are_whole();
    steps::counters_never_fall();
}

/// No output is older than its watchdog.
///
/// - `run`: under an owner in run mode the output holds the owner's newest data, and the owner's newest accepted datagram brought
///   or repeated them at most the connection's time-out ago.
/// - `others`: every other output holds what its idle action or its fault action left there, as the last thing that happened to it,
///   or zeros if nothing ever did.
///
/// Volume 1, chapter 3, run/idle, inactivity watchdog and connection timeouts.
pub fn outputs_are_no_older_than_their_watchdog()
    ensures run { RunOutputsAreFresh }
    ensures others { OtherOutputsAreActed }
{
    outputs_hold_newest_data();
    connections_accept_in_time();
    runs::at_most_one_owner();
    steps::outputs_hold_what_is_left();
    steps::profiles_stay();
    steps::tables_are_whole();
}

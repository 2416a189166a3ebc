//! What an adapter says of its outputs.

ghost use Rattle.cip_tables.specs.Sound.{OverEveryRun};
ghost use Rattle.device_laws.specs.OwnerData.{RunOwnersHoldData, IdleOwnersHoldData};
ghost use Rattle.device_laws.specs.States.{OwnersAreSaid};

use adapter_table::laws as steps;
use cip_tables::laws as runs;

/// An adapter says that an output has an owner exactly if one established exclusive owner drives it; more than one
/// never does. The law holds of every table that a run reaches.
///
/// Volume 1, chapter 3, application connection types.
pub fn owners_are_said()
    ensures { OverEveryRun OwnersAreSaid }
{
    runs::at_most_one_owner();
}

/// An output holds what the newest data of its owner left there. The law holds after every run of a fresh adapter whose profile
/// has no fault, of each output that has an owner by what the adapter says.
///
/// - `run`: if the owner is in run mode, the output holds the data of the newest datagram with new data that the owner's
///   connection accepted.
/// - `idle`: if it is in idle mode, the output holds what the idle action left for that datagram: zeros, or what it held before.
///
/// In each case one event of the run is that datagram, what the connection accepted after it repeats its count, and no event
/// after it touched the output. Events that found no memory do not count.
///
/// Volume 1, chapter 3, run/idle.
pub fn outputs_hold_newest_data()
    ensures run { RunOwnersHoldData }
    ensures idle { IdleOwnersHoldData }
{
    steps::outputs_hold_what_is_left();
    steps::accepted_datagrams_are_newer();
    steps::profiles_stay();
    steps::tables_are_whole();
}

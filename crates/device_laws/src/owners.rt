//! The owners of an output, one after another.

ghost use Rattle.device_laws.specs.Turns.{OwnersFollow, DriversGoOn, EndsStandBetween};

use adapter_table::laws as steps;
use cip_tables::laws as runs;

/// The data applied to an output come from one connection until that connection has ended. A connection ends when
/// a notice of an answer says that it was closed or has timed out; it is named by its opening number.
///
/// The law holds of each output in each run from a whole table, over the events that found memory:
///
/// - `follow`: once a connection has brought data, no other brings data until the first has ended.
/// - `first`: if the opening table has an established exclusive owner of the output, no other connection brings
///   data until that owner has ended.
/// - `between`: between data of two different connections the first connection ends.
///
/// Volume 1, chapter 3, application connection types.
pub fn owners_follow_one_another()
    ensures follow { OwnersFollow }
    ensures first { DriversGoOn }
    ensures between { EndsStandBetween }
{
    // Every table of the run is whole, so an output has one owner at most.
    steps::tables_are_whole();
    runs::tables_are_whole();
}

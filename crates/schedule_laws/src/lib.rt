//! Laws of every schedule of acts on a simulated network of many devices, in whatever order the acts deliver datagrams
//! and frames. A law call does nothing; its contract states the law.
//!
//! Owners and ids are here at the root, over the definitions of `segment_world` alone. `slot_openings` says whose an opening
//! number is. `order`, `devices` and `made_once` are the laws of order, over a chronicle beside the schedule; `points` says what
//! outputs and images hold, `connections` which points a connection joins.
//!
//! A device that restarts is several devices of a schedule, one for each life, with one address. So no law of order asks that
//! addresses differ, only that no two devices have a connection id in common; `restarts` says what follows for lives.
#![tactic(auto)]

ghost use Rattle.schedule_laws.specs.Owners.{OwnersFollow, OpenedOwnersFollow};
ghost use Rattle.schedule_laws.specs.Ids.{SchedulesKeepIdsDrawn, OpeningWorldsHaveIdsDrawn, IdsToComeAreUnsent, LaterConnectionsAcceptNoneOfIt, LaterSlotsTakeNoneOfIt, LaterGroupsSentNoneOfIt, RepliesEstablishTheirOwn};

mod connections;
mod devices;
mod made_once;
mod order;
mod points;
mod restarts;
mod slot_openings;

use adapter_table::laws as adapters;
use cip_tables::laws as tables;
pub use connections::connections_join_points;
use device_laws::{
    class3_ids_are_carried, counters_never_fall, ids_are_carried, ids_are_drawn_with_openings,
    owners_follow_one_another as owners_of_runs, plain_devices_stay_plain,
    replies_establish_their_own_slot as replies_of_steps,
};
pub use devices::{devices_stand, streams_follow_their_marks};
pub use made_once::{an_id_opens_one_connection, ids_are_used_once};
pub use order::{
    accepted_indexes_rise, an_id_names_one_opening, an_id_names_one_producer, ids_name_openings,
    one_opening_is_accepted, outputs_are_as_written, productions_are_numbered,
};
pub use points::{
    accepted_data_were_written, applied_outputs_are_in_order, images_are_in_order,
    images_hold_accepted_data,
};
pub use restarts::{
    a_life_is_named_by_its_ids, a_new_life_takes_nothing_older, schedules_without_ids_are_apart,
    schedules_without_ids_have_chronicles,
};
pub use slot_openings::an_opening_number_names_one_slot;

/// Between data of two connections that were applied to one output of an adapter, the first connection was closed or
/// timed out at that adapter.
///
/// - `follow`: in every schedule, for each device whose table is whole when the schedule begins.
/// - `opened`: in every schedule of a world that begins from configurations of lives, for each of its devices.
///
/// Volume 1, chapter 3, application connection types.
pub fn owners_follow_one_another()
    ensures follow { OwnersFollow }
    ensures opened { OpenedOwnersFollow }
{
    // The events of one device make a run of it, so the law of runs applies; fresh devices have whole tables.
    owners_of_runs();
    tables::tables_are_whole();
}

/// Each connection id that is anywhere in the world was allocated by a device: in a connection of class 1 or 3, in a datagram that was
/// ever sent, and in a frame that waits on a stream. The tables are whole. No frame that waits on a stream asks an object for the service
/// of an opening, and no request that waits for an application and came over a stream itself has it. Frames may open class 3
/// connections, and devices may have them.
///
/// - `schedule`: if it holds of a world, it holds after every schedule from that world.
/// - `opened`: it holds of a world that begins from configurations of lives.
///
/// Volume 1, chapter 3, network connection ids.
pub fn ids_are_drawn()
    ensures schedule { SchedulesKeepIdsDrawn }
    ensures opened { OpeningWorldsHaveIdsDrawn }
{
    // A step carries ids or allocates the next ones, keeps tables whole, moves the counter only forward, and takes no block
    // from a device.
    ids_are_carried();
    class3_ids_are_carried();
    plain_devices_stay_plain();
    tables::tables_are_whole();
    tables::next_id_never_falls();
    adapters::profiles_stay();
    tables::blocks_grow();
    counters_never_fall();
}

/// A connection that begins after a moment accepts no datagram that was sent by then, however late the network delivers
/// it. The laws hold of two moments of one schedule from a world of which `ids_are_drawn` holds, if at the later one no two devices
/// have a connection id in common.
///
/// - `unsent`: an id that a device may still allocate is on no datagram that was ever sent.
/// - `connections`: a connection of an adapter that was not in the table at the earlier moment accepts no datagram that
///   was sent by then.
/// - `slots`: no datagram that was sent by then is for an established point to point slot of a scanner whose opening
///   began after the earlier moment.
/// - `groups`: the T->O id of a multicast connection whose producer began after the earlier moment is on no datagram
///   that was sent by then.
///
/// A connection that joins an older group accepts what the group sent before.
///
/// Volume 1, chapter 3, network connection ids; Volume 2, chapter 3, multicast connections.
pub fn later_connections_accept_nothing_sent_before()
    ensures unsent { IdsToComeAreUnsent }
    ensures connections { LaterConnectionsAcceptNoneOfIt }
    ensures slots { LaterSlotsTakeNoneOfIt }
    ensures groups { LaterGroupsSentNoneOfIt }
{
    // The same laws of steps as for `ids_are_drawn`; later openings of a scanner have later ids.
    ids_are_carried();
    class3_ids_are_carried();
    plain_devices_stay_plain();
    ids_are_drawn_with_openings();
    tables::tables_are_whole();
    tables::next_id_never_falls();
    adapters::profiles_stay();
    tables::blocks_grow();
    counters_never_fall();
}

/// A late reply never establishes a later opening. In every schedule, a slot of a scanner becomes established only by the
/// successful reply that comes from its target and answers the request that the slot waits for.
///
/// The law holds of each scanner whose table is whole when the schedule begins.
///
/// Volume 1, chapter 3, Forward_Open service; Volume 2, chapter 2, sender context.
pub fn replies_establish_their_own_slot()
    ensures { RepliesEstablishTheirOwn }
{
    // The law of steps applies to each event of the device, since a run keeps its table whole.
    replies_of_steps();
    tables::tables_are_whole();
}

//! Lives of devices: a device that restarts is several devices of one schedule. Each call does nothing: its contract is the law.

ghost use Rattle.schedule_laws.specs.Lives.{SchedulesWithoutIdsAreApart};
ghost use Rattle.schedule_laws.specs.Order.{SchedulesWithoutIdsHaveChronicles};
ghost use Rattle.schedule_laws.specs.Restarts.{LivesAreNamedByIds, NewLivesTakeNothingOlder};

use crate::ids_are_drawn;
use crate::made_once::{an_id_opens_one_connection, ids_are_used_once};
use crate::order::{an_id_names_one_producer, ids_name_openings};
use crate::points::images_hold_accepted_data;
use adapter_table::laws::profiles_stay;
use cip_tables::laws::{blocks_grow, blocks_stay, next_id_never_falls, tables_are_whole};
use device_laws::{
    a_scanners_streams_come_with_events, answers_send_what_is_made, class3_ids_are_carried,
    connections_keep_their_ids, counters_never_fall, ids_are_carried, plain_devices_stay_plain,
    replies_carry_opened_ids, scanners_ask_for_their_own_ids, scanners_send_no_success,
    slots_have_the_ids_of_their_success,
};

/// No two devices have connection ids in common, if each begins with the ids of its own incarnation, and no act gives a device a
/// further block. So the laws that ask it of the tables at the end of a schedule hold of each such schedule.
///
/// Volume 1, chapter 3, network connection ids.
pub fn schedules_without_ids_are_apart()
    ensures { SchedulesWithoutIdsAreApart }
{
    blocks_stay();
}

/// Each such schedule of lives has its chronicle, of which the laws of order speak. Nothing is asked of the tables at its end.
pub fn schedules_without_ids_have_chronicles()
    ensures { SchedulesWithoutIdsHaveChronicles }
{
    schedules_without_ids_are_apart();
}

/// A life is named by each connection id that it has drawn: two lives that have drawn one id are one life. Each connection id, of
/// what was produced and of connections that were opened, is one that a life has drawn.
///
/// Volume 1, chapter 3, network connection ids.
pub fn a_life_is_named_by_its_ids()
    ensures { LivesAreNamedByIds }
{
    answers_send_what_is_made();
    ids_are_drawn();
    ids_are_carried();
    class3_ids_are_carried();
    plain_devices_stay_plain();
    tables_are_whole();
    next_id_never_falls();
    profiles_stay();
    blocks_grow();
    counters_never_fall();
    replies_carry_opened_ids();
    connections_keep_their_ids();
    slots_have_the_ids_of_their_success();
    scanners_send_no_success();
    scanners_ask_for_their_own_ids();
    a_scanners_streams_come_with_events();
    ids_are_used_once();
    an_id_opens_one_connection();
}

/// A new life takes nothing that was produced before it began, whichever life a datagram was sent to, and however late it comes.
///
/// - An adapter's life accepts none of it.
/// - A scanner's life accepts only what a multicast group sent that had a connection when the life began, through a connection of
///   its own that joined the group. So each of its images holds zeros, such data, or data that were produced later.
///
/// It holds of two moments of a schedule, at the earlier of which nothing has happened at the life.
///
/// Volume 1, chapter 3, network connection ids; Volume 2, chapter 3, multicast connections.
pub fn a_new_life_takes_nothing_older()
    ensures { NewLivesTakeNothingOlder }
{
    ids_name_openings();
    an_id_names_one_producer();
    an_id_opens_one_connection();
    images_hold_accepted_data();
}

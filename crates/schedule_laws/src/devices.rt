//! The devices of a schedule, and the streams between them.

ghost use Rattle.schedule_laws.specs.Devices.{SchedulesKeepDevices};
ghost use Rattle.schedule_laws.specs.Marks.{SchedulesFollowMarks};

use crate::ids_are_drawn;
use crate::made_once::an_id_opens_one_connection;
use adapter_table::laws::profiles_stay;
use cip_tables::laws::{blocks_grow, next_id_never_falls, tables_are_whole};
use device_laws::{
    a_scanners_streams_come_with_events, answers_send_what_is_made, class3_ids_are_carried,
    connections_keep_their_ids, counters_never_fall, devices_send_over_their_streams,
    ids_are_carried, plain_devices_stay_plain, replies_carry_opened_ids,
    scanners_ask_for_their_own_ids, scanners_send_no_success, slots_have_the_ids_of_their_success,
};

/// Each device keeps the address of its profile, and no two devices have one address, unless two of the configurations have one,
/// as lives of one device do. A stream that is open in a device's table stands in the world, between the device and the one whose
/// address is the stream's peer.
///
/// Volume 2, chapter 2, encapsulation sessions over TCP.
pub fn devices_stand()
    ensures { SchedulesKeepDevices }
{
    answers_send_what_is_made();
    ids_are_drawn();
    an_id_opens_one_connection();
    ids_are_carried();
    class3_ids_are_carried();
    plain_devices_stay_plain();
    tables_are_whole();
    next_id_never_falls();
    profiles_stay();
    blocks_grow();
    counters_never_fall();
    replies_carry_opened_ids();
    connections_keep_their_ids();
    slots_have_the_ids_of_their_success();
    scanners_send_no_success();
    scanners_ask_for_their_own_ids();
    a_scanners_streams_come_with_events();
}

/// A device sends over a stream only after it has received the mark that the stream has opened, and each stream that is open in
/// its table had its mark.
///
/// Volume 2, chapter 2, encapsulation sessions over TCP.
pub fn streams_follow_their_marks()
    ensures { SchedulesFollowMarks }
{
    ids_are_drawn();
    ids_are_carried();
    class3_ids_are_carried();
    plain_devices_stay_plain();
    tables_are_whole();
    next_id_never_falls();
    profiles_stay();
    blocks_grow();
    counters_never_fall();
    connections_keep_their_ids();
    a_scanners_streams_come_with_events();
    devices_send_over_their_streams();
}

//! Which points a connection joins, over every schedule of many devices. The call does nothing: its contract is the law.

ghost use Rattle.cip_encap.specs.ReadsBack.{ItemsReadBack};
ghost use Rattle.cip_epath.specs.ReadsBack.{PathReadsBack};
ghost use Rattle.schedule_laws.specs.JoinedPoints.{SchedulesJoinPoints};

use crate::ids_are_drawn;
use crate::made_once::an_id_opens_one_connection;
use adapter_table::laws::profiles_stay;
use answer_sizes::answers_are_small;
use cip_tables::laws::{blocks_grow, next_id_never_falls, tables_are_whole};
use device_laws::{
    a_scanners_streams_come_with_events, answers_send_what_is_made, class3_ids_are_carried,
    connections_keep_their_ids, counters_never_fall, ids_are_carried, openings_are_numbered,
    plain_devices_stay_plain, replies_carry_opened_ids, scanners_ask_for_their_own_ids,
    scanners_send_no_success, slots_have_the_ids_of_their_success,
};

/// The connection that a slot's opening opened at an adapter joins the points that the slot's configuration names: it consumes
/// the configured output or heartbeat point and produces the configured input, as an exclusive owner or not, to a group or to one
/// consumer, and the points have the configured lengths.
///
/// It holds of each slot that waits for the reply to the opening, or has the connection that came from it, at every moment of
/// every schedule. The numbers of the scanners' paths are within their fields, as they are in the program.
///
/// Volume 1, chapter 3, Forward_Open service, connection path and network connection parameters.
pub fn connections_join_points()
    ensures { SchedulesJoinPoints }
{
    paths_read_back();
    items_read_back();
    answers_are_small();
    answers_send_what_is_made();
    ids_are_drawn();
    an_id_opens_one_connection();
    ids_are_carried();
    class3_ids_are_carried();
    plain_devices_stay_plain();
    tables_are_whole();
    next_id_never_falls();
    profiles_stay();
    blocks_grow();
    counters_never_fall();
    openings_are_numbered();
    replies_carry_opened_ids();
    connections_keep_their_ids();
    slots_have_the_ids_of_their_success();
    scanners_send_no_success();
    scanners_ask_for_their_own_ids();
    a_scanners_streams_come_with_events();
}

fn paths_read_back()
    ensures { PathReadsBack }
{
    cip_epath::reads_back();
}

fn items_read_back()
    ensures { ItemsReadBack }
{
    cip_encap::reads_back();
}

//! What the devices of a line did is a schedule: histories and receipts that settle have a chronicle, and the laws of order hold
//! of it. Each call does nothing: its contract is the law.
#![tactic(auto)]

ghost use Rattle.settled_laws.specs.Settled.{SchedulesHaveChronicles, SettledHistoriesAreApart, SettledLinesAreInOrder, SettledWithoutIdsAreApart, SettledWithoutIdsAreInOrder, WhatSettlesApartIsInOrder};

use schedule_laws::{
    an_id_names_one_opening, an_id_names_one_producer, an_id_opens_one_connection,
    applied_outputs_are_in_order, devices_stand, ids_are_used_once, ids_name_openings,
    images_are_in_order, images_hold_accepted_data, outputs_are_as_written,
    productions_are_numbered, schedules_without_ids_are_apart, streams_follow_their_marks,
};
use segment_world::laws::projections_are_runs;

/// A schedule that settles histories and receipts has a chronicle. In its story the events of each device are the device's
/// history, and each receipt stands at its place with the schedule's answer.
///
/// The histories are of devices of which a world can be made, and which have no connection ids in common at the schedule's end.
pub fn settled_schedules_have_chronicles()
    ensures { SchedulesHaveChronicles }
{}

/// The laws of order hold of the chronicle of each schedule that settles histories and receipts.
///
/// So what the devices of a line did, each in a thread of its own, is in order, if it settles. What is accepted and applied in
/// order is so under the half-circle condition of the schedule.
///
/// Volume 1, chapter 3, class 1 transport; Volume 2, chapter 2, sequenced address item.
pub fn settled_lines_are_in_order()
    ensures { SettledLinesAreInOrder }
{
    productions_are_numbered();
    outputs_are_as_written();
    ids_name_openings();
    devices_stand();
    streams_follow_their_marks();
    ids_are_used_once();
    an_id_opens_one_connection();
    an_id_names_one_opening();
    an_id_names_one_producer();
    images_hold_accepted_data();
    applied_outputs_are_in_order();
    images_are_in_order();
}

/// No two devices of a settled schedule have connection ids in common, if a world can be made of their configurations, none of which
/// states ids, and no act gives a device a further block.
///
/// Volume 1, chapter 3, network connection ids.
pub fn settled_devices_without_ids_are_apart()
    ensures { SettledWithoutIdsAreApart }
{
    schedules_without_ids_are_apart();
}

/// So the laws of order hold of each such schedule, and nothing is asked of the tables at its end.
pub fn settled_lines_without_ids_are_in_order()
    ensures { SettledWithoutIdsAreInOrder }
{
    settled_devices_without_ids_are_apart();
    settled_lines_are_in_order();
}

/// No two devices of a settled schedule have connection ids in common, if none have one in common after their histories: a device
/// holds the blocks at the schedule's end to which its own events lead.
///
/// Volume 1, chapter 3, network connection ids.
pub fn settled_histories_are_apart()
    ensures { SettledHistoriesAreApart }
{
    projections_are_runs();
}

/// So the laws of order hold of what settles, if no two devices have connection ids in common after their histories, and nothing
/// else is asked.
pub fn what_settles_apart_is_in_order()
    ensures { WhatSettlesApartIsInOrder }
{
    settled_histories_are_apart();
    settled_lines_are_in_order();
}

//! The laws of a plant: each story of devices that restart is a schedule of their lives, of which the laws of `schedule_laws`
//! hold. A law call does nothing; its contract states the law.
#![tactic(auto)]

ghost use Rattle.plant_laws.specs.Chronicles.{StoriesAreChronicled, StoriesWithoutIdsArePlayed, LaterLivesTakeNothingOlder, LaterLivesWithoutIdsTakeNothingOlder};

use cip_tables::laws::blocks_grow;
use schedule_laws::{a_new_life_takes_nothing_older, schedules_without_ids_are_apart};
use segment_world::lives::laws::{
    incarnations_name_lives, later_lives_have_no_events, moments_are_schedules,
    stories_are_schedules, stories_grow,
};

/// Each story of a plant has a chronicle of its lives, in the sense of the laws of schedules: its lives begin with profiles without
/// fault, and its acts lead to the world of the plant, with the same events. The plant begins from configurations without fault that
/// state no connection ids, incarnations are bytes, and no two lives have connection ids in common at the end.
pub fn stories_are_chronicled()
    ensures { StoriesAreChronicled }
{
    stories_are_schedules();
    incarnations_name_lives();
}

/// After a restart, nothing is accepted of what was produced before it, whichever life a datagram was sent to, and however late
/// it comes: a later life of an adapter accepts none of it, and a later life of a scanner only what a multicast group sent that
/// had a connection then, through a connection of its own that joined the group.
pub fn later_lives_take_nothing_older()
    ensures { LaterLivesTakeNothingOlder }
{
    blocks_grow();
    moments_are_schedules();
    stories_are_schedules();
    later_lives_have_no_events();
    stories_grow();
    incarnations_name_lives();
    a_new_life_takes_nothing_older();
}

/// Where no device is given a further block of connection ids, no two lives have ids in common at the end. So the two laws above hold
/// of each such story of faultless configurations that state no ids, where incarnations are bytes.
///
/// Volume 1, chapter 3, network connection ids.
pub fn stories_without_ids_are_played()
    ensures { StoriesWithoutIdsArePlayed }
{
    stories_are_schedules();
    incarnations_name_lives();
    schedules_without_ids_are_apart();
}

/// After a restart, nothing is accepted of what was produced before it: so it is in each such story, and nothing is asked of the
/// tables at its end.
pub fn later_lives_without_ids_take_nothing_older()
    ensures { LaterLivesWithoutIdsTakeNothingOlder }
{
    stories_without_ids_are_played();
    later_lives_take_nothing_older();
}

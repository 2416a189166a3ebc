//! The laws of every story of a plant. A law call does nothing; its contract states the law.

ghost use Rattle.segment_world.specs.Lives.Stories.{MomentsAreSchedules, StoriesAreSchedules, LaterLivesHaveNoEvents, StoriesGrow, LivesAreRuns, DevicesRunSinceTheirRestart, IncarnationsNameLives};

use crate::laws::projections_are_runs;

/// Every story of a plant is a schedule of acts among lives: the acts lead from the world of all lives, as they begin, to
/// the world of the plant, with the same events. So every law over schedules holds of lives.
pub fn stories_are_schedules()
    ensures { StoriesAreSchedules }
{}

/// A moment of a plant is one of a schedule of all lives: the acts lead from the world of all lives, also of those that begin
/// later, to the world of the plant and of those as they begin, with the same events.
pub fn moments_are_schedules()
    ensures { MomentsAreSchedules }
{}

/// Nothing has happened at a life that has not begun.
pub fn later_lives_have_no_events()
    ensures { LaterLivesHaveNoEvents }
{}

/// More moves add lives and acts to those of the story, and change none.
pub fn stories_grow()
    ensures { StoriesGrow }
{}

/// The table of each life is the one to which the life's own events lead from its fresh table. Nothing else that happens in
/// the plant changes it.
pub fn lives_are_runs()
    ensures { LivesAreRuns }
{
    projections_are_runs();
}

/// The table of each device is the one to which its own events since its last restart lead from its fresh table.
pub fn devices_run_since_their_restart()
    ensures { DevicesRunSinceTheirRestart }
{
    projections_are_runs();
}

/// In a plant that began without a fault, and whose profiles state no connection ids, no two lives have one incarnation byte. So the
/// byte names the life.
pub fn incarnations_name_lives()
    ensures { IncarnationsNameLives }
{}

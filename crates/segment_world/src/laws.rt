//! The law of every schedule of acts. A law call does nothing; its contract states the law.

ghost use Rattle.segment_world.specs.Story.{ProjectionsAreRuns};

/// In every schedule whose acts all happen, from any world, each device's table at the end is the one to which the
/// device's own events lead from its table at the beginning. Nothing else that happens in the world changes it.
pub fn projections_are_runs()
    ensures { ProjectionsAreRuns }
{}

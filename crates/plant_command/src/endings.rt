//! When a plant and the lives of its devices are over, and which devices a phase of its end ends.

ghost use Rattle.std.specs.Prelude.{◌≡◌};
ghost use Rattle.plant_command.specs.Endings.{ends, is_late, is_over, is_stillborn, life_end, new_names, next_names, seconds_of, unused_of};

use cip_types::{IdBlock, ids_behind};
use plant_rim::{DeviceFailure, IncarnationSpan, PlantPhase};
use station::LifeEnd;
use station_record::RecordFault;

/// Whether the time of a plant is over, so many milliseconds after it began.
pub(crate) fn is_late(end_ms: Option<u64>, passed_ms: u64) -> bool
    ensures { result ≡ is_late end_ms passed_ms }
{
    match end_ms {
        Some(end) => end <= passed_ms,
        None => false,
    }
}

/// Whether a phase ends a device, which is a scanner or not.
pub(crate) fn ends(phase: PlantPhase, scanner: bool) -> bool
    ensures { result ≡ ends phase scanner }
{
    match phase {
        PlantPhase::EndingScanners => scanner,
        PlantPhase::EndingAll => true,
        _ => false,
    }
}

/// For how many seconds a plant runs: as its options say, or else its file.
pub(crate) fn seconds_of(option: Option<u32>, file: Option<u32>) -> Option<u32>
    ensures { result ≡ seconds_of option file }
{
    match option {
        Some(seconds) => Some(seconds),
        None => file,
    }
}

/// Whether a plant is to end: its time is over, its input has ended, or a device could not begin.
pub(crate) fn is_over(is_late: bool, has_ended: bool, is_stillborn: bool) -> bool
    ensures { result ≡ is_over is_late has_ended is_stillborn }
{
    is_late || has_ended || is_stillborn
}

/// Whether a device has failed before one of its lives began.
pub(crate) fn is_stillborn(failure: Option<DeviceFailure>, lives: u32) -> bool
    ensures { result ≡ is_stillborn failure lives }
{
    failure.is_some() && lives == 0
}

/// How a life ends, whose record has ended for this reason or not.
pub(crate) fn life_end(end: LifeEnd, fault: Option<RecordFault>) -> Result<LifeEnd, DeviceFailure>
    ensures { result ≡ life_end end fault }
{
    match fault {
        Some(_) => Err(DeviceFailure::RecordEnd),
        None => Ok(end),
    }
}

/// What a life of a device has for itself: its incarnation, and its connection ids.
#[derive(Clone, Copy, PartialEq, Eq)]
pub(crate) struct LifeNames {
    pub(crate) incarnation: u8,
    pub(crate) ids: IdBlock,
    /// The fewest that an earlier life with the same ids has left.
    pub(crate) left: u32,
}

impl LifeNames {
    /// Those of a life whose ids no earlier life had.
    pub(crate) fn new(incarnation: u8, ids: IdBlock) -> LifeNames
        ensures { result ≡ new_names incarnation ids }
    {
        LifeNames {
            incarnation,
            ids,
            left: ids.count,
        }
    }
}

/// The ids of a life behind those of which so many were not given: never the first one again. Numbers that are no block stay.
fn unused_of(ids: IdBlock, left: u32) -> IdBlock
    ensures { result ≡ unused_of ids left }
{
    if ids.is_block() {
        ids_behind(ids, left)
    } else {
        ids
    }
}

/// The names of the life behind one that ends so, whose device has so many ids left, if there is one: the next incarnation, and
/// the ids that no life has given, or both once more.
pub(crate) fn next_names(
    span: IncarnationSpan,
    names: LifeNames,
    end: LifeEnd,
    left: u32,
) -> Option<LifeNames>
    ensures { result ≡ next_names span names end left }
{
    match end {
        LifeEnd::Restart { same: true } => Some(LifeNames {
            left: left.min(names.left),
            ..names
        }),
        LifeEnd::Restart { same: false } => {
            let ids = unused_of(names.ids, left.min(names.left));
            Some(LifeNames::new(span.next(names.incarnation), ids))
        }
        _ => None,
    }
}

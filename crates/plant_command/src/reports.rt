//! The report on the scripts of a plant.

use crate::failure::PlantFailure;
use plant_rim::SharedPlant;
use station_setup::end_report;
use std::fs::File;
use std::rt::Files;
use std::sync::Wait;

/// Writes what came of the scripts of so many devices, if there is to be a report, in the order of the plant's file. The fault is
/// `Script` if one has not passed.
pub(crate) fn report_scripts<R>(
    rt: R,
    plant: &SharedPlant,
    path: Option<&str>,
    devices: usize,
) -> Result<(), PlantFailure>
where
    R: AllocGlobal + Files<File = File> + Wait + Copy + Drop,
{
    let mut suites = Vec::new(rt.alloc());
    let mut failures = 0u32;
    for place in 0..devices {
        if let Some(outcome) = plant.take_script(&rt, place) {
            failures = failures.saturating_add(outcome.counts.failures);
            suites.extend_from_slice(outcome.suite.as_slice())?;
        }
    }
    end_report(&rt, path, suites.as_slice())?;
    if failures > 0 {
        return Err(PlantFailure::Script);
    }
    Ok(())
}

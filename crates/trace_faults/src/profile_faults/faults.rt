//! The first defect of the profile of a device of either kind.

ghost use Rattle.std.specs.Prelude.{◌≡◌, IfOk, IfSome};
ghost use Rattle.cip_tables.specs.Step.{config_fault};
ghost use Rattle.trace_faults.specs.ProfileFaults.Defects.{reason_fault};
ghost use Rattle.trace_faults.specs.ProfileFaults.Named.{NamesWordIn};

use crate::profile_faults::adapter_defects::adapter_reason;
use crate::profile_faults::defects::ProfileReason;
use crate::profile_faults::scanner_defects::scanner_reason;
use cip_tables::Config;
use cip_types::OutOfMemory;
use std::alloc::Global;

/// The first defect of the profile of a device. OutOfMemory is the only fault.
pub fn config_reason(alloc: Global, config: &Config) -> Result<Option<ProfileReason>, OutOfMemory>
    // One is found for each bad profile, and its fault is the first one of the profile.
    ensures fault { IfOk result (λ found. reason_fault found ≡ config_fault config.now) }
    // The word that it names has the value that it has.
    ensures named { IfOk result (λ found. IfSome found (NamesWordIn config.now)) }
{
    match config {
        Config::Adapter(profile) => adapter_reason(alloc, profile),
        Config::Scanner(profile) => Ok(scanner_reason(profile)),
    }
}

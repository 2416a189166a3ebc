//! Devices from the text of a profile.

ghost use Rattle.std.specs.Prelude.{◌≡◌, ◌<◌, true, Option, None, Err, IfOk, IfErr};
ghost use Rattle.cip_events.specs.Faults.{IsRefusedAs};
ghost use Rattle.cip_events.specs.declared.profile_fault.ProfileFault.{ProfileFault};
ghost use Rattle.cip_tables.specs.Step.{config_fault, opening_table};
ghost use Rattle.trace_text.specs.Reading.{trace_reading};
ghost use Rattle.eip_c.specs.Calls.{table_of, state, IsOpened, Opens, Refuses};
ghost use Rattle.eip_c.specs.Statuses.{status_of};

use crate::answered_device::AnsweredDevice;
use crate::status::{BAD_LINE, BAD_PROFILE, OUT_OF_MEMORY};
use cip_events::NewFault;
use cip_tables::{Config, Device};
use fast_device::FastDevice;
use std::alloc::Global;
use trace_text::{TraceFault, read_trace};

/// A fresh device of a profile's text, in memory of its own, or the status that says why there is none. The number is
/// that of a bad line, or of the fault of the profile.
pub fn opened(alloc: Global, profile: &[u8], number: &mut u64) -> Result<Box<AnsweredDevice>, u32>
    ensures opens { IfOk result (λ opened. IsOpened (trace_reading profile.now) (state opened.value)) }
    ensures refused { IfErr result (λ status. Opens (trace_reading profile.now) (status_of status) number.new) }
    ensures no_device { IfErr result (λ status. 0 < status) }
{
    match read_trace(alloc, profile) {
        Ok(trace) => boxed(alloc, trace.config, number),
        Err(fault) => Err(refusal(fault, number)),
    }
}

/// The status of a text that is not read, and its number.
fn refusal(fault: TraceFault, number: &mut u64) -> u32
    ensures refused { Opens (Err fault) (status_of result) number.new }
    ensures no_device { 0 < result }
{
    match fault {
        TraceFault::BadLine(line) => {
            *number = line;
            BAD_LINE
        }
        TraceFault::BadProfile(first) => {
            *number = first as u64;
            BAD_PROFILE
        }
        TraceFault::OutOfMemory => OUT_OF_MEMORY,
    }
}

fn boxed(alloc: Global, config: Config, number: &mut u64) -> Result<Box<AnsweredDevice>, u32>
    ensures opens { IfOk result (λ opened. state opened.value ≡ (opening_table config, None)) }
    ensures refused { IfErr result (λ status. Refuses (config_fault config) (status_of status) number.new) }
    ensures no_device { IfErr result (λ status. 0 < status) }
{
    match fresh(alloc, config) {
        Ok(device) => {
            let answer = None;
            Box::new(alloc, AnsweredDevice { device, answer }).map_err(|_| OUT_OF_MEMORY)
        }
        Err(fault) => Err(new_refusal(fault, number)),
    }
}

/// A fresh device of either kind.
#[tactic(auto, using(cip_tables::specs::AnyDevices::both_accept_all))]
fn fresh(alloc: Global, config: Config) -> Result<FastDevice, NewFault>
    ensures opens { IfOk result (λ device. table_of device ≡ opening_table config) }
    ensures refused { IfErr result (λ fault. IsRefusedAs (config_fault config) true fault) }
{
    FastDevice::new(alloc, config)
}

/// The status of a device that is not created, and its number.
fn new_refusal(fault: NewFault, number: &mut u64) -> u32
    ensures refused { (wrong : Option ProfileFault) → IsRefusedAs wrong true fault
        → Refuses wrong (status_of result) number.new }
    ensures no_device { 0 < result }
{
    match fault {
        NewFault::Profile(first) => {
            *number = first.number() as u64;
            BAD_PROFILE
        }
        _ => OUT_OF_MEMORY,
    }
}

//! The command that runs an adapter and scanners in threads, and settles what they did.

ghost use Rattle.std.specs.Prelude.{◌≡◌, None, All, IfOk, map};
ghost use Rattle.segment_world.specs.Configs.{world_fault};
ghost use Rattle.settling.specs.Search.Histories.{configs_of};
ghost use Rattle.line_threads.specs.Accounts.{own_in, HasItsReceipts};
ghost use Rattle.eip_line.specs.LineSetup.Devices.{line_configs};
ghost use Rattle.eip_line.specs.LineSetup.Scripts.{line_scripts};
ghost use Rattle.eip_line.specs.Lined.{IsLined};

use crate::faults::ProgramFault;
use crate::line_setup::{line_of, scripts};
use crate::output::flush;
use command_lines::LineTask;
use fast_device::FastDevice;
use line_threads::{LineFault, LineRun, Open, run_line};
use segment_world::WorldFault;
use settling::settle;
use std::io::Write;
use std::sync::Wait;
use std::thread::Threads;
use trace_stepper::write_text;

/// Runs a line, and prints that what its devices did settles into one schedule.
#[tactic(auto, using(cip_tables::specs::AnyDevices::both_accept_all))]
pub(crate) fn print_settled<R, O>(rt: &R, task: LineTask, out: &mut O) -> Result<bool, ProgramFault>
where
    R: AllocGlobal + Threads + Wait + Sync,
    O: Write,
    ensures { IsLined task (O.contents out.old) result (O.contents out.new) }
{
    let run = run_of(rt, task).map_err(ProgramFault::Line)?;
    let _settled = settle::<FastDevice>(rt.alloc(), &run.histories, &run.receipts).map_err(
        ProgramFault::Unsettled,
    )?;
    write_text(out, b"settled\n")?;
    flush(out)?;
    Ok(true)
}

/// Runs a line of an adapter and scanners, one thread a device: each application does its script, over the task's ticks.
#[tactic(auto, using(cip_tables::specs::AnyDevices::both_accept_all))]
fn run_of<R>(rt: &R, task: LineTask) -> Result<LineRun, LineFault>
where
    R: AllocGlobal + Threads + Wait + Sync,
    ensures valid { IfOk result (λ run. world_fault (configs_of run.histories.items) ≡ None) }
    ensures devices { IfOk result (λ run. configs_of run.histories.items ≡ line_configs task.scanners) }
    ensures scripts { IfOk result
        (λ run. map own_in run.histories.items ≡ line_scripts task.scanners task.ticks) }
    ensures receipts { IfOk result (λ run. All (HasItsReceipts run.receipts.items) run.histories.items) }
{
    let line = match line_of(rt.alloc(), task.scanners) {
        Ok(line) => line,
        Err(WorldFault::OutOfMemory) => return Err(LineFault::OutOfMemory),
        Err(_) => return Err(LineFault::World),
    };
    let scripts = scripts(rt.alloc(), task.scanners, task.ticks)?;
    run_line::<FastDevice, Open, R>(rt, rt.alloc(), line, scripts, &Open)
}

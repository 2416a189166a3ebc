//! The program, over any streams.

ghost use Rattle.std.specs.Prelude.{◌≡◌, ◌<◌, ◌≤◌, map, true, None, Ok, Err, length, codes, IfOk, IfErr, IfSome};
ghost use Rattle.trace_stepper.specs.Playing.{IsPlayed};
ghost use Rattle.trace_stepper.specs.Written.{BeginsToWrite};
ghost use Rattle.eip_line.specs.Printed.{longest_trace, IsStepped, IsTraceRead, IsTextFault};
ghost use Rattle.eip_line.specs.Tasks.{HasFailed, IsDone, IsPerformed, IsReported};
ghost use Rattle.command_lines.specs.LineTasks.{IsAlone, task_of};
ghost use Rattle.eip_line.specs.Usage.{usage_text};

use crate::faults::{FAILED, ProgramFault, failed};
use crate::lines::print_settled;
use crate::loops::print_turns;
use crate::output::{flush, print_version, write_numbered};
use crate::usage::misused;
use cip_types::limits::LONGEST_TRACE;
use command_lines::{Misuse, Task, read_line_task};
use fast_device::FastDevice;
use std::alloc::Global;
use std::convert::AsStr;
use std::io::{ErrorKind, Read, Write};
use std::net::{Net, TcpListener, TcpStream};
use std::rt::Clock;
use std::sync::Wait;
use std::thread::Threads;
use trace_stepper::{StepperFault, play};
use trace_text::{Trace, read_trace};

/// Runs the program on the words of a command line, the first of them its own name, and answers its status.
///
/// - 0: the task is done. `step`: all outcomes are printed, and each is as recorded. `loop`: all turns are done, and
///   their number is printed. `line`: all devices have ended, and what they did settles into one schedule.
///   `--version`: the program's name and version are printed.
/// - 1: an outcome is not as recorded, and the last line names the first such event; or the run failed, and one line on
///   `err` says why, as far as the stream took it.
/// - 2: the command line is none of the program's, and not `step` alone. Nothing is printed, and `err` gets the usage
///   text, as far as the stream took it.
pub fn program<R, S, I, O, E>(rt: &R, words: &[S], reader: &mut I, out: &mut O, err: &mut E) -> u8
where
    R: AllocGlobal
        + Clock
        + Net<Listener = TcpListener, Stream = TcpStream>
        + Threads
        + Wait
        + Sync,
    S: AsStr,
    I: Read,
    O: Write,
    E: Write,
    ensures status { result ≤ 2 }
    ensures done { result ≡ 0
        → IsDone (map S.text words.now) (I.remaining reader.old) (O.contents out.old) (O.contents out.new)
        × (err.new ≡ err.old) }
    ensures failed { result ≡ 1
        → HasFailed (map S.text words.now) (I.remaining reader.old) (O.contents out.old) (O.contents out.new)
        (E.contents err.old) (E.contents err.new) }
    ensures usage { result ≡ 2 → (out.new ≡ out.old)
        × BeginsToWrite (E.contents err.old) usage_text (E.contents err.new) }
    ensures step { IsAlone (map S.text words.now) (codes "step") → result ≤ 1 }
    ensures misused { result ≡ 2 → task_of (map S.text words.now) ≡ None }
{
    match read_line_task(rt.alloc(), words) {
        Ok(task) => status_of(err, perform(rt, task, reader, out)),
        Err(Misuse::Usage) => misused(err),
        Err(Misuse::OutOfMemory) => failed(err, ProgramFault::OutOfMemory),
    }
}

/// The status of a task that ended so, after a line on `err` if it failed.
fn status_of<E: Write>(err: &mut E, ended: Result<bool, ProgramFault>) -> u8
    ensures status { result ≤ 1 }
    ensures done { result ≡ 0 → (ended ≡ Ok true) × (err.new ≡ err.old) }
    ensures failed { result ≡ 1 → IsReported ended (E.contents err.old) (E.contents err.new) }
{
    match ended {
        Ok(true) => 0,
        Ok(false) => FAILED,
        Err(fault) => failed(err, fault),
    }
}

/// Does the requested task. False if an outcome of a trace is not as recorded.
fn perform<R, I, O>(rt: &R, task: Task, reader: &mut I, out: &mut O) -> Result<bool, ProgramFault>
where
    R: AllocGlobal
        + Clock
        + Net<Listener = TcpListener, Stream = TcpStream>
        + Threads
        + Wait
        + Sync,
    I: Read,
    O: Write,
    ensures { IsPerformed task (I.remaining reader.old) (O.contents out.old) (O.contents out.new) result }
{
    match task {
        Task::Step => step(rt.alloc(), reader, out),
        Task::Loop(task) => print_turns(rt, task, out),
        Task::Line(task) => print_settled(rt, task, out),
        Task::Version => print_version(out),
    }
}

/// Steps a device by the trace that the reader has, and prints each outcome before the next step, and then the number
/// of the first that is not as recorded. False if there is one.
fn step<I: Read, O: Write>(alloc: Global, reader: &mut I, out: &mut O) -> Result<bool, ProgramFault>
    ensures { IsStepped (I.remaining reader.old) (O.contents out.old) (O.contents out.new) result }
{
    let trace = trace_of(alloc, reader)?;
    match played(alloc, &trace, out) {
        Ok(None) => {
            flush(out)?;
            Ok(true)
        }
        Ok(Some(number)) => {
            write_numbered(out, b"differs ", number as u64)?;
            flush(out)?;
            Ok(false)
        }
        Err(fault) => {
            flush(out)?;
            Err(ProgramFault::from(fault))
        }
    }
}

/// Plays a trace at a device of its kind.
#[tactic(auto, using(cip_tables::specs::AnyDevices::both_accept_all))]
fn played<O: Write>(
    alloc: Global,
    trace: &Trace,
    out: &mut O,
) -> Result<Option<usize>, StepperFault>
    ensures { IsPlayed true trace.now (O.contents out.old) (O.contents out.new) result }
{
    play::<FastDevice, O>(alloc, trace, out)
}

/// Reads a trace.
fn trace_of<I: Read>(alloc: Global, reader: &mut I) -> Result<Trace, ProgramFault>
    ensures { IsTraceRead (I.remaining reader.old) result }
{
    let text = read_text(alloc, reader)?;
    Ok(read_trace(alloc, text.as_slice())?)
}

/// All that the reader has left, if it is no longer than the longest trace.
fn read_text<I: Read>(alloc: Global, reader: &mut I) -> Result<Vec<u8>, ProgramFault>
    ensures all { IfOk result (λ text. IfSome (I.remaining reader.old) (λ input. (text.items ≡ input)
        × (length input ≤ longest_trace))) }
    ensures long { result ≡ Err ProgramFault.TooLong
        → IfSome (I.remaining reader.old) (λ input. longest_trace < length input) }
    ensures fault { IfErr result IsTextFault }
{
    let mut text = Vec::new(alloc);
    let limit = LONGEST_TRACE as u64 + 1;
    match (&mut *reader).take(limit).read_to_end(&mut text) {
        Ok(_) => {}
        Err(error) if error.kind() == ErrorKind::OutOfMemory => {
            return Err(ProgramFault::OutOfMemory);
        }
        Err(_) => return Err(ProgramFault::Read),
    }
    if text.len() > LONGEST_TRACE {
        return Err(ProgramFault::TooLong);
    }
    Ok(text)
}

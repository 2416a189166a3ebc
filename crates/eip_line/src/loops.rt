//! The command that runs an adapter and a scanner over sockets.

ghost use Rattle.eip_line.specs.Looped.{IsLooped};

use crate::faults::ProgramFault;
use crate::output::{flush, write_numbered};
use crate::socket_loop::run_loop;
use adapter_engine::FastAdapter;
use command_lines::LoopTask;
use scanner_engine::FastScanner;
use std::io::Write;
use std::net::{Net, TcpListener, TcpStream};
use std::rt::Clock;

/// Runs a loop, and prints the number of turns that it made.
pub(crate) fn print_turns<R, O>(rt: &R, task: LoopTask, out: &mut O) -> Result<bool, ProgramFault>
where
    R: AllocGlobal + Clock + Net<Listener = TcpListener, Stream = TcpStream>,
    O: Write,
    ensures { IsLooped task.turns (O.contents out.old) result (O.contents out.new) }
{
    let made = run_loop::<&R, FastAdapter, FastScanner>(
        rt.alloc(),
        rt,
        task.tcp,
        task.udp,
        task.turns,
    ).map_err(ProgramFault::Loop)?;
    write_numbered(out, b"turns ", u64::from(made))?;
    flush(out)?;
    Ok(true)
}

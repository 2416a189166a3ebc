//! The command-line program: steps a device by the lines of a trace, runs an adapter and a scanner over sockets of this
//! host, or runs an adapter and scanners in threads and settles what they did.
#![tactic(auto)]

mod console;
mod faults;
mod line_setup;
mod lines;
mod loops;
mod output;
mod running;
mod socket_loop;
mod usage;

use std::process::ExitCode;

/// Hands the program its command line and its standard streams, and ends with its status.
fn main(rt: HostRuntime) -> ExitCode {
    ExitCode::from(running::run(&rt, &mut rt.stdin(), rt.stdout(), &mut rt.stderr()))
}

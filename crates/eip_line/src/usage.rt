//! How the program is used.

ghost use Rattle.std.specs.Prelude.{◌≡◌};
ghost use Rattle.trace_stepper.specs.Written.{BeginsToWrite};
ghost use Rattle.eip_line.specs.Usage.{usage_text};

use std::io::Write;
use trace_stepper::write_text;

/// The status for a command line that is none of the program's.
const MISUSED: u8 = 2;

/// What the program does, its commands with their options and ranges, and an example.
const USAGE: &[u8] = b"\
usage: eip_line step < TRACE
           makes the device of a trace, steps it by each event of the trace, and prints the outcomes
       eip_line loop [--tcp PORT] [--udp PORT] [--turns N]
           runs an adapter and a scanner over sockets of 127.0.0.1, and prints the number of turns
           --tcp PORT  the adapter's TCP port, 1 to 65534 (44818 if it is left out)
           --udp PORT  the adapter's UDP port, 1 to 65534 (2222 if it is left out); the scanner's is the next one
           --turns N   the turns of each device, 1 to 1000000 (1000 if it is left out)
       eip_line line [--scanners N] [--ticks N]
           runs an adapter and scanners in threads, and prints settled if what they did is one schedule
           --scanners N  the scanners, 1 to 8 (2 if it is left out)
           --ticks N     the milliseconds that pass at each device, 1 to 10000 (100 if it is left out)
       eip_line --version
           prints the version
example: eip_line step < examples/first_open.trace
status: 0 done; 1 an outcome is not as recorded, or a fault, which standard error names; 2 this text
";

/// Writes how the program is used, as far as the stream takes it, and answers the status for that. Takes no memory.
pub(crate) fn misused<E: Write>(err: &mut E) -> u8
    ensures status { result ≡ 2 }
    ensures usage { BeginsToWrite (E.contents err.old) usage_text (E.contents err.new) }
{
    // (a stream that does not take the text changes nothing more)
    let _ = write_text(err, USAGE);
    MISUSED
}

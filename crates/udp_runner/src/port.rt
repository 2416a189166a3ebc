//! Ports, over which a device receives and sends, and clocks.

ghost use Rattle.std.specs.Prelude.{◌≡◌, ◌<◌, ◌+◌, ◌-◌, ◌^◌, ◌∷◌, [], ℕ, List, Bool, true, false, None, IfOk, OnOk, OnErr};
ghost use Rattle.udp_runner.specs.Tape.{first_or, rest_of, Tape, with_sent, with_taken};
ghost use Rattle.udp_runner.specs.Outputs.{view_output};

use crate::fault::PortFault;
use crate::output::Output;
use cip_events::Arrival;
use cip_types::{Items, Ms};
use std::time::Duration;

/// A port of a device, which receives what arrives, sends outputs and counts its failures.
///
/// A scripted port has a tape: the arrivals of the next receives, and all outputs that were sent. Contracts speak only
/// of the failures of a port over sockets, since what arrives there is not known in advance.
pub trait Port {
    ghost is_scripted: { Bool };

    ghost tape: { Self → Tape };

    ghost failed: { Self → ℕ };

    /// The number of failed calls.
    fn failures(&self) -> u64
        ensures { result ≡ failed self.now };

    /// The next arrival; None if nothing was received for a while. The faults: `Receive`, `Memory`.
    fn receive(&mut self) -> Result<Option<Arrival>, PortFault>
        requires { failed self.old < 2 ^ 64 - 1 }
        ensures given { IfOk result (λ arrival. is_scripted ≡ true → arrival ≡ first_or None (tape self.old).coming) }
        ensures taken { OnOk result (is_scripted ≡ true → tape self.new ≡ with_taken (tape self.old)) }
        ensures kept { OnErr result (is_scripted ≡ true → tape self.new ≡ tape self.old) }
        ensures worked { OnOk result (failed self.new ≡ failed self.old) }
        ensures counted { OnErr result (failed self.new ≡ failed self.old + 1) };

    /// The next datagram that waits at the port, before all else that does; None if there is none now. A scripted port, and
    /// one that tells datagrams from nothing else, has none here. The faults: `Receive`, `Memory`.
    fn next_datagram(&mut self) -> Result<Option<Arrival>, PortFault>
        requires { failed self.old < 2 ^ 64 - 1 }
        ensures none { IfOk result (λ arrival. is_scripted ≡ true → arrival ≡ None) }
        ensures kept { is_scripted ≡ true → tape self.new ≡ tape self.old }
        ensures worked { OnOk result (failed self.new ≡ failed self.old) }
        ensures counted { OnErr result (failed self.new ≡ failed self.old + 1) }
    {
        Ok(None)
    }

    /// Waits until something may have arrived, at most for this long. It may end at once: a scripted port, and one whose
    /// `receive` waits by itself, do not wait.
    fn wait(&mut self, _most: Duration)
        ensures kept { is_scripted ≡ true → tape self.new ≡ tape self.old }
        ensures worked { failed self.new ≡ failed self.old }
    {}

    /// Takes back the bytes of a datagram that `receive` gave. A later receive can use their memory.
    fn recycle(&mut self, _bytes: Items<u8>)
        ensures kept { is_scripted ≡ true → tape self.new ≡ tape self.old }
        ensures worked { failed self.new ≡ failed self.old }
    {}

    /// Whether a datagram to a multicast address is sent once to that address, and not once to each of its nodes. No
    /// scripted port sends so.
    fn sends_to_groups(&self) -> bool
        ensures { is_scripted ≡ true → result ≡ false }
    {
        false
    }

    /// Sends an output. The faults: `Send`, `Memory`.
    fn send(&mut self, output: &Output<'_>) -> Result<(), PortFault>
        requires { failed self.old < 2 ^ 64 - 1 }
        ensures sent { OnOk result
            (is_scripted ≡ true → tape self.new ≡ with_sent (tape self.old) (view_output output.now ∷ [])) }
        ensures kept { OnErr result (is_scripted ≡ true → tape self.new ≡ tape self.old) }
        ensures worked { OnOk result (failed self.new ≡ failed self.old) }
        ensures counted { OnErr result (failed self.new ≡ failed self.old + 1) };
}

/// A clock of whole milliseconds. A scripted clock has a list of its next answers, and then answers 0.
pub trait Clock {
    ghost is_scripted: { Bool };

    ghost coming: { Self → List ℕ };

    /// The whole milliseconds since the last answer, at first 0. The remainder is kept for the next answer.
    fn passed(&mut self) -> u64
        ensures answer { is_scripted ≡ true → result ≡ first_or 0 (coming self.old) }
        ensures rest { is_scripted ≡ true → coming self.new ≡ rest_of (coming self.old) };

    /// The whole milliseconds up to the one that has begun, of which no answer told. None at a clock that knows no better.
    fn begun(&mut self) -> u64
        ensures answer { is_scripted ≡ true → result ≡ 0 }
        ensures rest { is_scripted ≡ true → coming self.new ≡ coming self.old }
    {
        0
    }

    /// The device was told of so many of these milliseconds: no later answer tells of them.
    fn bring_up(&mut self, _ms: u64)
        ensures { is_scripted ≡ true → coming self.new ≡ coming self.old }
    {}

    /// The time until the next answer can be this many milliseconds. A clock that knows no better answers so many.
    fn time_to(&self, ms: Ms) -> Duration {
        Duration::from_millis(ms.0)
    }
}

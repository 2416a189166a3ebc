//! Ports that end streams by rules of their own.

ghost use Rattle.std.specs.Prelude.{◌≡◌, true};

use crate::Port;
use crate::report::PortReport;
use cip_types::Node;

/// A port that ends streams by rules of its own. None of these calls receives, sends or fails: a stream that ends is the
/// cut that a later `receive` gives.
pub trait KeptPort: Port {
    /// The next thing that happened at a stream, the oldest first. A port keeps a bounded number of them.
    fn next_report(&mut self) -> Option<PortReport>
        ensures kept { Self.is_scripted ≡ true → Self.tape self.new ≡ Self.tape self.old }
        ensures worked { Self.failed self.new ≡ Self.failed self.old };

    /// From now on these peers have connections, and no others, and these own outputs: the streams of the first ones make room
    /// last, and those of owners for no other peer.
    fn keep(&mut self, peers: &[Node], owners: &[Node])
        ensures kept { Self.is_scripted ≡ true → Self.tape self.new ≡ Self.tape self.old }
        ensures worked { Self.failed self.new ≡ Self.failed self.old };

    /// Ends the stream to a target, with all that waits in it, and opens a new one.
    fn renew(&mut self, target: Node)
        ensures kept { Self.is_scripted ≡ true → Self.tape self.new ≡ Self.tape self.old }
        ensures worked { Self.failed self.new ≡ Self.failed self.old };

    /// A connection with a target is established: if its stream ends, the next try is soon.
    fn succeed(&mut self, target: Node)
        ensures kept { Self.is_scripted ≡ true → Self.tape self.new ≡ Self.tape self.old }
        ensures worked { Self.failed self.new ≡ Self.failed self.old };
}

//! Groups, and ports that receive their datagrams.

ghost use Rattle.std.specs.Prelude.{◌≡◌, true};

use crate::KeptPort;
use cip_types::Node;

/// A multicast group, and the UDP port of its datagrams.
#[derive(Clone, Copy, PartialEq, Eq)]
pub struct DataGroup {
    pub address: Node,
    pub port: u16,
}

/// A port that receives the datagrams of groups. None of these calls receives, sends or fails: a group whose datagrams cannot be
/// received is told by `next_unbound`.
pub trait GroupPort: KeptPort {
    /// From now on the datagrams of these groups are received, and of no others, each group once.
    fn receive_groups(&mut self, groups: &[DataGroup])
        ensures kept { Self.is_scripted ≡ true → Self.tape self.new ≡ Self.tape self.old }
        ensures worked { Self.failed self.new ≡ Self.failed self.old };

    /// The next group whose datagrams cannot be received, the last one first: each is told once, and tried again.
    fn next_unbound(&mut self) -> Option<DataGroup>
        ensures kept { Self.is_scripted ≡ true → Self.tape self.new ≡ Self.tape self.old }
        ensures worked { Self.failed self.new ≡ Self.failed self.old };
}

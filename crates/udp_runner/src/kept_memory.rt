//! A port over memory ends no stream by itself.

use crate::MemoryPort;
use crate::kept_port::KeptPort;
use crate::report::PortReport;
use cip_types::Node;

impl KeptPort for MemoryPort {
    fn next_report(&mut self) -> Option<PortReport> {
        None
    }

    fn keep(&mut self, _peers: &[Node], _owners: &[Node]) {}

    fn renew(&mut self, _target: Node) {}

    fn succeed(&mut self, _target: Node) {}
}

//! Datagrams of class 1.

ghost use Rattle.std.specs.Prelude.{◌≡◌, Some, IsTrue, find, length, List, ℕ};
ghost use Rattle.cip_datagram.specs.Datagram.{DatagramFields, view_datagram};
ghost use Rattle.cip_datagram.specs.Header.{header_at};
ghost use Rattle.adapter_table.specs.Datagrams.{is_for, run_data, accepted_values, delivered, found_datagram, received};
ghost use Rattle.adapter_table.specs.Judging.{IsJudged};
ghost use Rattle.adapter_table.specs.Shapes.{len_of};
ghost use Rattle.assembly_set.specs.Assemblies.{is_output};

use super::AdapterState;
use adapter_table::Judgement;
use adapter_table::laws::{applied_data_fit, tables_are_whole};
use assembly_set::AssemblySet;
use cip_datagram::{Datagram, read_datagram};
use cip_tables::Delivery;
use cip_types::Node;
use indexed_connections::ConnectionTable;

impl<T: ConnectionTable> AdapterState<T> {
    /// A datagram of a peer: the connection that it is for receives it. By its delivery the output has its data, or
    /// the idle action is done.
    #[tactic(auto, unfolding(adapter_table::specs::Datagrams::accepted_table))]
    fn receive_datagram(&mut self, peer: Node, datagram: &Datagram<'_>) -> Delivery
        ensures { found_datagram self.old peer (view_datagram datagram.now)
            (find (is_for peer datagram.now.connection.0) self.old.rows)
            ≡ delivered result self.new }
    {
        // The table stays whole, and applied data have the length of their output.
        tables_are_whole();
        applied_data_fit();
        let profile = self.assemblies.profile();
        let Some(received) = self.table.receive(profile, self.clock, peer, datagram) else {
            return Delivery::UnknownId;
        };
        apply(&mut self.assemblies, received.consumed, received.judgement);
        received.judgement.delivery()
    }

    /// The bytes of a datagram of a peer.
    #[tactic(auto, unfolding(adapter_table::specs::Datagrams::received))]
    pub fn receive(&mut self, peer: Node, bytes: &[u8]) -> Delivery
        ensures { received self.old peer bytes.now ≡ delivered result self.new }
    {
        match read_datagram(bytes) {
            Ok(datagram) => self.receive_datagram(peer, &datagram),
            Err(_) => Delivery::Malformed,
        }
    }
}

/// Changes the output of a connection that received a datagram by the datagram's judgement. Takes no memory.
fn apply(assemblies: &mut AssemblySet, point: u32, judgement: Judgement<'_>)
    requires output { (run : List ℕ) → IsJudged Delivery.Applied run judgement
        → IsTrue (is_output assemblies.old.profile point) }
    requires right_length { (run : List ℕ) → IsJudged Delivery.Applied run judgement
        → len_of assemblies.old.profile point ≡ Some (length run) }
    ensures { (said : Delivery) (d : DatagramFields) → IsJudged said (run_data (header_at d.payload)) judgement.entry
        → assemblies.new
        ≡ record assemblies.old { values = accepted_values assemblies.old.profile point d said assemblies.old.values } }
{
    match judgement {
        Judgement::Applied(bytes) => assemblies.apply(point, bytes),
        Judgement::Idle => assemblies.idle(point),
        Judgement::Heartbeat | Judgement::Duplicate | Judgement::Old | Judgement::WrongSize => {}
    }
}

//! Outlets.

use crate::OutgoingDatagram;

/// Sends the outputs of a device's answers over a network `N`, for instance the port of the device.
///
/// Contracts see a network that can take an output (`is_ready`), and relations of the network before a call, the output
/// and the network after it: `sends` if the output went, `fails` if it did not go, or went in part.
pub trait Outlet<N> {
    ghost use Rattle.cip_events.specs.Outputs.{AnswerOutput};
    ghost use Rattle.cip_events.specs.Outputs.AnswerOutput.{Message, Datagram, End};
    ghost use Rattle.cip_events.specs.Transmission.{Puts};

    /// Why an output does not go.
    type Fault;

    ghost is_ready: { N → Type 0 };

    ghost sends: { Self → N → AnswerOutput → N → Type 0 };

    ghost fails: { Self → N → AnswerOutput → N → Type 0 };

    /// Sends a message over a stream.
    fn message(&self, network: &mut N, stream: u16, bytes: &[u8]) -> Result<(), Self::Fault>
        requires { is_ready network.old }
        ensures { Puts is_ready (sends self.now) (fails self.now)
            network.old (Message stream bytes.now) network.new result };

    /// Sends a datagram to its nodes.
    fn datagram(&self, network: &mut N, datagram: &OutgoingDatagram) -> Result<(), Self::Fault>
        requires { is_ready network.old }
        ensures { Puts is_ready (sends self.now) (fails self.now)
            network.old (Datagram datagram.now) network.new result };

    /// Closes a stream.
    fn close(&self, network: &mut N, stream: u16) -> Result<(), Self::Fault>
        requires { is_ready network.old }
        ensures { Puts is_ready (sends self.now) (fails self.now)
            network.old (End stream) network.new result };
}

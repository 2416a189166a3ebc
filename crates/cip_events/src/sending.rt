//! Sends an answer: its frames, then its datagrams, then the ends of the streams that closed.

ghost use Rattle.cip_events.specs.Outputs.{answer_outputs};
ghost use Rattle.cip_events.specs.Transmission.{Sends};
ghost use Rattle.std.specs.List.{flat_map};

use crate::outlet::Outlet;
use crate::{Answer, Frame, Notice, OutgoingDatagram, Recipient};

/// Sends the frames of an answer over their streams, then its datagrams, and then closes the streams that its notices
/// report closed. At the first fault it ends: the outputs before it went, and those behind it did not.
pub fn send_answer<N, O: Outlet<N>>(
    outlet: &O,
    network: &mut N,
    answer: &Answer,
) -> Result<(), O::Fault>
    requires { O.is_ready network.old }
    ensures { Sends O.is_ready (O.sends outlet.now) (O.fails outlet.now)
        network.old (answer_outputs answer.now) network.new result }
{
    send_all(outlet, network, answer.frames.as_slice())?;
    send_all(outlet, network, answer.datagrams.as_slice())?;
    send_all(outlet, network, answer.notices.as_slice())
}

/// Sends the outputs of the parts of an answer, one part after another.
fn send_all<N, O: Outlet<N>, P: AnswerPart>(
    outlet: &O,
    network: &mut N,
    parts: &[P],
) -> Result<(), O::Fault>
    requires { O.is_ready network.old }
    ensures { Sends O.is_ready (O.sends outlet.now) (O.fails outlet.now)
        network.old (flat_map P.outputs parts.now) network.new result }
{
    for part in parts {
        part.send(outlet, network)?;
    }
    Ok(())
}

/// A part of an answer: a frame, a datagram or a notice.
trait AnswerPart {
    ghost use Rattle.std.specs.Prelude.{List};
    ghost use Rattle.cip_events.specs.Outputs.{AnswerOutput};

    ghost outputs: { Self → List AnswerOutput };

    /// Sends the outputs of the part.
    fn send<N, O: Outlet<N>>(&self, outlet: &O, network: &mut N) -> Result<(), O::Fault>
        requires { O.is_ready network.old }
        ensures { Sends O.is_ready (O.sends outlet.now) (O.fails outlet.now)
            network.old (outputs self.now) network.new result };
}

impl AnswerPart for Frame {
    ghost use Rattle.cip_events.specs.Outputs.{frame_outputs};

    ghost outputs = { frame_outputs };

    fn send<N, O: Outlet<N>>(&self, outlet: &O, network: &mut N) -> Result<(), O::Fault> {
        match self.to {
            Recipient::Stream(stream) => outlet.message(network, stream, self.bytes.as_slice()),
            Recipient::Peer(_) => Ok(()),
        }
    }
}

impl AnswerPart for OutgoingDatagram {
    ghost use Rattle.cip_events.specs.Outputs.{datagram_outputs};

    ghost outputs = { datagram_outputs };

    fn send<N, O: Outlet<N>>(&self, outlet: &O, network: &mut N) -> Result<(), O::Fault> {
        outlet.datagram(network, self)
    }
}

impl AnswerPart for Notice {
    ghost use Rattle.cip_events.specs.Outputs.{close_outputs};

    ghost outputs = { close_outputs };

    fn send<N, O: Outlet<N>>(&self, outlet: &O, network: &mut N) -> Result<(), O::Fault> {
        match self {
            Notice::StreamClosed(stream) => outlet.close(network, *stream),
            _ => Ok(()),
        }
    }
}

//! The answers of a device at a port.

ghost use Rattle.std.specs.Prelude.{◌≡◌};
ghost use Rattle.udp_runner.specs.Outputs.{is_group};

use crate::fault::PortFault;
use crate::output::Output;
use crate::port::Port;
use cip_events::{OutgoingDatagram, Outlet};
use cip_types::Node;

/// Sends the outputs of answers over a port: a datagram once to each of its nodes, or once to its group if the port sends
/// to groups.
#[derive(Clone, Copy)]
pub struct AtPort;

impl<P: Port> Outlet<P> for AtPort {
    ghost use Rattle.std.specs.Prelude.{◌<◌, ◌-◌, ◌^◌};
    ghost use Rattle.udp_runner.specs.Outputs.{PortFails, PortSends};

    type Fault = PortFault;

    ghost is_ready = { λ port. P.failed port < 2 ^ 64 - 1 };

    ghost sends = { λ outlet old output new.
        PortSends P.is_scripted (P.tape old) (P.tape new) (P.failed old) (P.failed new) output };

    ghost fails = { λ outlet old output new.
        PortFails P.is_scripted (P.tape old) (P.tape new) (P.failed old) (P.failed new) output };

    fn message(&self, network: &mut P, stream: u16, bytes: &[u8]) -> Result<(), PortFault> {
        network.send(&Output::Frame { stream, bytes })
    }

    fn datagram(&self, network: &mut P, datagram: &OutgoingDatagram) -> Result<(), PortFault> {
        let bytes = datagram.bytes.as_slice();
        if network.sends_to_groups() && is_group(datagram.address) {
            return network.send(&Output::Datagram {
                node: datagram.address,
                bytes,
            });
        }
        for node in datagram.nodes.as_slice() {
            network.send(&Output::Datagram { node: *node, bytes })?;
        }
        Ok(())
    }

    fn close(&self, network: &mut P, stream: u16) -> Result<(), PortFault> {
        network.send(&Output::Close { stream })
    }
}

/// Whether this is the address of a multicast group: 224.0.0.0 to 239.255.255.255.
fn is_group(address: Node) -> bool
    ensures { result ≡ is_group address }
{
    address.0 >= 0xE000_0000 && address.0 < 0xF000_0000
}

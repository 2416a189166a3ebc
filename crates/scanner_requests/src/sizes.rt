//! How many bytes the datagrams of a slot have.

ghost use Rattle.std.specs.Prelude.{◌≡◌, IsTrue, nat_lt};
ghost use Rattle.cip_netparams.specs.declared.ConnectionType.TheVariants.{PointToPoint};
ghost use Rattle.scanner_table.specs.Requests.{o_t_size, t_o_size, is_large, t_o_type, slot_params};
ghost use Rattle.scanner_table.specs.Profiles.{has_lengths};
ghost use Rattle.cip_fwdopen.specs.Services.{is_large_open};

use cip_fwdopen::OpenService;
use cip_netparams::{ConnectionType, NetParams, Priority};
use cip_productions::Kind;
use scanner_table::SlotConfig;

/// The longest output that a Forward_Open can request: 511 bytes less the sequence count and the run/idle header.
const LONGEST_OUTPUT: u64 = 505;

/// The longest input that a Forward_Open can request: 511 bytes less the sequence count.
const LONGEST_INPUT: u64 = 509;

/// Bytes of an O->T datagram.
#[tactic(auto, using(crate::proofs::Lengths::output_bound))]
fn o_t_size(config: &SlotConfig) -> u16
    requires { IsTrue (has_lengths config.now) }
    ensures { result ≡ o_t_size config.now }
{
    match config.kind {
        Kind::ExclusiveOwner => (config.out_len + 6) as u16,
        Kind::InputOnly | Kind::ListenOnly => 2,
    }
}

/// Bytes of a T->O datagram.
#[tactic(auto, using(crate::proofs::Lengths::input_bound))]
fn t_o_size(config: &SlotConfig) -> u16
    requires { IsTrue (has_lengths config.now) }
    ensures { result ≡ t_o_size config.now }
{
    (config.in_len + 2) as u16
}

fn is_long_output(config: &SlotConfig) -> bool
    ensures { result ≡ nat_lt 511 (o_t_size config.now) }
{
    config.kind == Kind::ExclusiveOwner && config.out_len > LONGEST_OUTPUT
}

/// The service that opens the slot's connection: Large_Forward_Open if a size of its datagrams does not fit the
/// parameters of a Forward_Open.
///
/// Volume 1, chapter 3, Large_Forward_Open service.
pub fn service_for(config: &SlotConfig) -> OpenService
    ensures { is_large_open result ≡ is_large config.now }
{
    if is_long_output(config) || config.in_len > LONGEST_INPUT {
        OpenService::LargeForwardOpen
    } else {
        OpenService::ForwardOpen
    }
}

fn t_o_type(multicast: bool) -> ConnectionType
    ensures { result ≡ t_o_type multicast }
{
    if multicast {
        ConnectionType::Multicast
    } else {
        ConnectionType::PointToPoint
    }
}

fn slot_params(size: u16, kind: ConnectionType) -> NetParams
    ensures { result ≡ slot_params size kind }
{
    NetParams {
        size,
        variable: false,
        priority: Priority::Scheduled,
        kind,
        redundant: false,
    }
}

/// The parameters of the O->T direction.
///
/// Volume 1, chapter 3, network connection parameters.
pub fn o_t_params(config: &SlotConfig) -> NetParams
    requires { IsTrue (has_lengths config.now) }
    ensures { result ≡ slot_params (o_t_size config.now) PointToPoint }
{
    slot_params(o_t_size(config), ConnectionType::PointToPoint)
}

/// The parameters of the T->O direction.
///
/// Volume 1, chapter 3, network connection parameters.
pub fn t_o_params(config: &SlotConfig) -> NetParams
    requires { IsTrue (has_lengths config.now) }
    ensures { result ≡ slot_params (t_o_size config.now) (t_o_type config.now.multicast) }
{
    slot_params(t_o_size(config), t_o_type(config.multicast))
}

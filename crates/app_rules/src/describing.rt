//! What a described device makes of a request to open a connection, beside the checks that every adapter has.

ghost use Rattle.std.specs.Prelude.{◌≡◌, ◌≢◌, ◌&&◌, not};
ghost use Rattle.cip_netparams.specs.Word.{is_message_trigger};
ghost use Rattle.cip_fwdopen.specs.Open.{view_open};
ghost use Rattle.adapter_table.specs.Describing.{described_code, is_null, is_null_open, is_variable, opening_code, opening_fault};

use adapter_table::Description;
use cip_fwdopen::OpenRequest;
use cip_netparams::{ConnectionType, NetParams, is_message_trigger};
use cip_router::Refusal;
use cip_types::Fault;

/// Whether the device refuses the data of one direction, since their size varies: a described one does.
pub fn is_variable(description: &Option<Description>, params: &NetParams) -> bool
    ensures { result ≡ is_variable description.now params.now }
{
    match description {
        Some(_) => params.variable,
        None => false,
    }
}

fn is_null(kind: ConnectionType) -> bool
    ensures { result ≡ is_null kind }
{
    kind == ConnectionType::Null
}

/// Whether neither direction has a connection.
fn is_null_open(request: &OpenRequest<&[u8]>) -> bool
    ensures { result ≡ is_null_open (view_open request.now) }
{
    is_null(request.o_t_params.kind) && is_null(request.t_o_params.kind)
}

/// Whether a connection of class 1 is asked for data of variable size.
fn is_variable_data(request: &OpenRequest<&[u8]>, params: &NetParams) -> bool
    ensures { result ≡ (params.now.variable && not (is_message_trigger request.now.trigger)) }
{
    params.variable && !is_message_trigger(request.trigger)
}

/// The extended status of a refusal by a described device.
fn described_code(request: &OpenRequest<&[u8]>, why: Refusal) -> u16
    ensures { result ≡ described_code (view_open request.now) why }
{
    match why {
        Refusal::Parameter if request.multiplier > 7 => 0x0133,
        Refusal::Parameter => 0x0125,
        Refusal::ConsumedType if is_null_open(request) => 0x0132,
        Refusal::ConsumedSize if is_variable_data(request, &request.o_t_params) => 0x011F,
        Refusal::ProducedSize if is_variable_data(request, &request.t_o_params) => 0x0120,
        _ => why.code(),
    }
}

/// The extended status of a refusal.
fn opening_code(
    description: &Option<Description>,
    request: &OpenRequest<&[u8]>,
    why: Refusal,
) -> u16
    ensures { result ≡ opening_code description.now (view_open request.now) why }
{
    match description {
        Some(_) => described_code(request, why),
        None => why.code(),
    }
}

/// The status of a request that is refused. A described device names a multiplier above 7 (0x0133), a redundant owner
/// (0x0125), a request for no connection (0x0132), and class 1 data of variable size (0x011F, 0x0120). Takes no memory.
///
/// Volume 1, chapter 3, Connection Manager extended status codes.
pub fn opening_fault(
    description: &Option<Description>,
    request: &OpenRequest<&[u8]>,
    why: Refusal,
) -> Fault
    ensures value { result ≡ opening_fault description.now (view_open request.now) why }
    ensures some { result.general ≢ 0 }
{
    Fault {
        general: 1,
        extended: Some(opening_code(description, request, why)),
    }
}

//! The request to open a connection.

ghost use Rattle.std.specs.Prelude.{◌≡◌, ◌≤◌, ◌++◌, length, IfOk, OnOk};
ghost use Rattle.cip_epath.specs.Path.{view_path};
ghost use Rattle.cip_epath.specs.Written.{path_text};
ghost use Rattle.cip_fwdopen.specs.Open.{sent_open, greatest_size, open_text};
ghost use Rattle.cip_fwdopen.specs.Services.{is_large_open};
ghost use Rattle.test_requests.specs.Requests.{is_large, open_fields, params, point_path, request_text, t_o_type};

use cip_epath::ConnPath;
use cip_epath::class::ASSEMBLY;
use cip_fwdopen::{OpenRequest, OpenService, put_open};
use cip_netparams::{ConnectionType, NetParams, Priority, Trigger};
use cip_types::fields::put_bytes;
use cip_types::{ConnId, OutOfMemory, Triad};
use std::alloc::Global;

/// Priority and time tick of a request, and its time-out in ticks.
const PRIORITY_AND_TICK: u8 = 0x0A;

const TIME_OUT_TICKS: u8 = 0x0E;

/// The code of the connection timeout multiplier: a connection times out after 16 packet intervals.
const SIXTEEN_TIMES: u8 = 2;

/// The greatest size of the connection parameters of a Forward_Open.
const MOST_BYTES: u16 = 511;

/// A class 1 connection that a test opens at an adapter. It is cyclic and has one packet interval in both directions.
#[derive(Clone, Copy)]
pub struct ConnectionRequest {
    /// Names the connection: its serial number, and the vendor and the serial number of its originator.
    pub triad: Triad,
    /// The T->O id of a point to point connection.
    pub t_o_id: ConnId,
    /// The configuration point.
    pub config: Option<u32>,
    /// The point that the adapter consumes: an output, or a heartbeat.
    pub consumed: u32,
    /// The point that the adapter produces: an input.
    pub produced: u32,
    /// The bytes of an O->T datagram: 6 and those of the output, or 2 for a heartbeat.
    pub o_t_size: u16,
    /// The bytes of a T->O datagram: 2 and those of the input.
    pub t_o_size: u16,
    /// The requested packet interval, in microseconds.
    pub rpi_us: u32,
    /// Whether the adapter is to send to a group.
    pub multicast: bool,
}

/// The bytes of a request to the Connection Manager to open this connection: a Forward_Open, or a Large_Forward_Open if a
/// size needs it. `OutOfMemory` is the only fault.
///
/// Volume 1, chapter 3, Forward_Open and Large_Forward_Open services.
pub fn open_request(alloc: Global, connection: &ConnectionRequest) -> Result<Vec<u8>, OutOfMemory>
    ensures { IfOk result (λ v. v.items ≡ request_text connection.now) }
{
    let service = service_for(connection);
    let mut out = Vec::new(alloc);
    put_bytes(&mut out, &[service.code(), 2, 0x20, 6, 0x24, 1])?;
    put_fields(&mut out, service, connection)?;
    Ok(out)
}

/// Large_Forward_Open if a size does not fit a Forward_Open.
fn service_for(connection: &ConnectionRequest) -> OpenService
    ensures service { is_large_open result ≡ is_large connection.now }
    ensures o_t_size { connection.now.o_t_size ≤ greatest_size (is_large_open result) }
    ensures t_o_size { connection.now.t_o_size ≤ greatest_size (is_large_open result) }
{
    // (both are read, since the prover needs that they are numbers of 16 bits)
    let (o_t_size, t_o_size) = (connection.o_t_size, connection.t_o_size);
    if o_t_size > MOST_BYTES || t_o_size > MOST_BYTES {
        OpenService::LargeForwardOpen
    } else {
        OpenService::ForwardOpen
    }
}

/// Appends the data of the request.
fn put_fields(
    out: &mut Vec<u8>,
    service: OpenService,
    connection: &ConnectionRequest,
) -> Result<(), OutOfMemory>
    requires o_t_size { connection.now.o_t_size ≤ greatest_size (is_large_open service) }
    requires t_o_size { connection.now.t_o_size ≤ greatest_size (is_large_open service) }
    ensures { OnOk result (out.new.items ≡ out.old.items
        ++ open_text (is_large_open service) (open_fields connection.now)) }
{
    put_open(out, service, &fields_of(connection))
}

/// The fields of the request.
#[tactic(auto, using(crate::proofs::Lengths::path_short))]
fn fields_of<'a>(connection: &ConnectionRequest) -> OpenRequest<ConnPath<'a>>
    ensures fields { sent_open result ≡ open_fields connection.now }
    ensures path { view_path result.path ≡ point_path connection.now }
    ensures short { length (path_text (view_path result.path)) ≤ 510 }
    ensures o_t_size { result.o_t_params.size ≡ connection.now.o_t_size }
    ensures t_o_size { result.t_o_params.size ≡ connection.now.t_o_size }
{
    OpenRequest {
        priority_tick: PRIORITY_AND_TICK,
        ticks: TIME_OUT_TICKS,
        o_t_id: ConnId(0),
        t_o_id: connection.t_o_id,
        triad: connection.triad,
        multiplier: SIXTEEN_TIMES,
        o_t_rpi: connection.rpi_us,
        o_t_params: params(connection.o_t_size, ConnectionType::PointToPoint),
        t_o_rpi: connection.rpi_us,
        t_o_params: params(connection.t_o_size, t_o_type(connection.multicast)),
        trigger: Trigger::Cyclic.byte(),
        path: point_path(connection),
    }
}

/// The path to the points.
fn point_path<'a>(connection: &ConnectionRequest) -> ConnPath<'a>
    ensures { view_path result ≡ point_path connection.now }
{
    ConnPath {
        key: None,
        inhibit: None,
        class: ASSEMBLY,
        config: connection.config,
        consumed: connection.consumed,
        produced: connection.produced,
        segment: None,
    }
}

/// Datagrams of a fixed size and scheduled priority.
fn params(size: u16, kind: ConnectionType) -> NetParams
    ensures { result ≡ params size kind }
{
    NetParams {
        size,
        variable: false,
        priority: Priority::Scheduled,
        kind,
        redundant: false,
    }
}

/// The type of the T->O direction.
fn t_o_type(multicast: bool) -> ConnectionType
    ensures { result ≡ t_o_type multicast }
{
    if multicast {
        ConnectionType::Multicast
    } else {
        ConnectionType::PointToPoint
    }
}

//! Requests to the message router.

ghost use Rattle.std.specs.Prelude.{◌≡◌};
ghost use Rattle.cip_fwdopen.specs.Open.{open_reading};
ghost use Rattle.cip_fwdopen.specs.Close.{close_reading};
ghost use Rattle.cip_fwdopen.specs.Request.{view_request};
ghost use Rattle.cip_fwdopen.specs.Services.{is_large_open, open_service};
ghost use Rattle.cip_router.specs.Requests.{router_request_reading, request_to_manager, request_to_open, request_to_close, request_to_object, data_status, view_router_request};

use crate::refusal::Status;
use cip_epath::class::CONNECTION_MANAGER;
use cip_fwdopen::service::FORWARD_CLOSE;
use cip_fwdopen::{
    CloseRequest, OpenRequest, OpenService, ReadFault, Request, read_close, read_open, read_request,
};

/// The service that carries a request to a device behind a route.
///
/// Volume 1, chapter 3, Connection Manager services.
pub const UNCONNECTED_SEND: u8 = 0x52;

/// A request to the message router, by its object and service.
///
/// Volume 1, chapter 2, message router request, and chapter 3, Connection Manager services.
#[derive(Clone, Copy)]
pub enum RouterRequest<'a> {
    /// The request has no byte, so no service.
    Nothing,
    /// The router refuses the request of this service.
    Refused(u8, Status),
    /// The close of a connection.
    Closing(CloseRequest<&'a [u8]>),
    /// A service of another object: the service, the class, the instance, the attribute and the data.
    Object(u8, u32, u32, Option<u32>, &'a [u8]),
    /// The opening of a connection, by this service.
    Opening(OpenService, OpenRequest<&'a [u8]>),
}

/// The status for unreadable data of a service.
fn data_status(fault: ReadFault) -> Status
    ensures { result ≡ data_status fault }
{
    match fault {
        ReadFault::NotEnough => Status::NotEnoughData,
        ReadFault::TooMuch => Status::TooMuchData,
        ReadFault::Path(_) => Status::PathSegment,
    }
}

fn request_to_open(service: OpenService, body: &[u8]) -> RouterRequest<'_>
    ensures { view_router_request result
        ≡ request_to_open (open_service (is_large_open service)) (is_large_open service)
        (open_reading (is_large_open service) body.now) }
{
    match read_open(service, body) {
        Ok(request) => RouterRequest::Opening(service, request),
        Err(fault) => RouterRequest::Refused(service.code(), data_status(fault)),
    }
}

fn request_to_close(service: u8, body: &[u8]) -> RouterRequest<'_>
    ensures { view_router_request result ≡ request_to_close service (close_reading body.now) }
{
    match read_close(body) {
        Ok(request) => RouterRequest::Closing(request),
        Err(fault) => RouterRequest::Refused(service, data_status(fault)),
    }
}

fn request_to_manager(service: u8, attribute: Option<u32>, body: &[u8]) -> RouterRequest<'_>
    ensures { view_router_request result ≡ request_to_manager service attribute body.now }
{
    if let Some(open) = OpenService::of(service) {
        return request_to_open(open, body);
    }
    match service {
        FORWARD_CLOSE => request_to_close(service, body),
        UNCONNECTED_SEND => RouterRequest::Object(service, CONNECTION_MANAGER, 1, None, body),
        _ => RouterRequest::Object(service, CONNECTION_MANAGER, 1, attribute, body),
    }
}

fn request_to_object<'a>(request: Request<'a>) -> RouterRequest<'a>
    ensures { view_router_request result ≡ request_to_object (view_request request.entry) }
{
    let target = request.target;
    if target.class == CONNECTION_MANAGER && target.instance == 1 {
        return request_to_manager(request.service, target.attribute, request.body);
    }
    RouterRequest::Object(
        request.service,
        target.class,
        target.instance,
        target.attribute,
        request.body,
    )
}

/// Reads a request. Takes no memory.
///
/// The router refuses, in this order: bytes that end within the request path (status 0x13), a path that
/// is no class and instance (0x04), data of the opens and the close of the Connection Manager that are too short (0x13) or too long
/// (0x15). The device judges every other service of it, and a request to another object.
#[tactic(auto, unfolding(crate::specs::Requests::router_request_reading))]
pub fn read_router_request(bytes: &[u8]) -> RouterRequest<'_>
    ensures { view_router_request result ≡ router_request_reading bytes.now }
{
    let [service, ..] = bytes else {
        return RouterRequest::Nothing;
    };
    match read_request(bytes) {
        Ok(request) => request_to_object(request),
        Err(fault) => RouterRequest::Refused(*service, data_status(fault)),
    }
}

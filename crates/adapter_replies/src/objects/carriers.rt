//! Requests that a service carries, and what names them.

ghost use Rattle.std.specs.Prelude.{◌≡◌};
ghost use Rattle.cip_router.specs.Replies.{view_reply};
ghost use Rattle.cip_router.specs.Requests.{view_router_request};
ghost use Rattle.adapter_table.specs.Carrying.{carried, is_packet, is_sending, naming, said_reply};
ghost use Rattle.adapter_replies.specs.Objects.Views.{view_answer, view_carried};

use crate::objects::answer::{ObjectAnswer, ObjectRequest};
use crate::objects::own::is_own_class;
use cip_epath::class::{CONNECTION_MANAGER, MESSAGE_ROUTER};
use cip_fwdopen::service::FORWARD_CLOSE;
use cip_router::{ObjectService, Reply, RouterRequest, Status, UNCONNECTED_SEND};

/// A request that a service carries.
///
/// Volume 1, appendix A, Multiple_Service_Packet, and chapter 3, Unconnected_Send.
#[derive(Clone, Copy)]
pub enum Carried<'b> {
    /// The request of this service is refused.
    Barred(u8, Status),
    /// A request to an object that the device answers by itself: its class and its instance, and the request.
    Asking(u32, u32, ObjectRequest<'b>),
}

/// What the service of a carrier carries: no request without a byte (0x13), none that opens or closes a connection, and none to an
/// object of these classes of the maker's own (0x08). Takes no memory.
pub fn carried_request<'b>(carrier: u8, own: &[u32], request: RouterRequest<'b>) -> Carried<'b>
    ensures { view_carried result ≡ carried carrier own.now (view_router_request request.entry) }
{
    match request {
        RouterRequest::Nothing => Carried::Barred(carrier, Status::NotEnoughData),
        RouterRequest::Refused(service, why) => Carried::Barred(service, why),
        RouterRequest::Closing(_) => Carried::Barred(FORWARD_CLOSE, Status::Service),
        RouterRequest::Object(service, class, instance, attribute, body) => {
            if is_own_class(own, class) {
                return Carried::Barred(service, Status::Service);
            }
            let request = ObjectRequest {
                service,
                attribute,
                body,
            };
            Carried::Asking(class, instance, request)
        }
        RouterRequest::Opening(service, _) => Carried::Barred(service.code(), Status::Service),
    }
}

/// Whether a service of an object is that of several requests, of a described device.
pub fn is_packet(described: bool, service: u8, class: u32, instance: u32) -> bool
    ensures { result ≡ is_packet described service class instance }
{
    service == ObjectService::Packet.code() && class == MESSAGE_ROUTER && instance == 1 && described
}

/// Whether a service of an object is that of a request with a route, of a described device.
pub fn is_sending(described: bool, service: u8, class: u32, instance: u32) -> bool
    ensures { result ≡ is_sending described service class instance }
{
    service == UNCONNECTED_SEND && class == CONNECTION_MANAGER && instance == 1 && described
}

/// The reply to a service in a packet. None resets the device (0x08).
pub fn said_reply<'a>(service: u8, answer: &'a ObjectAnswer<'_>) -> Reply<'a>
    ensures { view_reply result ≡ said_reply service (view_answer answer.now) }
{
    match answer {
        ObjectAnswer::Said(by, bytes) => Reply::Object(*by, bytes.as_slice()),
        ObjectAnswer::Denied(why) => Reply::Refused(service, why.fault(), None),
        ObjectAnswer::Resetting(_) => Reply::Refused(service, Status::Service.fault(), None),
        ObjectAnswer::Answering(by, general, bytes) => {
            Reply::Own(by.code(), *general, bytes.as_slice())
        }
        ObjectAnswer::Refusing(named, why) => Reply::Refused(*named, why.fault(), None),
        ObjectAnswer::Unrouted(_) => Reply::Refused(service, Status::Service.fault(), None),
    }
}

/// An answer whose refusal names the service.
pub fn naming<'a>(service: u8, answer: ObjectAnswer<'a>) -> ObjectAnswer<'a>
    ensures { view_answer result ≡ naming service (view_answer answer.entry) }
{
    match answer {
        ObjectAnswer::Denied(why) => ObjectAnswer::Refusing(service, why),
        other => other,
    }
}

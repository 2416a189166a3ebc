//! Requests to the message router in words.

use crate::router::connections::{
    push_direction, push_message_path, push_multiplier, push_path, push_trigger,
};
use crate::router::values::{push_data, push_id, push_triad};
use cip_fwdopen::{CloseRequest, OpenRequest, OpenService};
use cip_netparams::is_message_trigger;
use cip_router::{RouterRequest, Status, read_router_request};
use cip_tables::Config;
use cip_types::OutOfMemory;
use std::alloc::Global;
use trace_words::{push_fault, push_text};

/// A request, by its service and fields.
///
/// Volume 1, chapter 2, message router request; chapter 3, Connection Manager services.
pub fn push_request(
    alloc: Global,
    out: &mut String,
    config: &Config,
    bytes: &[u8],
) -> Result<(), OutOfMemory> {
    match read_router_request(bytes) {
        RouterRequest::Nothing => push_text(out, "a request without a byte"),
        RouterRequest::Refused(service, status) => push_refused(out, service, status),
        RouterRequest::Closing(request) => push_close(out, &request),
        RouterRequest::Object(service, class, instance, attribute, data) => {
            push_object(alloc, out, service, (class, instance, attribute), data)
        }
        RouterRequest::Opening(service, request) => push_open(
            alloc, out, config, service, &request,
        ),
    }
}

/// A request that the message router refuses, whatever the device.
fn push_refused(out: &mut String, service: u8, status: Status) -> Result<(), OutOfMemory> {
    write!(out, "service {service:#04x}, which a router refuses: ")?;
    push_fault(out, status.fault())
}

fn push_close(out: &mut String, request: &CloseRequest<&[u8]>) -> Result<(), OutOfMemory> {
    push_text(out, "Forward_Close of ")?;
    push_triad(out, request.triad)
}

/// A service of the attribute of an instance of a class.
pub fn push_object(
    alloc: Global,
    out: &mut String,
    service: u8,
    (class, instance, attribute): (u32, u32, Option<u32>),
    data: &[u8],
) -> Result<(), OutOfMemory> {
    match service_name(service) {
        Some(name) => push_text(out, name)?,
        None => write!(out, "service {service:#04x}")?,
    }
    match class_name(class) {
        Some(name) => write!(out, " of {name} {instance}")?,
        None => write!(out, " of class {class:#04x} instance {instance}")?,
    }
    if let Some(attribute) = attribute {
        write!(out, " attribute {attribute}")?;
    }
    push_text(out, ", ")?;
    push_data(alloc, out, data)
}

/// The name of a service of many objects, or of Unconnected_Send.
///
/// Volume 1, appendix A, common services, and chapter 3, Connection Manager services.
pub fn service_name(service: u8) -> Option<&'static str> {
    match service {
        0x01 => Some("Get_Attributes_All"),
        0x03 => Some("Get_Attribute_List"),
        0x04 => Some("Set_Attribute_List"),
        0x05 => Some("Reset"),
        0x0A => Some("Multiple_Service_Packet"),
        0x0E => Some("Get_Attribute_Single"),
        0x10 => Some("Set_Attribute_Single"),
        0x52 => Some("Unconnected_Send"),
        _ => None,
    }
}

/// The name of an object that the field's tools ask.
///
/// Volume 1, chapter 5, object library. Volume 2, chapter 5.
fn class_name(class: u32) -> Option<&'static str> {
    match class {
        0x01 => Some("Identity"),
        0x02 => Some("Message Router"),
        0x04 => Some("assembly"),
        0x06 => Some("Connection Manager"),
        0x48 => Some("QoS"),
        0xF4 => Some("Port"),
        0xF5 => Some("TCP/IP Interface"),
        0xF6 => Some("Ethernet Link"),
        _ => None,
    }
}

fn push_open(
    alloc: Global,
    out: &mut String,
    config: &Config,
    service: OpenService,
    request: &OpenRequest<&[u8]>,
) -> Result<(), OutOfMemory> {
    push_text(
        out,
        match service {
            OpenService::LargeForwardOpen => "Large_Forward_Open of ",
            OpenService::ForwardOpen => "Forward_Open of ",
        },
    )?;
    push_triad(out, request.triad)?;
    push_text(out, ", O->T id ")?;
    push_id(out, request.o_t_id)?;
    push_text(out, ", T->O id ")?;
    push_id(out, request.t_o_id)?;
    push_text(out, "; ")?;
    push_direction(out, "O->T", request.o_t_rpi, request.o_t_params)?;
    push_text(out, "; ")?;
    push_direction(out, "T->O", request.t_o_rpi, request.t_o_params)?;
    push_text(out, "; ")?;
    push_multiplier(out, request.multiplier)?;
    push_text(out, "; ")?;
    push_trigger(out, request.trigger)?;
    push_text(out, "; ")?;
    if is_message_trigger(request.trigger) {
        return push_message_path(alloc, out, config, request.path);
    }
    push_path(alloc, out, config, request.o_t_params.size, request.path)
}

//! The names and types of attributes.

ghost use Rattle.station_lines.specs.Attributes.Names.{assembly_attribute, class_attribute, identity_attribute, instance_attribute, interface_attribute, known_attribute, link_attribute, port_attribute, qos_attribute, router_attribute};
ghost use Rattle.cip_types.specs.Fields.{Finds};

use crate::attributes::kind::AttributeType;
use adapter_table::QOS_CLASS;
use cip_epath::class::{ASSEMBLY, MESSAGE_ROUTER};

/// The Identity object.
///
/// Volume 1, chapter 5, Identity object.
const IDENTITY_CLASS: u32 = 0x01;

/// The Port object.
///
/// Volume 1, chapter 3, Port object.
const PORT_CLASS: u32 = 0xF4;

/// The TCP/IP Interface object.
///
/// Volume 2, chapter 5, TCP/IP Interface object.
const INTERFACE_CLASS: u32 = 0xF5;

/// The Ethernet Link object.
///
/// Volume 2, chapter 5, Ethernet Link object.
const LINK_CLASS: u32 = 0xF6;

/// Type and name of an attribute. None if a station does not know it.
#[tactic(auto, unfolding(crate::specs::Attributes::Names::known_attribute))]
pub fn known_attribute(
    class: u32,
    instance: u32,
    attribute: u32,
) -> Option<(AttributeType, &'static str)>
    ensures { Finds (λ x. (x.0, x.1.now)) result (known_attribute class instance attribute) }
{
    if instance == 0 {
        class_attribute(attribute)
    } else {
        instance_attribute(class, attribute)
    }
}

/// An attribute of an instance of a class.
fn instance_attribute(class: u32, attribute: u32) -> Option<(AttributeType, &'static str)>
    ensures { Finds (λ x. (x.0, x.1.now)) result (instance_attribute class attribute) }
{
    match class {
        IDENTITY_CLASS => identity_attribute(attribute),
        ASSEMBLY => assembly_attribute(attribute),
        INTERFACE_CLASS => interface_attribute(attribute),
        LINK_CLASS => link_attribute(attribute),
        MESSAGE_ROUTER => router_attribute(attribute),
        QOS_CLASS => qos_attribute(attribute),
        PORT_CLASS => port_attribute(attribute),
        _ => None,
    }
}

/// An attribute of a class.
///
/// Volume 1, chapter 4, class attributes.
fn class_attribute(attribute: u32) -> Option<(AttributeType, &'static str)>
    ensures { Finds (λ x. (x.0, x.1.now)) result (class_attribute attribute) }
{
    match attribute {
        1 => Some((AttributeType::Uint, "revision")),
        2 => Some((AttributeType::Uint, "max-instance")),
        3 => Some((AttributeType::Uint, "number-of-instances")),
        4 => Some((AttributeType::Raw, "optional-attributes")),
        5 => Some((AttributeType::Raw, "optional-services")),
        6 => Some((AttributeType::Uint, "max-class-attribute")),
        7 => Some((AttributeType::Uint, "max-instance-attribute")),
        _ => None,
    }
}

fn identity_attribute(attribute: u32) -> Option<(AttributeType, &'static str)>
    ensures { Finds (λ x. (x.0, x.1.now)) result (identity_attribute attribute) }
{
    match attribute {
        1 => Some((AttributeType::Uint, "vendor")),
        2 => Some((AttributeType::Uint, "device-type")),
        3 => Some((AttributeType::Uint, "product-code")),
        4 => Some((AttributeType::Revision, "revision")),
        5 => Some((AttributeType::Word, "status")),
        6 => Some((AttributeType::Udint, "serial-number")),
        7 => Some((AttributeType::ShortString, "product-name")),
        8 => Some((AttributeType::Usint, "state")),
        9 => Some((AttributeType::Uint, "configuration-consistency")),
        _ => None,
    }
}

fn router_attribute(attribute: u32) -> Option<(AttributeType, &'static str)>
    ensures { Finds (λ x. (x.0, x.1.now)) result (router_attribute attribute) }
{
    match attribute {
        1 => Some((AttributeType::Raw, "object-list")),
        2 => Some((AttributeType::Uint, "max-connections")),
        3 => Some((AttributeType::Uint, "number-of-connections")),
        _ => None,
    }
}

fn assembly_attribute(attribute: u32) -> Option<(AttributeType, &'static str)>
    ensures { Finds (λ x. (x.0, x.1.now)) result (assembly_attribute attribute) }
{
    match attribute {
        3 => Some((AttributeType::Raw, "data")),
        4 => Some((AttributeType::Uint, "size")),
        _ => None,
    }
}

fn interface_attribute(attribute: u32) -> Option<(AttributeType, &'static str)>
    ensures { Finds (λ x. (x.0, x.1.now)) result (interface_attribute attribute) }
{
    match attribute {
        1 => Some((AttributeType::Dword, "status")),
        2 => Some((AttributeType::Dword, "capability")),
        3 => Some((AttributeType::Dword, "control")),
        4 => Some((AttributeType::Raw, "physical-link")),
        5 => Some((AttributeType::Interface, "interface")),
        6 => Some((AttributeType::CountedString, "host-name")),
        8 => Some((AttributeType::Usint, "time-to-live")),
        9 => Some((AttributeType::Raw, "multicast-groups")),
        10 => Some((AttributeType::Usint, "conflict-detection")),
        11 => Some((AttributeType::Raw, "last-conflict")),
        13 => Some((AttributeType::Uint, "inactivity-timeout")),
        _ => None,
    }
}

fn link_attribute(attribute: u32) -> Option<(AttributeType, &'static str)>
    ensures { Finds (λ x. (x.0, x.1.now)) result (link_attribute attribute) }
{
    match attribute {
        1 => Some((AttributeType::Udint, "speed")),
        2 => Some((AttributeType::Dword, "flags")),
        3 => Some((AttributeType::PhysicalAddress, "physical-address")),
        7 => Some((AttributeType::Usint, "type")),
        8 => Some((AttributeType::Usint, "state")),
        9 => Some((AttributeType::Usint, "admin-state")),
        10 => Some((AttributeType::ShortString, "label")),
        11 => Some((AttributeType::Raw, "capability")),
        _ => None,
    }
}

/// The code points of datagrams.
fn qos_attribute(attribute: u32) -> Option<(AttributeType, &'static str)>
    ensures { Finds (λ x. (x.0, x.1.now)) result (qos_attribute attribute) }
{
    match attribute {
        1 => Some((AttributeType::Usint, "tags-enabled")),
        2 => Some((AttributeType::Usint, "dscp-ptp-event")),
        3 => Some((AttributeType::Usint, "dscp-ptp-general")),
        4 => Some((AttributeType::Usint, "dscp-urgent")),
        5 => Some((AttributeType::Usint, "dscp-scheduled")),
        6 => Some((AttributeType::Usint, "dscp-high")),
        7 => Some((AttributeType::Usint, "dscp-low")),
        8 => Some((AttributeType::Usint, "dscp-explicit")),
        _ => None,
    }
}

fn port_attribute(attribute: u32) -> Option<(AttributeType, &'static str)>
    ensures { Finds (λ x. (x.0, x.1.now)) result (port_attribute attribute) }
{
    match attribute {
        1 => Some((AttributeType::Uint, "type")),
        2 => Some((AttributeType::Uint, "number")),
        3 => Some((AttributeType::Raw, "link-object")),
        4 => Some((AttributeType::ShortString, "name")),
        7 => Some((AttributeType::Raw, "node-address")),
        _ => None,
    }
}

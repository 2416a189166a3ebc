//! The objects whose classes the maker's own may have in the device's place: QoS and Port.

ghost use Rattle.std.specs.Prelude.{◌≡◌, ◌≤◌, ◌++◌, IfOk, OnOk, filter, length};
ghost use Rattle.adapter_table.specs.Objects.{decimal_byte, is_left, is_other_class, node_segment, node_text, object_said, pad_of, port_class_instance, port_instance, qos_instance, yielding_cases, yielding_classes};
ghost use Rattle.adapter_table.specs.Own.{is_own_class};
ghost use Rattle.cip_types.specs.Cases.{first_case};
ghost use Rattle.adapter_replies.specs.Objects.Views.{requested, view_answer};

use crate::objects::answer::{ObjectAnswer, ObjectRequest, instance_answer};
use crate::objects::classes::qos_class_answer;
use crate::objects::instance::Instance;
use crate::objects::value::{Attribute, Value};
use adapter_table::{Profile, QOS_CLASS};
use assembly_set::AssemblySet;
use cip_router::Status;
use cip_types::fields::{put_bytes, put_u8};
use cip_types::{Node, OutOfMemory};
use std::alloc::Global;

/// The Port object.
///
/// Volume 1, chapter 3, Port object.
const PORT: u32 = 0xF4;

/// The type of a port of EtherNet/IP.
///
/// Volume 1, chapter 3, Port object, attribute 1.
const PORT_TYPE: u16 = 4;

/// The number of the port: 1 is that of a backplane.
///
/// Volume 1, chapter 3, Port object, attribute 2.
const PORT_NUMBER: u16 = 2;

/// The path of the TCP/IP Interface object behind the number of its words: class F5, instance 1.
///
/// Volume 1, chapter 3, Port object, attribute 3.
const INTERFACE_PATH: [u8; 6] = [2, 0, 0x20, 0xF5, 0x24, 0x01];

/// The name of the port.
///
/// Volume 1, chapter 3, Port object, attribute 4.
const PORT_NAME: &[u8] = b"EtherNet/IP port";

/// Type and number of each instance from 0 on, of which 0 is none.
///
/// Volume 1, chapter 3, Port object, class attribute 9.
const PORTS: [u8; 8] = [0, 0, 0, 0, 4, 0, 2, 0];

/// The front of a port segment of port 2 with an address of several bytes.
///
/// Volume 1, appendix C, port segment.
const PORT_SEGMENT: u8 = 0x12;

/// Whether the class is one of the maker's own.
fn is_own(own: &[u32], class: u32) -> bool
    ensures { result ≡ is_own_class own.now class }
{
    own.iter().any(|other| *other == class)
}

/// The classes of QoS and Port that are none of the maker's own.
pub(crate) fn left_classes<'a>(own: &[u32]) -> &'a [u16]
    ensures { result.now ≡ filter (is_other_class own.now) yielding_classes }
{
    match (is_own(own, QOS_CLASS), is_own(own, PORT)) {
        (false, false) => &[0x48, 0xF4],
        (false, true) => &[0x48],
        (true, false) => &[0xF4],
        (true, true) => &[],
    }
}

/// A service of the QoS object.
fn qos_answer<'a>(
    alloc: Global,
    owned: bool,
    request: ObjectRequest<'_>,
) -> Result<ObjectAnswer<'a>, OutOfMemory>
    ensures { IfOk result (λ answer. view_answer answer ≡ requested owned request.entry qos_instance) }
{
    let attributes = [
        Attribute::Single(1, Value::Byte(0)),
        Attribute::Single(2, Value::Byte(59)),
        Attribute::Single(3, Value::Byte(47)),
        Attribute::Single(4, Value::Byte(55)),
        Attribute::Single(5, Value::Byte(47)),
        Attribute::Single(6, Value::Byte(43)),
        Attribute::Single(7, Value::Byte(31)),
        Attribute::Single(8, Value::Byte(27)),
    ];
    let instance = Instance {
        attributes: &attributes,
        gets_all: false,
        sets: true,
        resets: false,
    };
    instance_answer(alloc, &instance, owned, request)
}

/// A service of the Port object.
fn port_answer<'a>(
    alloc: Global,
    profile: &Profile,
    owned: bool,
    request: ObjectRequest<'_>,
) -> Result<ObjectAnswer<'a>, OutOfMemory>
    ensures { IfOk result (λ answer. view_answer answer
        ≡ requested owned request.entry (port_instance profile.now)) }
{
    let attributes = [
        Attribute::Single(1, Value::Word(PORT_TYPE)),
        Attribute::Single(2, Value::Word(PORT_NUMBER)),
        Attribute::Single(3, Value::Lent(&INTERFACE_PATH)),
        Attribute::Single(4, Value::Counted(PORT_NAME.len() as u8, PORT_NAME)),
        Attribute::Single(7, Value::Segment(profile.node)),
    ];
    let instance = Instance {
        attributes: &attributes,
        gets_all: false,
        sets: true,
        resets: false,
    };
    instance_answer(alloc, &instance, owned, request)
}

/// A service of the class of ports: the instance by which a request entered, and all instances.
fn port_class_answer<'a>(
    alloc: Global,
    owned: bool,
    request: ObjectRequest<'_>,
) -> Result<ObjectAnswer<'a>, OutOfMemory>
    ensures { IfOk result (λ answer. view_answer answer
        ≡ requested owned request.entry port_class_instance) }
{
    let attributes = [
        Attribute::Single(1, Value::Word(1)),
        Attribute::Single(2, Value::Word(1)),
        Attribute::Single(3, Value::Word(1)),
        Attribute::Single(4, Value::Numbers(&[])),
        Attribute::Single(5, Value::Numbers(&[0x03, 0x04])),
        Attribute::Single(6, Value::Word(9)),
        Attribute::Single(7, Value::Word(7)),
        Attribute::Single(8, Value::Word(1)),
        Attribute::Single(9, Value::Lent(&PORTS)),
    ];
    let instance = Instance {
        attributes: &attributes,
        gets_all: false,
        sets: true,
        resets: false,
    };
    instance_answer(alloc, &instance, owned, request)
}

/// Whether the class is this one, and no object of the maker's own has it.
fn is_left(own: &[u32], served: u32, class: u32) -> bool
    ensures { result ≡ is_left own.now served class }
{
    class == served && !is_own(own, served)
}

/// The answer to a service of QoS or Port; it is refused (0x05) where another object is asked, or one of the maker's own.
pub(crate) fn yielding_answer<'a>(
    alloc: Global,
    assemblies: &AssemblySet,
    class: u32,
    instance: u32,
    owned: bool,
    request: ObjectRequest<'_>,
) -> Result<ObjectAnswer<'a>, OutOfMemory>
    ensures { IfOk result (λ answer. view_answer answer
        ≡ object_said owned request.entry.service request.entry.attribute request.entry.body.now
        (first_case (yielding_cases assemblies.now.profile class instance))) }
{
    let profile = assemblies.profile();
    let own = profile.objects.as_slice();
    let (qos, port) = (is_left(own, QOS_CLASS, class), is_left(own, PORT, class));
    if qos && instance == 0 {
        return qos_class_answer(alloc, owned, request);
    }
    if qos && instance == 1 {
        return qos_answer(alloc, owned, request);
    }
    if port && instance == 0 {
        return port_class_answer(alloc, owned, request);
    }
    if port && instance == 1 {
        return port_answer(alloc, profile, owned, request);
    }
    Ok(ObjectAnswer::Denied(Status::PathDestination))
}

/// Appends a byte in decimal digits.
fn put_decimal(out: &mut Vec<u8>, byte: u8) -> Result<(), OutOfMemory>
    ensures { OnOk result (out.new.items ≡ out.old.items ++ decimal_byte byte) }
{
    let (tens, ones) = (b'0' + byte / 10 % 10, b'0' + byte % 10);
    if byte < 10 {
        return put_u8(out, b'0' + byte);
    }
    if byte < 100 {
        return put_bytes(out, &[b'0' + byte / 10, ones]);
    }
    put_bytes(out, &[b'0' + byte / 100, tens, ones])
}

/// How many decimal digits a byte has.
fn digits(byte: u8) -> u8
    ensures value { result ≡ length (decimal_byte byte) }
    ensures few { result ≤ 3 }
{
    if byte < 10 {
        return 1;
    }
    if byte < 100 {
        return 2;
    }
    3
}

/// Appends an address as four numbers with dots between them.
fn put_node_text(out: &mut Vec<u8>, node: Node) -> Result<(), OutOfMemory>
    ensures { OnOk result (out.new.items ≡ out.old.items ++ node_text node.0) }
{
    let bytes = node.0.to_be_bytes();
    put_decimal(out, bytes[0])?;
    put_u8(out, b'.')?;
    put_decimal(out, bytes[1])?;
    put_u8(out, b'.')?;
    put_decimal(out, bytes[2])?;
    put_u8(out, b'.')?;
    put_decimal(out, bytes[3])
}

/// How many bytes the text of an address has.
#[tactic(auto, using(crate::proofs::Points::node_text_len))]
fn node_text_len(node: Node) -> u8
    ensures value { result ≡ length (node_text node.0) }
    ensures few { result ≤ 15 }
{
    let bytes = node.0.to_be_bytes();
    let behind = digits(bytes[2]) + 1 + digits(bytes[3]);
    digits(bytes[0]) + 1 + digits(bytes[1]) + 1 + behind
}

/// Appends a zero, if a text of this length has an odd one.
fn put_pad(out: &mut Vec<u8>, len: u8) -> Result<(), OutOfMemory>
    ensures { OnOk result (out.new.items ≡ out.old.items ++ pad_of len) }
{
    if len % 2 == 1 { put_u8(out, 0) } else { Ok(()) }
}

/// Appends a port segment with the address of the device.
pub(crate) fn put_segment(out: &mut Vec<u8>, node: Node) -> Result<(), OutOfMemory>
    ensures { OnOk result (out.new.items ≡ out.old.items ++ node_segment node.0) }
{
    let len = node_text_len(node);
    put_bytes(out, &[PORT_SEGMENT, len])?;
    put_node_text(out, node)?;
    put_pad(out, len)
}

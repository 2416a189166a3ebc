//! The objects of the network: TCP/IP Interface and Ethernet Link.

ghost use Rattle.std.specs.Prelude.{◌≡◌, ◌≤◌, IfOk, length};
ghost use Rattle.adapter_table.specs.Objects.{addresses, first_group, groups, interface_instance, link_instance};
ghost use Rattle.adapter_replies.specs.Objects.Views.{interface_by, requested, view_answer, view_value};

use crate::objects::answer::{ObjectAnswer, ObjectRequest, instance_answer};
use crate::objects::instance::Instance;
use crate::objects::value::{Attribute, Value, Zeros};
use adapter_table::{Description, Profile, multicast_address};
use assembly_set::AssemblySet;
use cip_types::{Node, OutOfMemory};
use std::alloc::Global;

/// How far multicast datagrams go.
///
/// Volume 2, chapter 5, TCP/IP Interface object, attribute 8.
const TIME_TO_LIVE: u8 = 1;

/// What the device does not do, as a BOOL.
///
/// Volume 1, appendix C, data types.
const NOT: u8 = 0;

/// The type of the link: a twisted pair.
///
/// Volume 2, chapter 5, Ethernet Link object, attribute 7.
const TWISTED_PAIR: u8 = 2;

/// The state of the link, and what its operator has set.
///
/// Volume 2, chapter 5, Ethernet Link object, attributes 8 and 9.
const ENABLED: u8 = 1;

/// The label of the link.
///
/// Volume 2, chapter 5, Ethernet Link object, attribute 10.
const LINK_LABEL: &[u8] = b"Ethernet";

/// The multicast address of the first input.
fn first_group(profile: &Profile) -> Node
    requires { length profile.now.inputs ≤ 8 }
    ensures { result.0 ≡ first_group profile.now profile.now.inputs }
{
    match profile.inputs.as_slice() {
        [] => Node(0),
        [input, ..] => multicast_address(profile, input.instance),
    }
}

/// A service of a TCP/IP Interface object with these addresses, these multicast addresses and this inactivity time-out.
fn interface_of<'a>(
    alloc: Global,
    addresses: Value<'a>,
    groups: Value<'a>,
    inactivity: u16,
    owned: bool,
    request: ObjectRequest<'_>,
) -> Result<ObjectAnswer<'a>, OutOfMemory>
    ensures { IfOk result (λ answer. view_answer answer ≡ requested owned request.entry
        (interface_by (view_value addresses.entry) (view_value groups.entry) inactivity)) }
{
    let attributes = [
        Attribute::Listed(1, Value::Long(1)),
        Attribute::Listed(2, Value::Long(0)),
        Attribute::Listed(3, Value::Long(0)),
        Attribute::Listed(4, Value::LinkPath),
        Attribute::Listed(5, addresses),
        Attribute::Listed(6, Value::Word(0)),
        Attribute::Absent(Value::Zeros(Zeros::SafetyNumber)),
        Attribute::Listed(8, Value::Byte(TIME_TO_LIVE)),
        Attribute::Listed(9, groups),
        Attribute::Listed(10, Value::Byte(NOT)),
        Attribute::Listed(11, Value::Zeros(Zeros::Conflict)),
        Attribute::Absent(Value::Byte(NOT)),
        Attribute::Listed(13, Value::Word(inactivity)),
    ];
    let instance = Instance {
        attributes: &attributes,
        gets_all: true,
        sets: true,
        resets: false,
    };
    instance_answer(alloc, &instance, owned, request)
}

/// A service of the TCP/IP Interface object of a device of this profile.
fn profile_interface<'a>(
    alloc: Global,
    profile: &Profile,
    inactivity: u16,
    owned: bool,
    request: ObjectRequest<'_>,
) -> Result<ObjectAnswer<'a>, OutOfMemory>
    requires { length profile.now.inputs ≤ 8 }
    ensures { IfOk result (λ answer. view_answer answer ≡ requested owned request.entry
        (interface_by (addresses profile.now) (groups profile.now) inactivity)) }
{
    let count = profile.inputs.as_slice().len();
    let first = first_group(profile);
    interface_of(
        alloc,
        Value::Addresses(profile.node, profile.mask),
        Value::Groups(count, first),
        inactivity,
        owned,
        request,
    )
}

/// A service of the TCP/IP Interface object.
pub(crate) fn interface_answer<'a>(
    alloc: Global,
    assemblies: &AssemblySet,
    description: &Description,
    owned: bool,
    request: ObjectRequest<'_>,
) -> Result<ObjectAnswer<'a>, OutOfMemory>
    ensures { IfOk result (λ answer. view_answer answer
        ≡ requested owned request.entry (interface_instance assemblies.now.profile description.now)) }
{
    let profile = assemblies.profile();
    profile_interface(alloc, profile, description.inactivity, owned, request)
}

/// A service of the Ethernet Link object, of which the host has counted these bytes.
pub(crate) fn link_answer<'a>(
    alloc: Global,
    description: &'a Description,
    link: &'a [u8],
    owned: bool,
    request: ObjectRequest<'_>,
) -> Result<ObjectAnswer<'a>, OutOfMemory>
    ensures { IfOk result (λ answer. view_answer answer
        ≡ requested owned request.entry (link_instance description.now link.now)) }
{
    let attributes = [
        Attribute::Listed(1, Value::Long(description.speed)),
        Attribute::Listed(2, Value::Long(description.flags)),
        Attribute::Listed(3, Value::Lent(description.mac.as_slice())),
        Attribute::Listed(4, Value::Interface(link)),
        Attribute::Listed(5, Value::Media(link)),
        Attribute::Listed(6, Value::Control(description.speed, description.flags)),
        Attribute::Listed(7, Value::Byte(TWISTED_PAIR)),
        Attribute::Listed(8, Value::Byte(ENABLED)),
        Attribute::Listed(9, Value::Byte(ENABLED)),
        Attribute::Listed(10, Value::Counted(LINK_LABEL.len() as u8, LINK_LABEL)),
        Attribute::Listed(11, Value::Capability(description.speed, description.flags)),
    ];
    let instance = Instance {
        attributes: &attributes,
        gets_all: true,
        sets: true,
        resets: false,
    };
    instance_answer(alloc, &instance, owned, request)
}

//! The objects of a described device beside its assemblies.

ghost use Rattle.std.specs.Prelude.{◌≡◌, ◌≤◌, IfOk, Some, false, length};
ghost use Rattle.adapter_table.specs.Objects.{identity_instance, manager_instance};
ghost use Rattle.adapter_table.specs.declared.profile.Description.{Description};
ghost use Rattle.adapter_table.specs.Lemmas.ObjectSizes.{FewSaid};
ghost use Rattle.adapter_replies.specs.Objects.Said.{standing_in};
ghost use Rattle.adapter_replies.specs.Objects.Views.{requested, described_requested, view_answer};

use crate::objects::answer::{ObjectAnswer, ObjectRequest, instance_answer};
use crate::objects::classes::{
    identity_class_answer, interface_class_answer, link_class_answer, manager_class_answer,
    router_class_answer,
};
use crate::objects::instance::Instance;
use crate::objects::network::{interface_answer, link_answer};
use crate::objects::port::yielding_answer;
use crate::objects::router::router_answer;
use crate::objects::status::{consistency_value, status_word};
use crate::objects::value::{Attribute, Value};
use adapter_table::{Description, IoState, ManagerCounters};
use assembly_set::AssemblySet;
use cip_epath::class::{CONNECTION_MANAGER, MESSAGE_ROUTER};
use cip_router::Status;
use cip_types::OutOfMemory;
use std::alloc::Global;

/// The Identity object.
///
/// Volume 1, chapter 5, Identity object.
const IDENTITY: u32 = 0x01;

/// The TCP/IP Interface object.
///
/// Volume 2, chapter 5, TCP/IP Interface object.
const INTERFACE: u32 = 0xF5;

/// The Ethernet Link object.
///
/// Volume 2, chapter 5, Ethernet Link object.
const LINK: u32 = 0xF6;

/// The state of a device in operation.
///
/// Volume 1, chapter 5, Identity object, attribute 8.
pub(crate) const IN_OPERATION: u8 = 3;

/// What the connections of a device tell of it, how many there are (the established ones of class 1, and those of class 3), and what its
/// host has counted of its interface.
///
/// Volume 1, chapter 5, Identity object, attribute 5, and Message Router object, attribute 3; Volume 2, chapter 5, Ethernet Link
/// object, attributes 4 and 5.
#[derive(Clone, Copy)]
pub struct ConnectionFacts<'a> {
    pub io: IoState,
    pub count: usize,
    pub link: &'a [u8],
}

/// A service of the Identity object.
fn identity_answer<'a>(
    alloc: Global,
    assemblies: &AssemblySet,
    io: IoState,
    description: &'a Description,
    request: ObjectRequest<'_>,
) -> Result<ObjectAnswer<'a>, OutOfMemory>
    requires { length description.now.name ≤ 32 }
    ensures { IfOk result (λ answer. view_answer answer ≡ requested io.owned request.entry
        (identity_instance assemblies.now.profile.identity description.now (standing_in assemblies.now io))) }
{
    let identity = assemblies.profile().identity;
    let status = status_word(assemblies, io);
    let consistency = consistency_value(assemblies);
    let name = description.name.as_slice();
    let attributes = [
        Attribute::Listed(1, Value::Word(identity.vendor)),
        Attribute::Listed(2, Value::Word(identity.device_type)),
        Attribute::Listed(3, Value::Word(identity.product)),
        Attribute::Listed(4, Value::Pair(identity.major, identity.minor)),
        Attribute::Listed(5, Value::Word(status)),
        Attribute::Listed(6, Value::Long(description.serial)),
        Attribute::Listed(7, Value::Counted(name.len() as u8, name)),
        Attribute::Single(8, Value::Byte(IN_OPERATION)),
        Attribute::Single(9, Value::Word(consistency)),
    ];
    let instance = Instance {
        attributes: &attributes,
        gets_all: true,
        sets: true,
        resets: true,
    };
    instance_answer(alloc, &instance, io.owned, request)
}

/// A service of the Connection Manager of a described device: its attributes are its counters.
fn counters_answer<'a>(
    alloc: Global,
    counters: ManagerCounters,
    request: ObjectRequest<'_>,
) -> Result<ObjectAnswer<'a>, OutOfMemory>
    ensures { (d : Description) → IfOk result (λ answer. view_answer answer
        ≡ requested false request.entry (manager_instance counters (Some d))) }
{
    let attributes = [
        Attribute::Single(1, Value::Word(counters.opens)),
        Attribute::Single(2, Value::Word(counters.open_formats)),
        Attribute::Single(3, Value::Word(counters.open_resources)),
        Attribute::Single(4, Value::Word(counters.open_others)),
        Attribute::Single(5, Value::Word(counters.closes)),
        Attribute::Single(6, Value::Word(counters.close_formats)),
        Attribute::Single(7, Value::Word(counters.close_others)),
        Attribute::Single(8, Value::Word(counters.time_outs)),
    ];
    let instance = Instance {
        attributes: &attributes,
        gets_all: false,
        sets: true,
        resets: false,
    };
    instance_answer(alloc, &instance, false, request)
}

/// The answer to a service of an object of the Connection Manager. That of a device without a description has none, and no
/// attribute: out of memory is the only fault.
///
/// Volume 1, chapter 3, Connection Manager.
pub fn manager_answer<'a>(
    alloc: Global,
    counters: ManagerCounters,
    description: &Option<Description>,
    request: ObjectRequest<'_>,
) -> Result<ObjectAnswer<'a>, OutOfMemory>
    ensures value { IfOk result (λ answer. view_answer answer
        ≡ requested false request.entry (manager_instance counters description.now)) }
{
    match description {
        Some(_) => counters_answer(alloc, counters, request),
        None => Ok(ObjectAnswer::Denied(Status::Service)),
    }
}

/// The answer of a described device to a service of another object than an assembly. An instance that it has not is
/// refused first (0x05), then as `instance_answer` says. Out of memory is the only fault.
///
/// Volume 1, chapter 5, object library; Volume 2, chapter 5.
#[tactic(auto, unfolding(crate::specs::Objects::Said::described_said))]
fn answer_of<'a>(
    alloc: Global,
    assemblies: &'a AssemblySet,
    connections: ConnectionFacts<'a>,
    description: &'a Description,
    class: u32,
    instance: u32,
    request: ObjectRequest<'_>,
) -> Result<ObjectAnswer<'a>, OutOfMemory>
    requires objects { length assemblies.now.profile.objects ≤ 16 }
    requires name { length description.now.name ≤ 32 }
    ensures { IfOk result (λ answer. view_answer answer
        ≡ described_requested assemblies.now connections.entry.io connections.entry.count connections.entry.link.now
        description.now class instance request.entry) }
{
    let io = connections.io;
    let owned = io.owned;
    match (class, instance) {
        (IDENTITY, 0) => identity_class_answer(alloc, owned, request),
        (IDENTITY, 1) => identity_answer(alloc, assemblies, io, description, request),
        (MESSAGE_ROUTER, 0) => router_class_answer(alloc, owned, request),
        (MESSAGE_ROUTER, 1) => {
            router_answer(
                alloc,
                assemblies.profile(),
                connections.count,
                owned,
                request,
            )
        }
        (CONNECTION_MANAGER, 0) => manager_class_answer(alloc, owned, request),
        (INTERFACE, 0) => interface_class_answer(alloc, owned, request),
        (INTERFACE, 1) => interface_answer(alloc, assemblies, description, owned, request),
        (LINK, 0) => link_class_answer(alloc, owned, request),
        (LINK, 1) => link_answer(alloc, description, connections.link, owned, request),
        _ => yielding_answer(alloc, assemblies, class, instance, owned, request),
    }
}

/// The answer of a described device to a service of another object than an assembly, at most 1,400 bytes of data. An
/// instance that it has not is refused first (0x05). An instance refuses in this order another service (0x08), no such
/// attribute (0x14), a write of one that can only be read (0x0E), data that the service has not (0x15), a reset of another
/// type than 0 and 1 (0x20), and one while an output is owned (0x10). Out of memory is the only fault.
///
/// Volume 1, chapter 5, object library, and appendix B, general status codes.
#[tactic(auto, using(adapter_table::specs::Lemmas::ObjectSizes::objects_few, adapter_table::specs::Lemmas::ObjectSizes::name_few, crate::specs::Objects::Few::described_few))]
pub fn described_answer<'a>(
    alloc: Global,
    assemblies: &'a AssemblySet,
    connections: ConnectionFacts<'a>,
    description: &'a Description,
    class: u32,
    instance: u32,
    request: ObjectRequest<'_>,
) -> Result<ObjectAnswer<'a>, OutOfMemory>
    requires { assemblies.now.profile.description ≡ Some description.now }
    ensures value { IfOk result (λ answer. view_answer answer
        ≡ described_requested assemblies.now connections.entry.io connections.entry.count connections.entry.link.now
        description.now class instance request.entry) }
    ensures few { IfOk result (λ answer. FewSaid (view_answer answer)) }
{
    // Gives the prover that the profile is faultless.
    let _profile = assemblies.profile();
    answer_of(
        alloc,
        assemblies,
        connections,
        description,
        class,
        instance,
        request,
    )
}

//! Classes: what instance 0 of an object says.

ghost use Rattle.std.specs.Prelude.{◌≡◌, IfOk};
ghost use Rattle.adapter_table.specs.Objects.{assembly_facts, class_instance, identity_class, interface_class, link_class, manager_class, qos_class, router_class};
ghost use Rattle.adapter_replies.specs.Objects.Views.{requested, view_answer, view_facts};

use crate::objects::answer::{ObjectAnswer, ObjectRequest, instance_answer};
use crate::objects::instance::Instance;
use crate::objects::value::{Attribute, Value};
use cip_types::OutOfMemory;
use std::alloc::Global;

/// The largest attribute of a class.
///
/// Volume 1, chapter 4, class attributes.
const LARGEST_OF_CLASS: u16 = 7;

/// Which attributes and services the instances of a class have that the standard leaves open, and their largest attribute.
///
/// Volume 1, chapter 4, class attributes.
#[derive(Clone, Copy)]
pub struct ClassFacts<'a> {
    pub attributes: &'a [u16],
    pub services: &'a [u16],
    pub largest: u16,
}

/// Of the Identity object.
fn identity_class<'a>() -> ClassFacts<'a>
    ensures { view_facts result ≡ identity_class }
{
    ClassFacts {
        attributes: &[8, 9],
        services: &[0x03, 0x04],
        largest: 9,
    }
}

/// Of the Message Router.
fn router_class<'a>() -> ClassFacts<'a>
    ensures { view_facts result ≡ router_class }
{
    ClassFacts {
        attributes: &[1, 2, 3],
        services: &[0x03, 0x04, 0x0A],
        largest: 3,
    }
}

/// Of the assemblies.
pub(crate) fn assembly_facts<'a>() -> ClassFacts<'a>
    ensures { view_facts result ≡ assembly_facts }
{
    ClassFacts {
        attributes: &[4],
        services: &[0x03, 0x04],
        largest: 4,
    }
}

/// Of the Connection Manager, which has counters, Unconnected_Send and Large_Forward_Open.
fn manager_class<'a>() -> ClassFacts<'a>
    ensures { view_facts result ≡ manager_class }
{
    ClassFacts {
        attributes: &[1, 2, 3, 4, 5, 6, 7, 8],
        services: &[0x03, 0x04, 0x52, 0x5B],
        largest: 8,
    }
}

/// Of the TCP/IP Interface object, which has Get_Attributes_All.
fn interface_class<'a>() -> ClassFacts<'a>
    ensures { view_facts result ≡ interface_class }
{
    ClassFacts {
        attributes: &[8, 9, 10, 11],
        services: &[0x01, 0x03, 0x04],
        largest: 13,
    }
}

/// Of the Ethernet Link object, which has Get_Attributes_All.
fn link_class<'a>() -> ClassFacts<'a>
    ensures { view_facts result ≡ link_class }
{
    ClassFacts {
        attributes: &[4, 5, 6, 7, 8, 9, 10],
        services: &[0x01, 0x03, 0x04],
        largest: 11,
    }
}

/// Of the QoS object.
fn qos_class<'a>() -> ClassFacts<'a>
    ensures { view_facts result ≡ qos_class }
{
    ClassFacts {
        attributes: &[1, 2, 3],
        services: &[0x03, 0x04],
        largest: 8,
    }
}

/// Which instances a class has: its revision, the largest instance, and how many there are.
///
/// Volume 1, chapter 4, class attributes.
#[derive(Clone, Copy)]
pub(crate) struct ClassSize {
    pub revision: u16,
    pub largest: u16,
    pub count: u16,
}

impl ClassSize {
    /// A class with one instance, whose number is 1.
    pub fn one(revision: u16) -> ClassSize
        ensures { result ≡ record { revision = revision; largest = 1; count = 1 } }
    {
        ClassSize {
            revision,
            largest: 1,
            count: 1,
        }
    }
}

/// A service of a class.
pub(crate) fn class_answer<'a>(
    alloc: Global,
    size: ClassSize,
    facts: ClassFacts<'a>,
    owned: bool,
    request: ObjectRequest<'_>,
) -> Result<ObjectAnswer<'a>, OutOfMemory>
    ensures { IfOk result (λ answer. view_answer answer ≡ requested owned request.entry
        (class_instance size.revision size.largest size.count (view_facts facts.entry))) }
{
    let attributes = [
        Attribute::Single(1, Value::Word(size.revision)),
        Attribute::Single(2, Value::Word(size.largest)),
        Attribute::Single(3, Value::Word(size.count)),
        Attribute::Single(4, Value::Numbers(facts.attributes)),
        Attribute::Single(5, Value::Numbers(facts.services)),
        Attribute::Single(6, Value::Word(LARGEST_OF_CLASS)),
        Attribute::Single(7, Value::Word(facts.largest)),
    ];
    let instance = Instance {
        attributes: &attributes,
        gets_all: false,
        sets: true,
        resets: false,
    };
    instance_answer(alloc, &instance, owned, request)
}

/// A service of the class of the Identity object.
pub(crate) fn identity_class_answer<'a>(
    alloc: Global,
    owned: bool,
    request: ObjectRequest<'_>,
) -> Result<ObjectAnswer<'a>, OutOfMemory>
    ensures { IfOk result (λ answer. view_answer answer
        ≡ requested owned request.entry (class_instance 1 1 1 identity_class)) }
{
    class_answer(alloc, ClassSize::one(1), identity_class(), owned, request)
}

/// A service of the class of the Message Router.
pub(crate) fn router_class_answer<'a>(
    alloc: Global,
    owned: bool,
    request: ObjectRequest<'_>,
) -> Result<ObjectAnswer<'a>, OutOfMemory>
    ensures { IfOk result (λ answer. view_answer answer
        ≡ requested owned request.entry (class_instance 1 1 1 router_class)) }
{
    class_answer(alloc, ClassSize::one(1), router_class(), owned, request)
}

/// A service of the class of the Connection Manager.
pub(crate) fn manager_class_answer<'a>(
    alloc: Global,
    owned: bool,
    request: ObjectRequest<'_>,
) -> Result<ObjectAnswer<'a>, OutOfMemory>
    ensures { IfOk result (λ answer. view_answer answer
        ≡ requested owned request.entry (class_instance 1 1 1 manager_class)) }
{
    class_answer(alloc, ClassSize::one(1), manager_class(), owned, request)
}

/// A service of the class of the TCP/IP Interface object.
pub(crate) fn interface_class_answer<'a>(
    alloc: Global,
    owned: bool,
    request: ObjectRequest<'_>,
) -> Result<ObjectAnswer<'a>, OutOfMemory>
    ensures { IfOk result (λ answer. view_answer answer
        ≡ requested owned request.entry (class_instance 4 1 1 interface_class)) }
{
    class_answer(alloc, ClassSize::one(4), interface_class(), owned, request)
}

/// A service of the class of the Ethernet Link object.
pub(crate) fn link_class_answer<'a>(
    alloc: Global,
    owned: bool,
    request: ObjectRequest<'_>,
) -> Result<ObjectAnswer<'a>, OutOfMemory>
    ensures { IfOk result (λ answer. view_answer answer
        ≡ requested owned request.entry (class_instance 4 1 1 link_class)) }
{
    class_answer(alloc, ClassSize::one(4), link_class(), owned, request)
}

/// A service of the class of the QoS object.
pub(crate) fn qos_class_answer<'a>(
    alloc: Global,
    owned: bool,
    request: ObjectRequest<'_>,
) -> Result<ObjectAnswer<'a>, OutOfMemory>
    ensures { IfOk result (λ answer. view_answer answer
        ≡ requested owned request.entry (class_instance 1 1 1 qos_class)) }
{
    class_answer(alloc, ClassSize::one(1), qos_class(), owned, request)
}

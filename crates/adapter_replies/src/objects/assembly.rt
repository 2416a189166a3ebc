//! The assemblies of an adapter.

ghost use Rattle.std.specs.Prelude.{◌≡◌, ◌≤◌, IfOk, false, true, length};
ghost use Rattle.adapter_table.specs.Objects.{assembly_beside, assembly_count, assembly_facts, assembly_instance, class_instance, in_two_bytes, is_heartbeat, larger, largest_assembly, largest_point, object_said};
ghost use Rattle.adapter_table.specs.Lemmas.ObjectSizes.{FewSaid};
ghost use Rattle.adapter_replies.specs.Objects.Views.{requested, assembly_requested, view_answer};

use crate::objects::answer::{ObjectAnswer, ObjectRequest, instance_answer};
use crate::objects::classes::{ClassSize, assembly_facts, class_answer};
use crate::objects::instance::Instance;
use crate::objects::value::{Attribute, Value, in_two_bytes};
use adapter_table::{PointValue, Profile};
use assembly_set::AssemblySet;
use cip_router::Status;
use cip_types::OutOfMemory;
use std::alloc::Global;

/// The class revision of the Assembly object.
///
/// Volume 1, chapter 5, Assembly object.
const REVISION: u16 = 2;

fn larger(a: u32, b: u32) -> u32
    ensures { result ≡ larger a b }
{
    if a < b { b } else { a }
}

/// The largest instance of points.
fn largest_point(values: &[PointValue]) -> u32
    ensures { result ≡ largest_point values.now }
{
    match values {
        [] => 0,
        [value, rest @ ..] => larger(value.point, largest_point(rest)),
    }
}

/// The largest instance of the points, heartbeats among them.
fn largest_assembly(profile: &Profile, values: &[PointValue]) -> u32
    ensures { result ≡ largest_assembly profile.now values.now }
{
    let heartbeat = larger(profile.listen_only, largest_point(values));
    larger(profile.input_only, heartbeat)
}

/// Whether the instance is that of a heartbeat.
fn is_heartbeat(profile: &Profile, instance: u32) -> bool
    ensures { result ≡ is_heartbeat profile.now instance }
{
    profile.input_only == instance || profile.listen_only == instance
}

/// A service of an assembly of a described device.
fn described_assembly<'a>(
    alloc: Global,
    value: &'a [u8],
    request: ObjectRequest<'_>,
) -> Result<ObjectAnswer<'a>, OutOfMemory>
    requires { length value.now ≤ 1400 }
    ensures { IfOk result (λ answer. view_answer answer
        ≡ requested false request.entry (assembly_instance true value.now)) }
{
    let attributes = [
        Attribute::Single(3, Value::Lent(value)),
        Attribute::Single(4, Value::Word(value.len() as u16)),
    ];
    let instance = Instance {
        attributes: &attributes,
        gets_all: false,
        sets: true,
        resets: false,
    };
    instance_answer(alloc, &instance, false, request)
}

/// A service of an assembly of a device without a description.
fn plain_assembly<'a>(
    alloc: Global,
    value: &'a [u8],
    request: ObjectRequest<'_>,
) -> Result<ObjectAnswer<'a>, OutOfMemory>
    ensures { IfOk result (λ answer. view_answer answer
        ≡ requested false request.entry (assembly_instance false value.now)) }
{
    let attributes = [Attribute::Single(3, Value::Lent(value))];
    let instance = Instance {
        attributes: &attributes,
        gets_all: false,
        sets: false,
        resets: false,
    };
    instance_answer(alloc, &instance, false, request)
}

/// A service of the class of the assemblies of a described device: two heartbeats are among them.
#[tactic(auto, using(crate::proofs::Points::few_values))]
fn class_of_assemblies<'a>(
    alloc: Global,
    assemblies: &AssemblySet,
    request: ObjectRequest<'_>,
) -> Result<ObjectAnswer<'a>, OutOfMemory>
    ensures { IfOk result (λ answer. view_answer answer ≡ requested false request.entry
        (class_instance 2 (in_two_bytes (largest_assembly assemblies.now.profile assemblies.now.values))
        (assembly_count assemblies.now.values) assembly_facts)) }
{
    let profile = assemblies.profile();
    let values = assemblies.values();
    let size = ClassSize {
        revision: REVISION,
        largest: in_two_bytes(largest_assembly(profile, values)),
        count: (values.len() + 2) as u16,
    };
    class_answer(alloc, size, assembly_facts(), false, request)
}

/// A service of the class of the assemblies, of a heartbeat, or of an instance that the device has not.
fn answer_beside<'a>(
    alloc: Global,
    assemblies: &AssemblySet,
    instance: u32,
    request: ObjectRequest<'_>,
) -> Result<ObjectAnswer<'a>, OutOfMemory>
    ensures { IfOk result (λ answer. view_answer answer
        ≡ object_said false request.entry.service request.entry.attribute request.entry.body.now
        (assembly_beside assemblies.now.profile assemblies.now.values instance
        assemblies.now.profile.description)) }
{
    if assemblies.profile().description.is_none() {
        return Ok(ObjectAnswer::Denied(Status::PathDestination));
    }
    if instance == 0 {
        return class_of_assemblies(alloc, assemblies, request);
    }
    if is_heartbeat(assemblies.profile(), instance) {
        return described_assembly(alloc, &[], request);
    }
    Ok(ObjectAnswer::Denied(Status::PathDestination))
}

/// The answer to a service of an assembly.
#[tactic(auto, unfolding(crate::specs::Objects::Said::assembly_said))]
fn answer_of<'a>(
    alloc: Global,
    assemblies: &'a AssemblySet,
    instance: u32,
    request: ObjectRequest<'_>,
) -> Result<ObjectAnswer<'a>, OutOfMemory>
    ensures { IfOk result (λ answer. view_answer answer
        ≡ assembly_requested assemblies.now instance request.entry) }
{
    let Ok(value) = assemblies.read(instance) else {
        return answer_beside(alloc, assemblies, instance, request);
    };
    match assemblies.profile().description {
        Some(_) => described_assembly(alloc, value, request),
        None => plain_assembly(alloc, value, request),
    }
}

/// The answer to a service of an assembly, at most 1,400 bytes of data, those of a point lent. An instance that the device
/// has not is refused first (0x05), then as `described_answer` says. The data of an assembly take no memory. Out of memory is
/// the only fault.
///
/// Volume 1, chapter 5, Assembly object.
#[tactic(auto, using(crate::specs::Objects::Few::assembly_few))]
pub fn assembly_answer<'a>(
    alloc: Global,
    assemblies: &'a AssemblySet,
    instance: u32,
    request: ObjectRequest<'_>,
) -> Result<ObjectAnswer<'a>, OutOfMemory>
    ensures value { IfOk result (λ answer. view_answer answer
        ≡ assembly_requested assemblies.now instance request.entry) }
    ensures few { IfOk result (λ answer. FewSaid (view_answer answer)) }
{
    // Gives the prover that the points have the lengths of their profile.
    let _profile = assemblies.profile();
    answer_of(alloc, assemblies, instance, request)
}

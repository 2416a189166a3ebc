//! The calls that get and set an attribute, as lines, and their requests.

ghost use Rattle.std.specs.Prelude.{◌≡◌, ◌≤◌, length, IfOk};
ghost use Rattle.station_lines.specs.Attributes.Calls.{attribute_call_of, attribute_words, call_event, call_request, call_target, call_words, path_of, request_text};
ghost use Rattle.cip_epath.specs.Written.{target_text};
ghost use Rattle.trace_words.specs.Reader.{Finds, Takes, unread_words};

use crate::attributes::requested::{SET_SINGLE, TargetAttribute};
use cip_epath::{Target, write_target};
use cip_events::Event;
use cip_fwdopen::service::GET_ATTRIBUTE_SINGLE;
use cip_types::fields::put_bytes;
use cip_types::{Items, OutOfMemory};
use std::alloc::Global;
use trace_words::{TextFault, Words};

/// A call that concerns an attribute of a target.
#[derive(PartialEq, Drop)]
pub enum AttributeCall {
    /// To read it.
    Get(TargetAttribute),
    /// To give it these bytes.
    Set(TargetAttribute, Items<u8>),
}

/// The call of a line, which has no LF at its end: `get NODE CLASS INSTANCE ATTRIBUTE` or
/// `set NODE CLASS INSTANCE ATTRIBUTE HEX`, with decimal numbers.
///
/// The faults: `Bad` if it is no such call, and `OutOfMemory`.
#[tactic(auto, unfolding(crate::specs::Attributes::Calls::attribute_call_of))]
pub fn read_attribute_call(alloc: Global, line: &str) -> Result<AttributeCall, TextFault>
    ensures { Finds (attribute_call_of line.now) result }
{
    read_words(alloc, &mut Words::of(line))
}

fn read_words(alloc: Global, words: &mut Words<'_>) -> Result<AttributeCall, TextFault>
    ensures { Takes (call_words (unread_words words.old)) result (unread_words words.new) }
{
    match words.word()? {
        "get" => {
            let at = read_attribute(words)?;
            words.last(AttributeCall::Get(at))
        }
        "set" => {
            let at = read_attribute(words)?;
            let bytes = words.bytes(alloc)?;
            words.last(AttributeCall::Set(at, bytes))
        }
        _ => Err(TextFault::Bad),
    }
}

/// The next words as target, class, instance and attribute.
#[tactic(auto, unfolding(crate::specs::Attributes::Calls::attribute_words))]
fn read_attribute(words: &mut Words<'_>) -> Result<TargetAttribute, TextFault>
    ensures { Takes (attribute_words (unread_words words.old)) result (unread_words words.new) }
{
    let target = words.node()?;
    let class = words.u32()?;
    let instance = words.u32()?;
    let attribute = words.u32()?;
    Ok(TargetAttribute {
        target,
        class,
        instance,
        attribute,
    })
}

/// The event of a call: its request gets this number. OutOfMemory is the only fault.
pub fn call_event(alloc: Global, number: u32, call: &AttributeCall) -> Result<Event, OutOfMemory>
    ensures { IfOk result (λ event. event ≡ call_event number call.now) }
{
    let bytes = Items::from_vec(call_request(alloc, call)?);
    let target = call_target(call).target;
    Ok(Event::Explicit {
        target,
        number,
        bytes,
    })
}

/// The attribute of a call.
fn call_target(call: &AttributeCall) -> TargetAttribute
    ensures { result ≡ call_target call.now }
{
    match call {
        AttributeCall::Get(at) => *at,
        AttributeCall::Set(at, _) => *at,
    }
}

/// The request of a call.
#[tactic(auto, unfolding(crate::specs::Attributes::Calls::call_request))]
fn call_request(alloc: Global, call: &AttributeCall) -> Result<Vec<u8>, OutOfMemory>
    ensures { IfOk result (λ v. v.items ≡ call_request call.now) }
{
    match call {
        AttributeCall::Get(at) => write_request(alloc, GET_ATTRIBUTE_SINGLE, *at, &[]),
        AttributeCall::Set(at, bytes) => { write_request(alloc, SET_SINGLE, *at, bytes.as_slice()) }
    }
}

/// A request of this service to an attribute, with a value.
///
/// Volume 1, chapter 2, message router request.
fn write_request(
    alloc: Global,
    service: u8,
    at: TargetAttribute,
    value: &[u8],
) -> Result<Vec<u8>, OutOfMemory>
    ensures { IfOk result (λ v. v.items ≡ request_text service at value.now) }
{
    let path = write_path_of(alloc, at)?;
    let mut out = Vec::new(alloc);
    put_bytes(&mut out, &[service, (path.len() / 2) as u8])?;
    put_bytes(&mut out, path.as_slice())?;
    put_bytes(&mut out, value)?;
    Ok(out)
}

/// The path of an attribute, in the shortest formats.
#[tactic(auto, using(crate::proofs::Paths::target_short))]
fn write_path_of(alloc: Global, at: TargetAttribute) -> Result<Vec<u8>, OutOfMemory>
    ensures text { IfOk result (λ v. v.items ≡ target_text (path_of at)) }
    ensures short { IfOk result (λ v. length v.items ≤ 18) }
{
    let target = Target {
        class: at.class,
        instance: at.instance,
        attribute: Some(at.attribute),
    };
    write_target(alloc, &target)
}

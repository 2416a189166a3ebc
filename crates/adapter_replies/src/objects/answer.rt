//! Services of one instance, and their answers.

ghost use Rattle.std.specs.Prelude.{◌≡◌, IfOk, find, map};
ghost use Rattle.std.specs.Option.{option_map};
ghost use Rattle.adapter_table.specs.Objects.{is_numbered, attribute_of, single_of, set_of, all_of, reset_of, reset_by};
ghost use Rattle.adapter_replies.specs.Objects.Views.{requested, view_attribute, view_instance, view_value, view_bytes, view_answer};

use crate::objects::instance::Instance;
use crate::objects::lists::{get_list, set_list};
use crate::objects::value::{Attribute, Value, put_all};
use cip_router::{ObjectService, Status};
use cip_types::OutOfMemory;
use std::alloc::Global;

/// The service that writes one attribute.
///
/// Volume 1, appendix A, common services.
const SET_ATTRIBUTE_SINGLE: u8 = 0x10;

/// A request to an instance: the service, the attribute, if the path names one, and the data.
///
/// Volume 1, chapter 2, message router request.
#[derive(Clone, Copy)]
pub struct ObjectRequest<'b> {
    pub service: u8,
    pub attribute: Option<u32>,
    pub body: &'b [u8],
}

/// The bytes of an answer: those of a point, or bytes that were made for the answer.
#[derive(Drop)]
pub enum Bytes<'a> {
    Lent(&'a [u8]),
    Made(Vec<u8>),
}

impl Bytes<'_> {
    /// The bytes.
    pub fn as_slice(&self) -> &[u8]
        ensures { result.now ≡ view_bytes self.now }
    {
        match self {
            Bytes::Lent(bytes) => bytes,
            Bytes::Made(bytes) => bytes.as_slice(),
        }
    }
}

/// The answer to a service of an object.
///
/// Volume 1, appendix A, common services, and appendix B, general status codes.
#[derive(Drop)]
pub enum ObjectAnswer<'a> {
    /// The data that answer the service.
    Said(ObjectService, Bytes<'a>),
    /// A refusal.
    Denied(Status),
    /// A reset of a type, which the device reports.
    Resetting(u8),
    /// Data with a general status.
    Answering(ObjectService, u8, Bytes<'a>),
    /// The refusal of a service that is carried.
    Refusing(u8, Status),
    /// No port of the device leads to a route of so many words.
    Unrouted(u8),
}

/// The attribute of a number.
pub(crate) fn find_attribute<'a>(attributes: &[Attribute<'a>], number: u32) -> Option<Attribute<'a>>
    ensures { option_map view_attribute result ≡ find (is_numbered number) (map view_attribute attributes.now) }
{
    for attribute in attributes {
        if attribute.is_numbered(number) {
            return Some(*attribute);
        }
    }
    None
}

/// The attribute that a request names, if it names one.
fn named_attribute<'a>(attributes: &[Attribute<'a>], named: Option<u32>) -> Option<Attribute<'a>>
    ensures { option_map view_attribute result ≡ attribute_of (map view_attribute attributes.now) named }
{
    match named {
        Some(number) => find_attribute(attributes, number),
        None => None,
    }
}

/// The bytes of a value. Bytes that are kept elsewhere are lent.
pub(crate) fn bytes_of<'a>(alloc: Global, value: Value<'a>) -> Result<Bytes<'a>, OutOfMemory>
    ensures { IfOk result (λ bytes. view_bytes bytes ≡ view_value value.entry) }
{
    if let Value::Lent(bytes) = value {
        return Ok(Bytes::Lent(bytes));
    }
    let mut made = Vec::new(alloc);
    value.put(&mut made)?;
    Ok(Bytes::Made(made))
}

/// Get_Attribute_Single.
fn get_single<'a>(
    alloc: Global,
    attribute: Option<Attribute<'a>>,
    body: &[u8],
) -> Result<ObjectAnswer<'a>, OutOfMemory>
    ensures { IfOk result (λ answer. view_answer answer
        ≡ single_of body.now (option_map view_attribute attribute.entry)) }
{
    let Some(attribute) = attribute else {
        return Ok(ObjectAnswer::Denied(Status::Attribute));
    };
    if !body.is_empty() {
        return Ok(ObjectAnswer::Denied(Status::TooMuchData));
    }
    let bytes = bytes_of(alloc, attribute.value())?;
    Ok(ObjectAnswer::Said(ObjectService::GetSingle, bytes))
}

/// Set_Attribute_Single: each attribute can only be read.
fn set_single<'a>(attribute: Option<Attribute<'a>>) -> ObjectAnswer<'a>
    ensures { view_answer result ≡ set_of (option_map view_attribute attribute.entry) }
{
    match attribute {
        Some(_) => ObjectAnswer::Denied(Status::NotSettable),
        None => ObjectAnswer::Denied(Status::Attribute),
    }
}

/// Get_Attributes_All.
fn get_all<'a>(
    alloc: Global,
    attributes: &[Attribute<'a>],
    body: &[u8],
) -> Result<ObjectAnswer<'a>, OutOfMemory>
    ensures { IfOk result (λ answer. view_answer answer
        ≡ all_of (map view_attribute attributes.now) body.now) }
{
    if !body.is_empty() {
        return Ok(ObjectAnswer::Denied(Status::TooMuchData));
    }
    let mut made = Vec::new(alloc);
    put_all(&mut made, attributes)?;
    Ok(ObjectAnswer::Said(ObjectService::GetAll, Bytes::Made(made)))
}

/// A reset of a type: of another type than 0 and 1 it is refused, and while an output is owned.
fn reset_of<'a>(owned: bool, kind: u8) -> ObjectAnswer<'a>
    ensures { view_answer result ≡ reset_of owned kind }
{
    if kind > 1 {
        return ObjectAnswer::Denied(Status::InvalidParameter);
    }
    if owned {
        return ObjectAnswer::Denied(Status::StateConflict);
    }
    ObjectAnswer::Resetting(kind)
}

/// Reset: without data it is of type 0.
fn reset<'a>(owned: bool, body: &[u8]) -> ObjectAnswer<'a>
    ensures { view_answer result ≡ reset_by owned body.now }
{
    match body {
        [] => reset_of(owned, 0),
        [kind] => reset_of(owned, *kind),
        [_, _, ..] => ObjectAnswer::Denied(Status::TooMuchData),
    }
}

/// The answer to a request to an instance, one without an attribute gets none: the refusals are in this order another service (0x08), no such attribute
/// (0x14), an attribute that can only be read (0x0E), data that the service has not (0x15), a reset of another type (0x20)
/// or while an output is owned (0x10). Out of memory is the only fault.
pub(crate) fn instance_answer<'a>(
    alloc: Global,
    instance: &Instance<'_, 'a>,
    owned: bool,
    request: ObjectRequest<'_>,
) -> Result<ObjectAnswer<'a>, OutOfMemory>
    ensures { IfOk result (λ answer. view_answer answer
        ≡ requested owned request.entry (view_instance instance.now)) }
{
    let attributes = instance.attributes;
    if request.service == ObjectService::GetSingle.code() && !attributes.is_empty() {
        return get_single(
            alloc,
            named_attribute(attributes, request.attribute),
            request.body,
        );
    }
    if request.service == SET_ATTRIBUTE_SINGLE && instance.sets {
        return Ok(set_single(named_attribute(attributes, request.attribute)));
    }
    if request.service == ObjectService::GetAll.code() && instance.gets_all {
        return get_all(alloc, attributes, request.body);
    }
    if request.service == ObjectService::GetList.code() && instance.sets {
        return get_list(alloc, attributes, request.body);
    }
    if request.service == ObjectService::SetList.code() && instance.sets {
        return set_list(alloc, attributes, request.body);
    }
    if request.service == ObjectService::Reset.code() && instance.resets {
        return Ok(reset(owned, request.body));
    }
    Ok(ObjectAnswer::Denied(Status::Service))
}

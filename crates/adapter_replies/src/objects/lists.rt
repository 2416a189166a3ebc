//! Lists of attributes: Get_Attribute_List and Set_Attribute_List.

ghost use Rattle.std.specs.Prelude.{◌≡◌, ◌++◌, IfOk, OnOk, map};
ghost use Rattle.std.specs.Option.{option_map};
ghost use Rattle.adapter_table.specs.Objects.{answer_within, are_attributes, behind_value, get_list, got_item, got_items, list_status, set_items, set_list, set_status, value_len, word_of};
ghost use Rattle.adapter_replies.specs.Objects.Views.{view_answer, view_attribute};

use crate::objects::answer::{Bytes, ObjectAnswer, bytes_of, find_attribute};
use crate::objects::value::{Attribute, put_low};
use cip_router::{ObjectService, Status};
use cip_types::OutOfMemory;
use cip_types::fields::{put_bytes, put_u16};
use std::alloc::Global;

/// The status of a reply in which an attribute has a status that is not 0.
///
/// Volume 1, appendix B, general status codes.
const ATTRIBUTE_LIST_ERROR: u8 = 0x0A;

/// The most bytes of data in a reply, those of the longest point.
const MOST_DATA: usize = 1400;

/// How many attributes a reply has room for.
const MOST_LISTED: usize = 349;

/// A number of two bytes.
pub fn word_of(low: u8, high: u8) -> u16
    ensures { result ≡ word_of low high }
{
    u16::from(low) + 256 * u16::from(high)
}

/// Data with a general status, if a reply has room for them: else the reply is too large. Takes no memory.
pub fn answer_within<'a>(by: ObjectService, general: u8, content: Vec<u8>) -> ObjectAnswer<'a>
    ensures { view_answer result ≡ answer_within by general content.items }
{
    if content.len() <= MOST_DATA {
        ObjectAnswer::Answering(by, general, Bytes::Made(content))
    } else {
        ObjectAnswer::Denied(Status::ReplyTooLarge)
    }
}

/// The status of the reply to a list, by whether each attribute has the status 0.
fn list_status(whole: bool) -> u8
    ensures { result ≡ list_status whole }
{
    if whole { 0 } else { ATTRIBUTE_LIST_ERROR }
}

/// Appends what is answered of the attribute of a number.
fn put_got_item(
    out: &mut Vec<u8>,
    number: u16,
    found: Option<Attribute<'_>>,
) -> Result<(), OutOfMemory>
    ensures { OnOk result (out.new.items
        ≡ out.old.items ++ got_item number (option_map view_attribute found.entry)) }
{
    put_u16(out, number)?;
    let Some(attribute) = found else {
        return put_u16(out, u16::from(Status::Attribute.code()));
    };
    put_u16(out, 0)?;
    attribute.value().put(out)
}

/// Appends what is answered of the attributes of a list.
fn put_got_items(
    out: &mut Vec<u8>,
    attributes: &[Attribute<'_>],
    requested: &[u8],
) -> Result<(), OutOfMemory>
    ensures { OnOk result (out.new.items
        ≡ out.old.items ++ got_items (map view_attribute attributes.now) requested.now) }
{
    let [low, high, rest @ ..] = requested else {
        return Ok(());
    };
    let number = word_of(*low, *high);
    put_got_item(out, number, find_attribute(attributes, u32::from(number)))?;
    put_got_items(out, attributes, rest)
}

/// Whether an instance has each attribute of a list.
fn are_attributes(attributes: &[Attribute<'_>], requested: &[u8]) -> bool
    ensures { result ≡ are_attributes (map view_attribute attributes.now) requested.now }
{
    let [low, high, rest @ ..] = requested else {
        return true;
    };
    let number = u32::from(word_of(*low, *high));
    find_attribute(attributes, number).is_some() && are_attributes(attributes, rest)
}

/// Get_Attribute_List: the refusals are in this order no number of attributes, or too few bytes for them (0x13), too many (0x15), and more
/// than a reply has room for (0x11).
///
/// Volume 1, appendix A, common services.
pub(crate) fn get_list<'a>(
    alloc: Global,
    attributes: &[Attribute<'a>],
    body: &[u8],
) -> Result<ObjectAnswer<'a>, OutOfMemory>
    ensures { IfOk result (λ answer. view_answer answer
        ≡ get_list (map view_attribute attributes.now) body.now) }
{
    let [low, high, rest @ ..] = body else {
        return Ok(ObjectAnswer::Denied(Status::NotEnoughData));
    };
    let count = usize::from(word_of(*low, *high));
    if rest.len() < 2 * count {
        return Ok(ObjectAnswer::Denied(Status::NotEnoughData));
    }
    if rest.len() > 2 * count {
        return Ok(ObjectAnswer::Denied(Status::TooMuchData));
    }
    if count > MOST_LISTED {
        return Ok(ObjectAnswer::Denied(Status::ReplyTooLarge));
    }
    let mut made = Vec::new(alloc);
    put_bytes(&mut made, &[*low, *high])?;
    put_got_items(&mut made, attributes, rest)?;
    let status = list_status(are_attributes(attributes, rest));
    Ok(answer_within(ObjectService::GetList, status, made))
}

/// How many bytes the value of an attribute has. Out of memory is the only fault.
fn value_len(alloc: Global, found: Option<Attribute<'_>>) -> Result<Option<usize>, OutOfMemory>
    ensures { IfOk result (λ len. len ≡ value_len (option_map view_attribute found.entry)) }
{
    let Some(attribute) = found else {
        return Ok(None);
    };
    let bytes = bytes_of(alloc, attribute.value())?;
    Ok(Some(bytes.as_slice().len()))
}

/// The status of an attribute that is to be set, by the bytes behind its number and the length of its value.
fn set_status(rest: &[u8], len: Option<usize>) -> u8
    ensures { result ≡ set_status rest.now len }
{
    match len {
        None => Status::Attribute.code(),
        Some(len) if rest.len() < len => Status::NotEnoughData.code(),
        Some(_) => Status::NotSettable.code(),
    }
}

/// What follows its value.
#[tactic(auto, using(crate::proofs::Lists::nothing_behind))]
fn behind_value(rest: &[u8], len: Option<usize>) -> &[u8]
    ensures { result.now ≡ behind_value rest.now len }
{
    let Some(len) = len else {
        return &[];
    };
    if rest.len() < len {
        return &[];
    }
    let (_, after) = rest.split_at(len);
    after
}

/// Appends what is answered of at most so many attributes that are to be set.
#[tactic(auto, using(crate::proofs::Lists::set_more, crate::proofs::Lists::set_none))]
fn put_set_items(
    alloc: Global,
    out: &mut Vec<u8>,
    attributes: &[Attribute<'_>],
    count: usize,
    requested: &[u8],
) -> Result<(), OutOfMemory>
    ensures { OnOk result (out.new.items
        ≡ out.old.items ++ set_items (map view_attribute attributes.now) count requested.now) }
{
    let [low, high, rest @ ..] = requested else {
        return Ok(());
    };
    if count == 0 {
        return Ok(());
    }
    let number = word_of(*low, *high);
    let len = value_len(alloc, find_attribute(attributes, u32::from(number)))?;
    put_u16(out, number)?;
    put_u16(out, u16::from(set_status(rest, len)))?;
    put_set_items(alloc, out, attributes, count - 1, behind_value(rest, len))
}

/// Set_Attribute_List, of which each attribute can only be read: the refusals are in this order no number of attributes,
/// or too few bytes for their numbers (0x13), and more than a reply has room for (0x11).
///
/// Volume 1, appendix A, common services.
pub(crate) fn set_list<'a>(
    alloc: Global,
    attributes: &[Attribute<'a>],
    body: &[u8],
) -> Result<ObjectAnswer<'a>, OutOfMemory>
    ensures { IfOk result (λ answer. view_answer answer
        ≡ set_list (map view_attribute attributes.now) body.now) }
{
    let [low, high, rest @ ..] = body else {
        return Ok(ObjectAnswer::Denied(Status::NotEnoughData));
    };
    let count = usize::from(word_of(*low, *high));
    if rest.len() < 2 * count {
        return Ok(ObjectAnswer::Denied(Status::NotEnoughData));
    }
    if count > MOST_LISTED {
        return Ok(ObjectAnswer::Denied(Status::ReplyTooLarge));
    }
    let mut items = Vec::new(alloc);
    put_set_items(alloc, &mut items, attributes, count, rest)?;
    let mut made = Vec::new(alloc);
    put_low(&mut made, (items.len() / 4) as u64)?;
    put_bytes(&mut made, items.as_slice())?;
    let status = list_status(items.is_empty());
    Ok(ObjectAnswer::Answering(ObjectService::SetList, status, Bytes::Made(made)))
}

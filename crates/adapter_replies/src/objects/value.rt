//! Attributes, and the bytes of their values.

ghost use Rattle.std.specs.Prelude.{◌≡◌, ◌++◌, ◌∷◌, OnOk, flat_map, map};
ghost use Rattle.adapter_table.specs.Objects.{all_values, capability_bits, in_two_bytes, is_forced, is_numbered, link_capability, link_control, link_path, numbers, object_list, u16, u32};
ghost use Rattle.adapter_table.specs.Counters.{interface_counters, media_counters};
ghost use Rattle.adapter_table.specs.Objects as objects;
ghost use Rattle.std.specs.Prelude.{List};
ghost use Rattle.adapter_replies.specs.Objects.Views.{view_value, view_attribute, view_zeros};

use crate::objects::port::{left_classes, put_segment};
use crate::objects::router::SERVED;
use adapter_table::{INTERFACE_COUNTERS, LINK_COUNTERS};
use cip_types::fields::{put_bytes, put_u8, put_u16, put_u32};
use cip_types::{Node, OutOfMemory};

/// The path of the Ethernet Link object behind the number of its words: class F6, instance 1.
///
/// Volume 2, chapter 5, TCP/IP Interface object, attribute 4.
const LINK_PATH: [u8; 6] = [2, 0, 0x20, 0xF6, 0x24, 0x01];

/// No gateway, no name server, no second one, and a domain name of no byte.
///
/// Volume 2, chapter 5, TCP/IP Interface object, attribute 5.
const NO_GATEWAY: [u8; 14] = [0, 0, 0, 0, 0, 0, 0, 0, 0, 0, 0, 0, 0, 0];

/// Zeros: no safety network, and no conflict of addresses.
///
/// Volume 2, chapter 5, TCP/IP Interface object, attributes 7 and 11.
#[derive(Clone, Copy)]
pub enum Zeros {
    SafetyNumber,
    Conflict,
}

/// The value of an attribute.
///
/// Volume 1, appendix C, data types.
#[derive(Clone, Copy)]
pub enum Value<'a> {
    /// One byte.
    Byte(u8),
    /// Two bytes.
    Pair(u8, u8),
    /// A number of two bytes.
    Word(u16),
    /// A number of four bytes.
    Long(u32),
    /// The lowest two bytes of a number.
    Low(usize),
    /// Zeros.
    Zeros(Zeros),
    /// Bytes that are kept elsewhere.
    Lent(&'a [u8]),
    /// Bytes that are kept elsewhere, behind the byte of their number.
    Counted(u8, &'a [u8]),
    /// The path of the Ethernet Link object.
    LinkPath,
    /// The address and the mask of the device; no gateway, no name server and no domain.
    Addresses(Node, u32),
    /// Multicast addresses that are allocated by the rule for all devices: how many they are, and the first.
    Groups(usize, Node),
    /// The capability of a link of this speed and these flags.
    Capability(u32, u32),
    /// The control of a link of this speed and these flags.
    Control(u32, u32),
    /// The counters of an interface, of these bytes that the host has said.
    Interface(&'a [u8]),
    /// The counters of its medium, of the same bytes.
    Media(&'a [u8]),
    /// A port segment with the address of the device.
    Segment(Node),
    /// Numbers of two bytes, behind how many they are.
    Numbers(&'a [u16]),
    /// The classes of the objects of a device, behind how many they are; these are the maker's own.
    Objects(usize, &'a [u32]),
}

/// An attribute of an instance: its number and its value.
///
/// Volume 1, chapter 5, object library.
#[derive(Clone, Copy)]
pub enum Attribute<'a> {
    /// Get_Attributes_All has it.
    Listed(u32, Value<'a>),
    /// Get_Attributes_All leaves it out.
    Single(u32, Value<'a>),
    /// The instance has no such attribute: Get_Attributes_All has this in its place.
    Absent(Value<'a>),
}

impl<'a> Attribute<'a> {
    /// Whether it is the attribute of this number.
    pub(crate) fn is_numbered(&self, number: u32) -> bool
        ensures { result ≡ is_numbered number (view_attribute self.now) }
    {
        match self {
            Attribute::Listed(own, _) => *own == number,
            Attribute::Single(own, _) => *own == number,
            Attribute::Absent(_) => false,
        }
    }

    /// The value of the attribute.
    pub(crate) fn value(&self) -> Value<'a>
        ensures { view_value result ≡ (view_attribute self.now).value }
    {
        match self {
            Attribute::Listed(_, value) => *value,
            Attribute::Single(_, value) => *value,
            Attribute::Absent(value) => *value,
        }
    }
}

fn put_counted(out: &mut Vec<u8>, count: u8, bytes: &[u8]) -> Result<(), OutOfMemory>
    ensures { OnOk result (out.new.items ≡ out.old.items ++ (count ∷ bytes.now)) }
{
    put_u8(out, count)?;
    put_bytes(out, bytes)
}

fn put_link_path(out: &mut Vec<u8>) -> Result<(), OutOfMemory>
    ensures { OnOk result (out.new.items ≡ out.old.items ++ link_path) }
{
    put_bytes(out, &LINK_PATH)
}

fn put_addresses(out: &mut Vec<u8>, node: Node, mask: u32) -> Result<(), OutOfMemory>
    ensures { OnOk result (out.new.items
        ≡ out.old.items ++ (u32 node.0 ++ (u32 mask ++ (u32 0 ++ (u32 0 ++ (u32 0 ++ u16 0)))))) }
{
    put_u32(out, node.0)?;
    put_u32(out, mask)?;
    put_bytes(out, &NO_GATEWAY)
}

/// Appends zeros.
fn put_zeros(out: &mut Vec<u8>, zeros: Zeros) -> Result<(), OutOfMemory>
    ensures { OnOk result (out.new.items ≡ out.old.items ++ view_zeros zeros) }
{
    match zeros {
        Zeros::SafetyNumber => put_bytes(out, &[0; 6]),
        Zeros::Conflict => put_bytes(out, &[0; 35]),
    }
}

/// Appends the multicast addresses of a device: how they are allocated, how many they are, and the first.
fn put_groups(out: &mut Vec<u8>, count: usize, first: Node) -> Result<(), OutOfMemory>
    ensures { OnOk result (out.new.items
        ≡ out.old.items ++ (0 ∷ 0 ∷ (u16 count ++ u32 first.0))) }
{
    put_bytes(out, &[0, 0])?;
    put_low(out, count as u64)?;
    put_u32(out, first.0)
}

/// A number, at most the largest of two bytes.
pub(crate) fn in_two_bytes(number: u32) -> u16
    ensures { result ≡ in_two_bytes number }
{
    if number <= 65535 {
        number as u16
    } else {
        65535
    }
}

/// Whether the flags of a link say that its speed was forced.
fn is_forced(flags: u32) -> bool
    ensures { result ≡ is_forced flags }
{
    flags / 4 % 8 == 4
}

/// What a link can do beside its one speed: bit 1, speed and duplex are negotiated.
fn capability_bits(flags: u32) -> u32
    ensures { result ≡ capability_bits flags }
{
    if is_forced(flags) { 0 } else { 2 }
}

/// Appends the capability of a link: its bits, and its one speed, full duplex or not.
fn put_capability(out: &mut Vec<u8>, speed: u32, flags: u32) -> Result<(), OutOfMemory>
    ensures { OnOk result (out.new.items ≡ out.old.items ++ link_capability speed flags) }
{
    put_u32(out, capability_bits(flags))?;
    put_u8(out, 1)?;
    put_u16(out, in_two_bytes(speed))?;
    put_u8(out, (flags / 2 % 2) as u8)
}

/// Appends the control of a link: its bits, and the speed, if it was forced.
fn put_control(out: &mut Vec<u8>, speed: u32, flags: u32) -> Result<(), OutOfMemory>
    ensures { OnOk result (out.new.items ≡ out.old.items ++ link_control speed flags) }
{
    if is_forced(flags) {
        put_u16(out, 2 * (flags / 2 % 2) as u16)?;
        put_u16(out, in_two_bytes(speed))
    } else {
        put_bytes(out, &[1, 0, 0, 0])
    }
}

/// Appends the counters of an interface, of the bytes that the host has said: zeros if it has said none.
fn put_interface(out: &mut Vec<u8>, link: &[u8]) -> Result<(), OutOfMemory>
    ensures { OnOk result (out.new.items ≡ out.old.items ++ interface_counters link.now) }
{
    if link.len() != LINK_COUNTERS {
        return put_bytes(out, &[0; 44]);
    }
    let (interface, _media) = link.split_at(INTERFACE_COUNTERS);
    put_bytes(out, interface)
}

/// Appends the counters of its medium, likewise.
fn put_media(out: &mut Vec<u8>, link: &[u8]) -> Result<(), OutOfMemory>
    ensures { OnOk result (out.new.items ≡ out.old.items ++ media_counters link.now) }
{
    if link.len() != LINK_COUNTERS {
        return put_bytes(out, &[0; 48]);
    }
    let (_interface, media) = link.split_at(INTERFACE_COUNTERS);
    put_bytes(out, media)
}

/// Appends the lowest two bytes of a number.
pub fn put_low(out: &mut Vec<u8>, number: u64) -> Result<(), OutOfMemory>
    ensures { OnOk result (out.new.items ≡ out.old.items ++ u16 number) }
{
    let bytes = number.to_le_bytes();
    put_bytes(out, &[bytes[0], bytes[1]])
}

/// Appends numbers of two bytes.
fn put_words(out: &mut Vec<u8>, words: &[u16]) -> Result<(), OutOfMemory>
    ensures { OnOk result (out.new.items ≡ out.old.items ++ flat_map u16 words.now) }
{
    for word in words {
        put_u16(out, *word)?;
    }
    Ok(())
}

/// Appends numbers of two bytes, behind how many they are.
fn put_numbers(out: &mut Vec<u8>, words: &[u16]) -> Result<(), OutOfMemory>
    ensures { OnOk result (out.new.items ≡ out.old.items ++ numbers words.now) }
{
    put_low(out, words.len() as u64)?;
    put_words(out, words)
}

/// Appends the lowest two bytes of each class.
fn put_classes(out: &mut Vec<u8>, classes: &[u32]) -> Result<(), OutOfMemory>
    ensures { OnOk result (out.new.items ≡ out.old.items ++ flat_map u16 classes.now) }
{
    for class in classes {
        put_low(out, u64::from(*class))?;
    }
    Ok(())
}

/// Appends the classes of the objects of a device, behind how many they are; these are the maker's own.
#[tactic(auto, using(crate::proofs::Points::objects_words))]
fn put_objects(out: &mut Vec<u8>, count: usize, own: &[u32]) -> Result<(), OutOfMemory>
    ensures { OnOk result (out.new.items ≡ out.old.items ++ (u16 count ++ flat_map u16 (object_list own.now))) }
{
    put_low(out, count as u64)?;
    put_words(out, &SERVED)?;
    put_words(out, left_classes(own))?;
    put_classes(out, own)
}

impl Value<'_> {
    /// Appends the bytes of the value.
    pub(crate) fn put(&self, out: &mut Vec<u8>) -> Result<(), OutOfMemory>
        ensures { OnOk result (out.new.items ≡ out.old.items ++ view_value self.now) }
    {
        match self {
            Value::Byte(byte) => put_u8(out, *byte),
            Value::Pair(first, second) => put_bytes(out, &[*first, *second]),
            Value::Word(number) => put_u16(out, *number),
            Value::Long(number) => put_u32(out, *number),
            Value::Lent(bytes) => put_bytes(out, bytes),
            Value::Counted(count, bytes) => put_counted(out, *count, bytes),
            Value::LinkPath => put_link_path(out),
            Value::Addresses(node, mask) => put_addresses(out, *node, *mask),
            Value::Groups(count, first) => put_groups(out, *count, *first),
            Value::Capability(speed, flags) => put_capability(out, *speed, *flags),
            Value::Control(speed, flags) => put_control(out, *speed, *flags),
            Value::Interface(link) => put_interface(out, link),
            Value::Media(link) => put_media(out, link),
            Value::Segment(node) => put_segment(out, *node),
            Value::Zeros(zeros) => put_zeros(out, *zeros),
            Value::Low(number) => put_low(out, *number as u64),
            Value::Numbers(words) => put_numbers(out, words),
            Value::Objects(count, own) => put_objects(out, *count, own),
        }
    }
}

/// Appends the value of an attribute, if it is listed.
fn put_listed(out: &mut Vec<u8>, attribute: &Attribute<'_>) -> Result<(), OutOfMemory>
    ensures { OnOk result ((rest : List objects.Attribute) → out.new.items ++ all_values rest
        ≡ out.old.items ++ all_values (view_attribute attribute.now ∷ rest)) }
{
    match attribute {
        Attribute::Listed(_, value) => value.put(out),
        Attribute::Single(_, _) => Ok(()),
        Attribute::Absent(value) => value.put(out),
    }
}

/// Appends the values of the listed attributes, one behind the other.
pub(crate) fn put_all(out: &mut Vec<u8>, attributes: &[Attribute<'_>]) -> Result<(), OutOfMemory>
    ensures { OnOk result (out.new.items ≡ out.old.items ++ all_values (map view_attribute attributes.now)) }
{
    for attribute in attributes {
        put_listed(out, attribute)?;
    }
    Ok(())
}

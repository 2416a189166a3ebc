//! Reading a path in any form: its class may stand in front of each point, and its key may have format 5.

ghost use Rattle.std.specs.Prelude.{◌≡◌, Result, Option, Ok};
ghost use Rattle.std.specs.Option.{ok_or, option_map};
ghost use Rattle.cip_epath.specs.ElectronicKey.{KeyFields, view_key};
ghost use Rattle.cip_epath.specs.Segment.{view_segment};
ghost use Rattle.cip_epath.specs.Path.{PathFields, view_path, role_of};
ghost use Rattle.cip_epath.specs.PathBuilder.{view_path_head, view_path_builder, one, two};
ghost use Rattle.cip_epath.specs.Reading.{Gives, seen, path_reading};
ghost use Rattle.cip_epath.specs.MessagePath.{message_path_reading};
ghost use Rattle.cip_epath.specs.AnyPath.{behind_format_5, behind_inhibit, serial_key_at, any_segment_at, any_path_reading, any_message_reading, key_serial, is_other_serial};
ghost use Rattle.cip_epath.specs.AnyBuilder.{plain, view_any_builder, after_class, next_any_if, any_path_of};

use crate::builder::{Inhibits, PathBuilder, PathHead};
use crate::fault::PathFault;
use crate::key::ElectronicKey;
use crate::message_path::{MessageBuilder, finished_message};
use crate::path::ConnPath;
use crate::read::finished;
use crate::reading::{key_fields, segment_of};
use crate::segment::{ELECTRONIC_KEY, LogicalType, PRODUCTION_INHIBIT, SERIAL_KEY_FORMAT, Segment};
use cip_types::fields::u32_at;

/// The state of the walk over a connection path in any form.
#[derive(Clone, Copy)]
pub enum AnyBuilder<'a> {
    /// The compressed form so far.
    Plain(PathBuilder<'a>),
    /// The class again, behind the first point.
    OneAgain(PathHead, u32),
    /// The class again, behind the second point.
    TwoAgain(PathHead, u32, u32),
}

/// The state after the class behind the first point.
fn one_again<'a>(head: PathHead, first: u32, class: u32) -> AnyBuilder<'a>
    ensures { view_any_builder result ≡ after_class class (one (view_path_head head) first) }
{
    if class == head.class {
        AnyBuilder::OneAgain(head, first)
    } else {
        AnyBuilder::Plain(PathBuilder::Misplaced)
    }
}

/// The state after the class behind the second point.
fn two_again<'a>(head: PathHead, first: u32, second: u32, class: u32) -> AnyBuilder<'a>
    ensures { view_any_builder result ≡ after_class class (two (view_path_head head) first second) }
{
    if class == head.class {
        AnyBuilder::TwoAgain(head, first, second)
    } else {
        AnyBuilder::Plain(PathBuilder::Misplaced)
    }
}

/// The state after a class.
fn behind_class<'a>(builder: PathBuilder<'a>, class: u32) -> AnyBuilder<'a>
    ensures { view_any_builder result ≡ after_class class (view_path_builder builder.entry) }
{
    match builder {
        PathBuilder::One(head, first) => one_again(head, first, class),
        PathBuilder::Two(head, first, second) => two_again(head, first, second, class),
        _ => AnyBuilder::Plain(builder.then(Segment::Logical(LogicalType::Class, class))),
    }
}

/// The state of a path without a class said again after one more segment.
fn plain_then<'a>(builder: PathBuilder<'a>, segment: Segment<'a>) -> AnyBuilder<'a>
    ensures { view_any_builder result
        ≡ next_any_if (role_of (view_segment segment.entry)) (plain (view_path_builder builder.entry)) }
{
    match segment {
        Segment::Logical(LogicalType::Class, class) => behind_class(builder, class),
        _ => AnyBuilder::Plain(builder.then(segment)),
    }
}

impl<'a> AnyBuilder<'a> {
    /// The state after one more segment.
    fn then(self, segment: Segment<'a>) -> AnyBuilder<'a>
        ensures { view_any_builder result
            ≡ next_any_if (role_of (view_segment segment.entry)) (view_any_builder self.entry) }
    {
        match (self, segment) {
            (AnyBuilder::Plain(builder), _) => plain_then(builder, segment),
            (_, Segment::Inhibit(_)) => self,
            (
                AnyBuilder::OneAgain(head, first),
                Segment::Logical(LogicalType::Instance | LogicalType::ConnectionPoint, point),
            ) => AnyBuilder::Plain(PathBuilder::Two(head, first, point)),
            (
                AnyBuilder::TwoAgain(head, first, second),
                Segment::Logical(LogicalType::Instance | LogicalType::ConnectionPoint, point),
            ) => AnyBuilder::Plain(PathBuilder::Three(head, first, second, point)),
            _ => AnyBuilder::Plain(PathBuilder::Misplaced),
        }
    }
}

/// The path of a finished walk.
fn finished_any<'a>(builder: AnyBuilder<'a>, inhibits: Inhibits) -> Result<ConnPath<'a>, PathFault>
    ensures { Gives view_path result (any_path_of inhibits (view_any_builder builder.entry)) }
{
    match builder {
        AnyBuilder::Plain(builder) => finished(builder, inhibits),
        _ => Err(PathFault::Shape),
    }
}

/// The bytes behind the first byte of a key and its format 5.
fn behind_format_5(bytes: &[u8]) -> Option<&[u8]>
    ensures { option_map (λ lent. lent.now) result ≡ behind_format_5 bytes.now }
{
    match bytes {
        [first, format, fields @ ..] if *first == ELECTRONIC_KEY && *format == SERIAL_KEY_FORMAT =>
            { Some(fields) }
        _ => None,
    }
}

/// The fields of a key and its serial number, after its format 5. None where there are fewer bytes.
#[tactic(auto, unfolding(crate::specs::AnyPath::serial_key_at))]
fn serial_key(bytes: &[u8]) -> Option<((ElectronicKey, u32), &[u8])>
    ensures { Gives (λ x. ((view_key x.0.0, x.0.1), x.1.now)) (ok_or result PathFault.Truncated)
        (serial_key_at bytes.now) }
{
    let (key, rest) = key_fields(bytes)?;
    let (serial, rest) = u32_at(rest)?;
    Some(((key, serial), rest))
}

/// The segment at the front, whose key may have format 5, and the bytes after it.
#[tactic(auto, unfolding(crate::specs::AnyPath::any_segment_at))]
fn any_segment_of(bytes: &[u8]) -> Result<(Segment<'_>, &[u8]), PathFault>
    ensures { Gives (λ x. (view_segment x.0, x.1.now)) result (any_segment_at bytes.now) }
{
    let Some(fields) = behind_format_5(bytes) else {
        return segment_of(bytes);
    };
    let Some(((key, _serial), rest)) = serial_key(fields) else {
        return Err(PathFault::Truncated);
    };
    Ok((Segment::ElectronicKey(key), rest))
}

/// The path of the segments, from the front on.
fn walked_any_path(bytes: &[u8]) -> Result<ConnPath<'_>, PathFault>
    ensures { seen view_path result ≡ any_path_reading bytes.now }
{
    let mut rest = bytes;
    let mut builder = AnyBuilder::Plain(PathBuilder::Start);
    let mut inhibits = Inhibits::Nothing;
    while !rest.is_empty() {
        let (segment, after) = any_segment_of(rest)?;
        builder = builder.then(segment);
        inhibits = inhibits.then(segment);
        rest = after;
    }
    finished_any(builder, inhibits)
}

/// Reads a connection path in any form: behind the first point the class of the path may stand again in front of each point,
/// and the key may have format 5, whose serial number is that of `key_serial`. What `read_path` reads, this reads as the same.
/// The faults are those of `read_path`, with `Truncated` where a key of format 5 ends early.
///
/// Volume 1, appendix C, segment types, and chapter 3, connection path.
pub fn read_any_path(bytes: &[u8]) -> Result<ConnPath<'_>, PathFault>
    // The reading as a function of the bytes.
    ensures value { seen view_path result ≡ any_path_reading bytes.now }
    // A path in the compressed form with a key of format 4 is read as such.
    ensures compressed { (path : PathFields) → path_reading bytes.now ≡ Ok path → seen view_path result ≡ Ok path }
{
    walked_any_path(bytes)
}

/// The key of the segments, from the front on.
fn walked_any_message(bytes: &[u8]) -> Result<Option<ElectronicKey>, PathFault>
    ensures { seen (option_map view_key) result ≡ any_message_reading bytes.now }
{
    let mut rest = bytes;
    let mut builder = MessageBuilder::Start;
    while !rest.is_empty() {
        let (segment, after) = any_segment_of(rest)?;
        builder = builder.then(segment);
        rest = after;
    }
    finished_message(builder)
}

/// Reads the path of a class 3 connection, whose key may have format 5. It answers the key. What `read_message_path` reads,
/// this reads as the same. The faults are those of `read_any_path`.
///
/// Volume 1, appendix C, electronic key segment, and chapter 5, Message Router object.
pub fn read_any_message_path(bytes: &[u8]) -> Result<Option<ElectronicKey>, PathFault>
    // The reading as a function of the bytes.
    ensures value { seen (option_map view_key) result ≡ any_message_reading bytes.now }
    // A path whose key has format 4 is read as such.
    ensures format_4 { (key : Option KeyFields) → message_path_reading bytes.now ≡ Ok key
        → seen (option_map view_key) result ≡ Ok key }
{
    walked_any_message(bytes)
}

/// The bytes behind an inhibit segment at their front, which may precede the key.
fn behind_inhibit(bytes: &[u8]) -> &[u8]
    ensures { result.now ≡ behind_inhibit bytes.now }
{
    match bytes {
        [first, _ms, rest @ ..] if *first == PRODUCTION_INHIBIT => rest,
        _ => bytes,
    }
}

/// The serial number that the key of a path names: that of a key of format 5, which stands at the front, or behind an
/// inhibit segment.
///
/// Volume 1, appendix C, electronic key segment.
#[tactic(auto, unfolding(crate::specs::AnyPath::key_serial))]
pub fn key_serial(bytes: &[u8]) -> Option<u32>
    ensures { result ≡ key_serial bytes.now }
{
    let fields = behind_format_5(behind_inhibit(bytes))?;
    let ((_key, serial), _rest) = serial_key(fields)?;
    Some(serial)
}

/// Whether the key of a path names the serial number of another device. 0 is that of any device.
pub fn is_other_serial(own: u32, named: Option<u32>) -> bool
    ensures { result ≡ is_other_serial own named }
{
    match named {
        Some(named) => named != 0 && named != own,
        None => false,
    }
}

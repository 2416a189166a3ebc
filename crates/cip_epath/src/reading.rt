//! Reading the segment at the front of some bytes.

ghost use Rattle.std.specs.Prelude.{◌≡◌};
ghost use Rattle.std.specs.Option.{ok_or};
ghost use Rattle.cip_epath.specs.ElectronicKey.{view_key};
ghost use Rattle.cip_epath.specs.Segment.{view_segment};
ghost use Rattle.cip_epath.specs.Reading.{Gives, data_at, key_fields_at, key_at, value_at, logical_at, type_of, segment_at};

use crate::fault::PathFault;
use crate::key::ElectronicKey;
use crate::segment::{
    ELECTRONIC_KEY, KEY_FORMAT, LogicalType, PRODUCTION_INHIBIT, SIMPLE_DATA, Segment,
};
use cip_types::fields::{u8_at, u16_at, u32_at};

/// The words after their number.
#[tactic(auto, unfolding(crate::specs::Reading::data_at))]
fn data_of(bytes: &[u8]) -> Result<(&[u8], &[u8]), PathFault>
    ensures { Gives (λ x. (x.0.now, x.1.now)) result (data_at bytes.now) }
{
    let Some((words, rest)) = u8_at(bytes) else {
        return Err(PathFault::Truncated);
    };
    let len = 2 * words as usize;
    if rest.len() < len {
        return Err(PathFault::Truncated);
    }
    Ok(rest.split_at(len))
}

/// The fields of a key. None where there are fewer bytes.
#[tactic(auto, unfolding(crate::specs::Reading::key_fields_at))]
pub fn key_fields(bytes: &[u8]) -> Option<(ElectronicKey, &[u8])>
    ensures { Gives (λ x. (view_key x.0, x.1.now)) (ok_or result PathFault.Truncated) (key_fields_at bytes.now) }
{
    let (vendor, rest) = u16_at(bytes)?;
    let (device_type, rest) = u16_at(rest)?;
    let (product, rest) = u16_at(rest)?;
    let (revision, rest) = u8_at(rest)?;
    let (minor, rest) = u8_at(rest)?;
    let key = ElectronicKey {
        vendor,
        device_type,
        product,
        compatible: revision >= 128,
        major: revision % 128,
        minor,
    };
    Some((key, rest))
}

/// The key after the first byte of its segment.
#[tactic(auto, unfolding(crate::specs::Reading::key_at))]
fn key_of(bytes: &[u8]) -> Result<(ElectronicKey, &[u8]), PathFault>
    ensures { Gives (λ x. (view_key x.0, x.1.now)) result (key_at bytes.now) }
{
    let Some((format, rest)) = u8_at(bytes) else {
        return Err(PathFault::Truncated);
    };
    if format != KEY_FORMAT {
        return Err(PathFault::KeyFormat);
    }
    key_fields(rest).ok_or(PathFault::Truncated)
}

/// The type in the six high bits of a logical segment's first byte.
fn logical_type(high: u8) -> Option<LogicalType>
    ensures { result ≡ type_of high }
{
    match high {
        0b001_000 => Some(LogicalType::Class),
        0b001_001 => Some(LogicalType::Instance),
        0b001_010 => Some(LogicalType::Member),
        0b001_011 => Some(LogicalType::ConnectionPoint),
        0b001_100 => Some(LogicalType::Attribute),
        _ => None,
    }
}

/// The logical segment of a type whose value has one byte.
#[tactic(auto, unfolding(crate::specs::Reading::value_at))]
fn byte_value(kind: LogicalType, bytes: &[u8]) -> Result<(Segment<'_>, &[u8]), PathFault>
    ensures { Gives (λ x. (view_segment x.0, x.1.now)) result (value_at kind 0 bytes.now) }
{
    let Some((value, rest)) = u8_at(bytes) else {
        return Err(PathFault::Truncated);
    };
    Ok((Segment::Logical(kind, u32::from(value)), rest))
}

/// The logical segment of a type whose value has two bytes, after its pad byte.
#[tactic(auto, unfolding(crate::specs::Reading::value_at))]
fn word_value(kind: LogicalType, bytes: &[u8]) -> Result<(Segment<'_>, &[u8]), PathFault>
    ensures { Gives (λ x. (view_segment x.0, x.1.now)) result (value_at kind 1 bytes.now) }
{
    let Some((_pad, rest)) = u8_at(bytes) else {
        return Err(PathFault::Truncated);
    };
    let Some((value, rest)) = u16_at(rest) else {
        return Err(PathFault::Truncated);
    };
    Ok((Segment::Logical(kind, u32::from(value)), rest))
}

/// The logical segment of a type whose value has four bytes, after its pad byte.
#[tactic(auto, unfolding(crate::specs::Reading::value_at))]
fn long_value(kind: LogicalType, bytes: &[u8]) -> Result<(Segment<'_>, &[u8]), PathFault>
    ensures { Gives (λ x. (view_segment x.0, x.1.now)) result (value_at kind 2 bytes.now) }
{
    let Some((_pad, rest)) = u8_at(bytes) else {
        return Err(PathFault::Truncated);
    };
    let Some((value, rest)) = u32_at(rest) else {
        return Err(PathFault::Truncated);
    };
    Ok((Segment::Logical(kind, value), rest))
}

/// The logical segment after its first byte.
#[tactic(auto, unfolding(crate::specs::Reading::logical_at, crate::specs::Reading::value_at))]
fn logical_of(first: u8, bytes: &[u8]) -> Result<(Segment<'_>, &[u8]), PathFault>
    ensures { Gives (λ x. (view_segment x.0, x.1.now)) result (logical_at first bytes.now) }
{
    let Some(kind) = logical_type(first >> 2) else {
        return Err(PathFault::Segment);
    };
    match first & 3 {
        0 => byte_value(kind, bytes),
        1 => word_value(kind, bytes),
        2 => long_value(kind, bytes),
        _ => Err(PathFault::Segment),
    }
}

/// The segment at the front, and the bytes after it.
#[tactic(auto, unfolding(crate::specs::Reading::segment_at))]
pub fn segment_of(bytes: &[u8]) -> Result<(Segment<'_>, &[u8]), PathFault>
    ensures { Gives (λ x. (view_segment x.0, x.1.now)) result (segment_at bytes.now) }
{
    let Some((first, rest)) = u8_at(bytes) else {
        return Err(PathFault::Truncated);
    };
    match first {
        ELECTRONIC_KEY => {
            let (key, rest) = key_of(rest)?;
            Ok((Segment::ElectronicKey(key), rest))
        }
        PRODUCTION_INHIBIT => {
            let Some((ms, rest)) = u8_at(rest) else {
                return Err(PathFault::Truncated);
            };
            Ok((Segment::Inhibit(ms), rest))
        }
        SIMPLE_DATA => {
            let (data, rest) = data_of(rest)?;
            Ok((Segment::Data(data), rest))
        }
        _ => logical_of(first, rest),
    }
}

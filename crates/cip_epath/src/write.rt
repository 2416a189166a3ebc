//! Writing paths.

ghost use Rattle.std.specs.Prelude.{◌≡◌, ◌+◌, ◌/◌, ◌%◌, ◌^◌, ◌<◌, ◌≤◌, ◌++◌, ◌∷◌, [], length, ℕ, Ok, OnOk, IfOk, IfSome};
ghost use Rattle.std.specs.Option.{option_map};
ghost use Rattle.cip_epath.specs.ElectronicKey.{view_key};
ghost use Rattle.cip_epath.specs.declared.segment.LogicalType.{LogicalType};
ghost use Rattle.cip_epath.specs.declared.segment.LogicalType.TheVariants.{Instance};
ghost use Rattle.cip_epath.specs.Segment.{type_code, key_text, KeyFits};
ghost use Rattle.cip_epath.specs.Path.{view_path, IsPath, IsTarget, IsTextOf};
ghost use Rattle.cip_epath.specs.Reading.{path_reading, target_reading};
ghost use Rattle.cip_epath.specs.Written.{logical_text, optional_text, path_text, target_text, AreWords, PathFits};

use crate::key::ElectronicKey;
use crate::path::{ConnPath, Target};
use crate::segment::{
    ELECTRONIC_KEY, INHIBIT_LEN, KEY_FORMAT, KEY_LEN, LOGICAL, LogicalType, PRODUCTION_INHIBIT,
    SIMPLE_DATA,
};
use cip_types::OutOfMemory;
use cip_types::fields::{put_bytes, put_u16, put_u32};
use std::alloc::Global;

/// The three bits of a logical type.
fn code(kind: LogicalType) -> u8
    ensures { result ≡ type_code kind }
{
    match kind {
        LogicalType::Class => 0,
        LogicalType::Instance => 1,
        LogicalType::Member => 2,
        LogicalType::ConnectionPoint => 3,
        LogicalType::Attribute => 4,
    }
}

/// Appends a logical segment in the shortest format for its value.
fn put_logical(out: &mut Vec<u8>, kind: LogicalType, value: u32) -> Result<(), OutOfMemory>
    ensures { OnOk result (out.new.items ≡ out.old.items ++ logical_text kind value) }
{
    let first = LOGICAL + 4 * code(kind);
    if value < 0x100 {
        put_bytes(out, &[first, value as u8])?;
    } else if value < 0x1_0000 {
        put_bytes(out, &[first + 1, 0])?;
        put_u16(out, value as u16)?;
    } else {
        put_bytes(out, &[first + 2, 0])?;
        put_u32(out, value)?;
    }
    Ok(())
}

/// Appends a key segment. The types keep its numbers within their fields.
fn put_key(out: &mut Vec<u8>, key: &ElectronicKey) -> Result<(), OutOfMemory>
    ensures text { OnOk result (out.new.items ≡ out.old.items ++ key_text (view_key key.now)) }
    ensures fits { KeyFits (view_key key.now) }
{
    put_bytes(out, &[ELECTRONIC_KEY, KEY_FORMAT])?;
    put_u16(out, key.vendor)?;
    put_u16(out, key.device_type)?;
    put_u16(out, key.product)?;
    let revision = key.major + if key.compatible { 128 } else { 0 };
    put_bytes(out, &[revision, key.minor])?;
    Ok(())
}

/// Appends an inhibit segment, if there is an inhibit time.
fn put_inhibit(out: &mut Vec<u8>, inhibit: Option<u8>) -> Result<(), OutOfMemory>
    ensures fits { IfSome inhibit (λ ms. ms < 2 ^ 8) }
    ensures text { OnOk result (out.new.items ≡ out.old.items ++ optional_text (λ ms. 0x43 ∷ ms ∷ []) inhibit) }
{
    match inhibit {
        Some(ms) => put_bytes(out, &[PRODUCTION_INHIBIT, ms]),
        None => Ok(()),
    }
}

/// Appends a logical segment, if there is a value.
fn put_optional(out: &mut Vec<u8>, kind: LogicalType, value: Option<u32>) -> Result<(), OutOfMemory>
    ensures fits { IfSome value (λ n. n < 2 ^ 32) }
    ensures text { OnOk result (out.new.items ≡ out.old.items ++ optional_text (λ n. logical_text kind n) value) }
{
    match value {
        Some(value) => put_logical(out, kind, value),
        None => Ok(()),
    }
}

/// Appends a data segment, if there is one.
fn put_data(out: &mut Vec<u8>, content: Option<&[u8]>) -> Result<(), OutOfMemory>
    requires { IfSome (option_map (λ lent. lent.now) content) AreWords }
    ensures { OnOk result (out.new.items ≡ out.old.items
        ++ optional_text (λ lent. 0x80 ∷ length lent.now / 2 ∷ lent.now) content.entry) }
{
    let Some(content) = content else {
        return Ok(());
    };
    put_bytes(out, &[SIMPLE_DATA, (content.len() / 2) as u8])?;
    put_bytes(out, content)
}

/// Appends the shortest bytes of the path, in this order: key, inhibit time, class, configuration as an instance,
/// consumed and produced point as connection points, data. OutOfMemory is the only fault.
///
/// Volume 1, appendix C, segment types, and chapter 3, connection path.
pub fn put_path(out: &mut Vec<u8>, path: &ConnPath<'_>) -> Result<(), OutOfMemory>
    // The data segment has whole words, which one byte counts.
    requires { IfSome (view_path path.now).segment AreWords }
    ensures text { OnOk result (out.new.items ≡ out.old.items ++ path_text (view_path path.now)) }
    ensures fits { OnOk result (PathFits (view_path path.now)) }
{
    if let Some(key) = &path.key {
        put_key(out, key)?;
    }
    put_inhibit(out, path.inhibit)?;
    put_logical(out, LogicalType::Class, path.class)?;
    put_optional(out, LogicalType::Instance, path.config)?;
    put_logical(out, LogicalType::ConnectionPoint, path.consumed)?;
    put_logical(out, LogicalType::ConnectionPoint, path.produced)?;
    put_data(out, path.segment)?;
    Ok(())
}

/// The bytes of a logical segment of any type, in the shortest format for its value.
fn logical_len(value: u32) -> usize
    ensures len { (kind : LogicalType) → length (logical_text kind value) ≡ result }
    ensures most { result ≤ 6 }
{
    if value < 0x100 {
        2
    } else if value < 0x1_0000 {
        4
    } else {
        6
    }
}

/// The bytes of an optional key and an optional inhibit time.
fn front_len(path: &ConnPath<'_>) -> usize
    ensures { result ≡ length (optional_text (λ k. key_text (view_key k)) path.now.key)
        + length (optional_text (λ (ms : ℕ). 0x43 ∷ ms ∷ []) path.now.inhibit) }
{
    match (path.key, path.inhibit) {
        (Some(_), Some(_)) => KEY_LEN + INHIBIT_LEN,
        (Some(_), None) => KEY_LEN,
        (None, Some(_)) => INHIBIT_LEN,
        (None, None) => 0,
    }
}

/// The bytes of an optional configuration.
fn config_len(config: Option<u32>) -> usize
    ensures len { result ≡ length (optional_text (λ n. logical_text Instance n) config) }
    ensures most { result ≤ 6 }
{
    match config {
        Some(config) => logical_len(config),
        None => 0,
    }
}

/// How many bytes `put_path` appends. It takes no memory.
///
/// Volume 1, appendix C, segment types.
pub fn path_len(path: &ConnPath<'_>) -> usize
    requires { IfSome (view_path path.now).segment AreWords }
    ensures { result ≡ length (path_text (view_path path.now)) }
{
    let points = logical_len(path.consumed) + logical_len(path.produced);
    let front = front_len(path) + logical_len(path.class) + config_len(path.config) + points;
    match path.segment {
        Some(content) => front + 2 + content.len(),
        None => front,
    }
}

/// The shortest bytes of the path, as `put_path` appends them.
///
/// Volume 1, appendix C, segment types, and chapter 3, connection path.
pub fn write_path(alloc: Global, path: &ConnPath<'_>) -> Result<Vec<u8>, OutOfMemory>
    // The data segment has whole words, which one byte counts.
    requires words { IfSome (view_path path.now).segment AreWords }
    // One byte counts the words of the path.
    requires short { length (path_text (view_path path.now)) ≤ 510 }
    ensures text { IfOk result (λ v. v.items ≡ path_text (view_path path.now)) }
    ensures is_text { IfOk result (λ v. IsTextOf IsPath v.items (view_path path.now)) }
    ensures read_back { IfOk result (λ v. path_reading v.items ≡ Ok (view_path path.now)) }
    ensures whole_words { IfOk result (λ v. length v.items % 2 ≡ 0) }
    ensures short { IfOk result (λ v. length v.items ≤ 510) }
{
    let mut out = Vec::with_capacity(alloc, path_len(path))?;
    put_path(&mut out, path)?;
    Ok(out)
}

/// The shortest bytes of a request path: class, instance, and the attribute if there is one.
///
/// Volume 1, appendix C, segment types, and chapter 2, request path.
pub fn write_target(alloc: Global, target: &Target) -> Result<Vec<u8>, OutOfMemory>
    ensures text { IfOk result (λ v. v.items ≡ target_text target.now) }
    ensures is_text { IfOk result (λ v. IsTextOf IsTarget v.items target.now) }
    ensures read_back { IfOk result (λ v. target_reading v.items ≡ Ok target.now) }
{
    let mut out = Vec::new(alloc);
    put_logical(&mut out, LogicalType::Class, target.class)?;
    put_logical(&mut out, LogicalType::Instance, target.instance)?;
    put_optional(&mut out, LogicalType::Attribute, target.attribute)?;
    Ok(out)
}

//! The parameters and the path of a connection in words.

use crate::router::values::{push_data, push_interval};
use cip_epath::{
    ConnPath, ElectronicKey, key_serial, read_any_message_path, read_any_path, read_message_path,
    read_path,
};
use cip_netparams::{ConnectionType, NetParams, Trigger, is_message_trigger};
use cip_tables::Config;
use cip_types::OutOfMemory;
use std::alloc::Global;
use trace_words::push_text;

/// One direction of a requested connection: its packet interval, its type and its size.
///
/// Volume 1, chapter 3, network connection parameters.
pub fn push_direction(
    out: &mut String,
    name: &str,
    rpi: u32,
    params: NetParams,
) -> Result<(), OutOfMemory> {
    write!(out, "{name} every ")?;
    push_interval(out, rpi)?;
    let kind = type_words(params.kind);
    let size = params.size;
    let variable = if params.variable { " at most" } else { "" };
    Ok(write!(out, " {kind},{variable} {size} bytes")?)
}

fn type_words(kind: ConnectionType) -> &'static str {
    match kind {
        ConnectionType::Null => "null",
        ConnectionType::Multicast => "multicast",
        ConnectionType::PointToPoint => "point to point",
        ConnectionType::Reserved => "of the reserved type",
    }
}

/// The time-out multiplier of a connection.
pub fn push_multiplier(out: &mut String, code: u8) -> Result<(), OutOfMemory> {
    if code > 7 {
        return Ok(write!(out, "time-out multiplier {code} (reserved)")?);
    }
    let times = 4u32 << code;
    Ok(write!(out, "time-out after {times} packet intervals")?)
}

/// The transport class and trigger byte of a connection.
pub fn push_trigger(out: &mut String, byte: u8) -> Result<(), OutOfMemory> {
    match Trigger::read(byte) {
        Some(Trigger::Cyclic) => push_text(out, "class 1 cyclic"),
        Some(Trigger::ChangeOfState) => push_text(out, "class 1 at change of state"),
        None if is_message_trigger(byte) => push_text(out, "class 3 server"),
        None => Ok(write!(out, "class and trigger {byte:#04x} (not served)")?),
    }
}

/// A connection path: its points, its configuration data, its key and its inhibit time.
///
/// Volume 1, chapter 3, connection path.
pub fn push_path(
    alloc: Global,
    out: &mut String,
    config: &Config,
    size: u16,
    path: &[u8],
) -> Result<(), OutOfMemory> {
    let read = if is_described(config) {
        read_any_path(path)
    } else {
        read_path(path)
    };
    match read {
        Ok(read) => {
            let kind = kind_words(config, size, read.consumed);
            push_points(alloc, out, kind, &read)?;
            push_serial(out, path)
        }
        Err(fault) => {
            write!(out, "a path that does not read ({fault}), ")?;
            push_data(alloc, out, path)
        }
    }
}

/// The path of a class 3 connection: the message router, and its key.
///
/// Volume 1, chapter 3, connection path.
pub fn push_message_path(
    alloc: Global,
    out: &mut String,
    config: &Config,
    path: &[u8],
) -> Result<(), OutOfMemory> {
    let read = if is_described(config) {
        read_any_message_path(path)
    } else {
        read_message_path(path)
    };
    match read {
        Ok(Some(key)) => {
            push_text(out, "message router")?;
            push_key(out, key)?;
            push_serial(out, path)
        }
        Ok(None) => push_text(out, "message router"),
        Err(fault) => {
            write!(out, "a path that is not the message router's ({fault}), ")?;
            push_data(alloc, out, path)
        }
    }
}

/// Whether it is an adapter that is described, which reads a path in any form.
fn is_described(config: &Config) -> bool {
    match config {
        Config::Adapter(profile) => profile.description.is_some(),
        Config::Scanner(_) => false,
    }
}

/// The serial number that the key of a path names, if it names one.
fn push_serial(out: &mut String, path: &[u8]) -> Result<(), OutOfMemory> {
    match key_serial(path) {
        Some(serial) => Ok(write!(out, ", serial number {serial}")?),
        None => Ok(()),
    }
}

/// The application connection type. An adapter knows its heartbeat points; a scanner's heartbeats have two bytes.
fn kind_words(config: &Config, size: u16, consumed: u32) -> &'static str {
    match config {
        Config::Adapter(profile) if consumed == profile.input_only => "input only",
        Config::Adapter(profile) if consumed == profile.listen_only => "listen only",
        Config::Scanner(_) if size <= 2 => "input only or listen only",
        _ => "exclusive owner",
    }
}

fn push_points(
    alloc: Global,
    out: &mut String,
    kind: &str,
    path: &ConnPath<'_>,
) -> Result<(), OutOfMemory> {
    let consumed = path.consumed;
    let produced = path.produced;
    write!(
        out,
        "{kind}: consumed point {consumed}, produced point {produced}"
    )?;
    if path.class != 4 {
        let class = path.class;
        write!(out, " of class {class}")?;
    }
    if let Some(config) = path.config {
        write!(out, ", configuration {config}")?;
    }
    if let Some(inhibit) = path.inhibit {
        write!(out, ", inhibit time {inhibit} ms")?;
    }
    if let Some(key) = path.key {
        push_key(out, key)?;
    }
    if let Some(data) = path.segment {
        push_text(out, ", configuration data: ")?;
        push_data(alloc, out, data)?;
    }
    Ok(())
}

fn push_key(out: &mut String, key: ElectronicKey) -> Result<(), OutOfMemory> {
    let ElectronicKey {
        vendor,
        device_type,
        product,
        compatible,
        major,
        minor,
    } = key;
    let how = if compatible { " or compatible" } else { "" };
    Ok(write!(
        out,
        ", key of vendor {vendor} type {device_type} product {product} revision {major}.{minor}{how}"
    )?)
}

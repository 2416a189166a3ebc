//! The lines of an adapter's profile.

ghost use Rattle.trace_words.specs.Reader.{unread_words, Takes};
ghost use Rattle.trace_lines.specs.Profiles.{adapter_reader, output_reader, point_reader, description_reader, object_reader, heartbeat_reader};

use crate::forms::{AdapterLine, HeartbeatLine};
use crate::names::read_action;
use adapter_table::{Description, InputPoint, OutputPoint};
use cip_types::Identity;
use std::alloc::Global;
use trace_words::{TextFault, Words};

/// What follows `adapter`: `INCARNATION NODE MASK VENDOR TYPE PRODUCT MAJOR MINOR`.
pub fn read_adapter(words: &mut Words<'_>) -> Result<AdapterLine, TextFault>
    ensures { Takes (adapter_reader (unread_words words.old)) result (unread_words words.new) }
{
    let line = AdapterLine {
        incarnation: words.u8()?,
        node: words.node()?,
        mask: words.node()?.0,
        identity: Identity {
            vendor: words.u16()?,
            device_type: words.u16()?,
            product: words.u16()?,
            major: words.u8()?,
            minor: words.u8()?,
        },
    };
    words.last(line)
}

/// What follows `output`: `INSTANCE LEN IDLE FAULT`.
pub fn read_output(words: &mut Words<'_>) -> Result<OutputPoint, TextFault>
    ensures { Takes (output_reader (unread_words words.old)) result (unread_words words.new) }
{
    let point = OutputPoint {
        instance: words.u32()?,
        len: words.u64()?,
        idle: read_action(words)?,
        fault: read_action(words)?,
    };
    words.last(point)
}

/// What follows `input` or `config`: `INSTANCE LEN`.
pub fn read_point(words: &mut Words<'_>) -> Result<InputPoint, TextFault>
    ensures { Takes (point_reader (unread_words words.old)) result (unread_words words.new) }
{
    let instance = words.u32()?;
    let len = words.u64()?;
    words.last(InputPoint { instance, len })
}

/// What follows `describe`: `SERIAL NAME PORT SPEED FLAGS MAC SECONDS`.
pub fn read_description(alloc: Global, words: &mut Words<'_>) -> Result<Description, TextFault>
    ensures { Takes (description_reader (unread_words words.old)) result (unread_words words.new) }
{
    let description = Description {
        serial: words.u32()?,
        name: words.bytes(alloc)?,
        port: words.u16()?,
        speed: words.u32()?,
        flags: words.u32()?,
        mac: words.bytes(alloc)?,
        inactivity: words.u16()?,
    };
    words.last(description)
}

/// What follows `object`: `CLASS`.
pub fn read_object(words: &mut Words<'_>) -> Result<u32, TextFault>
    ensures { Takes (object_reader (unread_words words.old)) result (unread_words words.new) }
{
    let class = words.u32()?;
    words.last(class)
}

/// What follows `heartbeat`: `INPUTONLY LISTENONLY`.
pub fn read_heartbeat(words: &mut Words<'_>) -> Result<HeartbeatLine, TextFault>
    ensures { Takes (heartbeat_reader (unread_words words.old)) result (unread_words words.new) }
{
    let line = HeartbeatLine {
        input_only: words.u32()?,
        listen_only: words.u32()?,
    };
    words.last(line)
}

//! The lines of a scanner's profile.

ghost use Rattle.std.specs.Prelude.{◌≡◌};
ghost use Rattle.trace_words.specs.Reader.{unread_words, Takes, next_word};
ghost use Rattle.trace_lines.specs.Kinds.{key_of_bytes, key_of};
ghost use Rattle.trace_lines.specs.Slots.{scanner_reader, openings_reader, serials_reader, stated_rate, slot_reader};

use crate::forms::{Rate, ScannerLine, TermLine};
use crate::names::{read_kind, read_multicast, read_trigger};
use cip_epath::ElectronicKey;
use cip_netparams::Trigger;
use scanner_table::SlotConfig;
use std::alloc::Global;
use trace_words::{TextFault, Words};

/// What follows `scanner`: `INCARNATION NODE VENDOR SERIAL OPENTIMEOUT RETRY`.
pub fn read_scanner(words: &mut Words<'_>) -> Result<ScannerLine, TextFault>
    ensures { Takes (scanner_reader (unread_words words.old)) result (unread_words words.new) }
{
    let line = ScannerLine {
        incarnation: words.u8()?,
        node: words.node()?,
        vendor: words.u16()?,
        serial: words.u32()?,
        open_timeout: words.u64()?,
        retry: words.u64()?,
    };
    words.last(line)
}

/// What follows `openings`: `N`.
pub fn read_openings(words: &mut Words<'_>) -> Result<TermLine, TextFault>
    ensures { Takes (openings_reader (unread_words words.old)) result (unread_words words.new) }
{
    let most = words.u8()?;
    words.last(TermLine::Openings(most))
}

/// What follows `serials`: `FROM`.
pub fn read_serials(words: &mut Words<'_>) -> Result<TermLine, TextFault>
    ensures { Takes (serials_reader (unread_words words.old)) result (unread_words words.new) }
{
    let first = words.u16()?;
    words.last(TermLine::Serials(first))
}

/// What follows `slot`: `TARGET KIND CONFIG CONSUMED PRODUCED OUTLEN INLEN ORPI TRPI MULT p2p|multicast KEY DATA`,
/// and `cyclic|change INHIBIT` or nothing.
pub fn read_slot(alloc: Global, words: &mut Words<'_>) -> Result<SlotConfig, TextFault>
    ensures { Takes (slot_reader (unread_words words.old)) result (unread_words words.new) }
{
    let slot = SlotConfig {
        target: words.node()?,
        kind: read_kind(words)?,
        config: words.u32_or_none()?,
        consumed: words.u32()?,
        produced: words.u32()?,
        out_len: words.u64()?,
        in_len: words.u64()?,
        o_t_rpi: words.u32()?,
        t_o_rpi: words.u32()?,
        mult: words.u8()?,
        multicast: read_multicast(words)?,
        key: read_key(alloc, words)?,
        config_data: words.bytes(alloc)?,
        trigger: Trigger::Cyclic,
        inhibit: 0,
    };
    if words.is_done() {
        return Ok(slot);
    }
    let Rate { trigger, inhibit } = read_rate(words)?;
    Ok(SlotConfig {
        trigger,
        inhibit,
        ..slot
    })
}

/// The next word as an electronic key, or none.
pub(crate) fn read_key(
    alloc: Global,
    words: &mut Words<'_>,
) -> Result<Option<ElectronicKey>, TextFault>
    ensures { Takes (next_word key_of (unread_words words.old)) result (unread_words words.new) }
{
    let bytes = words.bytes(alloc)?;
    key_of_bytes(bytes.as_slice()).ok_or(TextFault::Bad)
}

/// The key of eight bytes; none of no bytes.
#[tactic(auto, unfolding(crate::specs::Kinds::key_of_bytes))]
fn key_of_bytes(bytes: &[u8]) -> Option<Option<ElectronicKey>>
    ensures { result ≡ key_of_bytes bytes.now }
{
    if bytes.is_empty() {
        return Some(None);
    }
    let [v0, v1, t0, t1, p0, p1, revision, minor] = bytes else {
        return None;
    };
    Some(Some(ElectronicKey {
        vendor: u16::from_le_bytes([*v0, *v1]),
        device_type: u16::from_le_bytes([*t0, *t1]),
        product: u16::from_le_bytes([*p0, *p1]),
        compatible: *revision >= 128,
        major: *revision % 128,
        minor: *minor,
    }))
}

/// The trigger of the target's productions, and its inhibit time, at the end of a line.
fn read_rate(words: &mut Words<'_>) -> Result<Rate, TextFault>
    ensures { Takes (stated_rate (unread_words words.old)) result (unread_words words.new) }
{
    let rate = Rate {
        trigger: read_trigger(words)?,
        inhibit: words.u8()?,
    };
    words.last(rate)
}

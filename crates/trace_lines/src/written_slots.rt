//! Profiles of scanners as they are written.

ghost use Rattle.std.specs.Prelude.{◌≡◌, ◌++◌, OnOk, string_bytes, flat_map, codes, take, drop};
ghost use Rattle.std.specs.List.{join_with_byte};
ghost use Rattle.trace_words.specs.Words.{line_text};
ghost use Rattle.trace_lines.specs.Kinds.{multicast_word, key_word};
ghost use Rattle.trace_lines.specs.Slots.{slot_words, scanner_words, tidy_text, openings_text, serials_text, terms_of, terms_text, scanner_text};

use crate::limit_lines::push_newer;
use crate::names::kind_name;
use crate::written_profiles::push_stated_ids;
use cip_epath::ElectronicKey;
use cip_netparams::Trigger;
use cip_types::OutOfMemory;
use scanner_table::{ScannerProfile, SlotConfig};
use trace_words::{push_bytes, push_digits, push_node, push_text};

/// Appends the lines of a scanner's profile. If an allocation is refused, a part of them may be appended.
pub fn push_scanner(out: &mut String, profile: &ScannerProfile) -> Result<(), OutOfMemory>
    ensures { OnOk result (string_bytes out.new ≡ string_bytes out.old ++ scanner_text profile.now) }
{
    push_first(out, profile)?;
    push_newer(out, profile.newer)?;
    push_terms(out, profile)?;
    push_slots(out, profile.slots.as_slice())?;
    Ok(())
}

fn push_first(out: &mut String, profile: &ScannerProfile) -> Result<(), OutOfMemory>
    ensures { OnOk result (string_bytes out.new ≡ string_bytes out.old ++ line_text (scanner_words profile.now)) }
{
    write!(out, "scanner {} ", profile.incarnation)?;
    push_node(out, profile.node)?;
    write!(
        out,
        " {} {} {} {}\n",
        profile.vendor, profile.serial, profile.open_timeout, profile.retry
    )?;
    Ok(())
}

/// Appends the lines of what the profile says of openings and of connection ids.
fn push_terms(out: &mut String, profile: &ScannerProfile) -> Result<(), OutOfMemory>
    ensures { OnOk result (string_bytes out.new ≡ string_bytes out.old ++ terms_text (terms_of profile.now)) }
{
    push_tidy(out, profile.tidy)?;
    push_openings(out, profile.openings)?;
    push_serials(out, profile.serials)?;
    push_stated_ids(out, profile.ids)?;
    Ok(())
}

fn push_openings(out: &mut String, openings: Option<u8>) -> Result<(), OutOfMemory>
    ensures { OnOk result (string_bytes out.new ≡ string_bytes out.old ++ openings_text openings) }
{
    match openings {
        Some(most) => Ok(write!(out, "openings {most}\n")?),
        None => Ok(()),
    }
}

fn push_serials(out: &mut String, serials: Option<u16>) -> Result<(), OutOfMemory>
    ensures { OnOk result (string_bytes out.new ≡ string_bytes out.old ++ serials_text serials) }
{
    match serials {
        Some(first) => Ok(write!(out, "serials {first}\n")?),
        None => Ok(()),
    }
}

fn push_tidy(out: &mut String, tidy: bool) -> Result<(), OutOfMemory>
    ensures { OnOk result (string_bytes out.new ≡ string_bytes out.old ++ tidy_text tidy) }
{
    if tidy {
        Ok(out.push_str("tidy\n")?)
    } else {
        Ok(())
    }
}

fn push_slots(out: &mut String, slots: &[SlotConfig]) -> Result<(), OutOfMemory>
    ensures { OnOk result
        (string_bytes out.new ≡ string_bytes out.old ++ flat_map (λ slot. line_text (slot_words slot)) slots.now) }
{
    for slot in slots {
        push_slot(out, slot)?;
    }
    Ok(())
}

fn push_slot(out: &mut String, slot: &SlotConfig) -> Result<(), OutOfMemory>
    ensures { OnOk result (string_bytes out.new ≡ string_bytes out.old ++ line_text (slot_words slot.now)) }
{
    push_purpose(out, slot)?;
    push_sizes(out, slot)?;
    push_key(out, slot.key)?;
    push_slot_end(out, slot)?;
    Ok(())
}

/// Appends a slot's target, the kind of its connection, and the instance of its configuration.
fn push_purpose(out: &mut String, slot: &SlotConfig) -> Result<(), OutOfMemory>
    ensures { OnOk result
        (string_bytes out.new ≡ string_bytes out.old ++ join_with_byte 32 (take 4 (slot_words slot.now))) }
{
    out.push_str("slot ")?;
    push_node(out, slot.target)?;
    write!(out, " {} ", kind_name(slot.kind))?;
    match slot.config {
        Some(instance) => Ok(write!(out, "{instance}")?),
        None => Ok(out.push_str("-")?),
    }
}

/// Appends a slot's points with their lengths, its intervals, and whether its target produces for a group, between
/// spaces.
fn push_sizes(out: &mut String, slot: &SlotConfig) -> Result<(), OutOfMemory>
    ensures { OnOk result
        (string_bytes out.new ≡ string_bytes out.old
        ++ (codes " " ++ (join_with_byte 32 (take 8 (drop 4 (slot_words slot.now))) ++ codes " "))) }
{
    write!(
        out,
        " {} {} {} {} {} {} {} {} ",
        slot.consumed,
        slot.produced,
        slot.out_len,
        slot.in_len,
        slot.o_t_rpi,
        slot.t_o_rpi,
        slot.mult,
        multicast_name(slot.multicast)
    )?;
    Ok(())
}

fn multicast_name(multicast: bool) -> &'static str
    ensures { result.now ≡ multicast_word multicast }
{
    if multicast { "multicast" } else { "p2p" }
}

/// Appends the bytes of a key segment behind its format; `-` for no key.
fn push_key(out: &mut String, key: Option<ElectronicKey>) -> Result<(), OutOfMemory>
    ensures { OnOk result (string_bytes out.new ≡ string_bytes out.old ++ key_word key) }
{
    let Some(key) = key else {
        return push_text(out, "-");
    };
    let [v0, v1] = key.vendor.to_le_bytes();
    let [t0, t1] = key.device_type.to_le_bytes();
    let [p0, p1] = key.product.to_le_bytes();
    let revision = key.major + if key.compatible { 128 } else { 0 };
    push_digits(out, &[v0, v1, t0, t1, p0, p1, revision, key.minor])
}

/// Appends a space, a slot's configuration data, the trigger of its target's productions, and the end of the line.
fn push_slot_end(out: &mut String, slot: &SlotConfig) -> Result<(), OutOfMemory>
    ensures { OnOk result
        (string_bytes out.new ≡ string_bytes out.old ++ (codes " " ++ line_text (drop 13 (slot_words slot.now)))) }
{
    out.push_str(" ")?;
    push_bytes(out, slot.config_data.as_slice())?;
    match (slot.trigger, slot.inhibit) {
        (Trigger::Cyclic, 0) => push_text(out, "\n"),
        (Trigger::Cyclic, inhibit) => Ok(write!(out, " cyclic {inhibit}\n")?),
        (Trigger::ChangeOfState, inhibit) => Ok(write!(out, " change {inhibit}\n")?),
    }
}

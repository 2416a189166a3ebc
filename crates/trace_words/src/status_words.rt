//! Statuses in the words of the standard: general and extended ones of the Connection Manager, and those of encapsulation; and
//! why a slot of a scanner is not opened.

mod statuses;

ghost use Rattle.std.specs.Prelude.{◌≡◌, ◌++◌, [], ◌∷◌, OnOk, string_bytes};
ghost use Rattle.hex.specs.Hex.{encode_lower};
ghost use Rattle.trace_words.specs.StatusWords.Statuses.{status_name};
ghost use Rattle.trace_words.specs.StatusWords.Reasons.{encap_digits, encap_number, encap_text, encap_words, extended_digits, extended_named, extended_number, extended_status, extended_text, fault_text, general_number, general_text, mismatch_text, named_text, reason_text, refused_text, slot_front, unopened_text};

use crate::{push_digits, push_text};
use cip_events::{Notice, Outcome, Reason};
use cip_types::{Fault, Mismatch, OutOfMemory};
pub use statuses::{extended_name, status_name};

/// Appends a comment for each slot that an outcome says is not opened: why, in words.
pub fn push_refusals(out: &mut String, outcome: &Outcome) -> Result<(), OutOfMemory> {
    let Ok(answer) = outcome else {
        return Ok(());
    };
    for notice in answer.notices.as_slice() {
        if let Notice::Refused(slot, reason) = notice {
            push_text(out, "# ")?;
            push_unopened(out, *slot, *reason)?;
            push_text(out, "\n")?;
        }
    }
    Ok(())
}

/// Why a slot is not opened, in words.
pub fn push_unopened(out: &mut String, slot: u32, reason: Reason) -> Result<(), OutOfMemory>
    ensures { OnOk result (string_bytes out.new ≡ string_bytes out.old ++ unopened_text slot reason) }
{
    push_slot_front(out, slot)?;
    push_reason(out, reason)?;
    Ok(())
}

/// That a slot is not opened.
fn push_slot_front(out: &mut String, slot: u32) -> Result<(), OutOfMemory>
    ensures { OnOk result (string_bytes out.new ≡ string_bytes out.old ++ slot_front slot) }
{
    write!(out, "slot {slot} is not opened: ")?;
    Ok(())
}

/// The reason for which a slot is not opened, in words.
pub fn push_reason(out: &mut String, reason: Reason) -> Result<(), OutOfMemory>
    ensures { OnOk result (string_bytes out.new ≡ string_bytes out.old ++ reason_text reason) }
{
    match reason {
        Reason::Encap(status) => push_encap(out, status),
        Reason::Unreadable => push_text(out, "no readable reply"),
        Reason::Cip(fault) => push_fault(out, fault),
        Reason::Mismatch(mismatch) => push_mismatch(out, mismatch),
    }
}

/// How a reply does not fit its request, in words.
fn push_mismatch(out: &mut String, mismatch: Mismatch) -> Result<(), OutOfMemory>
    ensures { OnOk result (string_bytes out.new ≡ string_bytes out.old ++ mismatch_text mismatch) }
{
    match mismatch {
        Mismatch::Triad => push_text(out, "a reply for another connection"),
        Mismatch::Id => push_text(out, "another T->O id than the requested one, or one in use"),
        Mismatch::Api => push_text(out, "an actual packet interval out of range"),
        Mismatch::Refused(fault) => push_refused(out, fault),
    }
}

/// That a target refused a request, and why, in words.
fn push_refused(out: &mut String, fault: Fault) -> Result<(), OutOfMemory>
    ensures { OnOk result (string_bytes out.new ≡ string_bytes out.old ++ refused_text fault) }
{
    push_text(out, "refused by the target: ")?;
    push_fault(out, fault)?;
    Ok(())
}

/// A status of an encapsulation message, with its number, in words.
pub fn push_encap(out: &mut String, status: u32) -> Result<(), OutOfMemory>
    ensures { OnOk result (string_bytes out.new ≡ string_bytes out.old ++ encap_text status) }
{
    push_encap_number(out, status)?;
    push_encap_name(out, status)?;
    Ok(())
}

/// The number of an encapsulation status.
fn push_encap_number(out: &mut String, status: u32) -> Result<(), OutOfMemory>
    ensures { OnOk result (string_bytes out.new ≡ string_bytes out.old ++ encap_number status) }
{
    push_text(out, "encapsulation status 0x")?;
    push_encap_digits(out, status)?;
    Ok(())
}

/// The name of an encapsulation status.
fn push_encap_name(out: &mut String, status: u32) -> Result<(), OutOfMemory>
    ensures { OnOk result (string_bytes out.new ≡ string_bytes out.old ++ named_text (encap_words status)) }
{
    push_named(out, encap_words(status))
}

/// The digits of an encapsulation status: four, or eight where they are needed.
fn push_encap_digits(out: &mut String, status: u32) -> Result<(), OutOfMemory>
    ensures { OnOk result (string_bytes out.new ≡ string_bytes out.old ++ encap_digits status) }
{
    match u16::try_from(status) {
        Ok(status) => push_digits(out, &status.to_be_bytes()),
        Err(_) => push_digits(out, &status.to_be_bytes()),
    }
}

/// A name in parentheses, behind its number.
fn push_named(out: &mut String, name: &str) -> Result<(), OutOfMemory>
    ensures { OnOk result (string_bytes out.new ≡ string_bytes out.old ++ named_text name.now) }
{
    write!(out, " ({name})")?;
    Ok(())
}

/// A general status, and an extended status of the Connection Manager, in words.
///
/// Volume 1, appendix B, general status codes; chapter 3, Connection Manager extended status codes.
pub fn push_fault(out: &mut String, fault: Fault) -> Result<(), OutOfMemory>
    ensures { OnOk result (string_bytes out.new ≡ string_bytes out.old ++ fault_text fault) }
{
    push_general(out, fault.general)?;
    push_extended(out, fault)
}

/// An extended status, if there is one. That of a connection failure has a name.
fn push_extended(out: &mut String, fault: Fault) -> Result<(), OutOfMemory>
    ensures { OnOk result (string_bytes out.new ≡ string_bytes out.old ++ extended_text fault.general fault.extended) }
{
    match fault.extended {
        Some(extended) => push_extended_status(out, fault.general, extended),
        None => push_text(out, ", no extended status"),
    }
}

/// An extended status behind a general one.
fn push_extended_status(out: &mut String, general: u8, extended: u16) -> Result<(), OutOfMemory>
    ensures { OnOk result (string_bytes out.new ≡ string_bytes out.old ++ extended_status general extended) }
{
    push_extended_number(out, extended)?;
    push_extended_name(out, general, extended)?;
    Ok(())
}

/// The number of an extended status.
fn push_extended_number(out: &mut String, extended: u16) -> Result<(), OutOfMemory>
    ensures { OnOk result (string_bytes out.new ≡ string_bytes out.old ++ extended_number extended) }
{
    push_text(out, ", extended status 0x")?;
    push_extended_digits(out, extended)?;
    Ok(())
}

/// The digits of an extended status.
fn push_extended_digits(out: &mut String, extended: u16) -> Result<(), OutOfMemory>
    ensures { OnOk result (string_bytes out.new ≡ string_bytes out.old ++ extended_digits extended) }
{
    push_digits(out, &extended.to_be_bytes())
}

/// The name of an extended status, if it has one.
fn push_extended_name(out: &mut String, general: u8, extended: u16) -> Result<(), OutOfMemory>
    ensures { OnOk result (string_bytes out.new ≡ string_bytes out.old ++ extended_named general extended) }
{
    if general == 1 {
        push_named(out, extended_name(extended))
    } else {
        Ok(())
    }
}

/// A general status in words.
pub fn push_general(out: &mut String, general: u8) -> Result<(), OutOfMemory>
    ensures { OnOk result (string_bytes out.new ≡ string_bytes out.old ++ general_text general) }
{
    push_general_number(out, general)?;
    push_general_name(out, general)?;
    Ok(())
}

/// The number of a general status.
fn push_general_number(out: &mut String, general: u8) -> Result<(), OutOfMemory>
    ensures { OnOk result (string_bytes out.new ≡ string_bytes out.old ++ general_number general) }
{
    push_text(out, "general status 0x")?;
    push_general_digits(out, general)?;
    Ok(())
}

/// The digits of a general status.
fn push_general_digits(out: &mut String, general: u8) -> Result<(), OutOfMemory>
    ensures { OnOk result (string_bytes out.new ≡ string_bytes out.old ++ encode_lower (general ∷ [])) }
{
    push_digits(out, &[general])
}

/// The name of a general status.
fn push_general_name(out: &mut String, general: u8) -> Result<(), OutOfMemory>
    ensures { OnOk result (string_bytes out.new ≡ string_bytes out.old ++ named_text (status_name general)) }
{
    push_named(out, status_name(general))
}

/// The status of an encapsulation message, in words.
///
/// Volume 2, chapter 2, encapsulation status codes.
pub fn encap_words(status: u32) -> &'static str
    ensures { result.now ≡ encap_words status }
{
    match status {
        0x0000 => "success",
        0x0001 => "invalid or unsupported command",
        0x0002 => "insufficient memory",
        0x0003 => "incorrect data",
        0x0064 => "invalid session handle",
        0x0065 => "invalid length",
        0x0069 => "unsupported protocol revision",
        _ => "another status",
    }
}

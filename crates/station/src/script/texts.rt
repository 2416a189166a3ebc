//! What a script says of its lines.

ghost use Rattle.std.specs.Prelude.{◌≡◌, ◌++◌, IfOk, OnOk, string_bytes};
ghost use Rattle.station.specs.Script.Texts.{act_text, expected_text, failed_text, front_text, line_text, met_text, passed_text, unmet_text, within_text};

use crate::script::lines::{ScriptAct, ScriptLine};
use cip_tables::Device;
use cip_types::fields::put_bytes;
use cip_types::{Items, OutOfMemory};
use script_checks::{Condition, push_condition, push_seen};
use std::alloc::Global;
use trace_words::push_text;

/// That a line was met: its number from 1, its condition, and after how many milliseconds.
pub fn met_text(
    alloc: Global,
    line: usize,
    condition: &Condition,
    after_ms: u64,
) -> Result<Items<u8>, OutOfMemory>
    ensures { IfOk result (λ text. text ≡ met_text line condition.now after_ms) }
{
    let number = line.saturating_add(1);
    let mut text = String::new(alloc);
    write!(&mut text, "met {number} ")?;
    push_condition(&mut text, condition)?;
    write!(&mut text, " after {after_ms}")?;
    Items::copy_of(alloc, text.as_bytes())
}

/// Why a line failed: its condition, within how many milliseconds it was expected, and what the device has in its place.
pub fn unmet_text<D: Device>(
    alloc: Global,
    device: &D,
    within_ms: u32,
    condition: &Condition,
) -> Result<Items<u8>, OutOfMemory>
    ensures { IfOk result (λ text. text ≡ unmet_text (D.table device.now) within_ms condition.now) }
{
    let mut text = String::new(alloc);
    push_condition(&mut text, condition)?;
    push_within(&mut text, within_ms)?;
    push_text(&mut text, ", but ")?;
    push_seen(&mut text, device, condition)?;
    Items::copy_of(alloc, text.as_bytes())
}

/// That a line failed, with its number from 1, for this reason.
pub fn failed_text(alloc: Global, line: usize, why: &[u8]) -> Result<Items<u8>, OutOfMemory>
    ensures { IfOk result (λ text. text ≡ failed_text line why.now) }
{
    let number = line.saturating_add(1);
    let front = format!(in alloc; "failed {number} ")?;
    let mut text = Vec::new(alloc);
    put_bytes(&mut text, front.as_bytes())?;
    put_bytes(&mut text, why)?;
    Ok(Items::from_vec(text))
}

/// That a script passed, with the number of the line from 1.
pub fn passed_text(alloc: Global, line: usize) -> Result<Items<u8>, OutOfMemory>
    ensures { IfOk result (λ text. text ≡ passed_text line) }
{
    let number = line.saturating_add(1);
    let text = format!(in alloc; "passed {number}")?;
    Items::copy_of(alloc, text.as_bytes())
}

/// Appends within how many milliseconds a condition is expected; nothing, if at once.
fn push_within(out: &mut String, within_ms: u32) -> Result<(), OutOfMemory>
    ensures { OnOk result (string_bytes out.new ≡ string_bytes out.old ++ within_text within_ms) }
{
    if within_ms > 0 {
        write!(out, " within {within_ms}")?;
    }
    Ok(())
}

/// Appends within how many milliseconds a condition is expected, as it is read.
fn push_front(out: &mut String, within_ms: u32) -> Result<(), OutOfMemory>
    ensures { OnOk result (string_bytes out.new ≡ string_bytes out.old ++ front_text within_ms) }
{
    if within_ms > 0 {
        write!(out, "within {within_ms} ")?;
    }
    Ok(())
}

/// Appends what a line says that judges, behind its number from 1.
#[tactic(auto, unfolding(crate::specs::Script::Texts::line_text))]
pub fn push_line(
    alloc: Global,
    out: &mut Vec<u8>,
    line: usize,
    said: &ScriptLine,
) -> Result<(), OutOfMemory>
    ensures { OnOk result (out.new.items ≡ out.old.items ++ line_text line said.now.act) }
{
    let number = line.saturating_add(1);
    let front = format!(in alloc; "{number}: ")?;
    put_bytes(out, front.as_bytes())?;
    push_act(alloc, out, &said.act)
}

/// Appends what a line does, as it is read; of a call, that it is one.
fn push_act(alloc: Global, out: &mut Vec<u8>, said: &ScriptAct) -> Result<(), OutOfMemory>
    ensures { OnOk result (out.new.items ≡ out.old.items ++ act_text said.now) }
{
    match said {
        ScriptAct::Do(_) => put_bytes(out, b"call"),
        ScriptAct::Expect {
            within_ms,
            condition,
        } => push_expected(alloc, out, *within_ms, condition),
        ScriptAct::Fail { text } => {
            put_bytes(out, b"fail ")?;
            put_bytes(out, text.as_slice())
        }
        ScriptAct::Pass => put_bytes(out, b"pass"),
    }
}

/// Appends that a condition is expected.
fn push_expected(
    alloc: Global,
    out: &mut Vec<u8>,
    within_ms: u32,
    condition: &Condition,
) -> Result<(), OutOfMemory>
    ensures { OnOk result (out.new.items ≡ out.old.items ++ expected_text within_ms condition.now) }
{
    let mut text = String::new(alloc);
    push_text(&mut text, "expect ")?;
    push_front(&mut text, within_ms)?;
    push_condition(&mut text, condition)?;
    put_bytes(out, text.as_bytes())
}

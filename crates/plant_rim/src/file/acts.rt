//! What the lines of a script do: a call, or what a script expects, fails or passes with.

ghost use Rattle.std.specs.Prelude.{◌≡◌};
ghost use Rattle.plant_rim.specs.File.Acts.{act_of, condition_or_fault, done_of, expect_of, expected_of, failing_of, has_control, is_control, passing_of};
ghost use Rattle.plant_rim.specs.File.Lines.{Reads};

use crate::file::calls::read_plant_call;
use crate::file::faults::{PlantLineFault, PlantReadFault};
use crate::file::texts::split_word;
use crate::file::values::within_of;
use cip_types::Items;
use script_checks::{Condition, read_condition};
use station::ScriptAct;
use std::alloc::Global;
use trace_words::TextFault;

/// The longest text of a line that fails, in bytes.
const LONGEST_TEXT: usize = 200;

/// What a text does: `expect [within MS] CONDITION`, `fail TEXT`, `pass`, or a call of a plant's script.
#[tactic(auto, unfolding(crate::specs::File::Acts::act_of))]
pub fn read_act(alloc: Global, text: &str) -> Result<ScriptAct, PlantReadFault>
    ensures { Reads (act_of text.now) result }
{
    let (word, rest) = split_word(text);
    match word {
        "expect" => read_expected(alloc, rest),
        "fail" => read_failing(alloc, rest),
        "pass" => read_passing(rest),
        _ => read_done(alloc, text),
    }
}

/// A call of the device, or of its plant.
fn read_done(alloc: Global, text: &str) -> Result<ScriptAct, PlantReadFault>
    ensures { Reads (done_of text.now) result }
{
    match read_plant_call(alloc, text.as_bytes()) {
        Ok(step) => Ok(ScriptAct::Do(step)),
        Err(TextFault::Bad) => Err(PlantReadFault::Line(PlantLineFault::NoCall)),
        Err(TextFault::OutOfMemory) => Err(PlantReadFault::OutOfMemory),
    }
}

/// What is expected: `[within MS] CONDITION`.
fn read_expected(alloc: Global, rest: &str) -> Result<ScriptAct, PlantReadFault>
    ensures { Reads (expected_of rest.now) result }
{
    let (word, behind) = split_word(rest);
    match word {
        "within" => {
            let (time, text) = split_word(behind);
            let within_ms = within_of(time)?;
            read_expect(alloc, within_ms, text)
        }
        _ => read_expect(alloc, 0, rest),
    }
}

/// A condition that is expected within so many milliseconds.
fn read_expect(alloc: Global, within_ms: u32, text: &str) -> Result<ScriptAct, PlantReadFault>
    ensures { Reads (expect_of within_ms (condition_or_fault text.now)) result }
{
    let condition = condition_of(alloc, text)?;
    Ok(ScriptAct::Expect {
        within_ms,
        condition,
    })
}

/// The condition of a text.
pub fn condition_of(alloc: Global, text: &str) -> Result<Condition, PlantReadFault>
    ensures { Reads (condition_or_fault text.now) result }
{
    match read_condition(alloc, text) {
        Ok(condition) => Ok(condition),
        Err(TextFault::Bad) => Err(PlantReadFault::Line(PlantLineFault::BadCondition)),
        Err(TextFault::OutOfMemory) => Err(PlantReadFault::OutOfMemory),
    }
}

/// Why a script fails: a text of 1 to 200 bytes without control characters.
fn read_failing(alloc: Global, text: &str) -> Result<ScriptAct, PlantReadFault>
    ensures { Reads (failing_of text.now) result }
{
    let bytes = text.as_bytes();
    if bytes.is_empty() || bytes.len() > LONGEST_TEXT || has_control(bytes) {
        return Err(PlantReadFault::Line(PlantLineFault::BadText));
    }
    let text = Items::copy_of(alloc, bytes)?;
    Ok(ScriptAct::Fail { text })
}

/// Whether a byte of a text is a control character of ASCII.
fn has_control(text: &[u8]) -> bool
    ensures { result ≡ has_control text.now }
{
    text.iter().any(|byte| is_control(*byte))
}

fn is_control(byte: u8) -> bool
    ensures { result ≡ is_control byte }
{
    byte < 32 || byte == 127
}

/// Nothing follows the word of a line that passes.
fn read_passing(rest: &str) -> Result<ScriptAct, PlantReadFault>
    ensures { Reads (passing_of rest.now) result }
{
    if rest.is_empty() {
        Ok(ScriptAct::Pass)
    } else {
        Err(PlantReadFault::Line(PlantLineFault::NoCall))
    }
}

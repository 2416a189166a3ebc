//! What came of the scripts of several devices, in the form of JUnit, which tools of continuous integration read: a suite for
//! each device, a case for each line that judges.

ghost use Rattle.std.specs.Prelude.{◌≡◌, ◌++◌, OnOk, decimal};
ghost use Rattle.script_checks.specs.Reports.{attribute_text, case_head, case_text, counted, duration_text, escaped, message_text, seconds_text, suite_head, value_text};

use crate::verdicts::LineVerdict;
use cip_types::OutOfMemory;
use cip_types::fields::put_bytes;
use itoa::Buffer;

/// What a report begins with.
pub const REPORT_HEAD: &[u8] = b"<?xml version=\"1.0\" encoding=\"UTF-8\"?>\n<testsuites>\n";

/// What a suite ends with.
pub const SUITE_END: &[u8] = b"  </testsuite>\n";

/// What a report ends with.
pub const REPORT_END: &[u8] = b"</testsuites>\n";

/// How many cases a suite has.
#[derive(Clone, Copy, Debug, PartialEq, Eq)]
pub struct ReportCounts {
    pub cases: u32,
    pub failures: u32,
    pub skipped: u32,
}

impl ReportCounts {
    /// No case.
    pub fn none() -> ReportCounts
        ensures { result ≡ record { cases = 0; failures = 0; skipped = 0 } }
    {
        ReportCounts {
            cases: 0,
            failures: 0,
            skipped: 0,
        }
    }

    /// With one case more.
    pub fn with(self, verdict: LineVerdict) -> ReportCounts
        ensures { result ≡ counted verdict self }
    {
        let cases = self.cases.saturating_add(1);
        match verdict {
            LineVerdict::Passed => ReportCounts { cases, ..self },
            LineVerdict::Skipped => ReportCounts {
                cases,
                skipped: self.skipped.saturating_add(1),
                ..self
            },
            _ => ReportCounts {
                cases,
                failures: self.failures.saturating_add(1),
                ..self
            },
        }
    }
}

/// A line of a script, as a case of its device's suite.
#[derive(Clone, Copy)]
pub struct CaseReport<'a> {
    /// The name of the device.
    pub suite: &'a str,
    /// What the line says, behind its number.
    pub name: &'a [u8],
    pub verdict: LineVerdict,
    /// How long it took at most until the line was met, in milliseconds.
    pub longest_ms: u64,
    /// Why it failed.
    pub message: &'a [u8],
}

/// Appends the beginning of a suite.
#[tactic(auto, unfolding(crate::specs::Reports::suite_head))]
pub fn push_suite_head(
    out: &mut Vec<u8>,
    suite: &str,
    counts: ReportCounts,
) -> Result<(), OutOfMemory>
    ensures { OnOk result (out.new.items ≡ out.old.items ++ suite_head suite.now counts) }
{
    put_bytes(out, b"  <testsuite name=\"")?;
    push_escaped(out, suite.as_bytes())?;
    put_bytes(out, b"\"")?;
    push_count(out, b" tests=\"", counts.cases)?;
    push_count(out, b" failures=\"", counts.failures)?;
    push_count(out, b" skipped=\"", counts.skipped)?;
    put_bytes(out, b">\n")?;
    Ok(())
}

/// Appends a case.
#[tactic(auto, unfolding(crate::specs::Reports::case_text))]
pub fn push_case(out: &mut Vec<u8>, case: CaseReport<'_>) -> Result<(), OutOfMemory>
    ensures { OnOk result (out.new.items ≡ out.old.items
        ++ case_text case.entry.suite.now case.entry.name.now case.entry.longest_ms case.entry.verdict
        case.entry.message.now) }
{
    push_case_head(out, case.suite, case.name, case.longest_ms)?;
    match case.verdict {
        LineVerdict::Passed => put_bytes(out, b"/>\n")?,
        LineVerdict::Skipped => put_bytes(out, b">\n      <skipped/>\n    </testcase>\n")?,
        _ => push_failure(out, case.message)?,
    }
    Ok(())
}

/// Appends the beginning of a case.
fn push_case_head(
    out: &mut Vec<u8>,
    suite: &str,
    name: &[u8],
    longest_ms: u64,
) -> Result<(), OutOfMemory>
    ensures { OnOk result (out.new.items ≡ out.old.items ++ case_head suite.now name.now longest_ms) }
{
    push_value(out, b"    <testcase classname=\"", suite.as_bytes())?;
    push_value(out, b" name=\"", name)?;
    push_duration(out, b" time=\"", longest_ms)?;
    Ok(())
}

/// Appends why a case failed, and its end.
fn push_failure(out: &mut Vec<u8>, message: &[u8]) -> Result<(), OutOfMemory>
    ensures { OnOk result (out.new.items ≡ out.old.items ++ message_text message.now) }
{
    push_value(out, b">\n      <failure message=\"", message)?;
    put_bytes(out, b"/>\n    </testcase>\n")?;
    Ok(())
}

/// Appends an attribute whose value is a text.
#[tactic(auto, unfolding(crate::specs::Reports::value_text))]
fn push_value(out: &mut Vec<u8>, attribute: &[u8], text: &[u8]) -> Result<(), OutOfMemory>
    ensures { OnOk result (out.new.items ≡ out.old.items ++ value_text attribute.now text.now) }
{
    put_bytes(out, attribute)?;
    push_escaped(out, text)?;
    put_bytes(out, b"\"")?;
    Ok(())
}

/// Appends an attribute whose value is a time, in seconds.
#[tactic(auto, unfolding(crate::specs::Reports::duration_text))]
fn push_duration(out: &mut Vec<u8>, attribute: &[u8], ms: u64) -> Result<(), OutOfMemory>
    ensures { OnOk result (out.new.items ≡ out.old.items ++ duration_text attribute.now ms) }
{
    put_bytes(out, attribute)?;
    push_seconds(out, ms)?;
    put_bytes(out, b"\"")?;
    Ok(())
}

/// Appends an attribute whose value is a number.
fn push_count(out: &mut Vec<u8>, attribute: &[u8], count: u32) -> Result<(), OutOfMemory>
    ensures { OnOk result (out.new.items ≡ out.old.items ++ attribute_text attribute.now count) }
{
    put_bytes(out, attribute)?;
    push_number(out, u64::from(count))?;
    put_bytes(out, b"\"")?;
    Ok(())
}

/// Appends seconds with three places behind the point.
fn push_seconds(out: &mut Vec<u8>, ms: u64) -> Result<(), OutOfMemory>
    ensures { OnOk result (out.new.items ≡ out.old.items ++ seconds_text ms) }
{
    push_number(out, ms / 1000)?;
    put_bytes(out, b".")?;
    push_number(out, ms / 100 % 10)?;
    push_number(out, ms / 10 % 10)?;
    push_number(out, ms % 10)?;
    Ok(())
}

/// Appends a number in decimal digits.
fn push_number(out: &mut Vec<u8>, number: u64) -> Result<(), OutOfMemory>
    ensures { OnOk result (out.new.items ≡ out.old.items ++ decimal number) }
{
    let mut digits = Buffer::new();
    put_bytes(out, digits.format(number).as_bytes())?;
    Ok(())
}

/// Appends a text as the value of an attribute: with the entities of XML where it has `&`, `<`, `>` or a quotation mark.
#[tactic(auto, unfolding(crate::specs::Reports::escaped))]
fn push_escaped(out: &mut Vec<u8>, text: &[u8]) -> Result<(), OutOfMemory>
    ensures { OnOk result (out.new.items ≡ out.old.items ++ escaped text.now) }
{
    for byte in text {
        match *byte {
            b'&' => put_bytes(out, b"&amp;")?,
            b'<' => put_bytes(out, b"&lt;")?,
            b'>' => put_bytes(out, b"&gt;")?,
            b'"' => put_bytes(out, b"&quot;")?,
            plain => put_bytes(out, &[plain])?,
        }
    }
    Ok(())
}

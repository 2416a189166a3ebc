//! What came of a script: its suite of a report, and lines for people.

ghost use Rattle.std.specs.Prelude.{◌≡◌, ◌++◌, OnOk, length};
ghost use Rattle.station.specs.Script.Report.{bad_at, bad_line, bad_lines, bad_of, between, case_at, case_of, cases_to, counted_text, counted_with, counts_of, message_of, said_of, suite_text, summary_text, verdict_at, verdict_of};

use crate::script::checks::{LineCheck, ScriptChecks};
use crate::script::lines::ScriptLine;
use crate::script::texts::push_line;
use cip_types::OutOfMemory;
use cip_types::fields::put_bytes;
use script_checks::{
    CaseReport, LineVerdict, ReportCounts, SUITE_END, line_verdict, push_case, push_suite_head,
};
use std::alloc::Global;

/// Why a line has not passed that did not fail.
const NOT_REACHED: &[u8] = b"was not reached";

/// A script of this device, and how its lines went.
#[derive(Clone, Copy)]
pub struct ScriptReport<'a> {
    pub name: &'a str,
    pub script: &'a [ScriptLine],
    pub checks: &'a ScriptChecks,
}

impl ScriptReport<'_> {
    /// How many of its lines judge, and what came of them.
    pub fn counts(&self) -> ReportCounts
        ensures { result ≡ counts_of self.now.script.now self.now.checks.now }
    {
        let mut counts = ReportCounts::none();
        for line in 0..self.script.len() {
            counts = counted_with(counts, self.verdict(line));
        }
        counts
    }

    /// What came of the line of this number, if it judges.
    fn verdict(&self, line: usize) -> Option<LineVerdict>
        ensures { result ≡ verdict_at self.now.script.now self.now.checks.now line }
    {
        match (self.script.get(line), self.checks.lines().get(line)) {
            (Some(said), Some(check)) => self.verdict_of(said, check),
            _ => None,
        }
    }

    /// What came of a line, if it judges.
    fn verdict_of(&self, said: &ScriptLine, check: &LineCheck) -> Option<LineVerdict>
        ensures { result ≡ verdict_of self.now.checks.now.decided said.now check.now }
    {
        line_verdict(said.goal(), check.course(), self.checks.is_decided())
    }

    /// Appends the suite: a case for each line that judges.
    pub fn push_suite(&self, alloc: Global, out: &mut Vec<u8>) -> Result<(), OutOfMemory>
        ensures { OnOk result (out.new.items ≡ out.old.items
            ++ suite_text self.now.name.now self.now.script.now self.now.checks.now) }
    {
        push_suite_head(out, self.name, self.counts())?;
        self.push_cases(alloc, out)?;
        put_bytes(out, SUITE_END)
    }

    /// Appends a case for each line that judges.
    fn push_cases(&self, alloc: Global, out: &mut Vec<u8>) -> Result<(), OutOfMemory>
        ensures { OnOk result (out.new.items ≡ out.old.items
            ++ cases_to self.now.name.now self.now.script.now self.now.checks.now (length self.now.script.now)) }
    {
        for line in 0..self.script.len() {
            self.push_case_at(alloc, out, line)?;
        }
        Ok(())
    }

    /// Appends the case of the line of this number, if it judges.
    fn push_case_at(&self, alloc: Global, out: &mut Vec<u8>, line: usize) -> Result<(), OutOfMemory>
        ensures { OnOk result (out.new.items ≡ out.old.items
            ++ case_at self.now.name.now self.now.script.now self.now.checks.now line) }
    {
        match (self.script.get(line), self.checks.lines().get(line)) {
            (Some(said), Some(check)) => self.push_case_of(alloc, out, line, said, check),
            _ => Ok(()),
        }
    }

    /// Appends the case of a line, if it judges.
    fn push_case_of(
        &self,
        alloc: Global,
        out: &mut Vec<u8>,
        line: usize,
        said: &ScriptLine,
        check: &LineCheck,
    ) -> Result<(), OutOfMemory>
        ensures { OnOk result (out.new.items ≡ out.old.items
            ++ case_of self.now.name.now self.now.checks.now.decided line said.now check.now) }
    {
        let Some(verdict) = self.verdict_of(said, check) else {
            return Ok(());
        };
        let mut name = Vec::new(alloc);
        push_line(alloc, &mut name, line, said)?;
        let case = CaseReport {
            suite: self.name,
            name: name.as_slice(),
            verdict,
            longest_ms: check.longest_ms,
            message: message_of(check),
        };
        push_case(out, case)
    }

    /// Appends a line of words for each line of the script with which it has not passed.
    pub fn push_bad_lines(&self, alloc: Global, out: &mut Vec<u8>) -> Result<(), OutOfMemory>
        ensures { OnOk result (out.new.items ≡ out.old.items
            ++ bad_lines self.now.name.now self.now.script.now self.now.checks.now) }
    {
        for line in 0..self.script.len() {
            self.push_bad_at(alloc, out, line)?;
        }
        Ok(())
    }

    /// Appends a line of words about the line of this number, if the script has not passed with it.
    fn push_bad_at(&self, alloc: Global, out: &mut Vec<u8>, line: usize) -> Result<(), OutOfMemory>
        ensures { OnOk result (out.new.items ≡ out.old.items
            ++ bad_at self.now.name.now self.now.script.now self.now.checks.now line) }
    {
        match (self.script.get(line), self.checks.lines().get(line)) {
            (Some(said), Some(check)) => self.push_bad_of(alloc, out, line, said, check),
            _ => Ok(()),
        }
    }

    /// Appends a line of words about a line, if the script has not passed with it.
    fn push_bad_of(
        &self,
        alloc: Global,
        out: &mut Vec<u8>,
        line: usize,
        said: &ScriptLine,
        check: &LineCheck,
    ) -> Result<(), OutOfMemory>
        ensures { OnOk result (out.new.items ≡ out.old.items
            ++ bad_of self.now.name.now self.now.checks.now.decided line said.now check.now) }
    {
        match self.verdict_of(said, check) {
            Some(verdict) if verdict.is_bad() => {
                self.push_bad_line(alloc, out, line, said, check)
            }
            _ => Ok(()),
        }
    }

    /// Appends a line of words about a line with which the script has not passed.
    fn push_bad_line(
        &self,
        alloc: Global,
        out: &mut Vec<u8>,
        line: usize,
        said: &ScriptLine,
        check: &LineCheck,
    ) -> Result<(), OutOfMemory>
        ensures { OnOk result (out.new.items ≡ out.old.items ++ bad_line self.now.name.now line said.now check.now) }
    {
        push_between(
            out,
            b"eip_station: ",
            self.name.as_bytes(),
            b": script line ",
        )?;
        push_line(alloc, out, line, said)?;
        push_between(out, b": ", message_of(check), b"\n")?;
        Ok(())
    }

    /// Appends how many lines have passed, if one judges.
    pub fn push_summary(&self, alloc: Global, out: &mut Vec<u8>) -> Result<(), OutOfMemory>
        ensures { OnOk result (out.new.items ≡ out.old.items
            ++ summary_text self.now.name.now (counts_of self.now.script.now self.now.checks.now)) }
    {
        let counts = self.counts();
        if counts.cases == 0 {
            return Ok(());
        }
        push_counted(alloc, out, self.name, said_of(counts.failures), counts)
    }
}

/// Appends how many lines have passed, behind this word of it.
#[tactic(auto, unfolding(crate::specs::Script::Report::counted_text))]
fn push_counted(
    alloc: Global,
    out: &mut Vec<u8>,
    name: &str,
    said: &str,
    counts: ReportCounts,
) -> Result<(), OutOfMemory>
    ensures { OnOk result (out.new.items ≡ out.old.items ++ counted_text name.now said.now counts) }
{
    let (cases, failures, skipped) = (counts.cases, counts.failures, counts.skipped);
    let text = format!(in alloc;
        "eip_station: {name}: its script {said}: {cases} lines judge, {failures} failed, {skipped} skipped\n"
    )?;
    put_bytes(out, text.as_bytes())
}

/// Appends a text between two others.
#[tactic(auto, unfolding(crate::specs::Script::Report::between))]
fn push_between(
    out: &mut Vec<u8>,
    before: &[u8],
    text: &[u8],
    behind: &[u8],
) -> Result<(), OutOfMemory>
    ensures { OnOk result (out.new.items ≡ out.old.items ++ between before.now text.now behind.now) }
{
    put_bytes(out, before)?;
    put_bytes(out, text)?;
    put_bytes(out, behind)
}

/// With one case more, if the line judges.
fn counted_with(counts: ReportCounts, verdict: Option<LineVerdict>) -> ReportCounts
    ensures { result ≡ counted_with verdict counts }
{
    match verdict {
        Some(verdict) => counts.with(verdict),
        None => counts,
    }
}

/// Whether a script has passed, with so many failures, in words.
fn said_of(failures: u32) -> &'static str
    ensures { result.now ≡ said_of failures }
{
    if failures == 0 {
        "has passed"
    } else {
        "has not passed"
    }
}

/// Why a line has not passed.
fn message_of(check: &LineCheck) -> &[u8]
    ensures { result.now ≡ message_of check.now }
{
    match &check.failure {
        Some(why) => why.as_slice(),
        None => NOT_REACHED,
    }
}

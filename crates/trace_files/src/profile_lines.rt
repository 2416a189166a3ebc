//! The lines of a trace before its first event.

ghost use Rattle.std.specs.Prelude.{◌≡◌, ◌++◌, ◌||◌, [], OnOk, IfErr};
ghost use Rattle.trace_text.specs.Reading.{trace_reading};
ghost use Rattle.trace_files.specs.Profile.{config_of, kept_line, may_end, one_more, AnswersConfig, IsBadSoFar};

use cip_tables::Config;
use cip_types::OutOfMemory;
use std::alloc::Global;
use std::mem;
use trace_text::{Trace, TraceFault, is_skipped, read_trace};

/// The lines are read once they have so many bytes, so that a file that is no trace is soon found to be none.
const FIRST_CHECK: usize = 65_536;

/// The lines so far, those that are skipped as empty ones. They are read whole: at the first event, or at the end; and
/// each time that they have twice as many bytes as before, so that they are not all gathered if one of them is bad.
#[derive(Drop)]
pub struct ProfileLines {
    text: Vec<u8>,
    lines: u64,
    next_check: usize,
    whole: bool,
}

impl ProfileLines {
    /// No lines. Takes no memory.
    pub fn new(alloc: Global) -> ProfileLines
        ensures text { result.text.items ≡ [] }
        ensures lines { result.lines ≡ 0 }
    {
        ProfileLines {
            text: Vec::new(alloc),
            lines: 0,
            next_check: FIRST_CHECK,
            whole: false,
        }
    }

    /// Adds a line, or the place of one that is skipped.
    ///
    /// The faults: `BadLine` if one of the lines so far was found to be bad, and `OutOfMemory`.
    pub fn add(&mut self, alloc: Global, line: &[u8]) -> Result<(), TraceFault>
        ensures text { OnOk result (self.new.text.items ≡ self.old.text.items ++ kept_line line.now) }
        ensures lines { OnOk result (self.new.lines ≡ one_more self.old.lines) }
        ensures whole { OnOk result (self.new.whole ≡ (self.old.whole || may_end line.now)) }
        ensures fault { IfErr result
            (IsBadSoFar (self.old.text.items ++ kept_line line.now) (one_more self.old.lines)) }
    {
        add_line(&mut self.text, line)?;
        self.lines = self.lines.saturating_add(1);
        self.whole = self.whole || may_end(line);
        if self.text.len() >= self.next_check {
            self.next_check = self.text.len().saturating_mul(2);
            check_lines(alloc, self.text.as_slice(), self.lines)?;
        }
        Ok(())
    }

    /// Whether the profile may have ended: its points without data, or a slot, have come. Takes no memory.
    pub fn is_whole(&self) -> bool
        ensures { result ≡ self.now.whole }
    {
        self.whole
    }

    /// The configuration of the lines, with bytes behind them that no LF ends. The lines are gone.
    ///
    /// The faults are those of the lines as a trace.
    pub fn config(&mut self, alloc: Global, rest: &[u8]) -> Result<Config, TraceFault>
        ensures { AnswersConfig (config_of (trace_reading (self.old.text.items ++ rest.now))) result }
    {
        let mut text = mem::replace(&mut self.text, Vec::new(alloc));
        append(&mut text, rest)?;
        config_in(alloc, text.as_slice())
    }
}

/// The configuration of a trace's text.
fn config_in(alloc: Global, text: &[u8]) -> Result<Config, TraceFault>
    ensures { AnswersConfig (config_of (trace_reading text.now)) result }
{
    match read_trace(alloc, text) {
        Ok(Trace { config, events: _ }) => Ok(config),
        Err(fault) => Err(fault),
    }
}

/// Fails with the number of the first bad line of so many lines, if there is one.
fn check_lines(alloc: Global, text: &[u8], lines: u64) -> Result<(), TraceFault>
    ensures { IfErr result (IsBadSoFar text.now lines) }
{
    match read_trace(alloc, text) {
        Err(TraceFault::BadLine(number)) => {
            if number <= lines {
                Err(TraceFault::BadLine(number))
            } else {
                Ok(())
            }
        }
        Err(TraceFault::OutOfMemory) => Err(TraceFault::OutOfMemory),
        _ => Ok(()),
    }
}

/// Whether the line ends an adapter's profile, or is that of a slot, behind which a scanner's profile may end.
fn may_end(line: &[u8]) -> bool
    ensures { result ≡ may_end line.now }
{
    line.starts_with(b"heartbeat ") || line.starts_with(b"slot ")
}

/// Appends a line and its LF; of a line that is skipped, the LF alone.
fn add_line(text: &mut Vec<u8>, line: &[u8]) -> Result<(), OutOfMemory>
    ensures { OnOk result (text.new.items ≡ text.old.items ++ kept_line line.now) }
{
    if is_skipped(line) {
        append(text, b"\n")
    } else {
        append(text, line)?;
        append(text, b"\n")
    }
}

fn append(text: &mut Vec<u8>, more: &[u8]) -> Result<(), OutOfMemory>
    ensures { OnOk result (text.new.items ≡ text.old.items ++ more.now) }
{
    text.extend_from_slice(more)?;
    Ok(())
}

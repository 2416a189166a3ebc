//! A run in a file: the lines of a profile, what kind of station it is, and its turns. The lines that are not the profile's:
//!
//! - `ends MS`: the station ends when so much time has passed; `quiet`: it says nothing of streams;
//! - `room N`: it is recorded, and the record has room for N texts, its head with the profile counted;
//! - `script LINE`: a line of the device's script;
//! - `pass MS`: so much time passes at the next turn;
//! - `line TEXT`, `tail TEXT`: the input has this line before the next turn, or this text without an LF;
//! - `turn`, `turn EVENT`: a turn at which nothing arrives, or what an event's line of a trace says;
//! - `fails N`: N turns at which nothing can be received; `refuses`: a turn, behind which the next output cannot be sent;
//! - `end`: the input has no more; the turns behind it are those of the station's end.

use crate::arrivals::{arrival_of, push};
use crate::stations::fault::StationRunFault;
use cip_events::Arrival;
use cip_tables::Config;
use cip_types::{Items, OutOfMemory};
use plant_rim::read_script_file;
use station::ScriptLine;
use std::alloc::Global;
use std::collections::VecDeque;
use std::mem;
use trace_text::{read_event_line, read_trace};
use trace_words::Words;

/// What arrives at a turn.
#[derive(Drop)]
pub enum TurnArrival {
    /// Nothing.
    Nothing,
    /// An arrival.
    Arrival(Arrival),
    /// So many receives fail, one after another.
    Failures(u64),
    /// Nothing, and the next output cannot be sent.
    Refusal,
}

/// A run.
#[derive(Drop)]
pub struct StationRun {
    pub config: Config,
    pub quiet: bool,
    pub ends_ms: Option<u64>,
    pub room: Option<u64>,
    pub script: Items<ScriptLine>,
    /// What the input has more before each turn, until it ends.
    pub inputs: VecDeque<Vec<u8>>,
    pub times_ms: VecDeque<u64>,
    pub arrivals: VecDeque<TurnArrival>,
}

/// A run whose lines are not all read yet.
#[derive(Drop)]
struct RunReader {
    alloc: Global,
    profile: String,
    quiet: bool,
    ends_ms: Option<u64>,
    room: Option<u64>,
    script: String,
    inputs: VecDeque<Vec<u8>>,
    times_ms: VecDeque<u64>,
    arrivals: VecDeque<TurnArrival>,
    /// What the next turn has.
    input: Vec<u8>,
    ms: u64,
    has_ended: bool,
}

/// Adds a line to a text.
fn add_line(text: &mut String, line: &str) -> Result<(), OutOfMemory> {
    text.push_str(line)?;
    text.push('\n')?;
    Ok(())
}

/// The text behind the first word of a line.
fn rest_of(line: &str) -> &str {
    match line.split_once(' ') {
        Some((_word, rest)) => rest,
        None => "",
    }
}

impl RunReader {
    fn new(alloc: Global) -> RunReader {
        RunReader {
            alloc,
            profile: String::new(alloc),
            quiet: false,
            ends_ms: None,
            room: None,
            script: String::new(alloc),
            inputs: VecDeque::new(alloc),
            times_ms: VecDeque::new(alloc),
            arrivals: VecDeque::new(alloc),
            input: Vec::new(alloc),
            ms: 0,
            has_ended: false,
        }
    }

    /// Adds a turn, with what its lines said.
    fn add_turn(&mut self, arrival: TurnArrival) -> Result<(), OutOfMemory> {
        push(&mut self.arrivals, arrival)?;
        self.add_time()
    }

    /// Adds the time of a turn, and what the input has before it.
    fn add_time(&mut self) -> Result<(), OutOfMemory> {
        push(&mut self.times_ms, self.ms)?;
        self.ms = 0;
        let input = mem::replace(&mut self.input, Vec::new(self.alloc));
        if self.has_ended {
            return Ok(());
        }
        push(&mut self.inputs, input)
    }

    /// Adds so many turns at which nothing can be received.
    fn add_failures(&mut self, count: u64) -> Result<(), OutOfMemory> {
        push(&mut self.arrivals, TurnArrival::Failures(count))?;
        for _ in 0..count {
            self.add_time()?;
        }
        Ok(())
    }

    /// Adds a turn at which the event of a line arrives.
    fn add_arrival(&mut self, line: &str) -> Result<(), StationRunFault> {
        let event = read_event_line(self.alloc, line.as_bytes())?;
        let Some(arrival) = arrival_of(event) else {
            return Err(StationRunFault::Line);
        };
        self.add_turn(TurnArrival::Arrival(arrival))?;
        Ok(())
    }

    /// Adds a text to what the input has before the next turn.
    fn add_input(&mut self, text: &str, end: &str) -> Result<(), OutOfMemory> {
        self.input.extend_from_slice(text.as_bytes())?;
        self.input.extend_from_slice(end.as_bytes())?;
        Ok(())
    }

    /// Adds a line.
    fn add(&mut self, line: &str) -> Result<(), StationRunFault> {
        let mut words = Words::of(line);
        match words.word()? {
            "quiet" => self.quiet = true,
            "ends" => self.ends_ms = Some(u64::from(words.u32()?)),
            "room" => self.room = Some(u64::from(words.u32()?)),
            "pass" => self.ms = u64::from(words.u32()?),
            "end" => self.has_ended = true,
            _ => return self.add_step(line, words),
        }
        Ok(())
    }

    /// Adds a line of the input, of the script or of a turn, or one of the profile.
    fn add_step(&mut self, line: &str, words: Words<'_>) -> Result<(), StationRunFault> {
        let mut words = words;
        match line.split(' ').next() {
            Some("line") => self.add_input(rest_of(line), "\n")?,
            Some("tail") => self.add_input(rest_of(line), "")?,
            Some("script") => add_line(&mut self.script, rest_of(line))?,
            Some("turn") if line.len() == 4 => self.add_turn(TurnArrival::Nothing)?,
            Some("turn") => self.add_arrival(rest_of(line))?,
            Some("refuses") => self.add_turn(TurnArrival::Refusal)?,
            Some("fails") => self.add_failures(u64::from(words.u32()?))?,
            _ => add_line(&mut self.profile, line)?,
        }
        Ok(())
    }

    /// The run of all lines.
    fn finish(self) -> Result<StationRun, StationRunFault> {
        let RunReader {
            alloc,
            profile,
            quiet,
            ends_ms,
            room,
            script,
            inputs,
            times_ms,
            arrivals,
            ..
        } = self;
        let config = read_trace(alloc, profile.as_bytes())?.config;
        Ok(StationRun {
            config,
            quiet,
            ends_ms,
            room,
            script: read_script_file(alloc, script.as_bytes())?,
            inputs,
            times_ms,
            arrivals,
        })
    }
}

/// The run in a text.
pub fn read_run(alloc: Global, text: &[u8]) -> Result<StationRun, StationRunFault> {
    let Ok(text) = str::from_utf8(text) else {
        return Err(StationRunFault::Line);
    };
    let mut reader = RunReader::new(alloc);
    for line in text.lines() {
        if !line.starts_with('#') {
            reader.add(line)?;
        }
    }
    reader.finish()
}

//! Turns of a trace: a tick and the event after it make one.

use crate::arrivals::{arrival_of, push};
use crate::driven::DriveFailure;
use cip_events::Arrival;
use cip_tables::{Config, Event};
use cip_types::OutOfMemory;
use std::alloc::Global;
use std::collections::VecDeque;
use trace_text::read_trace;

/// The configuration of a device, and the times and arrivals of its turns.
#[derive(Drop)]
pub struct Script {
    pub config: Config,
    pub times_ms: VecDeque<u64>,
    pub arrivals: VecDeque<Option<Arrival>>,
    pub turns: u32,
}

impl Script {
    fn push(&mut self, ms: u32, arrival: Option<Arrival>) -> Result<(), OutOfMemory> {
        push(&mut self.times_ms, u64::from(ms))?;
        push(&mut self.arrivals, arrival)?;
        self.turns = self.turns.saturating_add(1);
        Ok(())
    }
}

/// The turns of a trace.
pub fn read_script(alloc: Global, text: &[u8]) -> Result<Script, DriveFailure> {
    let trace = read_trace(alloc, text)?;
    let mut script = Script {
        config: trace.config,
        times_ms: VecDeque::new(alloc),
        arrivals: VecDeque::new(alloc),
        turns: 0,
    };
    let mut passed = None;
    for (event, _) in trace.events.into_vec() {
        if let Event::Tick { ms } = event {
            if let Some(before) = passed {
                script.push(before, None)?;
            }
            passed = Some(ms);
        } else {
            let Some(arrival) = arrival_of(event) else {
                return Err(DriveFailure::Event);
            };
            script.push(passed.unwrap_or(0), Some(arrival))?;
            passed = None;
        }
    }
    if let Some(last) = passed {
        script.push(last, None)?;
    }
    Ok(script)
}

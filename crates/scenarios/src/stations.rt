//! Stations over a port in memory, step by step. Each run is a file: a profile, and what arrives at each turn.
//!
//! The first word of a printed line says what happens:
//!
//! - `turn`: the station waits at its port, at most so long; `passes`: so much time passes; `takes`: what arrives;
//!   `fails`: so many receives fail in a row;
//! - `input`: a line of the application, or the end of them;
//! - `out`, `err`: a line that the station prints, and one that it reports; `record`: a line of its record;
//! - `sends`, `refuses`: an output of the port, and one that it cannot send; `told`: what the port is told of peers;
//! - `ended`: how the station ended, and why its record did;
//! - `report`: a line of the suite of a script.

mod clock;
mod fault;
mod input;
mod play;
mod port;
mod sinks;
mod station_run;

use fault::StationRunFault;
use plain_engine::PlainDevice;
use std::fs::Files;

/// Plays the run of this file.
pub fn run<R>(rt: R, name: &str) -> Result<(), StationRunFault>
where
    R: AllocGlobal + Files + Print + Copy + Drop,
{
    play::play_file::<PlainDevice, R>(rt, name)
}

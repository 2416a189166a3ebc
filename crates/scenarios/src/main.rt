//! Plays traces over the devices of the line, each named for the behaviour that it shows, and prints a line
//! for each: whether all outcomes are as recorded. A trace is played over both engines of its device, which have to give
//! the same outcome of every event, recorded or not.
//!
//! The traces behind the word `driven` are driven over memory instead, with a failure at each call of the port. The files
//! behind the word `stations` are runs of stations, which are played step by step.
#![tactic(auto)]

mod arrivals;
mod driven;
mod script;
mod stations;

use fast_device::FastDevice;
use plain_engine::PlainDevice;
use std::alloc::Global;
use std::env;
use std::fs::{self, Files};
use std::process::ExitCode;
use thiserror::Error;
use trace_stepper::{Differs, Report, StepperFault, compare, replay};
use trace_text::{Trace, TraceFault, read_trace};

/// Why a scenario does not hold.
#[derive(Clone, Copy, Debug, Error)]
enum ScenarioFailure {
    #[error("fault Read")]
    Read,
    #[error("{0}")]
    Trace(TraceFault),
    #[error("{0}")]
    Stepper(StepperFault),
    #[error("{0} {1}")]
    Differs(&'static str, Differs),
    #[error("the engines differ")]
    Engines,
}

/// The task for the named files.
#[derive(Clone, Copy, PartialEq, Eq)]
enum ScenarioTask {
    /// They are played over each engine.
    Play,
    /// They are driven over memory.
    Drive,
    /// They are runs of stations.
    Stations,
}

/// Does the tasks for the files that the command line names.
fn main(rt: HostRuntime) -> ExitCode {
    let Ok(words) = env::args(&rt) else {
        return ExitCode::from(2);
    };
    let Ok(words) = words.collect::<Vec<String>>(rt.alloc()) else {
        return ExitCode::from(2);
    };
    let mut task = ScenarioTask::Play;
    let mut status = 0;
    for word in words.iter().skip(1) {
        if word.as_str() == "driven" {
            task = ScenarioTask::Drive;
        } else if word.as_str() == "stations" {
            task = ScenarioTask::Stations;
        } else if !is_well(&rt, task, word.as_str()) {
            status = 1;
        }
    }
    ExitCode::from(status)
}

/// Whether the trace of this file has the recorded outcomes, or the run was played, and all of the report was printed.
fn is_well<R>(rt: &R, task: ScenarioTask, name: &str) -> bool
where
    R: AllocGlobal + Files + Print + Copy + Drop,
{
    match task {
        ScenarioTask::Play => is_played(rt, name),
        ScenarioTask::Drive => is_driven(rt, name),
        ScenarioTask::Stations => is_run(*rt, name),
    }
}

fn is_run<R: AllocGlobal + Files + Print + Copy + Drop>(rt: R, name: &str) -> bool {
    match stations::run(rt, name) {
        Ok(()) => true,
        Err(fault) => {
            let _ = println!(&rt; "{name}: {fault}");
            false
        }
    }
}

fn is_driven<R: AllocGlobal + Files + Print>(rt: &R, name: &str) -> bool {
    match driven::run(rt, name) {
        Ok(()) => true,
        Err(failure) => {
            let _ = println!(rt; "{name}: {failure}");
            false
        }
    }
}

fn is_played<R: AllocGlobal + Files + Print>(rt: &R, name: &str) -> bool {
    match played(rt, name) {
        Ok(()) => println!(rt; "{name} holds over plain and fast").is_ok(),
        Err(failure) => {
            let _ = println!(rt; "{name}: {failure}");
            false
        }
    }
}

/// Whether the trace of this file holds over each engine.
fn played<R: AllocGlobal + Files>(rt: &R, name: &str) -> Result<(), ScenarioFailure> {
    let Ok(text) = fs::read(rt, name) else {
        return Err(ScenarioFailure::Read);
    };
    let trace = match read_trace(rt.alloc(), text.as_slice()) {
        Ok(trace) => trace,
        Err(fault) => return Err(ScenarioFailure::Trace(fault)),
    };
    replayed(rt.alloc(), &trace)
}

/// Plays a trace over a plain and a fast engine, which have to give the same outcomes.
fn replayed(alloc: Global, trace: &Trace) -> Result<(), ScenarioFailure> {
    let plain = replay::<PlainDevice>(alloc, trace);
    let fast = replay::<FastDevice>(alloc, trace);
    if !are_alike(&plain, &fast) {
        return Err(ScenarioFailure::Engines);
    }
    compared(trace, plain, "plain")?;
    compared(trace, fast, "fast")
}

/// Whether two engines gave the same outcomes.
fn are_alike(plain: &Result<Report, StepperFault>, fast: &Result<Report, StepperFault>) -> bool {
    match (plain, fast) {
        (Ok(plain), Ok(fast)) => plain.outcomes == fast.outcomes,
        (Err(plain), Err(fast)) => plain == fast,
        _ => false,
    }
}

/// Whether the outcomes of a trace's events at an engine are as recorded.
fn compared(
    trace: &Trace,
    report: Result<Report, StepperFault>,
    engine: &'static str,
) -> Result<(), ScenarioFailure> {
    match report {
        Ok(report) => match compare(trace, report.outcomes.as_slice()) {
            Ok(()) => Ok(()),
            Err(differs) => Err(ScenarioFailure::Differs(engine, differs)),
        },
        Err(fault) => Err(ScenarioFailure::Stepper(fault)),
    }
}

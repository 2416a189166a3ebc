//! A run, from its file to its end.

use crate::stations::clock::PrintingClock;
use crate::stations::fault::StationRunFault;
use crate::stations::input::PrintingInput;
use crate::stations::port::PrintingPort;
use crate::stations::sinks::{PrintingLines, PrintingRecord, print_lines};
use crate::stations::station_run::{StationRun, read_run};
use cip_tables::{Config, Device};
use station::{
    DeviceSteps, EarlyEnd, InputSteps, LifeEnd, Reporting, ScriptLine, ScriptReport, ScriptState,
    Station, StationObserver,
};
use station_lines::CallBuffer;
use station_record::{RecordFault, Recorder};
use std::alloc::Global;
use std::collections::VecDeque;
use std::fs::{self, Files};

/// Plays the run of a file.
pub fn play_file<D: Device + Drop, R>(rt: R, name: &str) -> Result<(), StationRunFault>
where
    R: AllocGlobal + Files + Print + Copy + Drop,
{
    let text = fs::read(&rt, name)?;
    let run = read_run(rt.alloc(), text.as_slice())?;
    println!(&rt; "# {name}")?;
    play::<D, R>(rt, rt.alloc(), run)
}

/// The slots of a scanner; none of an adapter.
fn slots_of(config: &Config) -> u32 {
    match config {
        Config::Adapter(_) => 0,
        Config::Scanner(profile) => u32::try_from(profile.slots.as_slice().len()).unwrap_or(0),
    }
}

/// The recorder of a run, if it is recorded.
fn recorder_of<R: Print + Drop>(
    rt: R,
    alloc: Global,
    config: &Config,
    room: Option<u64>,
) -> Result<Recorder<PrintingRecord<R>>, StationRunFault> {
    match room {
        Some(room) => Ok(Recorder::begin(
            alloc,
            config,
            "# a record\n",
            u64::MAX,
            PrintingRecord { rt, room },
        )?),
        None => Ok(Recorder::idle(alloc)),
    }
}

/// A station over a port in memory, whose lines and record are printed.
type PrintingStation<D, R> = Station<
    PrintingPort<R>,
    PrintingClock<R>,
    D,
    PrintingRecord<R>,
    PrintingLines<R>,
    PrintingLines<R>,
>;

/// Plays a run.
fn play<D: Device + Drop, R: Print + Copy + Drop>(
    rt: R,
    alloc: Global,
    run: StationRun,
) -> Result<(), StationRunFault> {
    let StationRun {
        config,
        quiet,
        ends_ms,
        room,
        script,
        inputs,
        times_ms,
        arrivals,
    } = run;
    let observer = observer_of(rt, alloc, &config, room)?;
    let port = PrintingPort::new(rt, alloc, arrivals);
    let clock = PrintingClock { rt, times_ms };
    let device = D::new(alloc, config.copy(alloc)?)?;
    let reporting = Reporting {
        quiet,
        silent_s: 120,
    };
    let station = Station::new(alloc, &config, port, clock, device, observer, reporting)?;
    let lines = input_of(rt, alloc, inputs);
    live(
        rt,
        alloc,
        station,
        slots_of(&config),
        lines,
        script.as_slice(),
        ends_ms,
    )
}

/// The observer of a run, whose lines are printed.
fn observer_of<R: Print + Copy + Drop>(
    rt: R,
    alloc: Global,
    config: &Config,
    room: Option<u64>,
) -> Result<
    StationObserver<PrintingRecord<R>, PrintingLines<R>, PrintingLines<R>>,
    StationRunFault,
> {
    let recorder = recorder_of(rt, alloc, config, room)?;
    let (out, err) = (
        PrintingLines { rt, word: "out" },
        PrintingLines { rt, word: "err" },
    );
    Ok(StationObserver::new(alloc, config, recorder, out, err)?)
}

/// The life of a run's station. Prints how it ended, and what came of its script.
fn live<D: Device + Drop, R: Print + Copy + Drop>(
    rt: R,
    alloc: Global,
    station: PrintingStation<D, R>,
    slots: u32,
    lines: PrintingInput<R>,
    script: &[ScriptLine],
    ends_ms: Option<u64>,
) -> Result<(), StationRunFault> {
    let mut station = station;
    let state = ScriptState::of(alloc, script)?;
    let typed = InputSteps::new(alloc, lines);
    let mut steps = DeviceSteps::scripted(alloc, script, state, typed, 0, ends_ms);
    let ended = station.live(&mut steps, slots);
    print_end(&rt, ended, station.record_fault())?;
    print_verdicts(&rt, alloc, script, steps.state())
}

/// The input of a run.
fn input_of<R>(rt: R, alloc: Global, inputs: VecDeque<Vec<u8>>) -> PrintingInput<R> {
    PrintingInput {
        rt,
        alloc,
        inputs,
        buffer: CallBuffer::new(alloc),
    }
}

/// Prints what came of the lines of a script: what a station reports, and the suite of its report.
fn print_verdicts<R: Print>(
    rt: &R,
    alloc: Global,
    script: &[ScriptLine],
    state: &ScriptState,
) -> Result<(), StationRunFault> {
    if script.is_empty() {
        return Ok(());
    }
    let report = ScriptReport {
        name: "station",
        script,
        checks: state.checks(),
    };
    let (mut text, mut suite) = (Vec::new(alloc), Vec::new(alloc));
    report.push_bad_lines(alloc, &mut text)?;
    report.push_summary(alloc, &mut text)?;
    report.push_suite(alloc, &mut suite)?;
    print_lines(rt, "err", text.as_slice());
    print_lines(rt, "report", suite.as_slice());
    Ok(())
}

/// Prints how a station ended, and why its record did.
fn print_end<R: Print>(
    rt: &R,
    ended: Result<LifeEnd, EarlyEnd>,
    record: Option<RecordFault>,
) -> Result<(), StationRunFault> {
    match ended {
        Ok(_) => println!(rt; "ended in order")?,
        Err(end) => println!(rt; "ended early: {end}")?,
    }
    if let Some(fault) = record {
        println!(rt; "ended before: {fault}")?;
    }
    Ok(())
}

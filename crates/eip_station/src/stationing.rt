//! A station from its words to its end.

use crate::failure::{Failure, NO_MEMORY};
use crate::paging::{HostNet, PageSubject, begin_page, page_host};
use crate::profiles::profile_of;
use crate::program::{Surroundings, line_of};
use crate::rules::{has_next_life, left_ms, life_end, reads_lines, run_end};
use crate::scripting::{judge, script_in};
use crate::texts::{kind_word, record_name, start_text, state_name};
use cip_tables::Config;
use cip_types::OutOfMemory;
use command_lines::{Options, StationTask, file_of, word_from_end};
use page_feed::PageFeed;
use station::{
    CountedSteps, DeviceSteps, EarlyEnd, InputSteps, LifeEnd, ScriptLine, ScriptState,
    SuppliedSteps,
};
use station_lines::{CallLines, LineSink, NoLines};
use station_port::{StationPlace, StationPort};
use station_record::{Recorder, Start, StateFault, forget_record, name_of, stem_of};
use station_rim::{
    CIRCLE_ENDS, Entries, LabelledLines, LineEntrance, Rim, SharedDevices, drain_lines,
    drain_record, report_line,
};
use station_setup::{
    HostCounters, MOST_LIVES, OpenStation, OpenedPort, StationOutputs, begin_report, described,
    host_of, incarnation_of, is_scanner, names_in, open_life_port, passed_ms, recorder_in,
    rest_before_life, socket_place, start_in, station_of, with_block, with_incarnation,
    with_serials,
};
use std::fs::File;
use std::random::RandomSource;
use std::rt::{Clock, Files};
use std::sync::Wait;
use std::time::Instant;
use trace_words::{Names, ReadNames};

/// Why a start has to be counted, and what to do where it cannot be.
const UNCOUNTED: &str =
    ", and a start that is not counted may give the connection ids of an earlier one again: an old \
datagram could then drive an output. --state FILE names another file; --incarnation N needs none, if no earlier start had N";

/// Where the lines of an output of a station go.
type StationLines<R> = LabelledLines<LineEntrance<R>>;

/// The words of a station, its options, and what it shares with its threads; and which life of it this is.
#[derive(Clone, Copy)]
pub struct Stationed<'a, R> {
    pub rt: R,
    pub words: &'a [String],
    pub options: &'a Options,
    pub rim: &'a Rim,
    pub shared: &'a Surroundings,
    /// The lines of its script; none, if it has none.
    pub script: &'a [ScriptLine],
    pub life: u32,
    /// When the life begins, in milliseconds since the station began.
    pub begun_ms: u64,
}

/// Runs a station to its end, and reports its failure.
pub fn run_task<R>(
    rt: R,
    words: &[String],
    task: StationTask,
    shared: &Surroundings,
) -> Result<(), Failure>
where
    R: AllocGlobal + Files<File = File> + Clock + HostNet + RandomSource + Wait + Copy + Drop,
{
    let done = run_scripted(rt, words, task, shared);
    report_end(rt, words, shared, done)
}

/// Runs a station to its end, and judges its script. A failure of the station comes first.
fn run_scripted<R>(
    rt: R,
    words: &[String],
    task: StationTask,
    shared: &Surroundings,
) -> Result<(), Failure>
where
    R: AllocGlobal + Files<File = File> + Clock + HostNet + RandomSource + Wait + Copy + Drop,
{
    let script = script_in(rt, &shared.rim, words, task.options.script_from_end)?;
    let report = match task.options.report_from_end {
        Some(left) => Some(word_from_end(words, left)),
        None => None,
    };
    begin_report(&rt, report)?;
    let setting = Stationed {
        rt,
        words,
        options: &task.options,
        rim: &shared.rim,
        shared,
        script: script.as_slice(),
        life: 1,
        begun_ms: 0,
    };
    let mut state = ScriptState::of(rt.alloc(), setting.script)?;
    let ran = live_all(&setting, task.scanner, &mut state);
    let judged = judge(&setting, station_name(&setting), state.checks(), report);
    match with_record(&setting, ran) {
        Ok(()) => judged,
        failed => failed,
    }
}

/// Reports a failure, and waits a bounded time for the outputs.
pub fn report_end<R>(
    rt: R,
    words: &[String],
    shared: &Surroundings,
    done: Result<(), Failure>,
) -> Result<(), Failure>
where
    R: AllocGlobal + Clock + Wait + Copy + Drop,
{
    if let Err(failure) = done {
        match line_of(rt.alloc(), words, failure) {
            Ok(line) => report_line(rt, &shared.rim, line.as_bytes()),
            Err(_) => report_line(rt, &shared.rim, NO_MEMORY),
        }
    }
    drain_lines(&rt, &shared.rim);
    done
}

/// The outcome of a station with that of its record: if the record was not written whole, this is told here.
fn with_record<R>(setting: &Stationed<'_, R>, ran: Result<(), Failure>) -> Result<(), Failure>
where
    R: Clock + Wait + Copy + Drop,
{
    if setting.options.record_from_end.is_none() {
        return ran;
    }
    let done = run_end(ran, drain_record(&setting.rt, setting.rim));
    if done != ran {
        report_line(
            setting.rt,
            setting.rim,
            b"eip_station: the record cannot take more and has ended\n",
        );
    }
    done
}

/// Runs the station: a life, and behind a reset that a peer has requested the next one.
fn live_all<R>(
    setting: &Stationed<'_, R>,
    scanner: bool,
    state: &mut ScriptState,
) -> Result<(), Failure>
where
    R: AllocGlobal + Files<File = File> + Clock + HostNet + RandomSource + Wait + Copy + Drop,
{
    let Ok(origin) = Instant::now(&setting.rt) else {
        return Err(Failure::from(EarlyEnd::Clock));
    };
    forget_lives(setting)?;
    for life in 1..MOST_LIVES {
        let setting = Stationed {
            life,
            begun_ms: passed_ms(&setting.rt, origin),
            ..*setting
        };
        if !has_next_life(begin(&setting, scanner, state)?) {
            return Ok(());
        }
        // (what is left of its record is not that of the next life)
        if setting.options.record_from_end.is_some() && !drain_record(&setting.rt, setting.rim) {
            return Ok(());
        }
        let left_ms = left_ms(setting.options.seconds, passed_ms(&setting.rt, origin));
        rest_before_life(&setting.rt, origin, setting.begun_ms, left_ms);
    }
    Ok(())
}

/// Removes the records of an earlier run's lives behind the first one, so that none of them is taken for one of this run.
fn forget_lives<R>(setting: &Stationed<'_, R>) -> Result<(), OutOfMemory>
where
    R: AllocGlobal + Files<File = File> + Copy + Drop,
{
    for life in 2..MOST_LIVES {
        let later = Stationed { life, ..*setting };
        let Some(path) = record_path(&later)? else {
            return Ok(());
        };
        if !matches!(
            forget_record(&setting.rt, setting.rt.alloc(), path.as_str()),
            Ok(true)
        ) {
            return Ok(());
        }
    }
    Ok(())
}

/// Reads the profile, begins the state, and lives once.
fn begin<R>(
    setting: &Stationed<'_, R>,
    scanner: bool,
    script: &mut ScriptState,
) -> Result<LifeEnd, Failure>
where
    R: AllocGlobal + Files<File = File> + Clock + HostNet + RandomSource + Wait + Copy + Drop,
{
    let path = file_of(setting.words);
    let config = profile_of(setting.rt, setting.rim, path, setting.options, scanner)?;
    let start = start_of(setting, incarnation_of(&config))?;
    let state = start.state();
    let config = with_incarnation(config, state.incarnation);
    let config = with_serials(config, state.serial, state.serials);
    let config = with_block(config, start.block());
    let ran = open(setting, config, &start, script);
    if ran.is_err() {
        start.discard(&setting.rt);
    }
    ran
}

/// The state of this start.
fn start_of<R>(setting: &Stationed<'_, R>, own: u8) -> Result<Start, Failure>
where
    R: AllocGlobal + Files<File = File> + RandomSource + Wait + Copy + Drop,
{
    let options = setting.options;
    let alloc = setting.rt.alloc();
    let given = match options.state_from_end {
        Some(left) => Some(word_from_end(setting.words, left)),
        None => None,
    };
    let path = state_name(alloc, given, file_of(setting.words))?;
    match start_in(&setting.rt, options, path.as_str(), own, setting.life) {
        Ok(start) => Ok(start),
        Err(fault) => Err(reported(setting, path.as_str(), fault)),
    }
}

/// Counts a start, before its station gives an id.
fn keep<R>(setting: &Stationed<'_, R>, start: &Start) -> Result<(), Failure>
where
    R: AllocGlobal + Files<File = File> + Wait + Copy + Drop,
{
    match start.keep(&setting.rt) {
        Ok(()) => Ok(()),
        Err(fault) => Err(reported(setting, start.path(), fault)),
    }
}

/// The failure of a state's file, which a line tells with the name of that file and the danger.
fn reported<R>(setting: &Stationed<'_, R>, path: &str, fault: StateFault) -> Failure
where
    R: AllocGlobal + Wait + Copy + Drop,
{
    let failure = Failure::from(fault);
    if failure == Failure::OutOfMemory {
        return failure;
    }
    match format!(in setting.rt.alloc(); "eip_station: {path} {failure}{UNCOUNTED}\n") {
        Ok(line) => report_line(setting.rt, setting.rim, line.as_bytes()),
        Err(_) => return Failure::OutOfMemory,
    }
    failure
}

/// Opens the port of a station, begins its record, and has it live.
fn open<R>(
    setting: &Stationed<'_, R>,
    config: Config,
    start: &Start,
    script: &mut ScriptState,
) -> Result<LifeEnd, Failure>
where
    R: AllocGlobal + Files<File = File> + Clock + HostNet + RandomSource + Wait + Copy + Drop,
{
    let (alloc, name) = (setting.rt.alloc(), station_name(setting).as_bytes());
    let config = described(alloc, config, setting.options, start.state().serial, name)?;
    let opened = match open_life_port(setting.rt, setting.options, &config, setting.life) {
        Ok(opened) => opened,
        Err(fault) => {
            let place = socket_place(setting.options, &config, fault);
            return Err(Failure::at(fault, place));
        }
    };
    let kind = kind_word(is_scanner(&config));
    let line = start_line(setting, kind, &opened.place, start.state().incarnation)?;
    serve(setting, &config, opened, start, line.as_str(), script)
}

/// The name of a station: that of its options, or that of its profile's file.
fn station_name<'a, R>(setting: &Stationed<'a, R>) -> &'a str {
    match setting.options.name_from_end {
        Some(left) => word_from_end(setting.words, left),
        None => stem_of(file_of(setting.words)),
    }
}

/// The line that says which station has started.
fn start_line<R>(
    setting: &Stationed<'_, R>,
    kind: &str,
    place: &StationPlace,
    incarnation: u8,
) -> Result<String, OutOfMemory>
where
    R: AllocGlobal + Copy + Drop,
{
    let profile = name_of(file_of(setting.words));
    let record = record_path(setting)?;
    let record = match &record {
        Some(record) => Some(record.as_str()),
        None => None,
    };
    start_text(
        setting.rt.alloc(),
        kind,
        profile,
        place,
        incarnation,
        record,
    )
}

/// The file of the record, if there is one: a further life has one of its own.
fn record_path<R>(setting: &Stationed<'_, R>) -> Result<Option<String>, OutOfMemory>
where
    R: AllocGlobal,
{
    let Some(left) = setting.options.record_from_end else {
        return Ok(None);
    };
    let first = word_from_end(setting.words, left);
    Ok(Some(record_name(setting.rt.alloc(), first, setting.life)?))
}

/// Has a device live at a port until its time is over, the standard input ends, or a peer requests a reset.
fn serve<R>(
    setting: &Stationed<'_, R>,
    config: &Config,
    opened: OpenedPort<R>,
    start: &Start,
    line: &str,
    script: &mut ScriptState,
) -> Result<LifeEnd, Failure>
where
    R: AllocGlobal + Files<File = File> + Clock + HostNet + RandomSource + Wait + Copy + Drop,
{
    let rt = setting.rt;
    let mut opened = opened;
    opened.port.set_alarm(setting.shared.alarm.share()?)?;
    seed_delays(&rt, &mut opened.port);
    let host = host_of(rt, config, &mut opened)?;
    let (waker, slots) = (opened.port.waker()?, opened.slots);
    let names = names_of(setting)?;
    let recorder = recorder_of(setting, config, &names)?;
    if !setting.options.quiet {
        report_line(rt, setting.rim, line.as_bytes());
    }
    let (out, err) = outputs_of(setting, &names)?;
    let outputs = StationOutputs {
        recorder,
        out,
        err,
        page: page_of(setting, config, names)?,
    };
    let mut station = station_of(rt, setting.options, config, opened, outputs)?;
    keep(setting, start)?;
    begin_ids(setting, start)?;
    let end = if reads_lines(setting.options) {
        let lines = setting.rim.input.share()?.lines(rt, waker);
        live(setting, &mut station, lines, host, slots, script)?
    } else {
        live(setting, &mut station, NoLines, host, slots, script)?
    };
    let end = life_end(end, station.record_fault())?;
    // (what the state's file still takes could be older than what the next life writes there)
    if !setting.rim.ids.end(&setting.rt, station.ids_left()) && has_next_life(end) {
        return Err(reported(setting, start.path(), StateFault::Unwritten));
    }
    Ok(end)
}

/// Has the connection ids of a life that is counted come from the state's file. A line tells where ids come again.
fn begin_ids<R>(setting: &Stationed<'_, R>, start: &Start) -> Result<(), OutOfMemory>
where
    R: AllocGlobal + Files<File = File> + Wait + Copy + Drop,
{
    let (Some(block), Some(file)) = (start.block(), start.file()?) else {
        return Ok(());
    };
    setting
        .rim
        .ids
        .begin(&setting.rt, file, start.state(), block);
    if start.ends_circle() {
        report_line(setting.rt, setting.rim, CIRCLE_ENDS);
    }
    Ok(())
}

/// A life of a station, which takes its script further.
fn live<R, O, E, L>(
    setting: &Stationed<'_, R>,
    station: &mut OpenStation<R, O, E>,
    lines: L,
    host: HostCounters<R>,
    slots: u32,
    script: &mut ScriptState,
) -> Result<LifeEnd, Failure>
where
    R: AllocGlobal + Files<File = File> + Clock + HostNet + Wait + Copy + Drop,
    O: LineSink,
    E: LineSink,
    L: CallLines + Drop,
{
    let alloc = setting.rt.alloc();
    let end_ms = left_ms(setting.options.seconds, setting.begun_ms);
    let typed = InputSteps::new(alloc, lines);
    let (before, begun_ms) = (script.copy(alloc)?, setting.begun_ms);
    let steps = DeviceSteps::scripted(alloc, setting.script, before, typed, begun_ms, end_ms);
    let steps = CountedSteps::new(steps, host);
    let mut steps = SuppliedSteps::new(steps, setting.rim.ids.blocks(setting.rt)?);
    let lived = station.live(&mut steps, slots);
    *script = steps.source().steps().state().copy(alloc)?;
    Ok(lived?)
}

/// The two outputs of a station, whose lines have these names behind them.
fn outputs_of<R>(
    setting: &Stationed<'_, R>,
    names: &Names,
) -> Result<(StationLines<R>, StationLines<R>), OutOfMemory>
where
    R: AllocGlobal + Wait + Copy + Drop,
{
    let (rt, rim) = (setting.rt, setting.rim);
    let out = labelled(rt, names, rim.out.sink(rt)?)?;
    let err = labelled(rt, names, rim.err.sink(rt)?)?;
    Ok((out, err))
}

/// The lines of an output with these names behind them.
fn labelled<R>(rt: R, names: &Names, sink: LineEntrance<R>) -> Result<StationLines<R>, OutOfMemory>
where
    R: AllocGlobal + Wait + Copy + Drop,
{
    let alloc = rt.alloc();
    let devices = SharedDevices::none(alloc)?;
    Ok(LabelledLines::new(alloc, names.copy(alloc)?, devices, sink))
}

/// The names that the profile says. Reports each bad name line.
fn names_of<R>(setting: &Stationed<'_, R>) -> Result<Names, Failure>
where
    R: AllocGlobal + Files<File = File> + Wait + Copy + Drop,
{
    let path = file_of(setting.words);
    let ReadNames { names, bad } = names_in(&setting.rt, path)?;
    for it in bad.iter() {
        let (line, words) = (it.line, it.fault.words());
        let text = format!(in setting.rt.alloc(); "eip_station: {path}: line {line}: {words}\n")?;
        report_line(setting.rt, setting.rim, text.as_bytes());
    }
    Ok(names)
}

/// Begins the page of a station with its first life, if it has one, and answers what tells it of the device.
fn page_of<R>(
    setting: &Stationed<'_, R>,
    config: &Config,
    names: Names,
) -> Result<Option<PageFeed>, Failure>
where
    R: AllocGlobal + Files<File = File> + Clock + HostNet + RandomSource + Wait + Copy + Drop,
{
    let Some(port) = setting.options.page else {
        return Ok(None);
    };
    let alloc = setting.rt.alloc();
    let record = match setting.options.record_from_end {
        Some(left) => Some(word_from_end(setting.words, left)),
        None => None,
    };
    let subject = PageSubject {
        name: station_name(setting),
        record,
        devices: None,
        host: page_host(setting.options, setting.words),
    };
    if setting.life == 1 {
        begin_page(setting.rt, setting.shared, setting.options, port, subject)?;
    }
    let end = setting.shared.page.feed_end(0)?;
    Ok(Some(PageFeed::new(alloc, config.copy(alloc)?, names, end)?))
}

/// Has the system draw the seed of a port's delays. Where it draws none, the port's address is the seed.
fn seed_delays<R>(rt: &R, port: &mut StationPort<R>)
where
    R: Clock + HostNet + RandomSource + Drop,
{
    let mut bytes = [0u8; 8];
    if rt.fill_bytes(&mut bytes).is_ok() {
        port.draw_delays_by(u64::from_le_bytes(bytes));
    }
}

/// The recorder of a station, over a new file if one is named.
fn recorder_of<R>(
    setting: &Stationed<'_, R>,
    config: &Config,
    names: &Names,
) -> Result<Recorder<Entries<R>>, Failure>
where
    R: AllocGlobal + Files<File = File> + Clock + Wait + Copy + Drop,
{
    let rt = setting.rt;
    let alloc = rt.alloc();
    let Some(path) = record_path(setting)? else {
        return Ok(Recorder::idle(alloc));
    };
    let most = setting.options.record_bytes;
    let record = &setting.rim.record;
    Ok(recorder_in(rt, record, config, names, path, most)?)
}

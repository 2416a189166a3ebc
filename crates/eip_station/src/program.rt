//! The program, at its command line and its streams.

use crate::failure::{
    Failure, NO_MEMORY, end_status, is_reported, status_of, subject_of, unread_end,
};
use crate::needs::{self, Needs};
use crate::paging::{HostNet, PageSubject, begin_page, page_host};
use crate::stationing::{report_end, run_task};
use command_lines::{
    Options, ProgramTask, USAGE, VERSION, file_of, files_of, names_of, profile_of,
    push_value_fault, read_task, split_words, word_from_end,
};
use identity_search::search;
use page_server::SharedPage;
use plant_command::{PlantSetting, names_in, run_plant};
use plant_rim::SharedPlant;
use settle_command::settle_files;
use station_port::Alarm;
use station_record::stem_of;
use station_rim::Rim;
use std::alloc::Global;
use std::env::{self, Env};
use std::fs::File;
use std::io::Write;
use std::process::ExitCode;
use std::random::RandomSource;
use std::rt::{Clock, Files};
use std::sync::Wait;
use trace_commands::{PipedOutput, data_sheet, explain, pcap, replay};
use world_command::play_world;

/// What a station or a plant shares with its threads.
#[derive(Drop)]
pub struct Surroundings {
    pub rim: Rim,
    pub page: SharedPage,
    pub alarm: Alarm,
    pub plant: SharedPlant,
}

/// Performs what the command line requests, and answers the status. A failure is one line on `err`.
pub fn run<R, O, E>(rt: R, shared: Surroundings, out: O, err: E) -> ExitCode
where
    R: AllocGlobal + Env + Files<File = File> + Clock + HostNet + RandomSource + Wait + Copy + Drop,
    O: Write + Drop,
    E: Write + Drop,
{
    let mut err = err;
    let Some(words) = words_of(&rt) else {
        let _ = err.write_all(NO_MEMORY);
        return ExitCode::from(status_of(Failure::OutOfMemory));
    };
    let done = perform(rt, words.as_slice(), &shared, out, &mut err);
    ExitCode::from(end_status(done))
}

/// The threads that the command line needs. None without memory.
pub fn needs_of<R: AllocGlobal + Env + Files>(rt: &R) -> Option<Needs> {
    let words = words_of(rt)?;
    let read = read_task(words.as_slice());
    let devices = match read {
        Ok(ProgramTask::Plant(_)) => names_in(rt, file_of(words.as_slice())).ok()?.len(),
        _ => 0,
    };
    Some(needs::needs_of(&read, devices))
}

/// The words of the command line. An option and its value are two of them.
fn words_of<R: AllocGlobal + Env>(rt: &R) -> Option<Vec<String>> {
    let given = env::args(rt).ok()?.collect::<Vec<String>>(rt.alloc()).ok()?;
    split_words(rt.alloc(), given).ok()
}

/// Performs the task of the words, and reports its failure.
fn perform<R, O, E>(
    rt: R,
    words: &[String],
    shared: &Surroundings,
    out: O,
    err: &mut E,
) -> Result<(), Failure>
where
    R: AllocGlobal + Files<File = File> + Clock + HostNet + RandomSource + Wait + Copy + Drop,
    O: Write + Drop,
    E: Write,
{
    match read_task(words) {
        Ok(ProgramTask::Station(task)) => run_task(rt, words, task, shared),
        Ok(ProgramTask::Plant(options)) => plant(rt, words, &options, shared),
        Ok(task) => {
            let done = write_out(&rt, words, task, out);
            report(rt.alloc(), words, done, err)
        }
        Err(misuse) => report(rt.alloc(), words, Err(Failure::Words(misuse)), err),
    }
}

/// Runs a plant to its end, and reports its failure.
fn plant<R>(
    rt: R,
    words: &[String],
    options: &Options,
    shared: &Surroundings,
) -> Result<(), Failure>
where
    R: AllocGlobal + Files<File = File> + Clock + HostNet + RandomSource + Wait + Copy + Drop,
{
    let done = run_devices(rt, words, options, shared);
    report_end(rt, words, shared, done)
}

/// Serves the page of a plant, if it has one, and runs the plant.
fn run_devices<R>(
    rt: R,
    words: &[String],
    options: &Options,
    shared: &Surroundings,
) -> Result<(), Failure>
where
    R: AllocGlobal + Files<File = File> + Clock + HostNet + RandomSource + Wait + Copy + Drop,
{
    let setting = PlantSetting {
        file: file_of(words),
        options,
        folder: match options.record_from_end {
            Some(left) => Some(word_from_end(words, left)),
            None => None,
        },
        report: match options.report_from_end {
            Some(left) => Some(word_from_end(words, left)),
            None => None,
        },
        page: match options.page {
            Some(_) => Some(&shared.page),
            None => None,
        },
    };
    if let Some(port) = options.page {
        begin_plant_page(rt, shared, &setting, port, page_host(options, words))?;
    }
    run_plant(rt, &shared.rim, &shared.plant, &setting).map_err(Failure::Plant)
}

/// Serves the page of a plant. A file that is no plant has none.
fn begin_plant_page<R>(
    rt: R,
    shared: &Surroundings,
    setting: &PlantSetting<'_>,
    port: u16,
    host: Option<&str>,
) -> Result<(), Failure>
where
    R: AllocGlobal + Files<File = File> + Clock + HostNet + RandomSource + Wait + Copy + Drop,
{
    let devices = names_in(&rt, setting.file)?;
    let mut names: Vec<&str> = Vec::new(rt.alloc());
    for device in devices.as_slice() {
        names.push(device.as_str())?;
    }
    if names.is_empty() {
        return Ok(());
    }
    let subject = PageSubject {
        name: stem_of(setting.file),
        record: None,
        devices: Some(names.as_slice()),
        host,
    };
    begin_page(rt, shared, setting.options, port, subject)
}

/// Performs a task that writes a text or a capture file. It ends in silence if nobody reads on.
fn write_out<R, O>(rt: &R, words: &[String], task: ProgramTask, out: O) -> Result<(), Failure>
where
    R: AllocGlobal + Files<File = File> + Clock + HostNet,
    O: Write + Drop,
{
    let mut piped = PipedOutput::new(out);
    let done = write(rt, words, task, &mut piped);
    unread_end(done, piped.is_unread())
}

/// Performs a task that writes a text or a capture file.
fn write<R, O>(rt: &R, words: &[String], task: ProgramTask, out: O) -> Result<(), Failure>
where
    R: AllocGlobal + Files<File = File> + Clock + HostNet,
    O: Write + Drop,
{
    let mut out = out;
    match task {
        ProgramTask::Help => print(out, USAGE.as_bytes()),
        ProgramTask::Version => {
            let line = format!(in rt.alloc(); "eip_station {VERSION}\n")?;
            print(out, line.as_bytes())
        }
        ProgramTask::Replay => Ok(replay(rt, files_of(words), out)?),
        ProgramTask::Pcap => Ok(pcap(rt, files_of(words), out)?),
        ProgramTask::Explain => Ok(explain(rt, files_of(words), out)?),
        ProgramTask::Settle => { settle_files(rt, files_of(words), out).map_err(Failure::Settling) }
        ProgramTask::World(world) => {
            play_world(rt, file_of(words), world.plain, out).map_err(Failure::World)
        }
        ProgramTask::Sheet(sheet) => {
            Ok(data_sheet(rt, profile_of(words), &names_of(words, sheet), out)?)
        }
        ProgramTask::Search(task) => {
            search(rt, task.host, task.seconds, &mut out).map_err(Failure::Search)
        }
        ProgramTask::Station(_) | ProgramTask::Plant(_) => Ok(()),
    }
}

/// Prints a text.
fn print<O: Write + Drop>(out: O, text: &[u8]) -> Result<(), Failure> {
    let mut out = out;
    match out.write_all(text) {
        Ok(()) => Ok(()),
        Err(_) => Err(Failure::Output),
    }
}

/// Reports a failure in one line, as far as the stream takes it.
fn report<E: Write>(
    alloc: Global,
    words: &[String],
    done: Result<(), Failure>,
    err: &mut E,
) -> Result<(), Failure> {
    if let Err(failure) = done {
        let line = line_of(alloc, words, failure);
        let _ = match &line {
            Ok(line) => err.write_all(line.as_bytes()),
            Err(_) => err.write_all(NO_MEMORY),
        };
    }
    done
}

/// The line of a failure; none if a line has told it already.
pub fn line_of(alloc: Global, words: &[String], failure: Failure) -> Result<String, Failure> {
    if is_reported(failure) {
        return Ok(String::new(alloc));
    }
    if let Failure::Words(misuse) = failure {
        let mut line = format!(in alloc; "eip_station: ")?;
        if push_value_fault(&mut line, words, misuse)? {
            line.push_str("\n")?;
            return Ok(line);
        }
    }
    let subject = subject_of(words, failure);
    if subject.is_empty() {
        Ok(format!(in alloc; "eip_station: {failure}\n")?)
    } else {
        Ok(format!(in alloc; "eip_station: {subject} {failure}\n")?)
    }
}

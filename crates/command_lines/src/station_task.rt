//! The task that a command line requests.

ghost use Rattle.std.specs.Prelude.{◌≡◌, map};
ghost use Rattle.command_lines.specs.StationTasks.{command_of, is_for_one, of_files, plant_of, search_with, sheet_with, station_of, task_of, task_with, world_with};

use crate::question_task::{SearchTask, SheetTask, WorldTask, search_of, sheet_of, world_of};
use crate::station_options::{Options, StationMisuse, read_options};
use std::convert::AsStr;

/// A command of the program.
#[derive(Clone, Copy, PartialEq, Eq)]
pub enum StationCommand {
    /// Serves a profile.
    Adapter,
    /// Keeps the connections of a profile open.
    Scanner,
    /// Runs the devices of a file.
    Plant,
    /// Plays a trace.
    Replay,
    /// Writes a trace as a capture file.
    Pcap,
    /// Explains a trace in words.
    Explain,
    /// Settles the records of several devices.
    Settle,
    /// Plays a story of a simulated network.
    World,
    /// Writes the data sheet of a profile.
    Eds,
    /// Searches for devices.
    Identity,
    /// Prints how the program is used.
    Help,
    /// Prints which version of the program it is.
    Version,
}

/// A station: whether it is a scanner, and its options. Its profile is the third word.
#[derive(Clone, Copy, PartialEq, Eq)]
pub struct StationTask {
    pub scanner: bool,
    pub options: Options,
}

/// The task that a command line requests.
#[derive(Clone, Copy, PartialEq, Eq)]
pub enum ProgramTask {
    /// Prints how the program is used.
    Help,
    /// Runs a station.
    Station(StationTask),
    /// Runs the devices of the file that is the third word, with these options.
    Plant(Options),
    /// Prints which version of the program it is.
    Version,
    /// Plays the trace of the files from the third word on.
    Replay,
    /// Writes the trace of the files from the third word on as a capture file.
    Pcap,
    /// Tells the trace of the files from the third word on in words.
    Explain,
    /// Settles the records of the files from the third word on.
    Settle,
    /// Plays the story of the file that is the third word.
    World(WorldTask),
    /// Writes the data sheet of the profile that is the third word.
    Sheet(SheetTask),
    /// Searches for devices.
    Search(SearchTask),
}

/// The command that a word names.
#[tactic(auto, unfolding(crate::specs::StationTasks::command_of))]
pub fn command_of(word: &str) -> Option<StationCommand>
    ensures { result ≡ command_of word.now }
{
    match word {
        "adapter" => Some(StationCommand::Adapter),
        "scanner" => Some(StationCommand::Scanner),
        "plant" => Some(StationCommand::Plant),
        "replay" => Some(StationCommand::Replay),
        "pcap" => Some(StationCommand::Pcap),
        "explain" => Some(StationCommand::Explain),
        "settle" => Some(StationCommand::Settle),
        "world" => Some(StationCommand::World),
        "eds" => Some(StationCommand::Eds),
        "identity" => Some(StationCommand::Identity),
        "--help" => Some(StationCommand::Help),
        "-h" => Some(StationCommand::Help),
        "--version" => Some(StationCommand::Version),
        _ => None,
    }
}

/// The task that the words request. The first word is the program's own name, the second the command, the third the name
/// of a file. Options follow the profile of a station, and more files may follow that of a trace.
///
/// The faults, in order: `NoCommand`, `NoSuchCommand`, `NoFile` or `NoHost`, and those of the options or names at the first
/// word that is wrong. The words behind `--help` and `--version` are not read.
pub fn read_station_task<S: AsStr>(words: &[S]) -> Result<ProgramTask, StationMisuse>
    ensures { result ≡ task_of (map S.text words.now) }
{
    let Some((_program, words)) = words.split_first() else {
        return Err(StationMisuse::NoCommand);
    };
    let Some((word, rest)) = words.split_first() else {
        return Err(StationMisuse::NoCommand);
    };
    match command_of(word.as_str()) {
        Some(command) => task_with(command, rest),
        None => Err(StationMisuse::NoSuchCommand(words.len())),
    }
}

/// The task of a command with the words behind it.
fn task_with<S: AsStr>(command: StationCommand, words: &[S]) -> Result<ProgramTask, StationMisuse>
    ensures { result ≡ task_with command (map S.text words.now) }
{
    match command {
        StationCommand::Adapter => station_of(false, words),
        StationCommand::Scanner => station_of(true, words),
        StationCommand::Plant => plant_of(words),
        StationCommand::Replay => of_files(ProgramTask::Replay, words),
        StationCommand::Pcap => of_files(ProgramTask::Pcap, words),
        StationCommand::Explain => of_files(ProgramTask::Explain, words),
        StationCommand::Settle => of_files(ProgramTask::Settle, words),
        StationCommand::World => world_with(words),
        StationCommand::Eds => sheet_with(words),
        StationCommand::Identity => search_with(words),
        StationCommand::Help => Ok(ProgramTask::Help),
        StationCommand::Version => Ok(ProgramTask::Version),
    }
}

/// A station, whose words are the name of its profile and its options.
fn station_of<S: AsStr>(scanner: bool, words: &[S]) -> Result<ProgramTask, StationMisuse>
    ensures { result ≡ station_of scanner (map S.text words.now) }
{
    let Some((_file, rest)) = words.split_first() else {
        return Err(StationMisuse::NoFile);
    };
    match read_options(rest) {
        Ok(options) => Ok(ProgramTask::Station(StationTask { scanner, options })),
        Err(misuse) => Err(misuse),
    }
}

/// A plant, whose words are the name of its file and its options. The faults are those of the options, and behind them
/// `OneDevice` if one of them is for one device.
fn plant_of<S: AsStr>(words: &[S]) -> Result<ProgramTask, StationMisuse>
    ensures { result ≡ plant_of (map S.text words.now) }
{
    let Some((_file, rest)) = words.split_first() else {
        return Err(StationMisuse::NoFile);
    };
    match read_options(rest) {
        Ok(options) if is_for_one(&options) => Err(StationMisuse::OneDevice),
        Ok(options) => Ok(ProgramTask::Plant(options)),
        Err(misuse) => Err(misuse),
    }
}

/// Whether options say what one device has: its address, state, script, incarnation, serial number or name.
fn is_for_one(options: &Options) -> bool
    ensures { result ≡ is_for_one options.now }
{
    options.address.is_some()
        || options.state_from_end.is_some()
        || options.script_from_end.is_some()
        || options.incarnation.is_some()
        || options.serial.is_some()
        || options.name_from_end.is_some()
}

/// A data sheet, whose words are the name of its profile, and three names or none.
fn sheet_with<S: AsStr>(words: &[S]) -> Result<ProgramTask, StationMisuse>
    ensures { result ≡ sheet_with (map S.text words.now) }
{
    match sheet_of(words) {
        Ok(task) => Ok(ProgramTask::Sheet(task)),
        Err(misuse) => Err(misuse),
    }
}

/// A search, whose words are an address and its time.
fn search_with<S: AsStr>(words: &[S]) -> Result<ProgramTask, StationMisuse>
    ensures { result ≡ search_with (map S.text words.now) }
{
    match search_of(words) {
        Ok(task) => Ok(ProgramTask::Search(task)),
        Err(misuse) => Err(misuse),
    }
}

/// A story, whose words are the name of its file and over which engines it is played.
fn world_with<S: AsStr>(words: &[S]) -> Result<ProgramTask, StationMisuse>
    ensures { result ≡ world_with (map S.text words.now) }
{
    match world_of(words) {
        Ok(task) => Ok(ProgramTask::World(task)),
        Err(misuse) => Err(misuse),
    }
}

/// A task whose words are the names of its files, of which there is one or more.
fn of_files<S: AsStr>(task: ProgramTask, words: &[S]) -> Result<ProgramTask, StationMisuse>
    ensures { result ≡ of_files task (map S.text words.now) }
{
    if words.is_empty() {
        return Err(StationMisuse::NoFile);
    }
    Ok(task)
}

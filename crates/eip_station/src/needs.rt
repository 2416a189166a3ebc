//! The threads that a command line needs.

ghost use Rattle.std.specs.Prelude.{◌≡◌};
ghost use Rattle.eip_station.specs.Needs.{needs_of, no_needs, page_threads, plant_needs, station_needs};

use command_lines::{Options, ProgramTask, StationMisuse};
use page_server::PAGE_THREADS;

/// The threads that a command line needs.
#[derive(Clone, Copy, PartialEq, Eq)]
pub struct Needs {
    /// Those of outputs.
    pub outputs: bool,
    /// That of the alarm of a station.
    pub alarm: bool,
    /// That of its input.
    pub input: bool,
    /// That of its record.
    pub record: bool,
    /// That of its state's file.
    pub state: bool,
    /// Those of its page.
    pub page: bool,
    /// Two for each device of a plant, which take its jobs.
    pub plant: usize,
    /// The devices whose snapshots a page shows.
    pub devices: usize,
}

/// The threads that the task of a command line needs, whose plant has so many devices.
pub fn needs_of(read: &Result<ProgramTask, StationMisuse>, devices: usize) -> Needs
    ensures { result ≡ needs_of read.now devices }
{
    match read {
        Ok(ProgramTask::Station(task)) => station_needs(&task.options),
        Ok(ProgramTask::Plant(options)) => plant_needs(options, devices),
        _ => no_needs(),
    }
}

/// Those of a station.
fn station_needs(options: &Options) -> Needs
    ensures { result ≡ station_needs options.now }
{
    Needs {
        outputs: true,
        alarm: true,
        input: !options.no_input,
        record: options.record_from_end.is_some(),
        state: options.incarnation.is_none() || options.state_from_end.is_some(),
        page: options.page.is_some(),
        plant: 0,
        devices: 1,
    }
}

/// Those of a plant of so many devices. A file that is no plant has none.
fn plant_needs(options: &Options, devices: usize) -> Needs
    ensures { result ≡ plant_needs options.now devices }
{
    Needs {
        outputs: true,
        alarm: false,
        input: !options.no_input,
        record: false,
        state: false,
        page: options.page.is_some(),
        plant: devices.saturating_mul(2),
        devices,
    }
}

/// Those of what neither a station nor a plant does.
fn no_needs() -> Needs
    ensures { result ≡ no_needs }
{
    Needs {
        outputs: false,
        alarm: false,
        input: false,
        record: false,
        state: false,
        page: false,
        plant: 0,
        devices: 0,
    }
}

/// How many threads serve the browsers of a page.
pub fn page_threads(page: bool) -> usize
    ensures { result ≡ page_threads page }
{
    if page { PAGE_THREADS } else { 0 }
}

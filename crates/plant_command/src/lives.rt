//! The work of a plant's threads: the lives of its devices, and their records.

ghost use Rattle.std.specs.Prelude.{◌≡◌, ◌++◌, IfOk, OnOk, string_bytes};
ghost use Rattle.plant_command.specs.Lives.{life_config, life_text, start_text};

use crate::endings::{LifeNames, is_stillborn, life_end, next_names};
use crate::paths::record_path;
use crate::setups::node_of;
use cip_tables::Config;
use cip_types::{Items, Node, OutOfMemory};
use page_feed::PageFeed;
use plant_rim::{
    DeviceFailure, DeviceSetup, NameForm, NamedLines, PlantJob, ScriptOutcome, SharedPlant,
};
use station::{CountedSteps, DeviceSteps, LifeEnd, ScriptChecks, ScriptReport, ScriptState};
use station_lines::LineSink;
use station_port::StationPlace;
use station_record::{Recorder, forget_record};
use station_rim::{Entries, LabelledLines, LineEntrance, SharedRecord};
use station_setup::{
    MOST_LIVES, OpenedPort, StationOutputs, described, host_of, incarnation_of, open_life_port,
    passed_ms, recorder_in, rest_before_life, station_of, with_incarnation,
};
use std::alloc::Global;
use std::fs::File;
use std::net::Net;
use std::rt::{Clock, Files};
use std::sync::Wait;
use std::time::Instant;
use trace_words::push_node;

/// Where the lines of a device of a plant go.
type DeviceSink<R> = LabelledLines<NamedLines<LineEntrance<R>>>;

/// Takes one job of a plant after another, without end.
pub fn work<R>(rt: R, plant: &SharedPlant)
where
    R: AllocGlobal + Files<File = File> + Net + Clock + Wait + Copy + Drop,
{
    for _ in rt.forever() {
        match plant.next_job(&rt) {
            Some(PlantJob::Serve(setup)) => serve(rt, plant, &setup),
            Some(PlantJob::Write(record)) => {
                record.write_files(&rt);
                plant.leave_record(&rt, record.has_failed(&rt));
            }
            None => {}
        }
    }
}

/// A device lives, one life after another. Reports why it fails, if it does.
fn serve<R>(rt: R, plant: &SharedPlant, setup: &DeviceSetup)
where
    R: AllocGlobal + Files<File = File> + Net + Clock + Wait + Copy + Drop,
{
    let mut lives = 0;
    let ended = live_judged(rt, plant, setup, &mut lives);
    let failure = match ended {
        Ok(()) => None,
        Err(failure) => {
            report(rt, plant, setup, failure);
            Some(failure)
        }
    };
    plant.leave(&rt, setup.scanner, failure, is_stillborn(failure, lives));
}

/// Reports why a device fails.
fn report<R>(rt: R, plant: &SharedPlant, setup: &DeviceSetup, failure: DeviceFailure)
where
    R: AllocGlobal + Wait + Copy + Drop,
{
    let name = setup.name.as_str();
    let Ok(mut err) = plant.err.sink(rt) else {
        return;
    };
    match format!(in rt.alloc(); "eip_station: {name}: {failure}\n") {
        Ok(line) => err.line(line.as_bytes()),
        Err(_) => err.line(b"eip_station: no memory\n"),
    }
}

/// All lives of a device, and behind them what came of its script.
fn live_judged<R>(
    rt: R,
    plant: &SharedPlant,
    setup: &DeviceSetup,
    lives: &mut u32,
) -> Result<(), DeviceFailure>
where
    R: AllocGlobal + Files<File = File> + Net + Clock + Wait + Copy + Drop,
{
    let mut script = ScriptState::of(rt.alloc(), setup.script.as_slice())?;
    let ended = live_all(rt, plant, setup, &mut script, lives);
    judge(rt, plant, setup, script.checks())?;
    ended
}

/// Says what came of the script of a device, and keeps it for the report.
fn judge<R>(
    rt: R,
    plant: &SharedPlant,
    setup: &DeviceSetup,
    checks: &ScriptChecks,
) -> Result<(), OutOfMemory>
where
    R: AllocGlobal + Wait + Copy + Drop,
{
    let alloc = rt.alloc();
    let report = ScriptReport {
        name: setup.name.as_str(),
        script: setup.script.as_slice(),
        checks,
    };
    let counts = report.counts();
    if counts.cases == 0 {
        return Ok(());
    }
    let (mut text, mut suite) = (Vec::new(alloc), Vec::new(alloc));
    report.push_bad_lines(alloc, &mut text)?;
    report.push_summary(alloc, &mut text)?;
    report.push_suite(alloc, &mut suite)?;
    plant.err.sink(rt)?.line(text.as_slice());
    plant.judge(
        &rt,
        ScriptOutcome {
            place: setup.place,
            suite: Items::from_vec(suite),
            counts,
        },
    )
}

/// All lives of a device. Counts those that have begun.
fn live_all<R>(
    rt: R,
    plant: &SharedPlant,
    setup: &DeviceSetup,
    script: &mut ScriptState,
    lives: &mut u32,
) -> Result<(), DeviceFailure>
where
    R: AllocGlobal + Files<File = File> + Net + Clock + Wait + Copy + Drop,
{
    let origin = now(&rt)?;
    forget_lives(&rt, setup)?;
    let mut names = LifeNames::new(setup.span.first, setup.ids);
    for life in 1..MOST_LIVES {
        let config = config_of(rt.alloc(), setup, names)?;
        let opened = open_life_port(rt, &setup.options, &config, life)?;
        let begun_ms = passed_ms(&rt, origin);
        let life = Life {
            plant,
            setup,
            config: &config,
            number: life,
            begun_ms,
        };
        let lived = life.live(rt, opened, script, lives)?;
        match next_names(setup.span, names, lived.end, lived.ids_left) {
            Some(next) => names = next,
            None => return Ok(()),
        }
        rest_before_life(&rt, origin, begun_ms, None);
    }
    Ok(())
}

/// The clock of a plant.
fn now<R: Clock>(rt: &R) -> Result<Instant, DeviceFailure> {
    match Instant::now(rt) {
        Ok(now) => Ok(now),
        Err(_) => Err(DeviceFailure::Early(station::EarlyEnd::Clock)),
    }
}

/// Removes the records of an earlier run's lives behind the first one, so that none of them is taken for one of this run.
fn forget_lives<R>(rt: &R, setup: &DeviceSetup) -> Result<(), OutOfMemory>
where
    R: AllocGlobal + Files<File = File>,
{
    let Some(folder) = &setup.folder else {
        return Ok(());
    };
    for life in 2..MOST_LIVES {
        let path = record_path(rt.alloc(), folder.as_str(), setup.name.as_str(), life)?;
        if !matches!(forget_record(rt, rt.alloc(), path.as_str()), Ok(true)) {
            break;
        }
    }
    Ok(())
}

/// The configuration of a life with this incarnation and these connection ids. Without a description of its own an adapter has the
/// name of its device, and its address as its serial number. OutOfMemory is the only fault.
fn config_of(alloc: Global, setup: &DeviceSetup, names: LifeNames) -> Result<Config, OutOfMemory>
    ensures { IfOk result (λ config.
        config ≡ life_config setup.now.config setup.now.options (string_bytes setup.now.name) names) }
{
    let config = with_incarnation(setup.config.copy(alloc)?, names.incarnation);
    let config = config.with_ids(Some(names.ids));
    let Node(serial) = node_of(&config);
    described(alloc, config, &setup.options, serial, setup.name.as_bytes())
}

/// Appends which kind of device begins to live, and where.
fn push_start(line: &mut String, scanner: bool, place: &StationPlace) -> Result<(), OutOfMemory>
    ensures { OnOk result (string_bytes line.new ≡ string_bytes line.old ++ start_text scanner place.now) }
{
    let kind = if scanner { "scanner" } else { "adapter" };
    let (tcp, udp) = (place.tcp, place.udp);
    write!(line, "{kind} at ")?;
    push_node(line, place.address)?;
    write!(line, ", TCP {tcp}, UDP {udp}, ")?;
    Ok(())
}

/// Appends which life of it that is.
fn push_life(line: &mut String, life: u32, incarnation: u8) -> Result<(), OutOfMemory>
    ensures { OnOk result (string_bytes line.new ≡ string_bytes line.old ++ life_text life incarnation) }
{
    write!(line, "life {life}, incarnation {incarnation}\n")?;
    Ok(())
}

/// How a life has ended, and how many connection ids its device had left.
#[derive(Clone, Copy)]
struct LivedLife {
    end: LifeEnd,
    ids_left: u32,
}

/// A life of a device.
#[derive(Clone, Copy)]
struct Life<'a> {
    plant: &'a SharedPlant,
    setup: &'a DeviceSetup,
    config: &'a Config,
    number: u32,
    /// When it began, in milliseconds since its plant began.
    begun_ms: u64,
}

impl Life<'_> {
    /// Lives to the end, and has the record written. The life counts once the device has begun.
    fn live<R>(
        &self,
        rt: R,
        opened: OpenedPort<R>,
        script: &mut ScriptState,
        lives: &mut u32,
    ) -> Result<LivedLife, DeviceFailure>
    where
        R: AllocGlobal + Files<File = File> + Net + Clock + Wait + Copy + Drop,
    {
        let record = SharedRecord::new(rt.alloc())?;
        let ended = self.live_recorded(rt, opened, script, &record, lives);
        record.end(&rt);
        self.plant.out.release(&rt);
        ended
    }

    /// The recorder of the life, if it is recorded.
    fn recorder<R>(
        &self,
        rt: R,
        record: &SharedRecord,
    ) -> Result<Recorder<Entries<R>>, DeviceFailure>
    where
        R: AllocGlobal + Files<File = File> + Clock + Wait + Copy + Drop,
    {
        let alloc = rt.alloc();
        let Some(folder) = &self.setup.folder else {
            return Ok(Recorder::idle(alloc));
        };
        let name = self.setup.name.as_str();
        let path = record_path(alloc, folder.as_str(), name, self.number)?;
        self.plant.write(&rt, record.share()?)?;
        let most = self.setup.options.record_bytes;
        Ok(recorder_in(rt, record, self.config, &self.setup.names, path, most)?)
    }

    /// What a device of the life says on an output: under its own name, with those of its points and of its peers behind.
    fn named<R>(
        &self,
        rt: R,
        form: NameForm,
        sink: LineEntrance<R>,
    ) -> Result<DeviceSink<R>, OutOfMemory>
    where
        R: AllocGlobal + Wait + Copy + Drop,
    {
        let alloc = rt.alloc();
        let named = NamedLines::new(alloc, form, self.setup.name.as_str(), sink)?;
        let names = self.setup.names.copy(alloc)?;
        Ok(LabelledLines::new(alloc, names, self.setup.devices.share()?, named))
    }

    /// What tells the page of the plant of this life, if there is one.
    fn page(&self, alloc: Global) -> Result<Option<PageFeed>, OutOfMemory> {
        let Some(page) = &self.setup.page else {
            return Ok(None);
        };
        let names = self.setup.names.copy(alloc)?;
        let config = self.config.copy(alloc)?;
        Ok(Some(PageFeed::new(alloc, config, names, page.share()?)?))
    }

    /// Says which device begins to live, and where.
    fn report_start<R>(&self, rt: R, opened: &OpenedPort<R>) -> Result<(), DeviceFailure>
    where
        R: AllocGlobal + Clock + Wait + Copy + Drop,
    {
        if self.setup.options.quiet {
            return Ok(());
        }
        let name = self.setup.name.as_str();
        let mut line = format!(in rt.alloc(); "eip_station: {name}: ")?;
        push_start(&mut line, self.setup.scanner, &opened.place)?;
        push_life(&mut line, self.number, incarnation_of(self.config))?;
        self.plant.err.sink(rt)?.line(line.as_bytes());
        Ok(())
    }

    /// Lives to the end. A device that loses its power, or is reset, closes nothing.
    fn live_recorded<R>(
        &self,
        rt: R,
        opened: OpenedPort<R>,
        state: &mut ScriptState,
        record: &SharedRecord,
        lives: &mut u32,
    ) -> Result<LivedLife, DeviceFailure>
    where
        R: AllocGlobal + Files<File = File> + Net + Clock + Wait + Copy + Drop,
    {
        let recorder = self.recorder(rt, record)?;
        self.report_start(rt, &opened)?;
        let mut opened = opened;
        let host = host_of(rt, self.config, &mut opened)?;
        let (waker, slots) = (opened.port.waker()?, opened.slots);
        let outputs = StationOutputs {
            recorder,
            out: self.named(rt, NameForm::Result, self.plant.out.sink(rt)?)?,
            err: self.named(rt, NameForm::Report, self.plant.err.sink(rt)?)?,
            page: self.page(rt.alloc())?,
        };
        let mut station = station_of(rt, &self.setup.options, self.config, opened, outputs)?;
        *lives = self.number;
        let typed = self.setup.typed.share()?.steps(rt, waker);
        let script = self.setup.script.as_slice();
        let before = state.copy(rt.alloc())?;
        let steps = DeviceSteps::scripted(rt.alloc(), script, before, typed, self.begun_ms, None);
        let mut steps = CountedSteps::new(steps, host);
        let lived = station.live(&mut steps, slots);
        *state = steps.steps().state().copy(rt.alloc())?;
        let end = life_end(lived?, station.record_fault())?;
        Ok(LivedLife {
            end,
            ids_left: station.ids_left(),
        })
    }
}

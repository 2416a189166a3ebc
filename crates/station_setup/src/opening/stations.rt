//! The station of a device at its port.

ghost use Rattle.std.specs.Prelude.{◌≡◌, IfOk};
ghost use Rattle.station_setup.specs.Settings.{reporting_of};

use crate::opening::ports::OpenedPort;
use crate::place::rates_of;
use cip_events::NewFault;
use cip_tables::{Config, Device};
use cip_types::OutOfMemory;
use command_lines::Options;
use fast_device::FastDevice;
use page_feed::PageFeed;
use port_faults::{FaultyPort, OrderPort};
use socket_port::SystemClock;
use station::{Reporting, Station, StationObserver};
use station_lines::LineSink;
use station_port::{StationPlace, StationPort};
use station_record::{RecordSink, Recorder};
use station_rim::Entries;
use std::alloc::Global;
use std::fs::File;
use std::net::Net;
use std::rt::{Clock, Files};
use std::sync::Wait;

/// The port of each station: its datagrams may have faults, and it takes orders.
pub type OpenPort<R> = OrderPort<FaultyPort<StationPort<R>, SystemClock<R>>, R>;

/// A station at real addresses, whose lines go to outputs of these kinds.
pub type OpenStation<R, O, E> = Station<OpenPort<R>, SystemClock<R>, FastDevice, Entries<R>, O, E>;

/// Where a station tells what it does: its record, its outputs, and its page if it has one.
#[derive(Drop)]
pub struct StationOutputs<W, O, E> {
    pub recorder: Recorder<W>,
    pub out: O,
    pub err: E,
    pub page: Option<PageFeed>,
}

/// The station of a device of this configuration, at its port. The faults are those of the device's beginning.
pub fn station_of<R, O, E>(
    rt: R,
    options: &Options,
    config: &Config,
    opened: OpenedPort<R>,
    outputs: StationOutputs<Entries<R>, O, E>,
) -> Result<OpenStation<R, O, E>, NewFault>
where
    R: AllocGlobal + Files<File = File> + Net + Clock + Wait + Copy + Drop,
    O: LineSink + Drop,
    E: LineSink + Drop,
    ensures { IfOk result (λ station. station.observer.recorder ≡ outputs.recorder) }
{
    let alloc = rt.alloc();
    let OpenedPort { port, place, .. } = opened;
    let reporting = reporting_of(options, &place);
    let device = device_of(alloc, config)?;
    let port = ordered_port_of(rt, options, port)?;
    let parts = StationParts {
        port,
        clock: SystemClock::new(rt),
        device,
    };
    Ok(watched_station(alloc, config, parts, outputs, reporting)?)
}

/// What a station is made of beside what looks on at it.
#[derive(Drop)]
struct StationParts<P, C, D> {
    port: P,
    clock: C,
    device: D,
}

/// A station of these parts, and what looks on at it and tells these outputs what it sees. The fault: an allocation was refused.
fn watched_station<P, C, D, W, O, E>(
    alloc: Global,
    config: &Config,
    parts: StationParts<P, C, D>,
    outputs: StationOutputs<W, O, E>,
    reporting: Reporting,
) -> Result<Station<P, C, D, W, O, E>, OutOfMemory>
where
    P: Drop,
    C: Drop,
    D: Drop,
    W: RecordSink + Drop,
    O: LineSink + Drop,
    E: LineSink + Drop,
    ensures { IfOk result (λ station. station.observer.recorder ≡ outputs.recorder) }
{
    let observer = observer_of(alloc, config, outputs)?;
    let StationParts {
        port,
        clock,
        device,
    } = parts;
    Station::new(alloc, config, port, clock, device, observer, reporting)
}

/// What looks on at a station of this configuration, and tells these outputs what it sees.
fn observer_of<W, O, E>(
    alloc: Global,
    config: &Config,
    outputs: StationOutputs<W, O, E>,
) -> Result<StationObserver<W, O, E>, OutOfMemory>
where
    W: RecordSink + Drop,
    O: LineSink + Drop,
    E: LineSink + Drop,
    ensures { IfOk result (λ observer. observer.recorder ≡ outputs.recorder) }
{
    let StationOutputs {
        recorder,
        out,
        err,
        page,
    } = outputs;
    let mut observer = StationObserver::new(alloc, config, recorder, out, err)?;
    if let Some(page) = page {
        observer.feed(page);
    }
    Ok(observer)
}

/// A device of this configuration in which nothing has happened.
fn device_of(alloc: Global, config: &Config) -> Result<FastDevice, NewFault> {
    FastDevice::new(alloc, config.copy(alloc)?)
}

/// This port with faults at the rates of these options, and with room for orders.
fn ordered_port_of<R>(
    rt: R,
    options: &Options,
    port: StationPort<R>,
) -> Result<OpenPort<R>, OutOfMemory>
where
    R: AllocGlobal + Net + Clock + Wait + Copy + Drop,
{
    let alloc = rt.alloc();
    let port = FaultyPort::new(alloc, port, SystemClock::new(rt), rates_of(options));
    OrderPort::new(alloc, rt, port)
}

/// What a station with these options, at this place, says beside its outcomes.
fn reporting_of(options: &Options, place: &StationPlace) -> Reporting
    ensures { result ≡ reporting_of options.now place.now }
{
    Reporting {
        quiet: options.quiet,
        silent_s: place.inactivity_s,
    }
}

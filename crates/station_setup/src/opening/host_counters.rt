//! What the host of a station has counted of its interface, as its files say.

ghost use Rattle.std.specs.Prelude.{◌≡◌};
ghost use Rattle.station_setup.specs.Opening.Counts.{are_read};

use crate::opening::devices::is_scanner;
use crate::opening::ports::OpenedPort;
use cip_tables::Config;
use cip_types::{Items, Node, OutOfMemory};
use station::HostCounts;
use station_port::{CountersRequested, interface_of, link_counters};
use std::net::Net;
use std::rt::{Clock, Files};
use trace_files::read_regular;

/// The routes of the host, and what it has counted of each interface.
///
/// Linux, `/proc/net`.
const ROUTES: &str = "/proc/net/route";

const COUNTS: &str = "/proc/net/dev";

/// No more of either file is read.
const LONGEST: u64 = 65_536;

/// The files are read again so long after they were read.
const LEAST_MS: u64 = 1000;

/// What the host of a station has counted of the interface of an address. A host that does not say it has counted nothing.
#[derive(Drop)]
pub struct HostCounters<R> {
    rt: R,
    address: Node,
    requested: CountersRequested,
    /// When the files were last read, by the time of the device.
    read_ms: Option<u64>,
}

/// Whether the files are read, which were last read at this time.
fn are_read(read_ms: Option<u64>, now_ms: u64) -> bool
    ensures { result ≡ are_read read_ms now_ms }
{
    match read_ms {
        Some(read) => now_ms.saturating_sub(read) >= LEAST_MS,
        None => true,
    }
}

impl<R: AllocGlobal + Files> HostCounters<R> {
    /// The counters of the interface that the routes of the host have for an address. Who sets the flag has a request that reads them.
    pub fn new(rt: R, address: Node, requested: CountersRequested) -> HostCounters<R>
    where
        R: Drop,
    {
        HostCounters {
            rt,
            address,
            requested,
            read_ms: None,
        }
    }

    /// The counters, if the files say them.
    fn counted(&self) -> Result<Option<Vec<u8>>, OutOfMemory> {
        let Ok(routes) = read_regular(&self.rt, ROUTES, LONGEST) else {
            return Ok(None);
        };
        let Some(interface) = interface_of(routes.as_slice(), self.address) else {
            return Ok(None);
        };
        let Ok(counts) = read_regular(&self.rt, COUNTS, LONGEST) else {
            return Ok(None);
        };
        link_counters(self.rt.alloc(), counts.as_slice(), interface)
    }
}

impl<R: AllocGlobal + Files + Drop> HostCounts for HostCounters<R> {
    fn next_counters(&mut self, now_ms: u64) -> Result<Option<Items<u8>>, OutOfMemory> {
        if !self.requested.take() || !are_read(self.read_ms, now_ms) {
            return Ok(None);
        }
        self.read_ms = Some(now_ms);
        match self.counted()? {
            Some(bytes) => Ok(Some(Items::from_vec(bytes))),
            None => Ok(None),
        }
    }
}

/// What the host counts for a port that is open. An adapter's reports from now on each request that may read it; a scanner's reports
/// none, since a scanner has no object that is read. The only fault is a refused allocation.
pub fn host_of<R>(
    rt: R,
    config: &Config,
    opened: &mut OpenedPort<R>,
) -> Result<HostCounters<R>, OutOfMemory>
where
    R: AllocGlobal + Files + Net + Clock + Copy + Drop,
{
    let requested = CountersRequested::new(rt.alloc())?;
    if !is_scanner(config) {
        opened.port.report_counter_reads(requested.share()?);
    }
    Ok(HostCounters::new(rt, opened.place.address, requested))
}

//! A line of devices, one thread each.

ghost use Rattle.std.specs.Prelude.{◌≡◌, ◌<◌, ◌≤◌, ℕ, None, All, IfOk, map, length, slice_index_or};
ghost use Rattle.std.specs.List.{enumerate_from};
ghost use Rattle.cip_tables.specs.Step.{AcceptsAll};
ghost use Rattle.segment_world.specs.Configs.{world_fault};
ghost use Rattle.settling.specs.Search.Histories.{configs_of};
ghost use Rattle.line_threads.specs.Accounts.{own_in, IsAccount, HasItsReceipts};
ghost use Rattle.line_threads.specs.Lines.{byte_of, job_of, Apart, IsJob, ReportsScripts};
ghost use Rattle.line_threads.specs.Scripts.{events_in, IsOwn};

use crate::fault::LineFault;
use crate::gate::Gate;
use crate::inbox::Inbox;
use crate::line_device::{close_devices, open_devices};
use crate::line_stream::open_streams;
use crate::receipts::gather;
use crate::sending::Network;
use crate::worker::{Locked, work};
use cip_events::Event;
use cip_tables::{Config, Device};
use cip_types::OutOfMemory;
use device_lock::{History, Receipt};
use segment_world::{nodes_of, world_fault};
use std::alloc::{AllocError, Global};
use std::sync::Wait;
use std::thread;
use std::thread::Threads;

/// The devices of a line, and how many datagrams wait for each of them at most.
#[derive(Drop)]
pub struct Line {
    pub configs: Vec<Config>,
    /// From 1 to 65,536.
    pub inbox: usize,
}

/// What happened on a line: the history of each device, in the order of the configurations, and the receipts of all
/// devices, in the same order.
#[derive(Drop)]
pub struct LineRun {
    pub histories: Vec<History>,
    pub receipts: Vec<Receipt>,
}

/// What one worker is to do: the script of the device of this place.
#[derive(Drop)]
pub struct Job {
    pub place: usize,
    pub script: Vec<Event>,
}

/// Performs a script at each device, one thread a device, and returns histories and receipts once all threads have ended.
///
/// Before a device's first event, each scanner has a stream to each of its targets that is another device of the line.
/// Before each event of a script the device receives what waits for it, at most 64 arrivals. What is sent over a stream
/// arrives, in order; a datagram is lost where the inbox of its receiver is full. What waits when a script ends is not
/// delivered. Which of two devices comes first is up to the threads.
///
/// The errors, in order: `World` if no world can be made of the configurations; the fault of the first device whose worker
/// has one; `TraceFull` and `OutOfMemory` of the histories. `OutOfMemory` also comes wherever memory is refused before.
pub fn run_line<D: Device + Drop + Send, G: Gate + Sync, R: Threads + Wait + Sync>(
    rt: &R,
    alloc: Global,
    line: Line,
    scripts: Vec<Vec<Event>>,
    gate: &G,
) -> Result<LineRun, LineFault>
    requires accepts { AcceptsAll D.accepts }
    requires inbox { 0 < line.inbox }
    requires inbox_fits { line.inbox ≤ 65536 }
    requires scripts { length scripts.items ≡ length line.configs.items }
    requires own { All (λ script. IsOwn script.items) scripts.items }
    ensures configs { IfOk result (λ run. configs_of run.histories.items ≡ line.configs.items) }
    ensures valid { IfOk result (λ run. world_fault (configs_of run.histories.items) ≡ None) }
    ensures scripts { IfOk result
        (λ run. ReportsScripts (map byte_of line.configs.items) scripts.items run.receipts.items) }
    ensures receipts { IfOk result (λ run. All (HasItsReceipts run.receipts.items) run.histories.items) }
    ensures own { IfOk result (λ run. map own_in run.histories.items ≡ map events_in scripts.items) }
{
    let Line { configs, inbox } = line;
    if let Some(_) = world_fault(&configs) {
        return Err(LineFault::World);
    }
    let devices = open_devices::<D>(alloc, &configs)?;
    let receipts = run_devices(rt, alloc, &configs, inbox, &devices, scripts, gate)?;
    let histories = close_devices(alloc, devices, &receipts)?;
    Ok(LineRun {
        histories,
        receipts,
    })
}

/// Performs the scripts at the devices, and returns the receipts of all once each has ended.
fn run_devices<L: Locked + Sync, G: Gate + Sync, R: Threads + Wait + Sync>(
    rt: &R,
    alloc: Global,
    configs: &[Config],
    inbox: usize,
    devices: &[L],
    scripts: Vec<Vec<Event>>,
    gate: &G,
) -> Result<Vec<Receipt>, LineFault>
    requires inbox { 0 < inbox }
    requires scripts { length scripts.items ≡ length devices.now }
    requires own { All (λ script. IsOwn script.items) scripts.items }
    requires apart { Apart (map L.device devices.now) }
    ensures { IfOk result (λ v. ReportsScripts (map L.device devices.now) scripts.items v.items) }
{
    let nodes = nodes_of(alloc, configs)?;
    let streams = open_streams(alloc, &nodes, configs)?;
    let inboxes = open_inboxes(alloc, configs.len(), inbox)?;
    let jobs = jobs_of(alloc, scripts)?;
    let network = Network {
        nodes: &nodes,
        streams: &streams,
        inboxes: &inboxes,
    };
    gather(alloc, run_jobs(rt, alloc, &network, gate, devices, jobs)?)
}

fn open_inboxes(alloc: Global, count: usize, capacity: usize) -> Result<Vec<Inbox>, OutOfMemory>
    requires { 0 < capacity }
    ensures { IfOk result (λ v. length v.items ≡ count) }
{
    let mut inboxes = Vec::new(alloc);
    for _ in 0..count {
        inboxes.push(Inbox::new(alloc, capacity)?)?;
    }
    Ok(inboxes)
}

fn jobs_of(alloc: Global, scripts: Vec<Vec<Event>>) -> Result<Vec<Job>, AllocError>
    ensures { IfOk result (λ v. v.items ≡ map job_of (enumerate_from 0 scripts.items)) }
{
    scripts
        .into_iter()
        .enumerate()
        .map(|(place, script)| Job { place, script })
        .collect(alloc)
}

/// One worker for each job.
fn run_jobs<L: Locked + Sync, G: Gate + Sync, R: Threads + Wait + Sync>(
    rt: &R,
    alloc: Global,
    network: &Network<'_>,
    gate: &G,
    devices: &[L],
    jobs: Vec<Job>,
) -> Result<Vec<Result<Vec<Receipt>, LineFault>>, AllocError>
    requires { All (IsJob (length devices.now)) jobs.items }
    ensures len { IfOk result (λ v. length v.items ≡ length jobs.items) }
    ensures each { IfOk result (λ v. (i : ℕ) (d : L) (j : Job) (a : _) → i < length jobs.items
        → IfOk (slice_index_or v.items i a)
        (λ rs. IsAccount (L.device (slice_index_or devices.now (slice_index_or jobs.items i j).place d))
        (slice_index_or jobs.items i j).script.items rs.items)) }
{
    thread::map_vec(
        rt,
        jobs,
        &|job: Job| -> Result<Vec<Receipt>, LineFault>
            requires { IsJob (length devices.now) job }
            ensures { IfOk result
                (λ rs. (d : L) → IsAccount
                (L.device (slice_index_or devices.entry.now job.place d)) job.script.items rs.items) }
        {
            work(
                rt,
                alloc,
                network,
                gate,
                job.place,
                &devices[job.place],
                job.script,
            )
        },
    )
}

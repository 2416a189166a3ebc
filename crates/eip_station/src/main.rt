//! The station program: an adapter or a scanner at a real address, whose run can be recorded and replayed.
#![tactic(auto)]

mod failure;
mod needs;
mod paging;
mod profiles;
mod program;
mod rules;
mod scripting;
mod stationing;
mod texts;

use failure::{Failure, NO_MEMORY, NO_THREAD, status_of};
use fast_device::FastDevice;
use needs::page_threads;
use page_server::{SharedPage, begin_page};
use plant_command::work;
use plant_rim::SharedPlant;
use program::Surroundings;
use station_port::Alarm;
use station_rim::{Rim, begin_output};
use std::io::Write;
use std::process::ExitCode;
use std::rt::Clock;
use std::sync::Wait;
use std::thread::{self, Threads};

/// Performs what the command line requests, and ends with its status. A station has threads of their own for its input, its
/// outputs, its record, its state's file, its page and its alarm; they are not joined, and end with the program. Those of the
/// record, the state's file, the input, the page and a plant begin here: of a generic function that begins them the prover has no
/// account.
fn main(rt: HostRuntime) -> ExitCode {
    let (Ok(rim), Ok(alarm)) = (Rim::new(rt.alloc()), Alarm::new(rt.alloc(), &rt)) else {
        return no_memory(rt.stderr());
    };
    let (Some(needs), Ok(input)) = (program::needs_of(&rt), rim.input.share()) else {
        return no_memory(rt.stderr());
    };
    let (Ok(plant), Ok(page), Ok(record), Ok(ids), Ok(err)) = (
        SharedPlant::new(rt.alloc(), &rim.out, &rim.err),
        SharedPage::new(rt.alloc(), needs.devices),
        rim.record.share(),
        rim.ids.share(),
        rim.err.share(),
    ) else {
        return no_memory(rt.stderr());
    };
    let has_outputs = !needs.outputs
        || (begin_output(rt, &rim.out, rt.stdout()) && begin_output(rt, &rim.err, rt.stderr()));
    let is_begun = has_outputs && (!needs.alarm || begin_alarm(rt, &alarm));
    if !is_begun || (needs.page && !begin_page(rt, &page, &rim.input)) {
        return no_thread(rt.stderr());
    }
    if (needs.record && thread::spawn(&rt, move || record.write_files(&rt)).is_err())
        || (needs.state && thread::spawn(&rt, move || ids.keep(&rt, &err)).is_err())
        || (needs.input && thread::spawn(&rt, move || input.fill(&rt, rt.reader())).is_err())
    {
        return no_thread(rt.stderr());
    }
    for _ in 0..page_threads(needs.page) {
        let Ok(page) = page.share() else {
            return no_memory(rt.stderr());
        };
        if thread::spawn(&rt, move || page.serve::<HostRuntime, FastDevice>(&rt)).is_err() {
            return no_thread(rt.stderr());
        }
    }
    for _ in 0..needs.plant {
        let Ok(plant) = plant.share() else {
            return no_memory(rt.stderr());
        };
        if thread::spawn(&rt, move || work(rt, &plant)).is_err() {
            return no_thread(rt.stderr());
        }
    }
    let shared = Surroundings {
        rim,
        page,
        alarm,
        plant,
    };
    program::run(rt, shared, rt.stdout(), rt.stderr())
}

/// Begins the thread that rings the alarm of a station. Whether it could begin.
fn begin_alarm<R>(rt: R, alarm: &Alarm) -> bool
where
    R: Threads + Wait + Clock + Copy + Send + Drop + 'static,
{
    match alarm.share() {
        Ok(alarm) => thread::spawn(&rt, move || alarm.keep_ringing(&rt)).is_ok(),
        Err(_) => false,
    }
}

/// Reports that there is no memory to begin with, and answers the status for that.
fn no_memory<E: Write + Drop>(err: E) -> ExitCode {
    refused(err, NO_MEMORY, Failure::OutOfMemory)
}

/// Reports that the system refuses a thread, and answers the status for that.
fn no_thread<E: Write + Drop>(err: E) -> ExitCode {
    refused(err, NO_THREAD, Failure::Thread)
}

/// Reports a failure of the beginning by its line, as far as the stream takes that, and answers its status.
fn refused<E: Write + Drop>(err: E, line: &[u8], failure: Failure) -> ExitCode {
    let mut err = err;
    let _ = err.write_all(line);
    ExitCode::from(status_of(failure))
}

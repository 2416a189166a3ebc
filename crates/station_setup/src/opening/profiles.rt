//! Profiles in files.

ghost use Rattle.std.specs.Prelude.{◌≡◌};
ghost use Rattle.station_setup.specs.Opening.Profiles.{refusal_of, unread_profile};

use crate::opening::unserved::sentence_of;
use crate::unservable::{StationDefect, station_defect};
use cip_tables::Config;
use cip_types::limits::LONGEST_TRACE;
use cip_types::{Node, OutOfMemory};
use std::rt::Files;
use trace_faults::explain_fault;
use trace_files::{FileFault, read_regular};
use trace_text::{Trace, TraceFault, read_trace};
use trace_words::{Names, ReadNames, read_names};

/// Why a file gives no profile.
#[derive(Drop)]
pub enum UnusableProfile {
    /// The file is not read, for this reason.
    Unread(FileFault),
    /// The text is no trace, which the sentence explains.
    Bad(TraceFault, String),
    /// There are events behind the profile.
    Events,
    /// The profile says what no station can serve, which the sentence explains.
    Unserved(String),
    /// An allocation was refused.
    OutOfMemory,
}

/// Why a trace that is read gives no profile.
#[derive(Clone, Copy, PartialEq, Eq)]
enum TraceRefusal {
    Events,
    Unserved(StationDefect),
}

impl From<OutOfMemory> for UnusableProfile {
    fn from(_refused: OutOfMemory) -> UnusableProfile {
        UnusableProfile::OutOfMemory
    }
}

/// The profile of a file, which is to have no events, for a station at this address or, without one, at that of the profile.
///
/// The faults, in order: `Unread`, or `OutOfMemory` if the file is not read for want of memory; `Bad`; `Events`; `Unserved`.
pub fn profile_in<R: Files + AllocGlobal>(
    rt: &R,
    path: &str,
    address: Option<Node>,
) -> Result<Config, UnusableProfile> {
    let alloc = rt.alloc();
    let text = match read_regular(rt, path, LONGEST_TRACE as u64) {
        Ok(text) => text,
        Err(fault) => return Err(unread_profile(fault)),
    };
    let Trace { config, events } = match read_trace(alloc, text.as_slice()) {
        Ok(trace) => trace,
        Err(TraceFault::OutOfMemory) => return Err(UnusableProfile::OutOfMemory),
        Err(fault) => {
            let sentence = explain_fault(alloc, text.as_slice(), fault)?;
            return Err(UnusableProfile::Bad(fault, sentence));
        }
    };
    match refusal_of(&config, !events.as_slice().is_empty(), address) {
        None => Ok(config),
        Some(TraceRefusal::Events) => Err(UnusableProfile::Events),
        Some(TraceRefusal::Unserved(defect)) => {
            let sentence = sentence_of(alloc, text.as_slice(), &config, defect)?;
            Err(UnusableProfile::Unserved(sentence))
        }
    }
}

/// Why a trace of this profile, with events or without, gives none of a station at this address.
fn refusal_of(config: &Config, has_events: bool, address: Option<Node>) -> Option<TraceRefusal>
    ensures { result ≡ refusal_of config.now has_events address }
{
    if has_events {
        return Some(TraceRefusal::Events);
    }
    match station_defect(config, address) {
        Some(defect) => Some(TraceRefusal::Unserved(defect)),
        None => None,
    }
}

/// The names that the comment lines of a profile's file say, and its bad name lines. None of a file that cannot be read.
pub fn names_in<R: Files + AllocGlobal>(rt: &R, path: &str) -> Result<ReadNames, OutOfMemory> {
    let alloc = rt.alloc();
    match read_regular(rt, path, LONGEST_TRACE as u64) {
        Ok(text) => read_names(alloc, text.as_slice()),
        Err(FileFault::OutOfMemory) => Err(OutOfMemory),
        Err(_) => Ok(ReadNames {
            names: Names::none(alloc),
            bad: Vec::new(alloc),
        }),
    }
}

/// Why a file is not read.
pub fn unread_profile(fault: FileFault) -> UnusableProfile
    ensures { result ≡ unread_profile fault }
{
    match fault {
        FileFault::OutOfMemory => UnusableProfile::OutOfMemory,
        other => UnusableProfile::Unread(other),
    }
}

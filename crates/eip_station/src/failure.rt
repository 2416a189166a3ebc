//! Why the program fails: the line on standard error, and the status.

ghost use Rattle.std.specs.Prelude.{◌≡◌};
ghost use Rattle.eip_station.specs.Failures.{end_status, failure_at, file_subject, is_reported, status_of, subject_in, unread_end};

use cip_events::NewFault;
use cip_types::OutOfMemory;
use command_lines::{StationMisuse, file_at, wrong_word};
use identity_search::SearchFault;
use plant_command::PlantFailure;
use settle_command::SettleFault;
use station::EarlyEnd;
use station_port::{SocketCause, StationFault, StationSocket};
use station_record::{RecordFault, StateFault};
use station_setup::{ReportFault, SocketPlace};
use std::alloc::{AllocError, AllocFailed};
use thiserror::Error;
use trace_commands::TracesFault;
use trace_files::FileFault;
use trace_text::TraceFault;
use world_command::WorldFailure;

/// The line where an allocation was refused.
pub const NO_MEMORY: &[u8] = b"eip_station: no memory\n";

/// The line where the system refused a thread.
pub const NO_THREAD: &[u8] = b"eip_station: the system refuses a thread\n";

/// Why the program fails.
#[derive(Clone, Copy, Debug, PartialEq, Eq, Error)]
pub enum Failure {
    /// The command line requests nothing.
    #[error(transparent)]
    Words(#[from] StationMisuse),
    /// The file is not read, for this reason.
    #[error("{0}")]
    Unread(FileFault),
    /// The file is no profile, or no trace.
    #[error(transparent)]
    Profile(TraceFault),
    /// The profile has events behind its lines.
    #[error("has events behind the profile")]
    Events,
    /// The profile is that of an adapter, where a scanner's is needed, or the other way round.
    #[error("is the profile of the other kind of device")]
    WrongKind,
    /// The profile says what no station can serve.
    #[error("is the profile of no station")]
    Unserved,
    /// A socket cannot be made, at this place.
    #[error("the {0}{2} {1}")]
    Socket(StationSocket, SocketCause, SocketPlace),
    /// Files are not played, written as a capture file or explained to their end.
    #[error(transparent)]
    Traces(TracesFault),
    /// Files are not settled.
    #[error(transparent)]
    Settling(SettleFault),
    /// A story is not played to its end.
    #[error(transparent)]
    World(WorldFailure),
    /// No device is found.
    #[error(transparent)]
    Search(SearchFault),
    /// A plant fails.
    #[error(transparent)]
    Plant(PlantFailure),
    /// The file of the state is not read.
    #[error("{0}")]
    UnreadState(FileFault),
    /// The file of the state holds no state.
    #[error("holds no state of a station")]
    State,
    /// The file of the state cannot be written.
    #[error("cannot be written")]
    NoState,
    /// The record cannot be made.
    #[error("cannot be written")]
    Record,
    /// The file of the script is not read, or is none, of which a line has told.
    #[error("is no script")]
    Script,
    /// The report on the script is not written, for this reason.
    #[error("{0}")]
    Report(ReportFault),
    /// The script has not passed, of which lines have told.
    #[error("the script has not passed")]
    Unpassed,
    /// The record has ended before its station.
    #[error("the record cannot take more and has ended")]
    RecordEnd,
    /// Nobody reads the standard output any more, of which nothing is said.
    #[error("nobody reads the standard output")]
    Unheard,
    /// The standard output does not take a text.
    #[error("standard output cannot be written")]
    Output,
    /// The system gives no random bytes for the word or the token of the page.
    #[error("no word can be drawn for the page")]
    Token,
    /// The system refuses a thread.
    #[error("the system refuses a thread")]
    Thread,
    /// An allocation was refused.
    #[error("no memory")]
    OutOfMemory,
    /// The station ended before its time.
    #[error(transparent)]
    Early(EarlyEnd),
}

/// The status of the program after a failure.
pub fn status_of(failure: Failure) -> u8
    ensures { result ≡ status_of failure }
{
    match failure {
        Failure::Early(_) => 1,
        Failure::Output => 1,
        Failure::Unheard => 1,
        Failure::Traces(fault) => fault.status(),
        Failure::Settling(fault) => fault.status(),
        Failure::World(failure) => failure.status(),
        Failure::Search(fault) => fault.status(),
        Failure::Plant(failure) => failure.status(),
        Failure::Words(StationMisuse::BadAddress(_)) => 4,
        Failure::Words(_) => 2,
        Failure::Unread(_) => 3,
        Failure::Profile(_) => 3,
        Failure::Events => 3,
        Failure::WrongKind => 3,
        Failure::Unserved => 3,
        Failure::UnreadState(_) => 3,
        Failure::State => 3,
        Failure::Script => 3,
        Failure::Socket(_, SocketCause::NoAddress, _) => 4,
        Failure::Socket(_, _, _) => 5,
        Failure::Token => 5,
        Failure::Record => 6,
        Failure::RecordEnd => 6,
        Failure::NoState => 6,
        Failure::Report(_) => 6,
        Failure::Unpassed => 8,
        Failure::Thread => 7,
        Failure::OutOfMemory => 7,
    }
}

/// The status of the program, behind what it did.
pub fn end_status(done: Result<(), Failure>) -> u8
    ensures { result ≡ end_status done }
{
    match done {
        Ok(()) => 0,
        Err(failure) => status_of(failure),
    }
}

/// How a task ends that writes a text or a capture file: if nobody reads on, nothing is said of it.
pub fn unread_end(done: Result<(), Failure>, is_unread: bool) -> Result<(), Failure>
    ensures { result ≡ unread_end done is_unread }
{
    match done {
        Ok(()) => Ok(()),
        Err(_) if is_unread => Err(Failure::Unheard),
        Err(failure) => Err(failure),
    }
}

impl From<TraceFault> for Failure {
    ghost use Rattle.eip_station.specs.Failures.{trace_failure};

    ghost from_gives = { λ fault given. given ≡ trace_failure fault };

    fn from(fault: TraceFault) -> Failure {
        match fault {
            TraceFault::OutOfMemory => Failure::OutOfMemory,
            other => Failure::Profile(other),
        }
    }
}

impl From<StationFault> for Failure {
    ghost use Rattle.eip_station.specs.Failures.{port_failure};

    ghost from_gives = { λ fault given. given ≡ port_failure fault };

    fn from(fault: StationFault) -> Failure {
        Failure::at(fault, SocketPlace::NONE)
    }
}

impl From<NewFault> for Failure {
    ghost use Rattle.eip_station.specs.Failures.{new_failure};

    ghost from_gives = { λ fault given. given ≡ new_failure fault };

    fn from(fault: NewFault) -> Failure {
        match fault {
            NewFault::OutOfMemory => Failure::OutOfMemory,
            NewFault::WrongKind => Failure::WrongKind,
            NewFault::Profile(first) => Failure::Profile(TraceFault::BadProfile(first.number())),
        }
    }
}

impl From<StateFault> for Failure {
    ghost use Rattle.eip_station.specs.Failures.{state_failure};

    ghost from_gives = { λ fault given. given ≡ state_failure fault };

    fn from(fault: StateFault) -> Failure {
        match fault {
            StateFault::Unread(fault) => Failure::UnreadState(fault),
            StateFault::NoState => Failure::State,
            StateFault::Unwritten => Failure::NoState,
            StateFault::OutOfMemory => Failure::OutOfMemory,
        }
    }
}

impl From<RecordFault> for Failure {
    ghost use Rattle.eip_station.specs.Failures.{record_failure};

    ghost from_gives = { λ fault given. given ≡ record_failure fault };

    fn from(fault: RecordFault) -> Failure {
        match fault {
            RecordFault::OutOfMemory => Failure::OutOfMemory,
            RecordFault::Refused => Failure::Record,
            RecordFault::Full => Failure::Record,
        }
    }
}

impl From<ReportFault> for Failure {
    ghost use Rattle.eip_station.specs.Failures.{report_failure};

    ghost from_gives = { λ fault given. given ≡ report_failure fault };

    fn from(fault: ReportFault) -> Failure {
        match fault {
            ReportFault::OutOfMemory => Failure::OutOfMemory,
            other => Failure::Report(other),
        }
    }
}

impl From<TracesFault> for Failure {
    ghost use Rattle.eip_station.specs.declared.failure.Failure.TheVariants as failure;

    ghost from_gives = { λ fault given. given ≡ failure.Traces fault };

    fn from(fault: TracesFault) -> Failure {
        Failure::Traces(fault)
    }
}

impl From<EarlyEnd> for Failure {
    ghost use Rattle.eip_station.specs.Failures.{early_failure};

    ghost from_gives = { λ end given. given ≡ early_failure end };

    fn from(end: EarlyEnd) -> Failure {
        match end {
            EarlyEnd::OutOfMemory => Failure::OutOfMemory,
            other => Failure::Early(other),
        }
    }
}

impl From<OutOfMemory> for Failure {
    ghost use Rattle.eip_station.specs.declared.failure.Failure.TheVariants as failure;

    ghost from_gives = { λ _ given. given ≡ failure.OutOfMemory };

    fn from(_refused: OutOfMemory) -> Failure {
        Failure::OutOfMemory
    }
}

impl From<AllocError> for Failure {
    ghost use Rattle.eip_station.specs.declared.failure.Failure.TheVariants as failure;

    ghost from_gives = { λ _ given. given ≡ failure.OutOfMemory };

    fn from(_refused: AllocError) -> Failure {
        Failure::OutOfMemory
    }
}

impl<T: Drop> From<AllocFailed<T>> for Failure {
    ghost use Rattle.eip_station.specs.declared.failure.Failure.TheVariants as failure;

    ghost from_gives = { λ _ given. given ≡ failure.OutOfMemory };

    fn from(_refused: AllocFailed<T>) -> Failure {
        Failure::OutOfMemory
    }
}

impl Failure {
    /// The failure of a socket at this place.
    pub fn at(fault: StationFault, place: SocketPlace) -> Failure
        ensures { result ≡ failure_at fault place }
    {
        match fault {
            StationFault::Socket(socket, cause) => Failure::Socket(socket, cause, place),
            StationFault::OutOfMemory => Failure::OutOfMemory,
        }
    }
}

/// Whether a line has told the failure already, or none is to.
pub fn is_reported(failure: Failure) -> bool
    ensures { result ≡ is_reported failure }
{
    match failure {
        Failure::Plant(failure) => failure.is_reported(),
        Failure::Profile(_) => true,
        Failure::Unserved => true,
        Failure::Unheard => true,
        Failure::UnreadState(_) => true,
        Failure::State => true,
        Failure::NoState => true,
        Failure::Script => true,
        Failure::Unpassed => true,
        Failure::RecordEnd => true,
        _ => false,
    }
}

/// What the line of a failure names.
#[derive(Clone, Copy, PartialEq, Eq)]
enum Subject {
    Nothing,
    /// The wrong word of the command line.
    Word(StationMisuse),
    /// The file of this number.
    File(usize),
    Record,
}

/// What the line of a failure names.
fn subject_in(failure: Failure) -> Subject
    ensures { result ≡ subject_in failure }
{
    match failure {
        Failure::Words(misuse) => Subject::Word(misuse),
        Failure::Unread(_) => Subject::File(0),
        Failure::Events => Subject::File(0),
        Failure::WrongKind => Subject::File(0),
        Failure::World(WorldFailure::Write) => Subject::Nothing,
        Failure::World(WorldFailure::OutOfMemory) => Subject::Nothing,
        Failure::World(_) => Subject::File(0),
        Failure::Plant(PlantFailure::Unread(_)) => Subject::File(0),
        Failure::Traces(TracesFault::Events) => Subject::File(0),
        Failure::Traces(TracesFault::Scanner) => Subject::File(0),
        Failure::Traces(TracesFault::Unread(place, _)) => Subject::File(place),
        Failure::Settling(fault) => file_subject(fault.file()),
        Failure::Record => Subject::Record,
        _ => Subject::Nothing,
    }
}

/// The file of this number, if there is one.
fn file_subject(file: Option<usize>) -> Subject
    ensures { result ≡ file_subject file }
{
    match file {
        Some(place) => Subject::File(place),
        None => Subject::Nothing,
    }
}

/// The words before a failure: the wrong word of the command line, or the file.
pub fn subject_of(words: &[String], failure: Failure) -> &str {
    match subject_in(failure) {
        Subject::Nothing => "",
        Subject::Word(misuse) => wrong_word(words, misuse),
        Subject::File(place) => file_at(words, place),
        Subject::Record => "the record",
    }
}

//! The file of a station's state.

ghost use Rattle.std.specs.Prelude.{◌≡◌};
ghost use Rattle.station_record.specs.KeptState.States.{state_of};
ghost use Rattle.station_record.specs.KeptFiles.StateFiles.{drawn_number, held_state, unread_state};

use crate::kept_files::fresh::fresh_file;
use crate::kept_state::{
    StationState, begin_state, drawn_serials, kept_ids, life_block, push_state, read_state,
    with_ids,
};
use cip_types::{IdBlock, OutOfMemory};
use std::alloc::{AllocError, AllocFailed, Global};
use std::fs::{self, File, OpenFile};
use std::io::{self, ErrorKind, Write};
use std::random::RandomSource;
use std::rt::Files;
use thiserror::Error;
use trace_files::{FileFault, read_regular};

/// Why a station has no state to begin with.
#[derive(Clone, Copy, Debug, PartialEq, Eq, Error)]
pub enum StateFault {
    /// The file is not read, for this reason.
    #[error("{0}")]
    Unread(FileFault),
    /// The file holds no state.
    #[error("holds no state of a station")]
    NoState,
    /// The file cannot be written.
    #[error("cannot be written")]
    Unwritten,
    /// An allocation was refused.
    #[error("no memory")]
    OutOfMemory,
}

impl From<OutOfMemory> for StateFault {
    fn from(_refused: OutOfMemory) -> StateFault {
        StateFault::OutOfMemory
    }
}

impl From<AllocError> for StateFault {
    fn from(_refused: AllocError) -> StateFault {
        StateFault::OutOfMemory
    }
}

impl<T: Drop> From<AllocFailed<T>> for StateFault {
    fn from(_refused: AllocFailed<T>) -> StateFault {
        StateFault::OutOfMemory
    }
}

/// A serial number that is 0 is drawn again, so often.
const MOST_DRAWS: u32 = 16;

/// A file with a state has at most so many bytes.
const LONGEST_STATE: u64 = 4_096;

/// The state of a start, which is on the medium beside the last one until the start has succeeded.
#[derive(Drop)]
pub struct Start {
    state: StationState,
    /// The block of connection ids that the start has reserved, if it is counted.
    block: Option<IdBlock>,
    /// Whether ids of the block were given before: all others have been given since.
    ends_circle: bool,
    /// Where the state is kept, if the start is counted.
    file: Option<StateFile>,
}

/// The file of a station's state, and that beside it, in which a new state is before it takes the place of the last one.
#[derive(Drop)]
pub struct StateFile {
    alloc: Global,
    path: String,
    new: String,
}

impl Start {
    /// A start of this incarnation that is not counted. Its serial number is 0, and its first connection serial number is drawn.
    /// Takes no memory.
    pub fn uncounted<R: RandomSource>(rt: &R, incarnation: u8) -> Start {
        Start {
            state: StationState {
                incarnation,
                serial: 0,
                serials: Some(drawn_serials(drawn(rt))),
                ids: None,
            },
            block: None,
            ends_circle: false,
            file: None,
        }
    }

    /// A start that is counted in a file, and whose incarnation may be given. Its state is on the medium before this returns,
    /// in a file of its own: that of the last start stays until `keep`, so that a start that fails uses no incarnation up. It has
    /// the block of connection ids that the start reserves.
    ///
    /// The faults: `Unread` if the file is not read, `NoState` if it holds none, `Unwritten` if the new one cannot be written,
    /// `OutOfMemory`.
    pub fn begin<R>(rt: &R, path: &str, given: Option<u8>, own: u8) -> Result<Start, StateFault>
    where
        R: AllocGlobal + Files<File = File> + RandomSource,
    {
        let alloc = rt.alloc();
        let state = begin_state(last_state(rt, path)?, given, own, drawn(rt));
        let ids = kept_ids(&state, drawn(rt));
        let state = with_ids(state, ids.with_reserved());
        let file = StateFile {
            alloc,
            path: format!(in alloc; "{path}")?,
            new: format!(in alloc; "{path}.new")?,
        };
        file.write(rt, state)?;
        Ok(Start {
            state,
            block: Some(life_block(ids.next_block(), drawn(rt))),
            ends_circle: ids.ends_circle(),
            file: Some(file),
        })
    }

    /// The state of the start.
    pub fn state(&self) -> StationState {
        self.state
    }

    /// The block of connection ids that the life begins with. None if the start is not counted: its ids are those of its
    /// incarnation.
    pub fn block(&self) -> Option<IdBlock> {
        self.block
    }

    /// Whether ids of the block were given before: all others have been given since.
    pub fn ends_circle(&self) -> bool {
        self.ends_circle
    }

    /// The file in which the start is counted; empty if it is not counted.
    pub fn path(&self) -> &str {
        match &self.file {
            Some(file) => file.path.as_str(),
            None => "",
        }
    }

    /// The start is counted from now on: its state takes the place of the last one, at once and on the medium. No connection
    /// id is given before. The only fault is `Unwritten`.
    pub fn keep<R: Files<File = File>>(&self, rt: &R) -> Result<(), StateFault> {
        match &self.file {
            Some(file) => file.replace(rt, self.state),
            None => Ok(()),
        }
    }

    /// The file in which the start is counted, for what is reserved in the life and given back at its end. None if it is not
    /// counted. OutOfMemory is the only fault.
    pub fn file(&self) -> Result<Option<StateFile>, OutOfMemory> {
        match &self.file {
            Some(file) => Ok(Some(file.copy()?)),
            None => Ok(None),
        }
    }

    /// The start has failed and is not counted: the last state stays, and nothing is left beside it, as far as the system
    /// allows.
    pub fn discard<R: Files<File = File>>(&self, rt: &R) {
        if let Some(file) = &self.file {
            let _ = fs::remove_file(rt, file.new.as_str());
        }
    }
}

impl StateFile {
    /// The same file. OutOfMemory is the only fault.
    fn copy(&self) -> Result<StateFile, OutOfMemory> {
        let (alloc, path, new) = (self.alloc, self.path.as_str(), self.new.as_str());
        Ok(StateFile {
            alloc,
            path: format!(in alloc; "{path}")?,
            new: format!(in alloc; "{new}")?,
        })
    }

    /// Has a state take the place of the last one, on the medium. The only fault is `Unwritten`: the last state stays, or this
    /// one is in its place and perhaps not on the medium.
    pub fn put<R: Files<File = File>>(
        &self,
        rt: &R,
        state: StationState,
    ) -> Result<(), StateFault> {
        self.write(rt, state)?;
        self.replace(rt, state)
    }

    /// The path of the file.
    pub fn path(&self) -> &str {
        self.path.as_str()
    }

    /// Writes a state to the file beside the last one, on the medium. The only fault is `Unwritten`.
    fn write<R: Files<File = File>>(&self, rt: &R, state: StationState) -> Result<(), StateFault> {
        match self.write_new(rt, state) {
            Ok(()) => Ok(()),
            Err(_) => Err(StateFault::Unwritten),
        }
    }

    fn write_new<R: Files<File = File>>(&self, rt: &R, state: StationState) -> io::Result<()> {
        let mut text = String::new(self.alloc);
        if push_state(&mut text, state).is_err() {
            return Err(io::Error::from(ErrorKind::OutOfMemory));
        }
        let mut file = fresh_file(rt, self.new.as_str())?;
        file.write_all(text.as_bytes())?;
        file.sync_all()
    }

    /// Has the file beside the last state take its place. The only fault is `Unwritten`.
    fn replace<R: Files<File = File>>(
        &self,
        rt: &R,
        state: StationState,
    ) -> Result<(), StateFault> {
        match self.move_new(rt, state) {
            Ok(()) => Ok(()),
            Err(_) => Err(StateFault::Unwritten),
        }
    }

    /// Moves the file beside the last state to its place. (Another start of this state, which has failed meanwhile, may have
    /// removed it.)
    fn move_new<R: Files<File = File>>(&self, rt: &R, state: StationState) -> io::Result<()> {
        let (path, new) = (self.path.as_str(), self.new.as_str());
        if fs::rename(rt, new, path).is_err() {
            self.write_new(rt, state)?;
            fs::rename(rt, new, path)?;
        }
        sync_folder(rt, folder_of(path))
    }
}

/// Has the names of a folder written to the medium. A file system that does not take this request keeps the order of renames
/// itself.
fn sync_folder<R: Files<File = File>>(rt: &R, path: &str) -> io::Result<()> {
    let folder = File::open(rt, path)?;
    match folder.sync_all() {
        Err(error) if is_unknown(error.kind()) => Ok(()),
        done => done,
    }
}

/// Whether an error says that a file system does not take a request.
fn is_unknown(kind: ErrorKind) -> bool {
    match kind {
        ErrorKind::InvalidInput | ErrorKind::Unsupported => true,
        _ => false,
    }
}

/// The state in a file; None if there is no file.
fn last_state<R>(rt: &R, path: &str) -> Result<Option<StationState>, StateFault>
where
    R: AllocGlobal + Files<File = File>,
{
    match read_regular(rt, path, LONGEST_STATE) {
        Ok(text) => held_state(text.as_slice()),
        Err(fault) => unread_state(fault),
    }
}

/// The state that a file's text is. The fault: `NoState` if it is none.
fn held_state(text: &[u8]) -> Result<Option<StationState>, StateFault>
    ensures { result ≡ held_state (state_of text.now) }
{
    match read_state(text) {
        Some(state) => Ok(Some(state)),
        None => Err(StateFault::NoState),
    }
}

/// The state of a file that is not read: none if there is no file. The faults: `OutOfMemory`, and else `Unread`.
fn unread_state(fault: FileFault) -> Result<Option<StationState>, StateFault>
    ensures { result ≡ unread_state fault }
{
    match fault {
        FileFault::Missing => Ok(None),
        FileFault::OutOfMemory => Err(StateFault::OutOfMemory),
        other => Err(StateFault::Unread(other)),
    }
}

/// The folder of a path.
fn folder_of(path: &str) -> &str {
    match path.rsplit_once('/') {
        Some(("", _)) => "/",
        Some((folder, _)) => folder,
        None => ".",
    }
}

/// A serial number that is drawn: not 0. It is 1 where the system draws none.
fn drawn<R: RandomSource>(rt: &R) -> u32 {
    for _ in 0..MOST_DRAWS {
        let mut bytes = [0u8; 4];
        if rt.fill_bytes(&mut bytes).is_err() {
            break;
        }
        if let Some(number) = drawn_number(u32::from_le_bytes(bytes)) {
            return number;
        }
    }
    1
}

/// A number, if it is a serial number.
fn drawn_number(number: u32) -> Option<u32>
    ensures { result ≡ drawn_number number }
{
    if number == 0 { None } else { Some(number) }
}

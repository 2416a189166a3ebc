//! Files that are played again.

use crate::fault::TracesFault;
use crate::handing::{LineTaker, hand_out};
use fast_device::FastDevice;
use std::alloc::Global;
use std::fs::File;
use std::io::{BufWriter, Write};
use std::rt::Files;
use trace_files::{Player, TracePiece, TraceReader};
use trace_stepper::write_text;

/// Plays the files at a fresh device of their profile: prints each outcome before the next step, and then the number of
/// the first event whose outcome is not as recorded, if there is one. The files are read twice, so that nothing is printed
/// if they are no trace. It takes the memory of the device, of the profile's lines and of one entry.
pub fn replay<R, O>(rt: &R, files: &[String], out: O) -> Result<(), TracesFault>
where
    R: AllocGlobal + Files<File = File>,
    O: Write + Drop,
{
    check(rt, files)?;
    play(rt, files, out)
}

/// Reads the files for the faults of their lines.
fn check<R>(rt: &R, files: &[String]) -> Result<(), TracesFault>
where
    R: AllocGlobal + Files<File = File>,
{
    let mut check = FaultSearch {
        reader: TraceReader::new(rt.alloc()),
    };
    let rest = hand_out(rt, files, &mut check)?;
    let FaultSearch { reader } = check;
    reader.end(rest.as_slice())?;
    Ok(())
}

/// Reads lines for their faults.
#[derive(Drop)]
struct FaultSearch {
    reader: TraceReader,
}

impl LineTaker for FaultSearch {
    fn take_line(&mut self, line: &[u8]) -> Result<(), TracesFault> {
        self.reader.feed(line)?;
        Ok(())
    }
}

/// Plays files that are a trace.
fn play<R, O>(rt: &R, files: &[String], out: O) -> Result<(), TracesFault>
where
    R: AllocGlobal + Files<File = File>,
    O: Write + Drop,
{
    let alloc = rt.alloc();
    let Ok(out) = BufWriter::new(alloc, out) else {
        return Err(TracesFault::OutOfMemory);
    };
    let mut playing = Playing {
        reader: TraceReader::new(alloc),
        stage: PlayedTrace {
            alloc,
            player: None,
            out,
        },
    };
    let handed = hand_out(rt, files, &mut playing);
    let Playing { reader, mut stage } = playing;
    let played = match handed {
        Ok(rest) => end(reader, &mut stage, rest.as_slice()),
        Err(fault) => Err(fault),
    };
    stage.flush()?;
    played
}

/// Reads lines, and plays what they give.
#[derive(Drop)]
struct Playing<O: Write + Drop> {
    reader: TraceReader,
    stage: PlayedTrace<O>,
}

impl<O: Write + Drop> LineTaker for Playing<O> {
    fn take_line(&mut self, line: &[u8]) -> Result<(), TracesFault> {
        match self.reader.feed(line)? {
            Some(piece) => self.stage.play(piece),
            None => Ok(()),
        }
    }
}

/// Plays the last piece, and prints the number of the first difference.
fn end<O>(reader: TraceReader, stage: &mut PlayedTrace<O>, rest: &[u8]) -> Result<(), TracesFault>
where
    O: Write + Drop,
{
    stage.play(reader.end(rest)?)?;
    stage.print_difference()
}

/// A device, once its configuration is known, and the output of what it answers.
#[derive(Drop)]
struct PlayedTrace<O: Write + Drop> {
    alloc: Global,
    player: Option<Player<FastDevice>>,
    out: BufWriter<O>,
}

impl<O: Write + Drop> PlayedTrace<O> {
    /// Makes the device of a configuration, or plays an entry.
    fn play(&mut self, piece: TracePiece) -> Result<(), TracesFault> {
        match piece {
            TracePiece::Config(config) => {
                self.player = Some(Player::new(self.alloc, config)?);
            }
            TracePiece::Entry(entry) => {
                if let Some(player) = &mut self.player {
                    player.play(&entry, &mut self.out)?;
                }
            }
        }
        Ok(())
    }

    /// Prints the number of the first event whose outcome is not as recorded, and fails if there is one.
    fn print_difference(&mut self) -> Result<(), TracesFault> {
        let Some(number) = self.differs() else {
            return Ok(());
        };
        let line = format!(in self.alloc; "differs {number}\n")?;
        write_text(&mut self.out, line.as_bytes())?;
        Err(TracesFault::Differs)
    }

    /// The number of the first event whose outcome is not as recorded.
    fn differs(&self) -> Option<u64> {
        self.player.as_ref()?.differs()
    }

    fn flush(&mut self) -> Result<(), TracesFault> {
        match self.out.flush() {
            Ok(()) => Ok(()),
            Err(_) => Err(TracesFault::Write),
        }
    }
}

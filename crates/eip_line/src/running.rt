//! The program at its standard streams.

use crate::console::program;
use crate::faults::{ProgramFault, failed};
use crate::usage::misused;
use std::env::{self, Env};
use std::io::{BufWriter, ErrorKind, Read, Write};
use std::net::{Net, TcpListener, TcpStream};
use std::rt::Clock;
use std::sync::Wait;
use std::thread::Threads;

/// Runs the program on its command line and these streams, with a buffer for the output, and answers its status.
pub fn run<R, I, O, E>(rt: &R, reader: &mut I, out: O, err: &mut E) -> u8
where
    R: AllocGlobal
        + Env
        + Clock
        + Net<Listener = TcpListener, Stream = TcpStream>
        + Threads
        + Wait
        + Sync,
    I: Read,
    O: Write + Drop,
    E: Write,
{
    let words = match env::args(rt) {
        Ok(words) => words,
        Err(error) if error.kind() == ErrorKind::OutOfMemory => {
            return failed(err, ProgramFault::OutOfMemory);
        }
        Err(_) => return misused(err),
    };
    let Ok(words) = words.collect::<Vec<String>>(rt.alloc()) else {
        return failed(err, ProgramFault::OutOfMemory);
    };
    let Ok(mut out) = BufWriter::new(rt.alloc(), out) else {
        return failed(err, ProgramFault::OutOfMemory);
    };
    program(rt, words.as_slice(), reader, &mut out, err)
}

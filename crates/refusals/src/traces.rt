//! Traces over the plain devices. (`tools/play/c_memory.c` refuses requests within each call of the fast ones.)

use crate::books::Booked;
use crate::calls::{Difference, Refusals};
use crate::devices::{Restore, Stepped, Written};
use crate::runs::Ran;
use crate::texts::Rewriting;
use cip_tables::{Config, Device};
use plain_engine::{PlainAdapter, PlainScanner};
use std::fs::{self, Files};
use trace_text::{Trace, read_trace};

/// Refuses requests in the trace of a file: where it is read and written, and over its device.
pub fn refuse_file<R: AllocGlobal + Files>(
    rt: &R,
    name: &str,
    refusals: &mut Refusals,
) -> Result<(), Difference> {
    match fs::read(rt, name) {
        Ok(text) => refuse_text(refusals, &text),
        Err(_) => Err(Difference::NoFile),
    }
}

/// Refuses requests in the trace of a text.
fn refuse_text(refusals: &mut Refusals, text: &Vec<u8>) -> Result<(), Difference> {
    refusals.in_call::<Rewriting>(&mut (), &mut (), text)?;
    match read_trace(refusals.alloc, text.as_slice()) {
        Ok(trace) => refuse_trace(refusals, &trace),
        Err(_) => Err(Difference::NoTrace),
    }
}

/// Refuses requests over the kind of device that a trace is for.
fn refuse_trace(refusals: &mut Refusals, trace: &Trace) -> Result<(), Difference> {
    match &trace.config {
        Config::Adapter(_) => refuse_over::<PlainAdapter>(refusals, trace),
        Config::Scanner(_) => refuse_over::<PlainScanner>(refusals, trace),
    }
}

/// Refuses requests over a kind of device: alone, in a book, and through `run`.
fn refuse_over<D: Device + Restore + Drop>(
    refusals: &mut Refusals,
    trace: &Trace,
) -> Result<(), Difference> {
    refusals.in_trial::<Stepped<D>>(trace)?;
    refusals.in_trial::<Written<D>>(trace)?;
    refusals.in_trial::<Booked<D>>(trace)?;
    refusals.in_trial::<Ran<D>>(trace)
}

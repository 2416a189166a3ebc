//! The data sheet of a profile in a file.

use crate::fault::TracesFault;
use crate::whole::{print, text_of};
use cip_tables::Config;
use eds_text::{SheetNames, write_sheet};
use std::fs::File;
use std::io::Write;
use std::rt::Files;
use trace_text::{Trace, read_trace};

/// Writes the data sheet of the profile of a file, which is to be an adapter's and to have no events, with these names.
pub fn data_sheet<R, O>(
    rt: &R,
    files: &[String],
    names: &SheetNames<'_>,
    out: O,
) -> Result<(), TracesFault>
where
    R: AllocGlobal + Files<File = File>,
    O: Write + Drop,
{
    let alloc = rt.alloc();
    let text = text_of(rt, files)?;
    let Trace { config, events } = read_trace(alloc, text.as_slice())?;
    if !events.as_slice().is_empty() {
        return Err(TracesFault::Events);
    }
    match config {
        Config::Adapter(profile) => {
            let sheet = write_sheet(alloc, names, &profile)?;
            print(out, sheet.as_bytes())
        }
        Config::Scanner(_) => Err(TracesFault::Scanner),
    }
}

//! Lines under the name of a device.

ghost use Rattle.std.specs.Prelude.{◌≡◌, ◌++◌, true, OnOk};
ghost use Rattle.plant_rim.specs.Named.{bare, byte_text, named_text, report_text, results_text};

use cip_types::OutOfMemory;
use station_lines::LineSink;
use std::alloc::Global;

/// How the lines of an output begin.
#[derive(Clone, Copy, PartialEq, Eq)]
pub enum NameForm {
    /// With the name of the device and a space.
    Result,
    /// With the name of the program, then with that of the device.
    Report,
}

/// The beginning of each report of a station, and its bytes.
const PROGRAM: &[u8] = b"eip_station: ";

const PROGRAM_BYTES: usize = 13;

/// Lines that go to another sink under the name of a device. A text for which there is no memory is lost.
#[derive(Drop)]
pub struct NamedLines<S> {
    form: NameForm,
    name: Vec<u8>,
    text: Vec<u8>,
    sink: S,
}

impl<S: LineSink> NamedLines<S> {
    /// Lines of the device of a name. The only fault is a refused allocation.
    pub fn new(alloc: Global, form: NameForm, name: &str, sink: S) -> Result<Self, OutOfMemory>
    where
        S: Drop,
    {
        Ok(NamedLines {
            form,
            name: Vec::from_slice(alloc, name.as_bytes())?,
            text: Vec::new(alloc),
            sink,
        })
    }
}

impl<S: LineSink> LineSink for NamedLines<S> {
    fn line(&mut self, text: &[u8]) {
        self.text.clear();
        if push_named(&mut self.text, self.form, self.name.as_slice(), text).is_ok() {
            self.sink.line(self.text.as_slice());
        }
    }

    fn state(&mut self, text: &[u8]) -> bool {
        self.text.clear();
        push_named(&mut self.text, self.form, self.name.as_slice(), text).is_ok()
            && self.sink.state(self.text.as_slice())
    }
}

/// Appends a text of whole lines, each of them under the name of a device. The only fault is a refused allocation.
pub fn push_named(
    out: &mut Vec<u8>,
    form: NameForm,
    name: &[u8],
    text: &[u8],
) -> Result<(), OutOfMemory>
    ensures { OnOk result (out.new.items ≡ out.old.items ++ named_text form name.now text.now) }
{
    match form {
        NameForm::Result => push_results(out, name, text),
        NameForm::Report => push_report(out, name, text),
    }
}

/// Appends a text whose lines are results.
fn push_results(out: &mut Vec<u8>, name: &[u8], text: &[u8]) -> Result<(), OutOfMemory>
    ensures { OnOk result (out.new.items ≡ out.old.items ++ results_text name.now true text.now) }
{
    let mut begins = true;
    for byte in text {
        push_byte(out, name, begins, *byte)?;
        begins = *byte == b'\n';
    }
    Ok(())
}

/// Appends a byte, which begins a line or not.
fn push_byte(out: &mut Vec<u8>, name: &[u8], begins: bool, byte: u8) -> Result<(), OutOfMemory>
    ensures { OnOk result (out.new.items ≡ out.old.items ++ byte_text name.now begins byte) }
{
    if begins {
        out.extend_from_slice(name)?;
        out.extend_from_slice(&[b' ', byte])?;
    } else {
        out.extend_from_slice(&[byte])?;
    }
    Ok(())
}

/// Appends a report.
fn push_report(out: &mut Vec<u8>, name: &[u8], text: &[u8]) -> Result<(), OutOfMemory>
    ensures { OnOk result (out.new.items ≡ out.old.items ++ report_text name.now text.now) }
{
    out.extend_from_slice(PROGRAM)?;
    out.extend_from_slice(name)?;
    out.extend_from_slice(b": ")?;
    out.extend_from_slice(bare(text))?;
    Ok(())
}

/// A report without the name of the program.
fn bare(text: &[u8]) -> &[u8]
    ensures { result.now ≡ bare text.now }
{
    if text.len() < PROGRAM_BYTES {
        return text;
    }
    let (front, rest) = text.split_at(PROGRAM_BYTES);
    if front == PROGRAM { rest } else { text }
}

//! The names of a profile.

ghost use Rattle.std.specs.Prelude.{◌≡◌, [], ◌∷◌, ◌++◌, IfOk, OnOk, option_map};
ghost use Rattle.trace_words.specs.PointNames.Labels.{lines_in};
ghost use Rattle.trace_words.specs.PointNames.Lines.{named_by};
ghost use Rattle.trace_words.specs.PointNames.Reading.{bad_line, bad_lines, line_taken, name_taken, names_behind, text_taken, thing_taken};
ghost use Rattle.trace_words.specs.PointNames.Things.{found_name, is_same, name_of, names_in};

use crate::point_names::labels::first_line;
use crate::point_names::line::{NameKind, Named, name_kind, named_by};
use crate::point_names::text::name_text;
use cip_types::OutOfMemory;
use std::alloc::Global;

/// Why a name line names nothing.
#[derive(Clone, Copy, Debug, PartialEq, Eq)]
pub enum NameLineFault {
    /// Its words do not name a point, a slot or a bit.
    Words,
    /// Its text has no character, more than 32 or a control character, or it is not UTF-8.
    Text,
    /// An earlier line names the same.
    Repeated,
}

impl NameLineFault {
    /// What is wrong, in words.
    pub fn words(self) -> &'static str {
        match self {
            NameLineFault::Words => {
                "a name line is # name POINT TEXT, # name slot N TEXT or # bit POINT BYTE BIT TEXT, with a bit from 0 to 7"
            }
            NameLineFault::Text => {
                "a name has 1 to 32 characters of UTF-8, without control characters"
            }
            NameLineFault::Repeated => "an earlier line names the same",
        }
    }
}

/// A name line that names nothing: the number of its line, from 1, and why.
#[derive(Clone, Copy, Debug, PartialEq, Eq)]
pub struct BadName {
    pub line: u64,
    pub fault: NameLineFault,
}

/// A name.
#[derive(Drop)]
struct Name {
    named: Named,
    text: String,
}

/// The names of a profile: each thing has at most one.
#[derive(Drop)]
pub struct Names {
    names: Vec<Name>,
}

/// The names of a profile, and its bad name lines.
#[derive(Drop)]
pub struct ReadNames {
    pub names: Names,
    pub bad: Vec<BadName>,
}

impl Names {
    /// No name. Takes no memory.
    pub fn none(alloc: Global) -> Names
        ensures { names_in result ≡ [] }
    {
        Names {
            names: Vec::new(alloc),
        }
    }

    /// The name of a thing, if it has one.
    pub fn of(&self, named: Named) -> Option<&str>
        ensures { option_map (λ text. text.now) result ≡ name_of (names_in self.now) named }
    {
        self.found(named)
    }

    /// The text of the first name of a thing.
    fn found(&self, named: Named) -> Option<&str>
        ensures { option_map (λ text. text.now) result ≡ found_name self.now.names.items named }
    {
        let found = self.names.iter().find(|name| is_same(name.named, named))?;
        Some(found.text.as_str())
    }

    /// Whether nothing has a name.
    pub fn is_empty(&self) -> bool {
        self.names.is_empty()
    }

    /// What has a name, and its name, in the order of the lines.
    pub fn at(&self, place: usize) -> Option<(Named, &str)> {
        let name = self.names.get(place)?;
        Some((name.named, name.text.as_str()))
    }

    /// Appends the lines that say these names, as `read_names` reads them.
    pub fn push_lines(&self, out: &mut String) -> Result<(), OutOfMemory> {
        for name in self.names.iter() {
            match name.named {
                Named::Point(point) => write!(out, "# name {point} ")?,
                Named::Slot(slot) => write!(out, "# name slot {slot} ")?,
                Named::Bit(point, byte, bit) => write!(out, "# bit {point} {byte} {bit} ")?,
            }
            out.push_str(name.text.as_str())?;
            out.push_str("\n")?;
        }
        Ok(())
    }

    /// The same names. The fault: an allocation was refused.
    pub fn copy(&self, alloc: Global) -> Result<Names, OutOfMemory>
        ensures { IfOk result (λ names. names_in names ≡ names_in self.now) }
    {
        let mut names = Names::none(alloc);
        for name in self.names.iter() {
            names.add(alloc, name.named, name.text.as_str())?;
        }
        Ok(names)
    }

    /// Adds a name.
    fn add(&mut self, alloc: Global, named: Named, text: &str) -> Result<(), OutOfMemory>
        ensures { OnOk result (names_in self.new ≡ names_in self.old ++ (named, text.now) ∷ []) }
    {
        let text = format!(in alloc; "{text}")?;
        self.names.push(Name { named, text })?;
        Ok(())
    }

    /// Adds the name of a line, if it is a name line. Its fault, if it names nothing.
    fn take(&mut self, alloc: Global, line: &[u8]) -> Result<Option<NameLineFault>, OutOfMemory>
        ensures { IfOk result (λ fault. (names_in self.new, fault) ≡ line_taken (names_in self.old) line.now) }
    {
        match name_kind(line) {
            Some((kind, words)) => self.take_thing(alloc, kind, words),
            None => Ok(None),
        }
    }

    /// Adds the name of a name line of a kind, with these other words.
    fn take_thing(
        &mut self,
        alloc: Global,
        kind: NameKind,
        words: &[u8],
    ) -> Result<Option<NameLineFault>, OutOfMemory>
        ensures { IfOk result
            (λ fault. (names_in self.new, fault) ≡ thing_taken (names_in self.old) (named_by kind words.now)) }
    {
        match named_by(kind, words) {
            Some((named, text)) => self.take_text(alloc, named, text),
            None => Ok(Some(NameLineFault::Words)),
        }
    }

    /// Adds the name of a thing, if these bytes are the text of a name.
    fn take_text(
        &mut self,
        alloc: Global,
        named: Named,
        text: &[u8],
    ) -> Result<Option<NameLineFault>, OutOfMemory>
        ensures { IfOk result (λ fault. (names_in self.new, fault) ≡ text_taken (names_in self.old) named text.now) }
    {
        match name_text(text) {
            Some(text) => self.take_name(alloc, named, text),
            None => Ok(Some(NameLineFault::Text)),
        }
    }

    /// Adds the name of a thing, unless it has one.
    fn take_name(
        &mut self,
        alloc: Global,
        named: Named,
        text: &str,
    ) -> Result<Option<NameLineFault>, OutOfMemory>
        ensures { IfOk result (λ fault. (names_in self.new, fault)
            ≡ name_taken (names_in self.old) named text.now (name_of (names_in self.old) named)) }
    {
        match self.of(named) {
            Some(_) => Ok(Some(NameLineFault::Repeated)),
            None => {
                self.add(alloc, named, text)?;
                Ok(None)
            }
        }
    }
}

/// The names that the lines of a profile's text say, and the lines that name nothing. The fault: an allocation was refused.
pub fn read_names(alloc: Global, text: &[u8]) -> Result<ReadNames, OutOfMemory>
    ensures names { IfOk result (λ read. names_in read.names ≡ names_behind [] (lines_in text.now)) }
    ensures bad { IfOk result (λ read. read.bad.items ≡ bad_lines 1 [] (lines_in text.now)) }
{
    let mut names = Names::none(alloc);
    let mut bad = Vec::new(alloc);
    let mut number = 1;
    let mut rest = text;
    while let Some((line, after)) = first_line(rest) {
        take_line(alloc, &mut names, &mut bad, number, line)?;
        number += 1;
        rest = after;
    }
    take_line(alloc, &mut names, &mut bad, number, rest)?;
    Ok(ReadNames { names, bad })
}

/// Adds the name of the line of a number to the names, or the line to the bad ones, or neither.
fn take_line(
    alloc: Global,
    names: &mut Names,
    bad: &mut Vec<BadName>,
    number: u64,
    line: &[u8],
) -> Result<(), OutOfMemory>
    ensures names { OnOk result (names_in names.new ≡ (line_taken (names_in names.old) line.now).0) }
    ensures bad { OnOk result
        (bad.new.items ≡ bad.old.items ++ bad_line number (line_taken (names_in names.old) line.now).1) }
{
    let fault = names.take(alloc, line)?;
    push_bad(bad, number, fault)
}

/// Adds the line of a number to the bad ones, if it has a fault.
fn push_bad(
    bad: &mut Vec<BadName>,
    number: u64,
    fault: Option<NameLineFault>,
) -> Result<(), OutOfMemory>
    ensures { OnOk result (bad.new.items ≡ bad.old.items ++ bad_line number fault) }
{
    if let Some(fault) = fault {
        bad.push(BadName {
            line: number,
            fault,
        })?;
    }
    Ok(())
}

/// Whether the same thing is named.
fn is_same(one: Named, other: Named) -> bool
    ensures { result ≡ is_same one other }
{
    match (one, other) {
        (Named::Point(one), Named::Point(other)) => one == other,
        (Named::Slot(one), Named::Slot(other)) => one == other,
        (Named::Bit(point, byte, bit), Named::Bit(own, of, at)) => {
            point == own && (byte == of && bit == at)
        }
        _ => false,
    }
}

//! The limits of an adapter's maker, a row each: the first word of its line, the kinds of the other words, how the line is
//! read and written, what it states, and the ranges of its numbers. The order of the lines and the first number that is out
//! of its range follow from the rows (`specs/Limits`).

ghost use Rattle.std.specs.Prelude.{◌≡◌, ◌++◌, ◌∷◌, OnOk, string_bytes, flat_map, option_to_list, option_map};
ghost use Rattle.std.specs.List.{find, list_any};
ghost use Rattle.trace_words.specs.Reader.{unread_words, Takes};
ghost use Rattle.trace_words.specs.Words.{line_text};
ghost use Rattle.trace_lines.specs.Limits.{bad_number, is_out_of_range, is_stated, limit_named, limit_reader, limit_shape, limit_text, limit_words, limits_text, number_range, place, range_at, stated, stated_class3_connections, stated_line, stated_openings, with_limit, with_line};

use crate::names::{read_closers, read_openings};
use crate::shapes::{
    CLASS3_PLACES, CLOSERS, NODE_CONNECTIONS, NODE_OPENINGS, NUMBER, PLACES, Shape,
};
use adapter_table::{MakerLimits, NodeLimits, Places};
use cip_productions::FARTHEST_NUMBER;
use cip_types::OutOfMemory;
use cip_types::limits::{LONGEST_RPI_US, MOST_CONNECTIONS};
use trace_words::{TextFault, Words};

/// A limit that an adapter's maker states.
#[derive(Clone, Copy, PartialEq, Eq)]
pub enum LimitName {
    LeastRpi,
    Places,
    NodeConnections,
    OwnClosers,
    Newer,
}

/// The most connections of an application type, of class 3 or of one node.
const MOST_PLACES: u32 = MOST_CONNECTIONS as u32;

/// The most openings of one node in a second.
const MOST_OPENINGS: u32 = u16::MAX as u32;

/// The limits, in the order of their lines.
pub const LIMITS: [LimitName; 5] = [
    LimitName::LeastRpi,
    LimitName::Places,
    LimitName::NodeConnections,
    LimitName::OwnClosers,
    LimitName::Newer,
];

/// The value of a line that states a limit.
#[derive(Clone, Copy, PartialEq, Eq)]
pub enum LimitLine {
    /// The least requested packet interval that is admitted, in microseconds.
    LeastRpi(u32),
    /// How many connections of each application type can be established at one time, and of class 3.
    Places(Places),
    /// What one node can have.
    NodeConnections(NodeLimits),
    /// Only the node that opened a connection can close it.
    OwnClosers,
    /// A connection accepts sequence numbers that are ahead of its newest by less than this.
    Newer(u32),
}

/// A number that the line of a limit states.
#[derive(Clone, Copy, PartialEq, Eq)]
pub enum LimitNumber {
    /// The least packet interval that is admitted, in microseconds.
    LeastRpi,
    /// The places of all application types, which the whole line states.
    AllPlaces,
    /// The places of class 3 connections.
    Class3Places,
    /// The most connections of one node.
    NodeConnections,
    /// The most openings of one node in a second.
    NodeOpenings,
    /// The limit of how far ahead an accepted sequence number is.
    Newer,
}

/// The value of a number that the line of a limit states.
#[derive(Clone, Copy, PartialEq, Eq)]
pub struct StatedNumber {
    pub number: LimitNumber,
    pub value: u32,
}

/// The word of a number in its line, from 1, and the least and the most that it can be.
#[derive(Clone, Copy)]
pub struct NumberRange {
    pub word: usize,
    pub least: u32,
    pub most: u32,
}

// THE ROWS

/// The limit whose line begins with this word.
pub fn limit_named(word: &str) -> Option<LimitName>
    ensures { result ≡ limit_named word.now }
{
    match word {
        "least-rpi" => Some(LimitName::LeastRpi),
        "places" => Some(LimitName::Places),
        "node-connections" => Some(LimitName::NodeConnections),
        "closers" => Some(LimitName::OwnClosers),
        "newer" => Some(LimitName::Newer),
        _ => None,
    }
}

/// The kinds of the words behind the first one.
pub fn limit_shape(limit: LimitName) -> Shape
    ensures { (result.0.now, result.1.now) ≡ limit_shape limit }
{
    match limit {
        LimitName::LeastRpi => (&NUMBER, &[]),
        LimitName::Places => (&PLACES, &CLASS3_PLACES),
        LimitName::NodeConnections => (&NODE_CONNECTIONS, &NODE_OPENINGS),
        LimitName::OwnClosers => (&CLOSERS, &[]),
        LimitName::Newer => (&NUMBER, &[]),
    }
}

/// What follows the first word of the line of a limit.
pub fn read_limit(limit: LimitName, words: &mut Words<'_>) -> Result<LimitLine, TextFault>
    ensures { Takes (limit_reader limit (unread_words words.old)) result (unread_words words.new) }
{
    match limit {
        LimitName::LeastRpi => {
            let us = words.u32()?;
            words.last(LimitLine::LeastRpi(us))
        }
        LimitName::Places => read_places(words),
        LimitName::NodeConnections => read_node_connections(words),
        LimitName::OwnClosers => {
            read_closers(words)?;
            words.last(LimitLine::OwnClosers)
        }
        LimitName::Newer => {
            let within = words.u32()?;
            words.last(LimitLine::Newer(within))
        }
    }
}

/// The line of a limit, if it is stated.
pub fn stated_line(limits: &MakerLimits, limit: LimitName) -> Option<LimitLine>
    ensures { result ≡ stated_line limits.now limit }
{
    match limit {
        LimitName::LeastRpi => limits.least_rpi.map(LimitLine::LeastRpi),
        LimitName::Places => limits.places.map(LimitLine::Places),
        LimitName::NodeConnections => limits.node_connections.map(LimitLine::NodeConnections),
        LimitName::OwnClosers => limits.own_closers.then_some(LimitLine::OwnClosers),
        LimitName::Newer => limits.newer.map(LimitLine::Newer),
    }
}

/// The limits with what a line states.
fn with_line(limits: MakerLimits, line: LimitLine) -> MakerLimits
    ensures { result ≡ with_line limits line }
{
    match line {
        LimitLine::LeastRpi(us) => MakerLimits {
            least_rpi: Some(us),
            ..limits
        },
        LimitLine::Places(places) => MakerLimits {
            places: Some(places),
            ..limits
        },
        LimitLine::NodeConnections(node) => MakerLimits {
            node_connections: Some(node),
            ..limits
        },
        LimitLine::OwnClosers => MakerLimits {
            own_closers: true,
            ..limits
        },
        LimitLine::Newer(within) => MakerLimits {
            newer: Some(within),
            ..limits
        },
    }
}

/// The place of a line among those of limits.
fn place(line: LimitLine) -> usize
    ensures { result ≡ place line }
{
    match line {
        LimitLine::LeastRpi(_) => 0,
        LimitLine::Places(_) => 1,
        LimitLine::NodeConnections(_) => 2,
        LimitLine::OwnClosers => 3,
        LimitLine::Newer(_) => 4,
    }
}

/// Appends a line.
fn push_line(out: &mut String, line: LimitLine) -> Result<(), OutOfMemory>
    ensures { OnOk result (string_bytes out.new ≡ string_bytes out.old ++ line_text (limit_words line)) }
{
    match line {
        LimitLine::LeastRpi(us) => Ok(write!(out, "least-rpi {us}\n")?),
        LimitLine::Places(places) => push_places(out, places),
        LimitLine::NodeConnections(node) => push_node_connections(out, node),
        LimitLine::OwnClosers => Ok(out.push_str("closers own\n")?),
        LimitLine::Newer(within) => Ok(write!(out, "newer {within}\n")?),
    }
}

/// The first number of a line that is out of its range.
pub fn bad_number(line: LimitLine) -> Option<StatedNumber>
    ensures { result ≡ bad_number line }
{
    match line {
        LimitLine::LeastRpi(us) => first_bad(LimitNumber::LeastRpi.of(us), None),
        LimitLine::Places(places) => {
            let others = u32::from(places.readers) + u32::from(places.listeners);
            let all = LimitNumber::AllPlaces.of(u32::from(places.owners) + others);
            let class3 = places.class3_connections;
            first_bad(
                all,
                class3.map(|number| LimitNumber::Class3Places.of(u32::from(number))),
            )
        }
        LimitLine::NodeConnections(node) => {
            let connections = LimitNumber::NodeConnections.of(u32::from(node.connections));
            let openings = node.openings;
            first_bad(
                connections,
                openings.map(|number| LimitNumber::NodeOpenings.of(u32::from(number))),
            )
        }
        LimitLine::OwnClosers => None,
        LimitLine::Newer(within) => first_bad(LimitNumber::Newer.of(within), None),
    }
}

impl LimitNumber {
    /// The number with this value.
    fn of(self, value: u32) -> StatedNumber
        ensures { result ≡ stated self value }
    {
        StatedNumber {
            number: self,
            value,
        }
    }

    /// Where the number is in its line, and its range.
    pub fn range(self) -> NumberRange
        ensures { result ≡ number_range self }
    {
        match self {
            LimitNumber::LeastRpi => range(2, 1, LONGEST_RPI_US),
            LimitNumber::AllPlaces => range(1, 1, MOST_PLACES),
            LimitNumber::Class3Places => range(5, 0, MOST_PLACES),
            LimitNumber::NodeConnections => range(2, 1, MOST_PLACES),
            LimitNumber::NodeOpenings => range(4, 1, MOST_OPENINGS),
            LimitNumber::Newer => range(2, 2, FARTHEST_NUMBER),
        }
    }

    /// What is said of the number before its value, and behind it before its range.
    pub fn phrases(self) -> (&'static str, &'static str) {
        match self {
            LimitNumber::LeastRpi => ("the least packet interval is ", " microseconds, and it is "),
            LimitNumber::AllPlaces => ("the places are ", " in all, and they are "),
            LimitNumber::Class3Places => {
                ("the places of class 3 connections are ", ", and they are ")
            }
            LimitNumber::NodeConnections => {
                ("the most connections of one node are ", ", and they are ")
            }
            LimitNumber::NodeOpenings => {
                (
                    "the openings of one node in a second are ",
                    ", and they are ",
                )
            }
            LimitNumber::Newer => (
                "numbers are accepted within ",
                " of the newest, and that is ",
            ),
        }
    }
}

/// A number of this word of its line, and of this range.
fn range(word: usize, least: u32, most: u32) -> NumberRange
    ensures { result ≡ range_at word least most }
{
    NumberRange { word, least, most }
}

/// What follows `places`: `OWNERS READERS LISTENERS`, and `CLASS3` or nothing.
fn read_places(words: &mut Words<'_>) -> Result<LimitLine, TextFault>
    ensures { Takes (limit_reader LimitName.Places (unread_words words.old)) result (unread_words words.new) }
{
    let places = Places {
        owners: words.u8()?,
        readers: words.u8()?,
        listeners: words.u8()?,
        class3_connections: None,
    };
    if words.is_done() {
        return Ok(LimitLine::Places(places));
    }
    let class3_connections = read_class3_connections(words)?;
    Ok(LimitLine::Places(Places {
        class3_connections,
        ..places
    }))
}

/// The number of class 3 connections at the end of a line.
fn read_class3_connections(words: &mut Words<'_>) -> Result<Option<u8>, TextFault>
    ensures { Takes (stated_class3_connections (unread_words words.old)) result (unread_words words.new) }
{
    let number = words.u8()?;
    words.last(Some(number))
}

/// What follows `node-connections`: `N`, and `openings M` or nothing.
fn read_node_connections(words: &mut Words<'_>) -> Result<LimitLine, TextFault>
    ensures { Takes (limit_reader LimitName.NodeConnections (unread_words words.old)) result (unread_words words.new) }
{
    let connections = words.u8()?;
    if words.is_done() {
        return Ok(LimitLine::NodeConnections(NodeLimits {
            connections,
            openings: None,
        }));
    }
    let openings = read_node_openings(words)?;
    Ok(LimitLine::NodeConnections(NodeLimits {
        connections,
        openings,
    }))
}

/// The number of openings in a second at the end of a line.
fn read_node_openings(words: &mut Words<'_>) -> Result<Option<u16>, TextFault>
    ensures { Takes (stated_openings (unread_words words.old)) result (unread_words words.new) }
{
    read_openings(words)?;
    let number = words.u16()?;
    words.last(Some(number))
}

fn push_places(out: &mut String, places: Places) -> Result<(), OutOfMemory>
    ensures { OnOk result
        (string_bytes out.new ≡ string_bytes out.old ++ line_text (limit_words (LimitLine.Places places))) }
{
    match places.class3_connections {
        Some(number) => Ok(write!(
            out,
            "places {} {} {} {number}\n",
            places.owners, places.readers, places.listeners
        )?),
        None => Ok(write!(
            out,
            "places {} {} {}\n",
            places.owners, places.readers, places.listeners
        )?),
    }
}

fn push_node_connections(out: &mut String, node: NodeLimits) -> Result<(), OutOfMemory>
    ensures { OnOk result
        (string_bytes out.new ≡ string_bytes out.old ++ line_text (limit_words (LimitLine.NodeConnections node))) }
{
    match node.openings {
        Some(number) => Ok(write!(
            out,
            "node-connections {} openings {number}\n",
            node.connections
        )?),
        None => Ok(write!(out, "node-connections {}\n", node.connections)?),
    }
}

// WHAT FOLLOWS FROM THE ROWS

/// The limits with that of one line more. None if it, or one of a line behind it, is stated already.
pub fn with_limit(limits: MakerLimits, line: LimitLine) -> Option<MakerLimits>
    ensures { result ≡ with_limit limits line }
{
    if are_stated(&limits, &LIMITS[place(line)..]) {
        return None;
    }
    Some(with_line(limits, line))
}

/// Whether one of these limits is stated.
fn are_stated(limits: &MakerLimits, names: &[LimitName]) -> bool
    ensures { result ≡ list_any (is_stated limits.now) names.now }
{
    names
        .iter()
        .any(|limit| stated_line(limits, *limit).is_some())
}

/// Appends the lines of limits.
pub(crate) fn push_limits(out: &mut String, limits: &MakerLimits) -> Result<(), OutOfMemory>
    ensures { OnOk result (string_bytes out.new ≡ string_bytes out.old ++ limits_text limits.now) }
{
    push_rows(out, limits, &LIMITS)
}

/// Appends the lines of these limits.
fn push_rows(out: &mut String, limits: &MakerLimits, rows: &[LimitName]) -> Result<(), OutOfMemory>
    ensures { OnOk result
        (string_bytes out.new ≡ string_bytes out.old
        ++ flat_map (λ row. limit_text (stated_line limits.now row)) rows.now) }
{
    for row in rows {
        push_stated(out, stated_line(limits, *row))?;
    }
    Ok(())
}

/// Appends the line of a limit, if it is stated.
fn push_stated(out: &mut String, line: Option<LimitLine>) -> Result<(), OutOfMemory>
    ensures { OnOk result (string_bytes out.new ≡ string_bytes out.old ++ limit_text line) }
{
    match line {
        Some(line) => push_line(out, line),
        None => Ok(()),
    }
}

/// Appends the line of a limit of sequence numbers, if it is stated.
pub(crate) fn push_newer(out: &mut String, newer: Option<u32>) -> Result<(), OutOfMemory>
    ensures { OnOk result
        (string_bytes out.new ≡ string_bytes out.old ++ limit_text (option_map LimitLine.Newer newer)) }
{
    push_stated(out, newer.map(LimitLine::Newer))
}

/// The first of a line's numbers that is out of its range.
fn first_bad(first: StatedNumber, second: Option<StatedNumber>) -> Option<StatedNumber>
    ensures { result ≡ find is_out_of_range (first ∷ option_to_list second) }
{
    if is_out_of_range(first) {
        return Some(first);
    }
    let second = second?;
    is_out_of_range(second).then_some(second)
}

/// Whether a number is out of its range.
fn is_out_of_range(stated: StatedNumber) -> bool
    ensures { result ≡ is_out_of_range stated }
{
    let range = stated.number.range();
    !(range.least <= stated.value && stated.value <= range.most)
}

//! The shapes of lines: the kinds of the words behind the words that a line begins with. What a line means, how it is
//! written, and why it is bad are made of these tables (`specs/Shapes`).

ghost use Rattle.std.specs.Prelude.{◌≡◌, option_map};
ghost use Rattle.trace_words.specs.Reader.{unread_words};
ghost use Rattle.trace_lines.specs.Limits.{limit_named, limit_shape};
ghost use Rattle.trace_lines.specs.LineShapes.{shape_of, part_shape_of};
ghost use Rattle.trace_lines.specs.Shapes.{behind_word, skipped, Skips};

use crate::limit_lines::{limit_named, limit_shape};
use crate::names::{
    read_action, read_closers, read_kind, read_mode, read_multicast, read_openings, read_trigger,
};
use crate::slot_lines::read_key;
use std::alloc::Global;
use trace_words::{TextFault, Words};

/// The kind of a word.
#[derive(Clone, Copy, PartialEq, Eq)]
pub enum WordKind {
    U8,
    U16,
    U32,
    U64,
    /// The number of an instance or of an attribute, of 32 bits, or a dash for none.
    Instance,
    Address,
    /// Addresses with commas between them, or a dash for none.
    Addresses,
    /// Hexadecimal digits, two a byte, or a dash for no bytes.
    Hex,
    /// The digits of eight bytes, or a dash for none.
    ElectronicKey,
    /// A general status: two hexadecimal digits.
    GeneralStatus,
    Action,
    Mode,
    ApplicationType,
    ConnectionType,
    Trigger,
    /// Which nodes close a connection: its own.
    Closers,
    /// The word before the number of openings.
    Openings,
}

/// The kinds of the words of a line, and of those that may follow.
pub type Shape = (&'static [WordKind], &'static [WordKind]);

/// Incarnation, address, mask, vendor, device type, product, major and minor revision.
pub const ADAPTER: [WordKind; 8] = [
    WordKind::U8,
    WordKind::Address,
    WordKind::Address,
    WordKind::U16,
    WordKind::U16,
    WordKind::U16,
    WordKind::U8,
    WordKind::U8,
];

/// Instance, length, and the actions when the owner is idle and when it is lost.
pub const OUTPUT: [WordKind; 4] = [
    WordKind::U32,
    WordKind::U64,
    WordKind::Action,
    WordKind::Action,
];

/// Instance and length.
pub const POINT: [WordKind; 2] = [WordKind::U32, WordKind::U64];

/// Serial number, name, TCP port, speed and flags of the link, physical address, and inactivity time-out.
pub const DESCRIBE: [WordKind; 7] = [
    WordKind::U32,
    WordKind::Hex,
    WordKind::U16,
    WordKind::U32,
    WordKind::U32,
    WordKind::Hex,
    WordKind::U16,
];

/// Owners, input-only and listen-only connections.
pub const PLACES: [WordKind; 3] = [WordKind::U8, WordKind::U8, WordKind::U8];

/// Class 3 connections.
pub const CLASS3_PLACES: [WordKind; 1] = [WordKind::U8];

/// Connections of one node.
pub const NODE_CONNECTIONS: [WordKind; 1] = [WordKind::U8];

/// Openings of one node in a second.
pub const NODE_OPENINGS: [WordKind; 2] = [WordKind::Openings, WordKind::U16];

/// Which nodes close a connection.
pub const CLOSERS: [WordKind; 1] = [WordKind::Closers];

/// The points of input-only and of listen-only connections.
pub const HEARTBEAT: [WordKind; 2] = [WordKind::U32, WordKind::U32];

/// Incarnation, address, vendor, serial number, open time-out and retry time.
pub const SCANNER: [WordKind; 6] = [
    WordKind::U8,
    WordKind::Address,
    WordKind::U16,
    WordKind::U32,
    WordKind::U64,
    WordKind::U64,
];

/// The fields of a slot in their order, up to its configuration data.
pub const SLOT: [WordKind; 13] = [
    WordKind::Address,
    WordKind::ApplicationType,
    WordKind::Instance,
    WordKind::U32,
    WordKind::U32,
    WordKind::U64,
    WordKind::U64,
    WordKind::U32,
    WordKind::U32,
    WordKind::U8,
    WordKind::ConnectionType,
    WordKind::ElectronicKey,
    WordKind::Hex,
];

/// The trigger of a slot's target, and its inhibit time.
pub const RATE: [WordKind; 2] = [WordKind::Trigger, WordKind::U8];

/// A node, and the bytes from it or to it.
pub const FROM_NODE: [WordKind; 2] = [WordKind::Address, WordKind::Hex];

/// A target, the number of a request to it, and the request's bytes.
pub const EXPLICIT: [WordKind; 3] = [WordKind::Address, WordKind::U32, WordKind::Hex];

/// The number of a request that the device gave its application, the general status of the answer, and its data.
pub const ANSWER: [WordKind; 3] = [WordKind::U64, WordKind::GeneralStatus, WordKind::Hex];

/// A stream, and its peer.
pub const STREAM: [WordKind; 2] = [WordKind::U16, WordKind::Address];

/// A stream, and the bytes over it.
pub const FRAME: [WordKind; 2] = [WordKind::U16, WordKind::Hex];

/// A stream.
pub const CUT: [WordKind; 1] = [WordKind::U16];

/// A point, and its bytes.
pub const WRITE: [WordKind; 2] = [WordKind::U32, WordKind::Hex];

/// A point, milliseconds, a slot, microseconds, a limit of sequence numbers, or a class.
pub const NUMBER: [WordKind; 1] = [WordKind::U32];

/// The most openings of a scanner that wait for replies of one target at one time.
pub const OPENINGS: [WordKind; 1] = [WordKind::U8];

/// The connection serial number of a scanner's first opening.
pub const SERIALS: [WordKind; 1] = [WordKind::U16];

/// The first of a block of connection ids, and how many they are.
pub const IDS: [WordKind; 2] = [WordKind::U32, WordKind::U32];

/// Whether an application runs.
pub const MODE: [WordKind; 1] = [WordKind::Mode];

/// The address, the nodes that consume it, and the bytes of a datagram.
pub const SEND: [WordKind; 3] = [WordKind::Address, WordKind::Addresses, WordKind::Hex];

/// What a host has counted.
pub const COUNTERS: [WordKind; 1] = [WordKind::Hex];

/// The bytes of a point.
pub const VALUE: [WordKind; 1] = [WordKind::Hex];

/// The number of a request, the general status of its reply, the bytes of the additional status, and the data.
pub const REPLIED: [WordKind; 4] = [
    WordKind::U32,
    WordKind::GeneralStatus,
    WordKind::Hex,
    WordKind::Hex,
];

/// The number of a request to an object of the maker's own, the service code, class, instance and attribute, and the
/// data.
pub const OWN_REQUEST: [WordKind; 6] = [
    WordKind::U64,
    WordKind::U8,
    WordKind::U32,
    WordKind::U32,
    WordKind::Instance,
    WordKind::Hex,
];

/// The shape of a line by its first word. None if no line begins so, or the line of an outcome.
pub fn shape_of(first: &str) -> Option<Shape>
    ensures { option_map (λ shape. (shape.0.now, shape.1.now)) result ≡ shape_of first.now }
{
    match first {
        "adapter" => Some((&ADAPTER, &[])),
        "output" => Some((&OUTPUT, &[])),
        "input" | "config" => Some((&POINT, &[])),
        "describe" => Some((&DESCRIBE, &[])),
        "object" => Some((&NUMBER, &[])),
        "heartbeat" => Some((&HEARTBEAT, &[])),
        "scanner" => Some((&SCANNER, &[])),
        "tidy" => Some((&[], &[])),
        "openings" => Some((&OPENINGS, &[])),
        "serials" => Some((&SERIALS, &[])),
        "ids" => Some((&IDS, &[])),
        "slot" => Some((&SLOT, &RATE)),
        "request" | "datagram" | "inquiry" => Some((&FROM_NODE, &[])),
        "explicit" => Some((&EXPLICIT, &[])),
        "answer" => Some((&ANSWER, &[])),
        "counters" => Some((&COUNTERS, &[])),
        "stream" => Some((&STREAM, &[])),
        "frame" => Some((&FRAME, &[])),
        "cut" => Some((&CUT, &[])),
        "write" => Some((&WRITE, &[])),
        "read" | "tick" | "start" | "stop" => Some((&NUMBER, &[])),
        "mode" => Some((&MODE, &[])),
        _ => limit_shape_of(first),
    }
}

/// The shape of the line of a limit by its first word. None if no such line begins so.
fn limit_shape_of(first: &str) -> Option<Shape>
    ensures { option_map (λ shape. (shape.0.now, shape.1.now)) result ≡ option_map limit_shape (limit_named first.now) }
{
    let limit = limit_named(first)?;
    Some(limit_shape(limit))
}

/// The shape of a part of an outcome by the word behind the number of its event. None if no part begins so, or one that
/// has no shape.
pub fn part_shape_of(word: &str) -> Option<Shape>
    ensures { option_map (λ shape. (shape.0.now, shape.1.now)) result ≡ part_shape_of word.now }
{
    match word {
        "value" => Some((&VALUE, &[])),
        "replied" => Some((&REPLIED, &[])),
        "asked" => Some((&OWN_REQUEST, &[])),
        "reply" => Some((&FROM_NODE, &[])),
        "frame" => Some((&FRAME, &[])),
        "send" => Some((&SEND, &[])),
        _ => None,
    }
}

/// Reads a word of this kind, and drops its value.
///
/// The faults: `Bad` if no word is left, or the next is not of this kind, and `OutOfMemory`.
pub fn skip_word(alloc: Global, kind: WordKind, words: &mut Words<'_>) -> Result<(), TextFault>
    ensures { Skips (behind_word kind (unread_words words.old)) result (unread_words words.new) }
{
    match kind {
        WordKind::U8 => skipped(words.u8()),
        WordKind::U16 => skipped(words.u16()),
        WordKind::U32 => skipped(words.u32()),
        WordKind::U64 => skipped(words.u64()),
        WordKind::Instance => skipped(words.u32_or_none()),
        WordKind::Address => skipped(words.node()),
        WordKind::Addresses => skipped(words.nodes(alloc)),
        WordKind::Hex => skipped(words.bytes(alloc)),
        WordKind::ElectronicKey => skipped(read_key(alloc, words)),
        WordKind::GeneralStatus => skipped(words.general(alloc)),
        WordKind::Action => skipped(read_action(words)),
        WordKind::Mode => skipped(read_mode(words)),
        WordKind::ApplicationType => skipped(read_kind(words)),
        WordKind::ConnectionType => skipped(read_multicast(words)),
        WordKind::Trigger => skipped(read_trigger(words)),
        WordKind::Closers => skipped(read_closers(words)),
        WordKind::Openings => skipped(read_openings(words)),
    }
}

/// What is answered for a word whose value is dropped.
fn skipped<T: Drop>(read: Result<T, TextFault>) -> Result<(), TextFault>
    ensures { result ≡ skipped read }
{
    match read {
        Ok(_) => Ok(()),
        Err(fault) => Err(fault),
    }
}

//! The points whose bytes a station prints: the outputs of an adapter, the images of a scanner's slots.

ghost use Rattle.std.specs.Prelude.{◌≡◌, ◌++◌, map, slice_get, IfOk, OnOk, string_bytes};
ghost use Rattle.std.specs.List.{list_any};
ghost use Rattle.station_lines.specs.Points.{count_of, due_at, due_line, due_of, is_owned, point_line, terms_of, watched_output, watched_points, watched_slot, watched_slots, word_of};
ghost use Rattle.station_lines.specs.Details.{status_text};
ghost use Rattle.station_lines.specs.Numbers.{numbers_text};
ghost use Rattle.station_lines.specs.Reported.{answered, begun, first_place, is_behind, unreported};

use crate::numbers::push_numbers;
use crate::reported::ReportedPoints;
use crate::status::push_status;
use crate::watch::StationTraffic;
use cip_tables::{Config, Device, Kind, OutputPoint, SlotConfig};
use cip_types::{Items, Node, OutOfMemory};
use std::alloc::Global;
use trace_words::push_last_bytes;

/// What the profile says of the connection that a slot keeps open.
///
/// Volume 1, chapter 3, connection path.
#[derive(Clone, Copy, PartialEq, Eq)]
pub struct SlotTerms {
    /// The adapter that the scanner connects to.
    pub target: Node,
    /// The application connection type.
    pub kind: Kind,
    /// The point that the target consumes into.
    pub consumed: u32,
    /// The point that the target produces from.
    pub produced: u32,
    /// The target's configuration, if the path names one.
    pub config: Option<u32>,
}

/// A kind of point.
#[derive(Clone, Copy, PartialEq, Eq)]
pub enum PointKind {
    /// An output of an adapter.
    Output,
    /// The image of a scanner's slot, which keeps such a connection open.
    Image(SlotTerms),
}

/// When points held their bytes: behind the event of this number, at this time in milliseconds.
#[derive(Clone, Copy, PartialEq, Eq)]
pub struct EventMoment {
    pub number: u64,
    pub ms: u64,
}

/// A point whose bytes are printed.
#[derive(Clone, Copy, PartialEq, Eq)]
pub struct WatchedPoint {
    pub kind: PointKind,
    pub point: u32,
}

/// The points whose bytes are printed, and what was told of each: its line that was taken last.
#[derive(Drop)]
pub struct Points {
    points: Vec<WatchedPoint>,
    reported: ReportedPoints,
}

impl Points {
    /// The outputs of an adapter, or the images of a scanner's slots, in the order of the profile: at first nothing is told of
    /// them. OutOfMemory is the only fault.
    pub fn of(alloc: Global, config: &Config) -> Result<Points, OutOfMemory>
        ensures points { IfOk result (λ made. made.points.items ≡ watched_points config.now) }
        ensures reported { IfOk result (λ made. made.reported ≡ unreported (count_of (watched_points config.now))) }
    {
        let points = match config {
            Config::Adapter(profile) => watch_outputs(alloc, profile.outputs.as_slice())?,
            Config::Scanner(profile) => watch_slots(alloc, profile.slots.as_slice())?,
        };
        let reported = ReportedPoints::unreported(alloc, count_of(points.as_slice()))?;
        Ok(Points { points, reported })
    }

    /// How many points there are.
    pub fn count(&self) -> u32
        ensures { result ≡ count_of self.now.points.items }
    {
        count_of(self.points.as_slice())
    }

    /// Begins to offer the lines that are due: answers the place of the point with which it begins, the one whose line found
    /// no room last.
    pub fn begin(&mut self) -> u32
        ensures first { result ≡ first_place self.old.reported }
        ensures begun { self.new.reported ≡ begun self.old.reported }
        ensures kept { self.new.points ≡ self.old.points }
    {
        self.reported.begin()
    }

    /// Appends the line of the point at a place, if it is due: the number of the last event, the kind and the number of the
    /// point, its bytes, and the time in milliseconds. Answers these bytes.
    pub fn push_due<D: Device>(
        &self,
        alloc: Global,
        out: &mut String,
        device: &D,
        at: EventMoment,
        place: u32,
    ) -> Result<Option<Items<u8>>, OutOfMemory>
        ensures due { IfOk result
            (λ due. due ≡ due_at (D.table device.now) self.now.reported place (slice_get self.now.points.items place)) }
        ensures text { IfOk result (λ due. string_bytes out.new ≡ string_bytes out.old
            ++ due_line at.number at.ms (slice_get self.now.points.items place) due) }
    {
        let Some(watched) = self.points.get(place as usize) else {
            return Ok(None);
        };
        let Some(bytes) = due_bytes(alloc, &self.reported, device, place, watched.point)? else {
            return Ok(None);
        };
        push_line(out, at, watched.kind, watched.point, bytes.as_slice())?;
        Ok(Some(bytes))
    }

    /// The line of the point at a place, with these bytes, was offered, and was taken or found no room.
    pub fn answer(&mut self, place: u32, bytes: Items<u8>, taken: bool)
        ensures reported { self.new.reported ≡ answered place bytes taken self.old.reported }
        ensures kept { self.new.points ≡ self.old.points }
    {
        self.reported.answer(place, bytes, taken);
    }

    /// Whether a line found no room when lines were offered last.
    pub fn is_behind(&self) -> bool
        ensures { result ≡ is_behind self.now.reported }
    {
        self.reported.is_behind()
    }

    /// Whether one of the points is an output that a connection owns.
    pub fn has_owner<D: Device>(&self, device: &D) -> bool
        ensures { result ≡ list_any (is_owned (D.table device.now)) self.now.points.items }
    {
        has_owner(self.points.as_slice(), device)
    }

    /// Appends the lines of the call `status`: what the device says of itself and of each of these points, and what was
    /// counted of its datagrams.
    pub fn push_status<D: Device>(
        &self,
        out: &mut String,
        device: &D,
        traffic: &StationTraffic,
        at: EventMoment,
    ) -> Result<(), OutOfMemory>
        ensures { OnOk result (string_bytes out.new ≡ string_bytes out.old
            ++ status_text at (D.table device.now) traffic.now self.now.points.items) }
    {
        push_status(out, device, traffic, self.points.as_slice(), at)
    }

    /// Appends the lines of the call `status --csv`: what was counted of the datagrams of each connection and slot.
    pub fn push_numbers<D: Device>(
        &self,
        out: &mut String,
        device: &D,
        traffic: &StationTraffic,
        at: EventMoment,
    ) -> Result<(), OutOfMemory>
        ensures { OnOk result (string_bytes out.new ≡ string_bytes out.old
            ++ numbers_text at (D.table device.now) traffic.now self.now.points.items) }
    {
        push_numbers(out, device, traffic, self.points.as_slice(), at)
    }
}

/// How many points these are.
fn count_of(points: &[WatchedPoint]) -> u32
    ensures { result ≡ count_of points.now }
{
    u32::try_from(points.len()).unwrap_or(u32::MAX)
}

/// The outputs of an adapter.
fn watch_outputs(alloc: Global, outputs: &[OutputPoint]) -> Result<Vec<WatchedPoint>, OutOfMemory>
    ensures { IfOk result (λ points. points.items ≡ map watched_output outputs.now) }
{
    let mut points = Vec::new(alloc);
    for output in outputs {
        points.push(watch_output(output))?;
    }
    Ok(points)
}

/// An output of an adapter.
fn watch_output(output: &OutputPoint) -> WatchedPoint
    ensures { result ≡ watched_output output.now }
{
    WatchedPoint {
        kind: PointKind::Output,
        point: output.instance,
    }
}

/// The images of a scanner's slots.
fn watch_slots(alloc: Global, slots: &[SlotConfig]) -> Result<Vec<WatchedPoint>, OutOfMemory>
    ensures { IfOk result (λ points. points.items ≡ watched_slots slots.now) }
{
    let mut points = Vec::new(alloc);
    let count = u32::try_from(slots.len()).unwrap_or(u32::MAX);
    for number in 0..count {
        if let Some(slot) = slots.get(number as usize) {
            points.push(watch_slot(number, slot))?;
        }
    }
    Ok(points)
}

/// The image of a slot.
fn watch_slot(number: u32, slot: &SlotConfig) -> WatchedPoint
    ensures { result ≡ watched_slot number slot.now }
{
    WatchedPoint {
        kind: PointKind::Image(terms_of(slot)),
        point: number,
    }
}

/// What the profile says of a slot's connection.
fn terms_of(slot: &SlotConfig) -> SlotTerms
    ensures { result ≡ terms_of slot.now }
{
    SlotTerms {
        target: slot.target,
        kind: slot.kind,
        consumed: slot.consumed,
        produced: slot.produced,
        config: slot.config,
    }
}

/// Whether one of these points is an output that a connection owns.
fn has_owner<D: Device>(points: &[WatchedPoint], device: &D) -> bool
    ensures { result ≡ list_any (is_owned (D.table device.now)) points.now }
{
    points.iter().any(|watched| is_owned(device, watched))
}

/// Whether a point is an output that a connection owns.
fn is_owned<D: Device>(device: &D, watched: &WatchedPoint) -> bool
    ensures { result ≡ is_owned (D.table device.now) watched.now }
{
    device.owner(watched.point).is_some()
}

/// The bytes of a point, if its line is due: nothing was told of it, or other bytes. The point has this place.
fn due_bytes<D: Device>(
    alloc: Global,
    reported: &ReportedPoints,
    device: &D,
    place: u32,
    point: u32,
) -> Result<Option<Items<u8>>, OutOfMemory>
    ensures { IfOk result (λ due. due ≡ due_of (D.table device.now) reported.now place point) }
{
    match device.read_point(point) {
        Ok(bytes) => reported.due_bytes(alloc, place, bytes),
        Err(_) => Ok(None),
    }
}

/// Appends the line of a point.
fn push_line(
    out: &mut String,
    at: EventMoment,
    kind: PointKind,
    point: u32,
    bytes: &[u8],
) -> Result<(), OutOfMemory>
    ensures { OnOk result
        (string_bytes out.new ≡ string_bytes out.old ++ point_line at.number at.ms kind point bytes.now) }
{
    let (number, ms) = (at.number, at.ms);
    let word = word_of(kind);
    write!(out, "{number} at {ms} {word} {point}")?;
    push_last_bytes(out, bytes)
}

/// The word of a kind of point.
fn word_of(kind: PointKind) -> &'static str
    ensures { result.now ≡ word_of kind }
{
    match kind {
        PointKind::Output => "output",
        PointKind::Image(_) => "image",
    }
}

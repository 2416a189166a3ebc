//! What a station tells of its points: a line for each as its life begins, then for each change, and their fault actions.

ghost use Rattle.std.specs.Prelude.{◌≡◌, ◌∷◌, OnOk};
ghost use Rattle.station.specs.Lives.{Aged, starts_of};
ghost use Rattle.station.specs.Recorded.{Does, Recorded};
ghost use Rattle.station.specs.Recorded.Task.{Rest};
ghost use Rattle.station.specs.Rests.{Rests};
ghost use Rattle.station.specs.Times.{patience_ms};

use crate::fault::EarlyEnd;
use crate::serving::Station;
use cip_tables::{Device, Event};
use cip_types::limits::LONGEST_TICK_MS;
use station_lines::LineSink;
use station_record::RecordSink;
use udp_runner::{Clock, GroupPort};

/// While a line of state waits for room, it is offered again so often, in milliseconds.
const PATIENCE_MS: u64 = 50;

/// So many of the longest ticks time out each connection: the longest time-out is 512 times 10 s.
const LAST_TICKS: u32 = 86;

impl<P: GroupPort, C: Clock, D: Device, W: RecordSink + Drop, O: LineSink, E: LineSink> Station<
    P,
    C,
    D,
    W,
    O,
    E,
> {
    /// Begins a life: offers the line of each point, whatever it holds, and asks a scanner to open each slot.
    pub(crate) fn begin(&mut self, slots: u32) -> Result<(), EarlyEnd>
        ensures recorded { Recorded W.contents P.is_scripted C.is_scripted C.coming P.tape P.failed D.table
            self.old self.new }
        ensures begun { OnOk result (Does W.contents P.is_scripted C.is_scripted C.coming P.tape P.failed D.table
            (Rest ∷ starts_of slots) self.old self.new) }
    {
        self.show()?;
        self.start(slots)
    }

    /// Offers the line of each point of which it is due, with the one first that found no room last, until one finds none.
    pub(crate) fn print_points(&mut self) -> Result<(), EarlyEnd>
        ensures { Rests P.is_scripted P.tape P.failed self.old self.new }
    {
        let (first, count) = (self.points.begin(), self.points.count());
        if self.print_from(first, count)? {
            self.print_from(0, first)?;
        }
        Ok(())
    }

    /// Offers the lines that are due of the points at these places, until one finds no room. Whether each was taken.
    fn print_from(&mut self, first: u32, end: u32) -> Result<bool, EarlyEnd>
        ensures { Rests P.is_scripted P.tape P.failed self.old self.new }
    {
        for place in first..end {
            if !self.print_point(place)? {
                return Ok(false);
            }
        }
        Ok(true)
    }

    /// Offers the line of the point at a place, if it is due. False if it finds no room.
    fn print_point(&mut self, place: u32) -> Result<bool, EarlyEnd>
        ensures { Rests P.is_scripted P.tape P.failed self.old self.new }
    {
        self.text.clear();
        let at = self.observer.moment();
        let due = self
            .points
            .push_due(self.alloc, &mut self.text, &self.device, at, place)?;
        let Some(bytes) = due else {
            return Ok(true);
        };
        let taken = self.observer.print_state(self.text.as_bytes());
        self.points.answer(place, bytes, taken);
        Ok(taken)
    }

    /// Lets so much time pass at an adapter that each connection which owns an output times out, and offers the lines of the
    /// fault actions. While none owns an output, none passes.
    pub(crate) fn time_out_owners(&mut self) -> Result<(), EarlyEnd>
        ensures recorded { Recorded W.contents P.is_scripted C.is_scripted C.coming P.tape P.failed D.table
            self.old self.new }
        ensures aged { OnOk result (Aged W.contents P.is_scripted C.is_scripted C.coming P.tape P.failed
            D.table self.old self.new) }
    {
        for _ in 0..LAST_TICKS {
            if !self.points.has_owner(&self.device) {
                return Ok(());
            }
            self.act(&Event::Tick {
                ms: LONGEST_TICK_MS,
            })?;
        }
        Ok(())
    }
}

/// The milliseconds that a turn waits at most: while a line of state waits for room, 50.
pub(crate) fn patience_ms(is_behind: bool, most_ms: u64) -> u64
    ensures { result ≡ patience_ms is_behind most_ms }
{
    if is_behind {
        PATIENCE_MS.min(most_ms)
    } else {
        most_ms
    }
}

//! A life of a station's device, from its beginning to its end.

ghost use Rattle.std.specs.Prelude.{◌≡◌, false, IfOk, OnOk};
ghost use Rattle.std.specs.List.{list_any};
ghost use Rattle.station.specs.Lives.{Closed, EndsLife, Lived, Takes, Took, TookAll, TurnsMade, end_of, number_of, reset_end, tasks_of, wait_behind};
ghost use Rattle.station.specs.Recorded.{Does, Recorded};
ghost use Rattle.station.specs.Rests.{Rests};
ghost use Rattle.cip_tables.specs.States.{totals_of};
ghost use Rattle.station_lines.specs.Watch.Closing.{close_end, is_marked, waits_on};

use crate::fault::EarlyEnd;
use crate::serving::Station;
use crate::sources::{StepSource, pause_ms};
use crate::step::{LifeEnd, StationStep};
use cip_tables::Device;
use port_faults::{OrderedPort, PortOrder};
use station_lines::{LineSink, close_end, waits_on};
use station_record::RecordSink;
use udp_runner::{Clock, GroupPort};

impl<
    P: GroupPort + OrderedPort,
    C: Clock,
    D: Device,
    W: RecordSink + Drop,
    O: LineSink,
    E: LineSink,
> Station<P, C, D, W, O, E> {
    /// Lives: opens so many slots, takes one step of the source behind another until one ends the life, and then closes
    /// what is open: the outputs take their fault actions, the slots are closed, and then the sessions. A device that
    /// loses its power closes nothing. After a fault it closes too, as far as it can.
    pub fn live<S: StepSource>(&mut self, source: &mut S, slots: u32) -> Result<LifeEnd, EarlyEnd>
        ensures recorded { Recorded W.contents P.is_scripted C.is_scripted C.coming P.tape P.failed D.table
            self.old self.new }
        ensures lived { IfOk result (λ end. Lived W.contents P.is_scripted C.is_scripted C.coming P.tape P.failed
            D.table S.gives slots end source.old self.old source.new self.new) }
    {
        match self.live_on(source, slots) {
            Ok(end) => self.end_life(end, slots),
            Err(fault) => {
                // (the first fault is the one that is told)
                let _ = self.close(slots);
                Err(fault)
            }
        }
    }

    /// Opens so many slots, and takes the steps of the source until one ends the life.
    fn live_on<S: StepSource>(&mut self, source: &mut S, slots: u32) -> Result<LifeEnd, EarlyEnd>
        ensures recorded { Recorded W.contents P.is_scripted C.is_scripted C.coming P.tape P.failed D.table
            self.old self.new }
        ensures lived { IfOk result (λ end. TookAll W.contents P.is_scripted C.is_scripted C.coming P.tape P.failed
            D.table S.gives slots end source.old self.old source.new self.new) }
    {
        self.begin(slots)?;
        self.take_steps(source)
    }

    /// Takes the steps of the source until one ends the life.
    fn take_steps<S: StepSource>(&mut self, source: &mut S) -> Result<LifeEnd, EarlyEnd>
        ensures recorded { Recorded W.contents P.is_scripted C.is_scripted C.coming P.tape P.failed D.table
            self.old self.new }
        ensures taken { IfOk result (λ end. Takes W.contents P.is_scripted C.is_scripted C.coming P.tape P.failed
            D.table S.gives end source.old self.old source.new self.new) }
    {
        for _ in 0..u64::MAX {
            if let Some(end) = self.take_step(source)? {
                return Ok(end);
            }
        }
        // (a clock of whole milliseconds does not make so many turns)
        Err(EarlyEnd::Clock)
    }

    /// Takes the next step. Answers how the life ends, if it ends with it, or with the turn behind it.
    fn take_step<S: StepSource>(&mut self, source: &mut S) -> Result<Option<LifeEnd>, EarlyEnd>
        ensures recorded { Recorded W.contents P.is_scripted C.is_scripted C.coming P.tape P.failed D.table
            self.old self.new }
        ensures taken { IfOk result (λ end. Took W.contents P.is_scripted C.is_scripted C.coming P.tape P.failed
            D.table S.gives end source.old self.old source.new self.new) }
    {
        let step = source.next_step(self.now_ms(), &self.device)?;
        let (end, wait_ms) = (end_of(&step), wait_behind(&step));
        self.perform(step)?;
        match end {
            Some(end) => Ok(Some(end)),
            None => {
                self.turn(wait_ms)?;
                Ok(self.reset_end())
            }
        }
    }

    /// How many connection ids the device has left.
    pub fn ids_left(&self) -> u32
        ensures { result ≡ (totals_of (D.table self.now.device)).ids_left }
    {
        self.device.totals().ids_left
    }

    /// Does what a step says, but for the turn behind it.
    fn perform(&mut self, step: StationStep) -> Result<(), EarlyEnd>
        ensures recorded { Recorded W.contents P.is_scripted C.is_scripted C.coming P.tape P.failed D.table
            self.old self.new }
        ensures done { OnOk result (Does W.contents P.is_scripted C.is_scripted C.coming P.tape P.failed D.table
            (tasks_of (number_of self.old) step) self.old self.new) }
    {
        match step {
            StationStep::Call(event) => self.act(&event),
            StationStep::Ask(call) => self.ask(&call),
            StationStep::Status => self.print_status(),
            StationStep::Numbers => self.print_numbers(),
            StationStep::NoCall { line } => self.report_line(line),
            StationStep::Order(order) => self.order(order),
            StationStep::Say { text } => self.print_said(text.as_slice()),
            StationStep::Wait { ms: _ } => Ok(()),
            StationStep::End(end) => self.report_end(end),
        }
    }

    /// How the life ends behind a turn, if it ends with it: a reset that a peer has requested is as a loss of power. Its reply
    /// is the last thing that was sent, since a turn takes one message at most, behind all else.
    fn reset_end(&self) -> Option<LifeEnd>
        ensures { result ≡ reset_end self.now.observer.reset }
    {
        if self.observer.is_reset() {
            Some(LifeEnd::Restart { same: false })
        } else {
            None
        }
    }

    /// Has the port obey an order.
    fn order(&mut self, order: PortOrder) -> Result<(), EarlyEnd>
        ensures { Rests P.is_scripted P.tape P.failed self.old self.new }
    {
        self.port.obey(order)?;
        Ok(())
    }

    /// Closes what is open, unless the device loses its power.
    fn end_life(&mut self, end: LifeEnd, slots: u32) -> Result<LifeEnd, EarlyEnd>
        ensures recorded { Recorded W.contents P.is_scripted C.is_scripted C.coming P.tape P.failed D.table
            self.old self.new }
        ensures closed { IfOk result (λ ended. EndsLife W.contents P.is_scripted C.is_scripted C.coming P.tape
            P.failed D.table slots end ended self.old self.new) }
    {
        match end {
            LifeEnd::Restart { same: _ } => {}
            _ => self.close(slots)?,
        }
        Ok(end)
    }
}

impl<P: GroupPort, C: Clock, D: Device, W: RecordSink + Drop, O: LineSink, E: LineSink> Station<
    P,
    C,
    D,
    W,
    O,
    E,
> {
    /// Times out who owns an output, closes the slots, waits a bounded time for the replies, and ends the sessions.
    fn close(&mut self, slots: u32) -> Result<(), EarlyEnd>
        ensures recorded { Recorded W.contents P.is_scripted C.is_scripted C.coming P.tape P.failed D.table
            self.old self.new }
        ensures closed { OnOk result (Closed W.contents P.is_scripted C.is_scripted C.coming P.tape P.failed D.table
            slots self.old self.new) }
    {
        self.time_out_owners()?;
        self.stop(slots)?;
        self.wait_closed()?;
        self.unregister()
    }

    /// Waits until no slot is being closed, at most for the open time-out of a scanner.
    fn wait_closed(&mut self) -> Result<(), EarlyEnd>
        ensures recorded { Recorded W.contents P.is_scripted C.is_scripted C.coming P.tape P.failed D.table
            self.old self.new }
        ensures turned { OnOk result (TurnsMade W.contents P.is_scripted C.is_scripted C.coming P.tape P.failed
            D.table self.old self.new) }
        ensures closed { OnOk result
            (waits_on (list_any is_marked self.new.observer.closing)
            self.new.observer.now_ms (close_end self.old.observer.now_ms self.old.closing_ms) ≡ false) }
    {
        let until_ms = close_end(self.now_ms(), self.closing_ms);
        for _ in 0..u64::MAX {
            if !waits_on(self.is_closing(), self.now_ms(), until_ms) {
                return Ok(());
            }
            self.turn(pause_ms(self.now_ms(), Some(until_ms)))?;
        }
        // (a clock of whole milliseconds does not make so many turns)
        Err(EarlyEnd::Clock)
    }
}

/// How a life ends with a step, if it ends with it.
fn end_of(step: &StationStep) -> Option<LifeEnd>
    ensures { result ≡ end_of step.now }
{
    match step {
        StationStep::End(end) => Some(*end),
        _ => None,
    }
}

/// The milliseconds that the turn behind a step waits at most.
fn wait_behind(step: &StationStep) -> u64
    ensures { result ≡ wait_behind step.now }
{
    match step {
        StationStep::Wait { ms } => *ms,
        _ => 0,
    }
}

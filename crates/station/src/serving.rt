//! A device at a port with a clock.

ghost use Rattle.std.specs.Prelude.{◌≡◌, ◌∷◌, [], Ok, IfOk, OnOk};
ghost use Rattle.std.specs.List.{list_any};
ghost use Rattle.station_lines.specs.Attributes.Calls.{call_event};
ghost use Rattle.station.specs.Ended.{Ended, Ends};
ghost use Rattle.station.specs.Faults.{failures_after_call, failures_after_turn};
ghost use Rattle.station.specs.Lives.{called, number_of, starts_of, stops_of};
ghost use Rattle.station.specs.Recorded.{CalledOn, Does, Recorded};
ghost use Rattle.station.specs.Rests.{Rests, Unstepped};
ghost use Rattle.station.specs.Sessions.{sessions_of};
ghost use Rattle.station.specs.Turned.{Turned, Went};
ghost use Rattle.station_lines.specs.Watch.Closing.{closing_ms, is_marked};

use crate::fault::{EarlyEnd, failures_after_call, failures_after_turn};
use crate::observer::StationObserver;
use crate::point_lines::patience_ms;
use crate::sessions::{sessions_of, unregister_message};
use crate::step::LifeEnd;
use cip_tables::{Config, Device, Event};
use cip_types::{Ms, Node, OutOfMemory};
use scanner_table::Session;
use station_lines::{
    AttributeCall, EventMoment, LineSink, LinkReport, Points, StationTraffic, call_event,
    closing_ms, owners_of, push_connected, push_report, push_starved, push_unbound,
};
use station_record::{RecordFault, RecordSink};
use std::alloc::Global;
use std::str;
use udp_runner::{Clock, DataGroup, GroupPort, Output, RunFault, act, turn_in_time};

/// At most so many reports of the port are told behind one turn.
const MOST_REPORTS: u32 = 64;

/// What a station says beside its outcomes.
#[derive(Clone, Copy, PartialEq, Eq)]
pub struct Reporting {
    /// Whether it says nothing of its port's streams, and not why it ends with its input.
    pub quiet: bool,
    /// The seconds for which an adapter's stream may be silent.
    pub silent_s: u16,
}

/// A device at a port with a clock, with an observer of its steps.
#[derive(Drop)]
pub struct Station<P, C, D, W, O, E> {
    pub(crate) alloc: Global,
    pub(crate) port: P,
    clock: C,
    pub(crate) device: D,
    pub(crate) observer: StationObserver<W, O, E>,
    pub(crate) points: Points,
    peers: Vec<Node>,
    groups: Vec<DataGroup>,
    pub(crate) text: String,
    reporting: Reporting,
    /// How long it waits at its end while slots are being closed, in milliseconds.
    pub(crate) closing_ms: u64,
    failures: u32,
}

impl<P: Drop, C: Drop, D: Drop, W: Drop, O: Drop, E: Drop> Station<P, C, D, W, O, E> {
    /// A device of this configuration at a port. The fault: an allocation was refused.
    pub fn new(
        alloc: Global,
        config: &Config,
        port: P,
        clock: C,
        device: D,
        observer: StationObserver<W, O, E>,
        reporting: Reporting,
    ) -> Result<Self, OutOfMemory>
    where
        ensures recorder { IfOk result (λ station. station.observer.recorder ≡ observer.recorder) }
        ensures device { IfOk result (λ station. station.device ≡ device) }
        ensures closing { IfOk result (λ station. station.closing_ms ≡ closing_ms config.now) }
    {
        Ok(Station {
            alloc,
            port,
            clock,
            device,
            observer,
            points: Points::of(alloc, config)?,
            peers: Vec::new(alloc),
            groups: Vec::new(alloc),
            text: String::new(alloc),
            reporting,
            closing_ms: closing_ms(config),
            failures: 0,
        })
    }
}

impl<P: GroupPort, C: Clock, D: Device, W: RecordSink + Drop, O: LineSink, E: LineSink> Station<
    P,
    C,
    D,
    W,
    O,
    E,
> {
    /// The milliseconds that have passed at the device.
    pub fn now_ms(&self) -> u64
        ensures { result ≡ self.now.observer.now_ms }
    {
        self.observer.now_ms()
    }

    /// Why the record has ended, if it has.
    pub fn record_fault(&self) -> Option<RecordFault> {
        self.observer.record_fault()
    }

    /// What was counted of the device's datagrams.
    pub fn traffic(&self) -> &StationTraffic
        ensures { result.now ≡ self.now.observer.traffic }
    {
        self.observer.traffic()
    }

    /// Makes a turn that waits at most so long, and less if a line of state or a browser waits. Prints what has changed.
    pub fn turn(&mut self, most_ms: u64) -> Result<(), EarlyEnd>
        ensures turned { Turned W.contents P.is_scripted C.is_scripted C.coming P.tape P.failed D.table
            self.old self.new }
        ensures went { OnOk result (Went W.contents P.is_scripted C.is_scripted C.coming P.tape P.failed D.table
            self.old self.new) }
    {
        let most_ms = self.observer.page_wait_ms(most_ms);
        let most_ms = patience_ms(self.points.is_behind(), most_ms);
        self.wait_and_step(most_ms)?;
        self.inform_port()?;
        self.show()
    }

    /// Passes on to the port what changed at connections, and reports what the port reports.
    fn inform_port(&mut self) -> Result<(), EarlyEnd>
        ensures { Rests P.is_scripted P.tape P.failed self.old self.new }
    {
        self.pass_peers()?;
        self.pass_groups()?;
        self.pass_link_reports();
        self.report_starved()?;
        self.report_unbound()?;
        self.report_streams()
    }

    /// Tells an adapter's port which peers have connections, and which own outputs, if they have changed.
    fn pass_peers(&mut self) -> Result<(), EarlyEnd>
        ensures { Rests P.is_scripted P.tape P.failed self.old self.new }
    {
        self.peers.clear();
        if self.observer.take_reconnected() {
            push_connected(&mut self.peers, &self.device)?;
            let owners = owners_of(self.alloc, &self.device)?;
            self.port.keep(self.peers.as_slice(), owners.as_slice());
        }
        Ok(())
    }

    /// Tells a scanner's port of which groups it receives the datagrams, if they have changed.
    fn pass_groups(&mut self) -> Result<(), EarlyEnd>
        ensures { Rests P.is_scripted P.tape P.failed self.old self.new }
    {
        self.groups.clear();
        if self.observer.push_groups(&mut self.groups)? {
            self.port.receive_groups(self.groups.as_slice());
        }
        Ok(())
    }

    /// Tells a scanner's port of which targets the streams are to be renewed, and with which a connection is established.
    fn pass_link_reports(&mut self)
        ensures { Rests P.is_scripted P.tape P.failed self.old self.new }
    {
        self.peers.clear();
        for _ in 0..u64::MAX {
            let Some(link_report) = self.observer.next_link_report() else {
                return;
            };
            self.pass_link_report(link_report);
        }
    }

    /// Tells a scanner's port of the target of one slot.
    fn pass_link_report(&mut self, link_report: LinkReport)
        ensures { Rests P.is_scripted P.tape P.failed self.old self.new }
    {
        match link_report {
            LinkReport::Renew(slot) => self.renew(slot),
            LinkReport::Succeed(slot) => self.succeed(slot),
        }
    }

    /// Tells the port that a connection with the target of a slot is established.
    fn succeed(&mut self, slot: u32)
        ensures { Rests P.is_scripted P.tape P.failed self.old self.new }
    {
        if let Some(target) = self.observer.target(slot) {
            self.port.succeed(target);
        }
    }

    /// Has the stream to the target of a slot renewed, once behind a turn.
    fn renew(&mut self, slot: u32)
        ensures { Rests P.is_scripted P.tape P.failed self.old self.new }
    {
        let Some(target) = self.observer.target(slot) else {
            return;
        };
        if self.peers.iter().any(|other| *other == target) {
            return;
        }
        // (if there is no memory to note it, the stream may be renewed twice)
        let _ = self.peers.push(target);
        self.port.renew(target);
    }

    /// Reports each slot whose data never came.
    fn report_starved(&mut self) -> Result<(), EarlyEnd>
        ensures { Rests P.is_scripted P.tape P.failed self.old self.new }
    {
        for _ in 0..u64::MAX {
            let Some(starved) = self.observer.next_starved() else {
                return Ok(());
            };
            self.text.clear();
            push_starved(&mut self.text, &starved)?;
            self.observer.report(self.text.as_bytes());
        }
        Ok(())
    }

    /// Reports the groups whose datagrams the port cannot receive.
    fn report_unbound(&mut self) -> Result<(), EarlyEnd>
        ensures { Rests P.is_scripted P.tape P.failed self.old self.new }
    {
        for _ in 0..MOST_REPORTS {
            let Some(group) = self.port.next_unbound() else {
                return Ok(());
            };
            self.text.clear();
            push_unbound(&mut self.text, group)?;
            self.observer.report(self.text.as_bytes());
        }
        Ok(())
    }

    /// Says what the port reports of its streams.
    fn report_streams(&mut self) -> Result<(), EarlyEnd>
        ensures { Rests P.is_scripted P.tape P.failed self.old self.new }
    {
        for _ in 0..MOST_REPORTS {
            let Some(report) = self.port.next_report() else {
                return Ok(());
            };
            self.observer.note_report(&report);
            if !self.reporting.quiet {
                self.text.clear();
                push_report(&mut self.text, &report, self.reporting.silent_s)?;
                self.observer.report(self.text.as_bytes());
            }
        }
        Ok(())
    }

    /// Reports why the life ends, if its input has ended.
    pub(crate) fn report_end(&mut self, end: LifeEnd) -> Result<(), EarlyEnd>
        ensures { Rests P.is_scripted P.tape P.failed self.old self.new }
    {
        if end == LifeEnd::InputEnd && !self.reporting.quiet {
            self.observer.report(
                b"eip_station: standard input has ended, and so does the station (--no-input: runs on without it)\n",
            );
        }
        Ok(())
    }

    /// Makes a turn that waits at most so many milliseconds.
    #[tactic(auto, using(crate::proofs::Turning::not_turned))]
    fn wait_and_step(&mut self, most_ms: u64) -> Result<(), EarlyEnd>
        ensures turned { Turned W.contents P.is_scripted C.is_scripted C.coming P.tape P.failed D.table
            self.old self.new }
        ensures went { OnOk result (Went W.contents P.is_scripted C.is_scripted C.coming P.tape P.failed D.table
            self.old self.new) }
    {
        // (`turn_in_time` requires that the count of failures can rise)
        if self.port.failures() == u64::MAX {
            return Err(EarlyEnd::Port);
        }
        let made = turn_in_time(
            &mut self.port,
            &mut self.device,
            &mut self.clock,
            &mut self.observer,
            Ms(most_ms),
        );
        self.go_on_after_turn(made)
    }

    /// Goes on after a turn, if the station does not end with it.
    fn go_on_after_turn(&mut self, made: Result<u64, RunFault>) -> Result<(), EarlyEnd>
        ensures rests { Rests P.is_scripted P.tape P.failed self.old self.new }
        ensures counted { OnOk result (failures_after_turn self.old.failures made ≡ Ok self.new.failures) }
    {
        self.failures = failures_after_turn(self.failures, made)?;
        Ok(())
    }

    /// Has a scanner send the request of a call that concerns an attribute. Its number is one above that of the last one.
    #[tactic(auto, using(crate::proofs::Noting::at_rest, crate::proofs::Noting::unmoved))]
    pub(crate) fn ask(&mut self, call: &AttributeCall) -> Result<(), EarlyEnd>
        ensures recorded { Recorded W.contents P.is_scripted C.is_scripted C.coming P.tape P.failed D.table
            self.old self.new }
        ensures requested { OnOk result (Does W.contents P.is_scripted C.is_scripted C.coming P.tape P.failed D.table
            (called (call_event (number_of self.old) call.now)) self.old self.new) }
    {
        let event = call_event(self.alloc, self.observer.next_explicit(), call)?;
        self.act(&event)
    }

    /// Steps the device by an event of the application, sends the answer, and prints what has changed.
    pub(crate) fn act(&mut self, event: &Event) -> Result<(), EarlyEnd>
        ensures recorded { Recorded W.contents P.is_scripted C.is_scripted C.coming P.tape P.failed D.table
            self.old self.new }
        ensures called { OnOk result (Does W.contents P.is_scripted C.is_scripted C.coming P.tape P.failed D.table
            (called event.now) self.old self.new) }
    {
        self.step_and_send(event)?;
        self.show()
    }

    /// Steps the device by an event of the application, and sends the answer. What cannot be sent is lost.
    #[tactic(auto, using(crate::proofs::Noting::at_rest, crate::proofs::Noting::unmoved))]
    fn step_and_send(&mut self, event: &Event) -> Result<(), EarlyEnd>
        ensures recorded { Recorded W.contents P.is_scripted C.is_scripted C.coming P.tape P.failed D.table
            self.old self.new }
        ensures called { OnOk result (CalledOn W.contents P.is_scripted P.tape P.failed D.table event.now
            self.old self.new) }
    {
        // (`act` requires that the count of failures can rise)
        if self.port.failures() == u64::MAX {
            return Err(EarlyEnd::Port);
        }
        let made = act(&mut self.port, &mut self.device, &mut self.observer, event);
        self.go_on_after_call(made)
    }

    /// Goes on after a call, if the station does not end with it. A call that the device refuses ends no station.
    fn go_on_after_call(&mut self, made: Result<(), RunFault>) -> Result<(), EarlyEnd>
        ensures rests { Rests P.is_scripted P.tape P.failed self.old self.new }
        ensures counted { OnOk result (failures_after_call self.old.failures made ≡ Ok self.new.failures) }
    {
        self.failures = failures_after_call(self.failures, made)?;
        Ok(())
    }

    /// Asks a scanner to open each slot.
    pub(crate) fn start(&mut self, slots: u32) -> Result<(), EarlyEnd>
        ensures recorded { Recorded W.contents P.is_scripted C.is_scripted C.coming P.tape P.failed D.table
            self.old self.new }
        ensures started { OnOk result (Does W.contents P.is_scripted C.is_scripted C.coming P.tape P.failed D.table
            (starts_of slots) self.old self.new) }
    {
        for slot in 0..slots {
            self.act(&Event::Start { slot })?;
        }
        Ok(())
    }

    /// Asks a scanner to close each slot.
    pub(crate) fn stop(&mut self, slots: u32) -> Result<(), EarlyEnd>
        ensures recorded { Recorded W.contents P.is_scripted C.is_scripted C.coming P.tape P.failed D.table
            self.old self.new }
        ensures stopped { OnOk result (Does W.contents P.is_scripted C.is_scripted C.coming P.tape P.failed D.table
            (stops_of slots) self.old self.new) }
    {
        for slot in 0..slots {
            self.act(&Event::Stop { slot })?;
        }
        Ok(())
    }

    /// Whether a slot is being closed.
    pub fn is_closing(&self) -> bool
        ensures { result ≡ list_any is_marked self.now.observer.closing }
    {
        self.observer.is_closing()
    }

    /// Ends each session of the device: sends UnRegisterSession, and closes the stream.
    pub fn unregister(&mut self) -> Result<(), EarlyEnd>
        ensures unstepped { Unstepped self.old self.new }
        ensures ended { OnOk result (Ended P.is_scripted P.tape P.failed D.table self.old self.new) }
    {
        let copy = self.device.copy()?;
        let sessions = sessions_of(self.alloc, copy.table())?;
        self.end_sessions(sessions.as_slice())
    }

    /// Ends these sessions, one after another.
    fn end_sessions(&mut self, sessions: &[Session]) -> Result<(), EarlyEnd>
        ensures unstepped { Unstepped self.old self.new }
        ensures ended { OnOk result (Ends P.is_scripted P.tape P.failed sessions.now self.old self.new) }
    {
        for session in sessions {
            self.end_session(*session)?;
        }
        Ok(())
    }

    /// Sends UnRegisterSession over the stream of a session, and closes it.
    fn end_session(&mut self, session: Session) -> Result<(), EarlyEnd>
        ensures unstepped { Unstepped self.old self.new }
        ensures ended { OnOk result (Ends P.is_scripted P.tape P.failed (session ∷ []) self.old self.new) }
    {
        if self.port.failures() == u64::MAX {
            return Err(EarlyEnd::Port);
        }
        let message = unregister_message(self.alloc, session.handle)?;
        let (stream, bytes) = (session.stream, message.as_slice());
        // (a stream that has broken takes no message; that is no fault of the station)
        if self.port.send(&Output::Frame { stream, bytes }).is_err() {
            return Ok(());
        }
        let _ = self.port.send(&Output::Close { stream });
        Ok(())
    }

    /// Offers the lines that are due of points. The fault: there was no memory for an outcome or a line.
    pub(crate) fn show(&mut self) -> Result<(), EarlyEnd>
        ensures { Rests P.is_scripted P.tape P.failed self.old self.new }
    {
        self.observer.check()?;
        self.print_points()?;
        self.observer.show_page(&self.device);
        Ok(())
    }

    /// Prints the lines of the call `status`, which is no event of the device. The fault: there was no memory for them.
    pub(crate) fn print_status(&mut self) -> Result<(), EarlyEnd>
        ensures { Rests P.is_scripted P.tape P.failed self.old self.new }
    {
        self.text.clear();
        let at = self.observer.moment();
        self.points
            .push_status(&mut self.text, &self.device, self.observer.traffic(), at)?;
        self.observer.print(self.text.as_bytes());
        Ok(())
    }

    /// Prints the lines of the call `status --csv`, which is no event of the device. The fault: there was no memory for them.
    pub(crate) fn print_numbers(&mut self) -> Result<(), EarlyEnd>
        ensures { Rests P.is_scripted P.tape P.failed self.old self.new }
    {
        self.text.clear();
        let at = self.observer.moment();
        self.points
            .push_numbers(&mut self.text, &self.device, self.observer.traffic(), at)?;
        self.observer.print(self.text.as_bytes());
        Ok(())
    }

    /// Prints what a script tells of one of its lines, behind the number of the last event and the time.
    pub(crate) fn print_said(&mut self, said: &[u8]) -> Result<(), EarlyEnd>
        ensures { Rests P.is_scripted P.tape P.failed self.old self.new }
    {
        self.text.clear();
        let EventMoment { number, ms } = self.observer.moment();
        let said = str::from_utf8(said).unwrap_or("");
        if write!(&mut self.text, "{number} at {ms} {said}\n").is_err() {
            return Err(EarlyEnd::OutOfMemory);
        }
        self.observer.print(self.text.as_bytes());
        Ok(())
    }

    /// Reports that the line of this number of the input is no call.
    pub(crate) fn report_line(&mut self, number: u64) -> Result<(), EarlyEnd>
        ensures { Rests P.is_scripted P.tape P.failed self.old self.new }
    {
        self.text.clear();
        if write!(
            &mut self.text,
            "eip_station: line {number} of standard input is no call: write POINT HEX, read POINT, mode run, mode idle, start SLOT, stop SLOT, get NODE CLASS INSTANCE ATTRIBUTE, set NODE CLASS INSTANCE ATTRIBUTE HEX, explicit NODE NUMBER HEX, answer NUMBER STATUS HEX, status [--csv]\n"
        )
        .is_err()
        {
            return Err(EarlyEnd::OutOfMemory);
        }
        self.observer.report(self.text.as_bytes());
        Ok(())
    }
}

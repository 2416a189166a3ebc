//! The observer of a station's device: it records its steps, prints them, and notes what the port has to know.

ghost use Rattle.std.specs.Prelude.{◌≡◌, ◌||◌, IfOk};
ghost use Rattle.std.specs.List.{list_any};
ghost use Rattle.station.specs.Resets.{grants_reset, is_reset};
ghost use Rattle.station_lines.specs.Attributes.Requested.{next_number};
ghost use Rattle.station_lines.specs.Watch.Closing.{is_marked};

use crate::fault::EarlyEnd;
use crate::resets::requests_reset;
use cip_events::{Answer, Delivery, Event, Outcome, Verdict};
use cip_tables::{Config, Device};
use cip_types::{Node, OutOfMemory};
use page_feed::{PageFeed, StationFacts};
use station_lines::{
    ClosingSlots, EventMoment, LineSink, LinkReport, PendingAttributes, ReplyMoment, SlotWatches,
    Starved, StationTraffic, changes_connections, has_news, push_own,
};
use station_record::{RecordFault, RecordSink, Recorder};
use std::alloc::Global;
use trace_text::push_outcome;
use trace_words::push_refusals;
use udp_runner::{DataGroup, Observer, PortReport};

/// Records the steps of a device, says outcomes on `out` and faults on `err`, and notes what a port is to be told.
#[derive(Drop)]
pub struct StationObserver<W, O, E> {
    alloc: Global,
    recorder: Recorder<W>,
    out: O,
    err: E,
    now_ms: u64,
    closing: ClosingSlots,
    /// Whether the connections of an adapter may have changed since the port was told of them.
    reconnected: bool,
    /// Whether a peer has requested a reset, and the device has granted it.
    reset: bool,
    slots: SlotWatches,
    traffic: StationTraffic,
    requested: PendingAttributes,
    fault: Option<EarlyEnd>,
    record_fault: Option<RecordFault>,
    page: Option<PageFeed>,
}

impl<W: RecordSink + Drop, O: LineSink, E: LineSink> StationObserver<W, O, E> {
    /// An observer that has noted nothing of a device of this configuration. The fault: an allocation was refused.
    pub fn new(
        alloc: Global,
        config: &Config,
        recorder: Recorder<W>,
        out: O,
        err: E,
    ) -> Result<Self, OutOfMemory>
    where
        O: Drop,
        E: Drop,
        ensures { IfOk result (λ observer. observer.recorder ≡ recorder) }
    {
        Ok(StationObserver {
            alloc,
            recorder,
            out,
            err,
            now_ms: 0,
            closing: ClosingSlots::none(alloc)?,
            reconnected: false,
            reset: false,
            slots: SlotWatches::of(alloc, config)?,
            traffic: StationTraffic::of(alloc, config)?,
            requested: PendingAttributes::none(alloc),
            fault: None,
            record_fault: None,
            page: None,
        })
    }

    /// Tells a page of the device from now on.
    pub fn feed(&mut self, page: PageFeed)
        ensures kept { self.new.recorder ≡ self.old.recorder }
        ensures unreset { self.new.reset ≡ self.old.reset }
    {
        self.page = Some(page);
    }

    /// Hands a snapshot of the device to the page, if there is one and it is time.
    pub fn show_page<D: Device>(&mut self, device: &D)
        ensures kept { self.new.recorder ≡ self.old.recorder }
        ensures unreset { self.new.reset ≡ self.old.reset }
    {
        let facts = self.facts();
        if let Some(page) = &mut self.page {
            page.show(device, facts, self.traffic.connections());
        }
    }

    /// How long a turn may wait, so that the page gets its next snapshot in time.
    pub fn page_wait_ms(&self, most_ms: u64) -> u64 {
        match &self.page {
            Some(page) => page.wait_ms(self.facts(), most_ms),
            None => most_ms,
        }
    }

    /// Has the page note a step.
    fn note_page(&mut self, event: &Event, outcome: &Outcome)
        ensures kept { self.new.recorder ≡ self.old.recorder }
        ensures unreset { self.new.reset ≡ self.old.reset }
    {
        let facts = self.facts();
        if let Some(page) = &mut self.page {
            page.note(facts, event, outcome);
        }
    }

    /// What the page is to know beside the device.
    fn facts(&self) -> StationFacts {
        let totals = self.traffic.totals();
        StationFacts {
            number: self.count(),
            ms: self.now_ms(),
            received: totals.received,
            sent: totals.sent,
            applied: totals.applied,
            lost: totals.lost,
        }
    }

    /// The milliseconds of all ticks.
    pub fn now_ms(&self) -> u64
        ensures { result ≡ self.now.now_ms }
    {
        self.now_ms
    }

    /// The number of events that the device has taken.
    pub fn count(&self) -> u64
        ensures { result ≡ self.now.recorder.count }
    {
        self.recorder.count()
    }

    /// When its last event was: the number of that, and the time.
    pub fn moment(&self) -> EventMoment
        ensures { result ≡ record { number = self.now.recorder.count; ms = self.now.now_ms } }
    {
        EventMoment {
            number: self.count(),
            ms: self.now_ms(),
        }
    }

    /// Why the record has ended, if it has.
    pub fn record_fault(&self) -> Option<RecordFault> {
        self.record_fault
    }

    /// Whether a slot is being closed.
    pub fn is_closing(&self) -> bool
        ensures { result ≡ list_any is_marked self.now.closing }
    {
        self.closing.any()
    }

    /// Whether a peer has requested a reset, which the device has granted. Then the life is to end.
    pub fn is_reset(&self) -> bool
        ensures { result ≡ self.now.reset }
    {
        self.reset
    }

    /// Whether the connections of an adapter may have changed since this was asked last.
    pub fn take_reconnected(&mut self) -> bool
        ensures kept { self.new.recorder ≡ self.old.recorder }
        ensures unreset { self.new.reset ≡ self.old.reset }
    {
        let reconnected = self.reconnected;
        self.reconnected = false;
        reconnected
    }

    /// Appends the groups of the slots, each once, if they may have changed since the last time. Whether they may have.
    pub fn push_groups(&mut self, groups: &mut Vec<DataGroup>) -> Result<bool, OutOfMemory>
        ensures kept { self.new.recorder ≡ self.old.recorder }
        ensures unreset { self.new.reset ≡ self.old.reset }
    {
        self.slots.push_groups(groups)
    }

    /// Takes the next thing that the port is to be told of a slot's target.
    pub fn next_link_report(&mut self) -> Option<LinkReport>
        ensures kept { self.new.recorder ≡ self.old.recorder }
        ensures unreset { self.new.reset ≡ self.old.reset }
    {
        self.slots.next_link_report()
    }

    /// Takes the next slot whose data never came.
    pub fn next_starved(&mut self) -> Option<Starved>
        ensures kept { self.new.recorder ≡ self.old.recorder }
        ensures unreset { self.new.reset ≡ self.old.reset }
    {
        self.slots.next_starved()
    }

    /// The target of a slot.
    pub fn target(&self, slot: u32) -> Option<Node> {
        self.slots.target(slot)
    }

    /// What was counted of the device's datagrams.
    pub fn traffic(&self) -> &StationTraffic
        ensures { result.now ≡ self.now.traffic }
    {
        &self.traffic
    }

    /// Notes what the port reports of a stream.
    pub fn note_report(&mut self, report: &PortReport)
        ensures kept { self.new.recorder ≡ self.old.recorder }
        ensures unreset { self.new.reset ≡ self.old.reset }
    {
        self.traffic.note_report(self.now_ms, report);
    }

    /// The number of the next explicit request.
    pub fn next_explicit(&self) -> u32
        ensures { result ≡ next_number self.now.requested.last }
    {
        self.requested.next_number()
    }

    /// Fails once if there was no memory to note a step.
    pub fn check(&mut self) -> Result<(), EarlyEnd>
        ensures kept { self.new.recorder ≡ self.old.recorder }
        ensures unreset { self.new.reset ≡ self.old.reset }
    {
        match self.fault.take() {
            Some(fault) => Err(fault),
            None => Ok(()),
        }
    }

    /// Says a text on `out`.
    pub fn print(&mut self, text: &[u8])
        ensures kept { self.new.recorder ≡ self.old.recorder }
        ensures unreset { self.new.reset ≡ self.old.reset }
    {
        if !text.is_empty() {
            self.out.line(text);
        }
    }

    /// Offers a line of state on `out`. Whether it was taken.
    pub fn print_state(&mut self, text: &[u8]) -> bool
        ensures kept { self.new.recorder ≡ self.old.recorder }
        ensures unreset { self.new.reset ≡ self.old.reset }
    {
        self.out.state(text)
    }

    /// Reports a text on `err`.
    pub fn report(&mut self, text: &[u8])
        ensures kept { self.new.recorder ≡ self.old.recorder }
        ensures unreset { self.new.reset ≡ self.old.reset }
    {
        let facts = self.facts();
        if let Some(page) = &mut self.page {
            page.note_report(facts, text);
        }
        self.err.line(text);
    }

    /// Prints the outcome of the last event, and why slots are not opened.
    fn print_outcome(&mut self, outcome: &Outcome) -> Result<(), OutOfMemory>
        ensures kept { self.new.recorder ≡ self.old.recorder }
        ensures unreset { self.new.reset ≡ self.old.reset }
    {
        let mut text = String::new(self.alloc);
        push_outcome(&mut text, self.recorder.count(), outcome)?;
        push_refusals(&mut text, outcome)?;
        self.print(text.as_bytes());
        Ok(())
    }

    /// Prints the outcome of the last event, if it is to be printed, and what its answer says of requests.
    fn print_news(&mut self, event: &Event, outcome: &Outcome) -> Result<(), OutOfMemory>
        ensures kept { self.new.recorder ≡ self.old.recorder }
        ensures unreset { self.new.reset ≡ self.old.reset }
    {
        if has_news(event, outcome) {
            self.print_outcome(outcome)?;
        }
        self.print_requests(outcome)
    }

    /// Prints what an answer says of attributes that were requested, and a request that the application is to answer.
    fn print_requests(&mut self, outcome: &Outcome) -> Result<(), OutOfMemory>
        ensures kept { self.new.recorder ≡ self.old.recorder }
        ensures unreset { self.new.reset ≡ self.old.reset }
    {
        let Ok(answer) = outcome else {
            return Ok(());
        };
        let mut text = String::new(self.alloc);
        let (number, ms) = (self.count(), self.now_ms());
        let moment = ReplyMoment { number, ms };
        self.requested.push_answer(&mut text, moment, answer)?;
        push_own(&mut text, &answer.verdict, EventMoment { number, ms })?;
        self.print(text.as_bytes());
        Ok(())
    }

    /// Notes what the device has done.
    fn note<D: Device>(
        &mut self,
        device: &D,
        event: &Event,
        outcome: &Outcome,
    ) -> Result<(), OutOfMemory>
        ensures kept { self.new.recorder ≡ self.old.recorder }
        ensures reset { self.new.reset ≡ (self.old.reset || grants_reset outcome.now) }
    {
        if let Event::Tick { ms } = event {
            if outcome.is_ok() {
                self.now_ms = self.now_ms.saturating_add(u64::from(*ms));
            }
        }
        match outcome {
            Ok(answer) => self.note_answer(device, event, answer),
            Err(_) => Ok(()),
        }
    }

    /// Notes what an answer says of connections, slots and resets, and counts datagrams.
    fn note_answer<D: Device>(
        &mut self,
        device: &D,
        event: &Event,
        answer: &Answer,
    ) -> Result<(), OutOfMemory>
        ensures kept { self.new.recorder ≡ self.old.recorder }
        ensures reset { self.new.reset ≡ (self.old.reset || list_any is_reset answer.now.notices) }
    {
        let notices = answer.notices.as_slice();
        self.reset |= requests_reset(notices);
        self.closing.note(notices);
        self.reconnected |= changes_connections(notices);
        self.slots.note(device, event, answer)?;
        self.traffic.note(self.now_ms, device, event, answer)?;
        self.requested.note(event)
    }

    /// Notes a step. Reports why the record has ended, if it has, and prints what there is to print.
    fn report_step<D: Device>(
        &mut self,
        device: &D,
        event: &Event,
        outcome: &Outcome,
        ended: Option<RecordFault>,
    )
        ensures kept { self.new.recorder ≡ self.old.recorder }
        ensures reset { self.new.reset ≡ (self.old.reset || grants_reset outcome.now) }
    {
        if let Some(fault) = ended {
            self.report_end(fault);
        }
        if self.note(device, event, outcome).is_err() {
            self.fault = Some(EarlyEnd::OutOfMemory);
        }
        if self.print_news(event, outcome).is_err() {
            self.fault = Some(EarlyEnd::OutOfMemory);
        }
    }

    /// Reports that the record has ended.
    fn report_end(&mut self, fault: RecordFault)
        ensures kept { self.new.recorder ≡ self.old.recorder }
        ensures unreset { self.new.reset ≡ self.old.reset }
    {
        self.record_fault = Some(fault);
        self.report(fault.line());
    }
}

impl<W: RecordSink + Drop, O: LineSink, E: LineSink> Observer for StationObserver<W, O, E> {
    ghost use Rattle.station.specs.Noted.{NotesStep, noted};

    ghost notes = { λ old event outcome new. NotesStep W.contents (noted old) event outcome (noted new) };

    fn stepped<D: Device>(&mut self, device: &D, event: &Event, outcome: &Outcome) {
        let ended = self.recorder.note(event, outcome);
        self.report_step(device, event, outcome, ended);
        self.note_page(event, outcome);
    }

    fn delivered<D: Device>(&mut self, device: &D, event: &Event, delivery: Delivery) {
        // (an answer of a verdict alone takes no memory)
        let outcome = Ok(Answer::plain(self.alloc, Verdict::Delivered(delivery)));
        self.stepped(device, event, &outcome);
    }
}

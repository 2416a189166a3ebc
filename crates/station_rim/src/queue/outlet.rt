//! The lines of an output: events, of which those that do not fit are counted, and state, which is offered again until it is
//! taken.

ghost use Rattle.std.specs.Prelude.{◌≡◌, ◌++◌, false, true, IfOk, IfErr, OnOk, OnErr};
ghost use Rattle.station_rim.specs.Queue.Queues.{has_room, with_pushed};
ghost use Rattle.station_rim.specs.declared.queue.lines_in_turn.PushFault.TheVariants as PushFault;
ghost use Rattle.station_rim.specs.Queue.Outlets.{Dealt, DealtState, QueueOutlet, is_idle, lines_of, new_outlet, notice_front, notice_text, offer_of, offered_text, outlet_after, takes_events, takes_state, taken_text, without_owed};

use crate::queue::lines_in_turn::{LineQueue, PushFault};
use cip_types::{Items, OutOfMemory};
use std::alloc::Global;
use std::marker::Model;

/// A text of state is taken if the queue has room for so many bytes, however short it is: so none waits for a shorter one.
const STATE_BYTES: usize = 4_096;

/// How the line looks that tells how many lines are lost.
#[derive(Clone, Copy, PartialEq, Eq)]
pub enum NoticeForm {
    /// A comment of a trace.
    Comment,
    /// A report of a station.
    Report,
}

/// What became of lines that were offered.
#[derive(Clone, Copy, PartialEq, Eq)]
pub enum Offer {
    /// They are taken.
    Taken,
    /// They do not fit, and are not taken.
    Full,
    /// An allocation was refused, and they are not taken.
    OutOfMemory,
}

/// Lines on their way to an output. Those of events that do not fit are lost and counted, and the next ones that fit have a
/// line in front of them that tells how many. Those of state that do not fit are to be offered again: no event is taken until
/// some state is.
#[derive(Drop)]
pub struct QueueOutlet {
    alloc: Global,
    form: NoticeForm,
    queue: LineQueue,
    lost: u64,
    /// Whether state was offered last and found no room.
    owed: bool,
}

impl Model for QueueOutlet {
    ghost use Rattle.station_rim.specs.Queue.Outlets.{QueueOutlet};

    ghost Value = { QueueOutlet };

    ghost view = { λ o. record { form = o.form; queue = o.queue; lost = o.lost; owed = o.owed } };
}

impl QueueOutlet {
    /// An output with nothing on its way, and room for so many bytes and so many texts. Takes no memory.
    pub fn new(
        alloc: Global,
        form: NoticeForm,
        most_bytes: usize,
        most_pieces: usize,
    ) -> QueueOutlet
        ensures { result ≡ new_outlet form most_bytes most_pieces }
    {
        QueueOutlet {
            alloc,
            form,
            queue: LineQueue::new(alloc, most_bytes, most_pieces),
            lost: 0,
            owed: false,
        }
    }

    /// Whether nothing is on its way, and no line is lost that was not reported.
    pub fn is_idle(&self) -> bool
        ensures { result ≡ is_idle self.now }
    {
        self.queue.is_empty() && self.lost == 0
    }

    /// Offers a text of whole lines of events. It is taken whole, or its lines are lost: they are while state waits for room.
    pub fn offer(&mut self, text: &[u8]) -> Offer
        ensures { Dealt self.old text.now result self.new }
    {
        match self.push_event(text) {
            Ok(()) => {
                self.lost = 0;
                Offer::Taken
            }
            Err(fault) => {
                self.lost = self.lost.saturating_add(lines_of(text));
                offer_of(fault)
            }
        }
    }

    /// Offers a text of whole lines of state. It is taken whole, or no event is taken until some state is.
    pub fn offer_state(&mut self, text: &[u8]) -> Offer
        ensures { DealtState self.old text.now result self.new }
    {
        match self.push_state(text) {
            Ok(()) => {
                self.lost = 0;
                self.owed = false;
                Offer::Taken
            }
            Err(fault) => {
                self.owed = true;
                offer_of(fault)
            }
        }
    }

    /// No state is offered again that found no room: who offered it has ended.
    pub fn release(&mut self)
        ensures { self.new ≡ without_owed self.old }
    {
        self.owed = false;
    }

    /// Pushes a text of events, unless state waits for room.
    fn push_event(&mut self, text: &[u8]) -> Result<(), PushFault>
        ensures fitted { OnOk result (takes_events self.old (offered_text self.old text.now) ≡ true) }
        ensures pushed { OnOk result
            (self.new ≡ record self.old { queue = with_pushed self.old.queue (offered_text self.old text.now) }) }
        ensures kept { OnErr result (self.new ≡ self.old) }
        ensures full { IfErr result
            (λ fault. fault ≡ PushFault.Full → takes_events self.old (offered_text self.old text.now) ≡ false) }
    {
        if self.owed {
            return Err(PushFault::Full);
        }
        self.push(text)
    }

    /// Pushes a text of state, if the queue has room for the longest one.
    fn push_state(&mut self, text: &[u8]) -> Result<(), PushFault>
        ensures fitted { OnOk result (takes_state self.old (offered_text self.old text.now) ≡ true) }
        ensures pushed { OnOk result
            (self.new ≡ record self.old { queue = with_pushed self.old.queue (offered_text self.old text.now) }) }
        ensures kept { OnErr result (self.new ≡ self.old) }
        ensures full { IfErr result
            (λ fault. fault ≡ PushFault.Full → takes_state self.old (offered_text self.old text.now) ≡ false) }
    {
        if self.queue.free_bytes() < STATE_BYTES {
            return Err(PushFault::Full);
        }
        self.push(text)
    }

    /// Pushes a text, behind the notice of the lines that are lost.
    fn push(&mut self, text: &[u8]) -> Result<(), PushFault>
        ensures fitted { OnOk result (has_room self.old.queue (offered_text self.old text.now) ≡ true) }
        ensures pushed { OnOk result
            (self.new ≡ record self.old { queue = with_pushed self.old.queue (offered_text self.old text.now) }) }
        ensures kept { OnErr result (self.new ≡ self.old) }
        ensures full { IfErr result
            (λ fault. fault ≡ PushFault.Full → has_room self.old.queue (offered_text self.old text.now) ≡ false) }
    {
        if self.lost == 0 {
            return self.queue.push(text);
        }
        match with_notice(self.alloc, self.form, self.lost, text) {
            Ok(whole) => self.queue.push(whole.as_slice()),
            Err(OutOfMemory) => Err(PushFault::OutOfMemory),
        }
    }

    /// Takes the oldest text out. If there is none, the notice of the lines that are lost is taken.
    ///
    /// The fault: an allocation was refused, and nothing is taken.
    pub fn take(&mut self) -> Result<Option<Items<u8>>, OutOfMemory>
        ensures taken { IfOk result (λ text. text ≡ taken_text self.old) }
        ensures rest { IfOk result (λ text. self.new ≡ outlet_after self.old) }
        ensures kept { OnErr result (self.new ≡ self.old) }
    {
        if let Some(text) = self.queue.pop() {
            return Ok(Some(text));
        }
        if self.lost == 0 {
            return Ok(None);
        }
        let notice = with_notice(self.alloc, self.form, self.lost, &[])?;
        self.lost = 0;
        Ok(Some(notice))
    }
}

/// What became of lines that a queue did not take.
fn offer_of(fault: PushFault) -> Offer
    ensures { result ≡ offer_of fault }
{
    match fault {
        PushFault::Full => Offer::Full,
        PushFault::OutOfMemory => Offer::OutOfMemory,
    }
}

/// The number of lines of a text.
fn lines_of(text: &[u8]) -> u64
    ensures { result ≡ lines_of text.now }
{
    let mut lines = 0u64;
    for byte in text {
        if *byte == b'\n' {
            lines = lines.saturating_add(1);
        }
    }
    lines
}

/// A text behind the notice of so many lost lines.
fn with_notice(
    alloc: Global,
    form: NoticeForm,
    lost: u64,
    text: &[u8],
) -> Result<Items<u8>, OutOfMemory>
    ensures { IfOk result (λ whole. whole ≡ notice_text form lost ++ text.now) }
{
    let front = notice_front(form);
    let notice = format!(in alloc; "{front}{lost} lines are lost here: nobody read them\n")?;
    let mut whole = Vec::from_slice(alloc, notice.as_bytes())?;
    whole.extend_from_slice(text)?;
    Ok(Items::from_vec(whole))
}

/// What stands before a notice.
fn notice_front(form: NoticeForm) -> &'static str
    ensures { result.now ≡ notice_front form }
{
    match form {
        NoticeForm::Comment => "# ",
        NoticeForm::Report => "eip_station: ",
    }
}

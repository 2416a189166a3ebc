//! A device with its stored events.

ghost use Rattle.std.specs.Prelude.{◌≡◌, ◌<◌, ◌≤◌, [], length, IfOk, IfErr, OnOk, OnErr};
ghost use Rattle.cip_events.specs.Outcomes.{Follows};
ghost use Rattle.cip_tables.specs.Step.{incarnation_of, step};
ghost use Rattle.device_lock.specs.Books.{present, with_event, rotated, IsReceipt, IsRefused};

use crate::receipt::{BookFault, Receipt};
use crate::segment::Segment;
use cip_tables::{Answer, Device, DeviceTable, Event, Outcome, TableCopy, Verdict};
use cip_types::{Items, OutOfMemory};
use std::alloc::Global;
use std::marker::Model;
use std::mem;

/// The most events of a segment.
pub const MOST_EVENTS: usize = 1_048_576;

/// A device, the table that it had when the present segment began, and the events that it has answered since.
/// Contracts see that table, those events, and how many segments were handed out; the device's table is always
/// what these events make of it.
#[derive(Drop)]
pub struct Book<D: Device + Drop> {
    alloc: Global,
    opening: TableCopy,
    events: Vec<Event>,
    device: D,
    segment: u16,
}

impl<D: Device + Drop> Model for Book<D> {
    ghost use Rattle.std.specs.Prelude.{◌≡◌, ◌≤◌, length};
    ghost use Rattle.device_lock.specs.Books.{BookValue, most_events};
    ghost use Rattle.cip_tables.specs.Run.{table_after};

    ghost Value = { BookValue };

    ghost view = { λ b. record { opening = b.opening; events = b.events.items; segment = b.segment } };

    ghost invariant = { λ b. (D.table b.device ≡ table_after b.opening b.events.items)
        × (length b.events.items ≤ most_events) };
}

impl<D: Device + Drop> Book<D> {
    /// A book that begins with the device as it is.
    pub fn new(alloc: Global, device: D) -> Result<Book<D>, OutOfMemory>
        ensures { IfOk result (λ book. book ≡ record { opening = D.table device; events = []; segment = 0 }) }
    {
        Ok(Book {
            alloc,
            opening: device.copy()?,
            events: Vec::new(alloc),
            device,
            segment: 0,
        })
    }

    /// The device, whose table is the replay of the stored events. Takes no memory.
    pub fn device(&self) -> &D
        ensures { D.table result.now ≡ present self.now }
    {
        &self.device
    }

    /// How many segments were handed out. Takes no memory.
    pub fn segment(&self) -> u16
        ensures { result ≡ self.now.segment }
    {
        self.segment
    }

    /// The incarnation byte of the device. Takes no memory.
    pub fn incarnation(&self) -> u8
        ensures { result ≡ incarnation_of self.now.opening }
    {
        incarnation_in(self.opening.table())
    }

    /// Steps the device at the event, and stores the event. After a fault the book is as it was.
    ///
    /// The faults, in order: `TraceFull` if the segment has 1,048,576 events, `Step(OutOfMemory)` if there is no memory
    /// to store the event, `Step` with the fault of the device.
    #[tactic(auto, using(crate::proofs::Replays::after_answered))]
    pub fn step(&mut self, event: Event) -> Result<Receipt, BookFault>
        ensures receipt { IfOk result (IsReceipt self.old event) }
        ensures stored { OnOk result (self.new ≡ with_event self.old event) }
        ensures kept { OnErr result (self.new ≡ self.old) }
        ensures fault { IfErr result (IsRefused self.old event) }
    {
        if self.events.len() >= MOST_EVENTS {
            return Err(BookFault::TraceFull);
        }
        let stored = event.copy(self.alloc)?;
        self.events.reserve(1)?;
        let answer = answer(self.alloc, &mut self.device, &event)?;
        let index = self.events.len() as u32;
        self.events.push_reserved(stored);
        Ok(Receipt {
            device: incarnation_in(self.opening.table()),
            segment: self.segment,
            index,
            event,
            answer,
        })
    }

    /// Hands out the present segment, and begins a new one with the device as it is. If an allocation is refused, the
    /// book is as it was.
    pub fn rotate(&mut self) -> Result<Segment, OutOfMemory>
        requires { self.old.segment < 65535 }
        ensures segment { IfOk result
            (λ segment. segment ≡ record { opening = self.old.opening; events = self.old.events }) }
        ensures begun { OnOk result (self.new ≡ rotated self.old) }
        ensures kept { OnErr result (self.new ≡ self.old) }
    {
        let opening = mem::replace(&mut self.opening, self.device.copy()?);
        let events = mem::replace(&mut self.events, Vec::new(self.alloc));
        self.segment += 1;
        Ok(Segment {
            opening,
            events: Items::from_vec(events),
        })
    }
}

/// Steps a device at an event. A datagram goes straight to `deliver`, so that its answer takes no memory.
fn answer<D: Device>(alloc: Global, device: &mut D, event: &Event) -> Outcome
    ensures { Follows (step (D.table device.old) event.now) (D.table device.old) result (D.table device.new) }
{
    match event {
        Event::Datagram { peer, bytes } => {
            let delivery = device.deliver(*peer, bytes.as_slice());
            Ok(Answer::plain(alloc, Verdict::Delivered(delivery)))
        }
        _ => device.step(event),
    }
}

/// The incarnation byte in a device's table.
fn incarnation_in(table: &DeviceTable) -> u8
    ensures { result ≡ incarnation_of table.now }
{
    match table {
        DeviceTable::Adapter(table) => table.profile.incarnation,
        DeviceTable::Scanner(table) => table.profile.incarnation,
    }
}

//! Books of devices: their making, their events, and the segments that they hand out.

use crate::calls::{Difference, MemoryCall, Refusals, Trial};
use crate::devices::{is_device_like, made};
use cip_events::{Event, StepFault};
use cip_tables::{Config, Device};
use cip_types::OutOfMemory;
use device_lock::{Book, BookFault, Receipt, Segment};
use std::alloc::Global;
use std::marker::PhantomData;
use trace_text::{Recorded, Trace};

/// A book of a fresh device of a configuration.
fn book_of<D: Device + Drop>(alloc: Global, config: &Config) -> Result<Book<D>, OutOfMemory> {
    match made::<D>(alloc, config) {
        Ok(device) => Book::new(alloc, device),
        Err(refused) => Err(refused),
    }
}

/// Whether two books are of the same table, and have handed out as many segments.
fn is_book_like<D: Device + Drop>(book: &Book<D>, twin: &Book<D>) -> Result<bool, OutOfMemory> {
    if book.segment() == twin.segment() {
        return is_device_like(book.device(), twin.device());
    }
    Ok(false)
}

/// The receipt of an event or its fault, or that the book was refused memory.
fn received(
    outcome: Result<Receipt, BookFault>,
) -> Result<Result<Receipt, BookFault>, OutOfMemory> {
    match outcome {
        Ok(receipt) => Ok(Ok(receipt)),
        Err(BookFault::Step(StepFault::OutOfMemory)) => Err(OutOfMemory),
        Err(fault) => Ok(Err(fault)),
    }
}

/// Whether two receipts are for the same place of a book, event and answer.
fn is_receipt_same(receipt: &Receipt, other: &Receipt) -> bool {
    receipt.device == other.device
        && receipt.segment == other.segment
        && receipt.index == other.index
        && receipt.event.same(&other.event)
        && receipt.answer == other.answer
}

/// Makes a step of a book at an event.
fn step_book<D: Device + Drop>(
    alloc: Global,
    book: &mut Book<D>,
    event: &Event,
) -> Result<Result<Receipt, BookFault>, OutOfMemory> {
    match event.copy(alloc) {
        Ok(event) => received(book.step(event)),
        Err(refused) => Err(refused),
    }
}

/// Hands out the present segment of a book.
fn rotated<D: Device + Drop>(book: &mut Book<D>) -> Result<Segment, OutOfMemory> {
    if book.segment() == u16::MAX {
        return Err(OutOfMemory);
    }
    book.rotate()
}

/// The making of a book.
struct BookMaking<D>(PhantomData<D>);

impl<D: Device + Drop> MemoryCall for BookMaking<D> {
    type On = ();

    type Input = Config;

    type Given = Book<D>;

    fn make(alloc: Global, _on: &mut (), config: &Config) -> Result<Book<D>, OutOfMemory> {
        book_of(alloc, config)
    }

    fn is_same(given: &Book<D>, expected: &Book<D>) -> Result<bool, OutOfMemory> {
        is_book_like(given, expected)
    }

    fn is_like(_on: &(), _twin: &()) -> Result<bool, OutOfMemory> {
        Ok(true)
    }
}

/// The step of a book at an event of a trace.
struct BookStep<D>(PhantomData<D>);

impl<D: Device + Drop> MemoryCall for BookStep<D> {
    type On = Book<D>;

    type Input = (Event, Recorded);

    type Given = Result<Receipt, BookFault>;

    fn make(
        alloc: Global,
        book: &mut Book<D>,
        input: &(Event, Recorded),
    ) -> Result<Self::Given, OutOfMemory> {
        step_book(alloc, book, &input.0)
    }

    fn is_same(given: &Self::Given, expected: &Self::Given) -> Result<bool, OutOfMemory> {
        match (given, expected) {
            (Ok(receipt), Ok(other)) => Ok(is_receipt_same(receipt, other)),
            (Err(fault), Err(other)) => Ok(fault == other),
            _ => Ok(false),
        }
    }

    fn is_like(book: &Book<D>, twin: &Book<D>) -> Result<bool, OutOfMemory> {
        is_book_like(book, twin)
    }
}

/// The end of a book's present segment.
struct Rotation<D>(PhantomData<D>);

impl<D: Device + Drop> MemoryCall for Rotation<D> {
    type On = Book<D>;

    type Input = ();

    type Given = Segment;

    fn make(_alloc: Global, book: &mut Book<D>, _input: &()) -> Result<Segment, OutOfMemory> {
        rotated(book)
    }

    fn is_same(given: &Segment, expected: &Segment) -> Result<bool, OutOfMemory> {
        Ok(
            given.opening.same(&expected.opening)
                && are_events_same(given.events.as_slice(), expected.events.as_slice()),
        )
    }

    fn is_like(book: &Book<D>, twin: &Book<D>) -> Result<bool, OutOfMemory> {
        is_book_like(book, twin)
    }
}

/// Whether two lists have the same events.
fn are_events_same(events: &[Event], others: &[Event]) -> bool {
    events.len() == others.len()
        && events
            .iter()
            .zip(others.iter())
            .all(|(event, other)| event.same(other))
}

/// A book of a device, which takes the events of a trace and hands out their segment.
pub struct Booked<D>(PhantomData<D>);

impl<D: Device + Drop> Trial for Booked<D> {
    type On = Book<D>;

    type Input = Trace;

    fn begin(alloc: Global, trace: &Trace) -> Result<Book<D>, OutOfMemory> {
        book_of(alloc, &trace.config)
    }

    fn refuse(
        refusals: &mut Refusals,
        book: &mut Book<D>,
        twin: &mut Book<D>,
        trace: &Trace,
    ) -> Result<(), Difference> {
        refusals.in_call::<BookMaking<D>>(&mut (), &mut (), &trace.config)?;
        refusals.in_calls::<BookStep<D>>(book, twin, trace.events.as_slice())?;
        refusals.in_call::<Rotation<D>>(book, twin, &())
    }
}

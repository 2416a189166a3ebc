//! A device that threads share.

ghost use Rattle.std.specs.Prelude.{◌≡◌, true, false, IfOk, IfErr, IfSome, IfNone, OnOk, OnErr};
ghost use Rattle.cip_tables.specs.Step.{incarnation_of};
ghost use Rattle.device_lock.specs.Books.{with_event, IsRefused};
ghost use Rattle.device_lock.specs.Locked.{IsReceiptOf, IsSignedReceipt};

use crate::book::Book;
use crate::receipt::{BookFault, Receipt};
use cip_tables::{Device, Event};
use std::marker::Model;
use std::sync::{Mutex, Wait};

/// A book under a lock of its own. Contracts see the incarnation byte of its device.
#[derive(Drop)]
pub struct LockedDevice<D: Device + Drop> {
    book: Mutex<Book<D>>,
    device: u8,
}

impl<D: Device + Drop> Model for LockedDevice<D> {
    ghost use Rattle.std.specs.Prelude.{ℕ};

    ghost Value = { ℕ };

    ghost view = { λ locked. locked.device };
}

impl<D: Device + Drop> LockedDevice<D> {
    /// Puts a book under a lock. Takes no memory, and does not wait.
    pub fn new(book: Book<D>) -> LockedDevice<D>
        ensures { result ≡ incarnation_of book.opening }
    {
        let device = book.incarnation();
        LockedDevice {
            book: Mutex::new(book),
            device,
        }
    }

    /// The incarnation byte of the device. Takes neither memory nor the lock.
    pub fn incarnation(&self) -> u8
        ensures { result ≡ self.now }
    {
        self.device
    }

    /// Waits for the lock, and steps the book under it, with the book's faults. No other lock is held.
    pub fn step<R: Wait>(&self, rt: &R, event: Event) -> Result<Receipt, BookFault>
        ensures { IfOk result (IsReceiptOf self.now event) }
    {
        sign(&mut self.book.lock(rt), self.device, event)
    }

    /// Waits for the lock, and asks `inside` under it. Where it answers true, steps the book, with the book's faults;
    /// where it answers false, the book stays as it is, and there is no receipt. No other lock is held.
    pub fn step_if<R: Wait, F: FnOnce() -> bool>(
        &self,
        rt: &R,
        event: Event,
        inside: F,
    ) -> Result<Option<Receipt>, BookFault>
        requires { F.pre inside }
        ensures receipt { IfOk result (λ o. IfSome o (IsReceiptOf self.now event)) }
        ensures agreed { IfOk result (λ o. IfSome o (λ _. F.post inside true)) }
        ensures refused { IfOk result (λ o. IfNone o (F.post inside false)) }
    {
        let mut book = self.book.lock(rt);
        if !inside() {
            return Ok(None);
        }
        let receipt = sign(&mut book, self.device, event)?;
        Ok(Some(receipt))
    }

    /// The book, as the last step left it. Takes no memory, and does not wait.
    pub fn into_book(self) -> Book<D> {
        let LockedDevice { book, device: _ } = self;
        book.into_inner()
    }
}

/// Steps a book under a lock. The receipt is in the name of `device`; all else of it is the book's.
fn sign<D: Device + Drop>(
    book: &mut Book<D>,
    device: u8,
    event: Event,
) -> Result<Receipt, BookFault>
    ensures receipt { IfOk result (IsSignedReceipt device book.old event) }
    ensures stored { OnOk result (book.new ≡ with_event book.old event) }
    ensures kept { OnErr result (book.new ≡ book.old) }
    ensures fault { IfErr result (IsRefused book.old event) }
{
    let receipt = book.step(event)?;
    Ok(Receipt { device, ..receipt })
}

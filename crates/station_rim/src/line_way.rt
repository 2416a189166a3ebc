//! The lines of an output on their way: which are taken and which are lost, which are next, and when each is written.

ghost use Rattle.std.specs.Prelude.{◌≡◌, IfOk, OnErr};
ghost use Rattle.station_rim.specs.Queue.Outlets.{is_idle};
ghost use Rattle.station_rim.specs.LineWays.{LineWay, StateWasOffered, WasOffered, is_drained, new_way, taken_line, way_after, with_release, with_written};

use crate::queue::{NoticeForm, Offer, QueueOutlet};
use cip_types::{Items, OutOfMemory};
use std::alloc::Global;
use std::marker::Model;

/// Lines on their way to an output, and whether their writer has some in its hands.
#[derive(Drop)]
pub(crate) struct LineWay {
    outlet: QueueOutlet,
    is_busy: bool,
}

impl Model for LineWay {
    ghost use Rattle.station_rim.specs.LineWays.{LineWay};

    ghost Value = { LineWay };

    ghost view = { λ w. record { outlet = w.outlet; busy = w.is_busy } };
}

impl LineWay {
    /// No lines, and room for so many bytes and so many texts. Takes no memory.
    pub(crate) fn new(
        alloc: Global,
        form: NoticeForm,
        most_bytes: usize,
        most_texts: usize,
    ) -> LineWay
        ensures { result ≡ new_way form most_bytes most_texts }
    {
        LineWay {
            outlet: QueueOutlet::new(alloc, form, most_bytes, most_texts),
            is_busy: false,
        }
    }

    /// Offers a text of whole lines of events. It is taken whole, or its lines are lost and counted.
    pub(crate) fn offer(&mut self, text: &[u8]) -> Offer
        ensures { WasOffered self.old text.now result self.new }
    {
        self.outlet.offer(text)
    }

    /// Offers a text of whole lines of state. It is taken whole, or no event is taken until some state is.
    pub(crate) fn offer_state(&mut self, text: &[u8]) -> Offer
        ensures { StateWasOffered self.old text.now result self.new }
    {
        self.outlet.offer_state(text)
    }

    /// Whether the writer waits: nothing is on its way.
    pub(crate) fn is_waiting(&self) -> bool
        ensures { result ≡ is_idle self.now.outlet }
    {
        self.outlet.is_idle()
    }

    /// The writer takes the oldest text, and whether it is the last one for now.
    ///
    /// The fault: an allocation was refused, and nothing is taken.
    pub(crate) fn take(&mut self) -> Result<Option<(Items<u8>, bool)>, OutOfMemory>
        ensures taken { IfOk result (λ taken. taken ≡ taken_line self.old) }
        ensures rest { IfOk result (λ taken. self.new ≡ way_after self.old) }
        ensures kept { OnErr result (self.new ≡ self.old) }
    {
        let taken = self.outlet.take()?;
        self.is_busy = true;
        let is_last = self.outlet.is_idle();
        match taken {
            Some(text) => Ok(Some((text, is_last))),
            None => Ok(None),
        }
    }

    /// What the writer took is written or discarded.
    pub(crate) fn note_written(&mut self)
        ensures { self.new ≡ with_written self.old }
    {
        self.is_busy = false;
    }

    /// Who offered state last has ended, and offers none again.
    pub(crate) fn release(&mut self)
        ensures { self.new ≡ with_release self.old }
    {
        self.outlet.release();
    }

    /// Whether each line was written.
    pub(crate) fn is_drained(&self) -> bool
        ensures { result ≡ is_drained self.now }
    {
        self.outlet.is_idle() && !self.is_busy
    }
}

//! The events of a scanner.

ghost use Rattle.std.specs.Prelude.{◌≡◌, ◌≢◌, Ok, Err, Some, None, IfOk, IfErr, true};
ghost use Rattle.cip_events.specs.Outcomes.{Follows};
ghost use Rattle.cip_tables.specs.Step.{image_of, is_datagram};
ghost use Rattle.scanner_table.specs.Points.{read, write, mode};
ghost use Rattle.scanner_table.specs.Slots.{slot_at};
ghost use Rattle.scanner_table.specs.Step.{scanner_step, take_ids};
ghost use Rattle.scanner_table.specs.WellFormed.{IsWellFormed};
ghost use Rattle.scanner_slots.specs.Bounding.{IsHinted};
ghost use Rattle.scanner_slots.specs.declared.bounds.Bounds.{Bounds};
ghost use Rattle.scanner.specs.Tables.{table_in};

use crate::slots::ScannerSlots;
use cip_events::{Answer, Event, Outcome, StepFault, Verdict};
use cip_types::{IdBlock, Items, add_block, may_take};
use scanner_data::{receive, set_mode, write};
use scanner_slots::{
    Hints, bounds_are_kept_by_earlier_ones, narrowed_at, slot_at, writes_narrow_bounds,
};

impl ScannerSlots {
    /// Returns the image of the slot of a number. Takes no memory. `NoSuchSlot` is the only error.
    pub fn image_at(&self, number: u32) -> Result<&[u8], StepFault>
        ensures found { IfOk result (λ bytes. image_of (slot_at (table_in self.now) number) ≡ Some bytes.now) }
        ensures none { IfErr result
            (λ fault. (fault ≡ StepFault.NoSuchSlot) × (slot_at (table_in self.now) number ≡ None)) }
    {
        match slot_at(self.profile.slots.as_slice(), &self.state.slots, number) {
            Some(indexed) => Ok(indexed.slot.image.as_slice()),
            None => Err(StepFault::NoSuchSlot),
        }
    }

    /// Reads the image of the slot of a number, as an answer.
    #[tactic(auto, unfolding(scanner_table::specs::Points::read))]
    fn read(&self, number: u32) -> Outcome
        ensures { Follows (read (table_in self.now) number) (table_in self.now) result (table_in self.now) }
    {
        let value = Items::copy_of(self.alloc, self.image_at(number)?)?;
        Ok(Answer::plain(self.alloc, Verdict::Value(value)))
    }

    /// Writes the output of a slot, whose producer may then be due sooner. Takes no memory.
    pub fn write<H: Hints>(&mut self, hints: &mut H, number: u32, bytes: &[u8]) -> Outcome
        requires whole { IsWellFormed (table_in self.old) }
        requires hints { IsHinted (H.bounds hints.old) (table_in self.old) }
        ensures step { Follows (write (table_in self.old) number bytes.now) (table_in self.old) result
            (table_in self.new) }
        ensures no_memory { result ≢ Err StepFault.OutOfMemory }
        ensures hints { IsHinted (H.bounds hints.new) (table_in self.new) }
    {
        // A write changes one slot, and earlier bounds hold where these do.
        writes_narrow_bounds();
        bounds_are_kept_by_earlier_ones();
        match write(&self.profile, &mut self.state, number, bytes) {
            Ok(()) => {
                let bounds = hints.bounds();
                hints.set_bounds(narrowed_at(bounds, &self.profile, &self.state, number));
                Ok(Answer::plain(self.alloc, Verdict::Done))
            }
            Err(why) => Err(why),
        }
    }

    /// Sets the mode, by which the producers of exclusive owners may be due sooner. Takes no memory.
    fn set_mode<H: Hints>(&mut self, hints: &mut H, run: bool) -> Outcome
        requires { IsWellFormed (table_in self.old) }
        ensures step { Follows (Ok (mode (table_in self.old) run)) (table_in self.old) result (table_in self.new) }
        ensures hints { IsHinted (H.bounds hints.new) (table_in self.new) }
    {
        set_mode(&self.profile, &mut self.state, run);
        self.renew(hints);
        Ok(Answer::plain(self.alloc, Verdict::Done))
    }

    /// Takes a further block of connection ids, if it has none of those that the scanner holds.
    ///
    /// Volume 1, chapter 3, network connection ids.
    #[tactic(auto, unfolding(scanner_table::specs::Step::take_ids))]
    fn take_ids(&mut self, block: IdBlock) -> Outcome
        requires { IsWellFormed (table_in self.old) }
        ensures step { Follows (take_ids (table_in self.old) block) (table_in self.old) result (table_in self.new) }
        ensures hints { (bounds : Bounds) → IsHinted bounds (table_in self.old) → IsHinted bounds (table_in self.new) }
    {
        if !may_take(&self.state.ids, block) {
            return Err(StepFault::NotAllowedNow);
        }
        add_block(&mut self.state.ids, block)?;
        Ok(Answer::plain(self.alloc, Verdict::Done))
    }

    /// Performs one event. It is not inlined, so that `step` is, and an idle tick stays cheap.
    #[inline(never)]
    pub fn take_event<H: Hints>(&mut self, hints: &mut H, event: &Event) -> Outcome
        requires whole { IsWellFormed (table_in self.old) }
        requires hints { IsHinted (H.bounds hints.old) (table_in self.old) }
        ensures step { Follows (scanner_step (table_in self.old) event.now) (table_in self.old) result
            (table_in self.new) }
        ensures no_memory { is_datagram event.now ≡ true → result ≢ Err StepFault.OutOfMemory }
        ensures hints { IsHinted (H.bounds hints.new) (table_in self.new) }
    {
        match event {
            Event::Request { .. }
            | Event::Inquiry { .. }
            | Event::Respond { .. }
            | Event::Counters { .. } => Err(StepFault::NotAllowedNow),
            Event::StreamOpened { stream, peer } => {
                let outcome = self.open_stream(*stream, *peer);
                self.renew(hints);
                outcome
            }
            Event::Frame { stream, bytes } => self.frame(hints, *stream, bytes.as_slice()),
            Event::StreamCut { stream } => self.cut(hints, *stream),
            Event::Datagram { peer, bytes } => {
                let delivery = receive(
                    &self.profile,
                    &mut self.state,
                    hints,
                    *peer,
                    bytes.as_slice(),
                );
                Ok(Answer::plain(self.alloc, Verdict::Delivered(delivery)))
            }
            Event::Write { point, bytes } => self.write(hints, *point, bytes.as_slice()),
            Event::Read { point } => self.read(*point),
            Event::Tick { ms } => self.tick(hints, *ms),
            Event::Mode { run } => self.set_mode(hints, *run),
            Event::Start { slot } => self.start(hints, *slot),
            Event::Stop { slot } => self.stop(hints, *slot),
            Event::Explicit {
                target,
                number,
                bytes,
            } => self.request_explicit(*target, *number, bytes.as_slice()),
            Event::Ids { block } => self.take_ids(*block),
        }
    }
}

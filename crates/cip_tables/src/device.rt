//! The interface of a device, and runs of a device.

ghost use Rattle.std.specs.Prelude.{◌≡◌, ◌≢◌, ◌≤◌, Bool, false, true, Ok, Err, None, Some, Result, filter, IfOk, IfErr, OnErr};
ghost use Rattle.cip_tables.specs.declared.table.Config.{Config};
ghost use Rattle.cip_tables.specs.declared.table.DeviceTable.{DeviceTable};
ghost use Rattle.cip_tables.specs.Step.{step, opening_table, config_fault, bytes_in, produces_at_once, no_such, is_datagram};
ghost use Rattle.cip_tables.specs.States.{owner_in, consumers_in, connection_in, class3_in, connection_with, slot_in, stream_in, totals_of};
ghost use Rattle.cip_tables.specs.Wakes.{IsQuietFor, due_in};
ghost use Rattle.cip_events.specs.Answers.{plain_answer, value_answer};
ghost use Rattle.cip_events.specs.Clock.{longest_tick};
ghost use Rattle.cip_events.specs.Outcomes.{Follows, found_memory};
ghost use Rattle.cip_tables.specs.Run.{Runs, outcomes_of, performed, table_after};
ghost use Rattle.cip_tables.specs.Sound.{IsSoundDevice};
ghost use Rattle.cip_tables.specs.Whole.{IsWholeDevice};
ghost use Rattle.cip_events.specs.Faults.{IsRefusedAs};

use crate::copy::TableCopy;
use crate::streams::StreamReport;
use crate::table::Config;
use crate::totals::DeviceTotals;
use adapter_table::{AnyConnection, Class3Report, ConnectionReport, ConsumerCounts, laws};
use cip_events::{Delivery, Event, NewFault, Outcome, StepFault, Verdict};
use cip_types::{Ms, Node, OutOfMemory, Triad};
use scanner_table::{SlotReport, steps_keep_tables_whole};
use std::alloc::Global;

/// A device: an adapter or a scanner. Contracts see it as its table, and each method follows the step of that table.
pub trait Device {
    ghost table: { Self → DeviceTable };

    /// The configurations that `new` accepts: those of an adapter, those of a scanner, or both.
    ghost accepts: { Config → Bool };

    /// Whether `new` accepts a configuration, whose profile may still have a fault. Takes no memory.
    fn is_accepted(config: &Config) -> bool
        ensures { result ≡ accepts config.now };

    /// Makes a fresh device. An error drops the configuration.
    ///
    /// The errors, in order: `Profile` with the first fault of the profile; `WrongKind` if the configuration is
    /// not one of those that it accepts; `OutOfMemory`.
    fn new(alloc: Global, config: Config) -> Result<Self, NewFault>
        ensures table { IfOk result (λ device. table device ≡ opening_table config) }
        ensures kind { IfOk result (λ _. accepts config ≡ true) }
        ensures valid { IfOk result (λ _. config_fault config ≡ None) }
        ensures fault { IfErr result (IsRefusedAs (config_fault config) (accepts config)) };

    /// Performs one event: the outcome and the next table are those of the table's step.
    ///
    /// An event that is refused, even for lack of memory, leaves the device unchanged. `OutOfMemory` comes only if
    /// the step has an answer, and never at a class 1 datagram.
    fn step(&mut self, event: &Event) -> Outcome
        ensures step { Follows (step (table self.old) event.now) (table self.old) result (table self.new) }
        ensures no_memory { is_datagram event.now ≡ true → result ≢ Err StepFault.OutOfMemory };

    /// Delivers a class 1 datagram of a peer, as the event `Datagram` does. Takes no memory, and never fails.
    fn deliver(&mut self, peer: Node, bytes: &[u8]) -> Delivery
        ensures { step (table self.old) (Event.Datagram peer bytes.now)
            ≡ Ok (plain_answer (Verdict.Delivered result), table self.new) };

    /// Writes an input of an adapter, or the output of a scanner's slot, as the event `Write` does. Takes memory only
    /// if a change-of-state producer of the input produces at once.
    fn write_point(&mut self, point: u32, bytes: &[u8]) -> Outcome
        ensures step { Follows (step (table self.old) (Event.Write point bytes.now))
            (table self.old) result (table self.new) }
        ensures no_memory { produces_at_once (table self.old) point ≡ false → result ≢ Err StepFault.OutOfMemory };

    /// Reads an output, an input or the configuration of an adapter, or the image of a scanner's slot: the bytes that
    /// the event `Read` answers. Takes no memory. The only error is `NoSuchPoint` at an adapter, and `NoSuchSlot` at a
    /// scanner.
    fn read_point(&self, point: u32) -> Result<&[u8], StepFault>
        ensures step { IfOk result (λ bytes.
            step (table self.now) (Event.Read point) ≡ Ok (value_answer bytes.now, table self.now)) }
        ensures refused { IfErr result (λ fault. step (table self.now) (Event.Read point) ≡ Err fault) }
        ensures found { IfOk result (λ bytes. bytes_in (table self.now) point ≡ Some bytes.now) }
        ensures none { IfErr result (λ fault.
            (fault ≡ no_such (table self.now)) × (bytes_in (table self.now) point ≡ None)) };

    /// Copies the present table. `OutOfMemory` is the only error.
    fn copy(&self) -> Result<TableCopy, OutOfMemory>
        ensures { IfOk result (λ copy. copy ≡ table self.now) };

    /// The owner of an output of an adapter: its peer, its kind, the mode of its newest data, and their age. None if
    /// no connection owns it, and at a scanner. Takes no memory.
    fn owner(&self, output: u32) -> Option<ConnectionReport>
        ensures { result ≡ owner_in (table self.now) output };

    /// How many established connections consume an input of an adapter, by their kinds. None do at a scanner. Takes no
    /// memory.
    fn consumers(&self, input: u32) -> ConsumerCounts
        ensures { result ≡ consumers_in (table self.now) input };

    /// The class 1 connection of an adapter at a place of the opening order, from 0 on, timed-out ones included. None
    /// behind the last one, and at a scanner. Takes no memory.
    fn connection(&self, place: u32) -> Option<ConnectionReport>
        ensures { result ≡ connection_in (table self.now) place };

    /// The class 3 connection of an adapter at a place of the opening order, from 0 on. None behind the last one, and
    /// at a scanner. Takes no memory.
    fn class3_connection(&self, place: u32) -> Option<Class3Report>
        ensures { result ≡ class3_in (table self.now) place };

    /// The connection of an adapter that has this triad, as a notice names it: one of class 1, timed-out ones
    /// included, or one of class 3. None if there is none, and at a scanner. Takes no memory.
    fn connection_of(&self, triad: Triad) -> Option<AnyConnection>
        ensures { result ≡ connection_with (table self.now) triad };

    /// The state of a scanner's slot, and of an established one the packet intervals and the age of its data. None if
    /// there is no such slot, and at an adapter. Takes no memory.
    fn slot(&self, number: u32) -> Option<SlotReport>
        ensures { result ≡ slot_in (table self.now) number };

    /// The open stream at a place of the order in which they were opened, from 0 on, with its session. None behind the
    /// last one. Takes no memory.
    fn stream(&self, place: u32) -> Option<StreamReport>
        ensures { result ≡ stream_in (table self.now) place };

    /// How many streams, sessions, and connections of class 1 and 3 there are, and how many connection ids are left. Takes
    /// no memory.
    fn totals(&self) -> DeviceTotals
        ensures { result ≡ totals_of (table self.now) };

    /// Returns in how many milliseconds something is due, if only time passes: a connection times out, a production
    /// is due, a slot opens or gives up a request, an explicit request is given up. 0 if it is due now; at most the
    /// longest tick, 60,000 milliseconds.
    /// Each tick of fewer milliseconds answers nothing, and moves the clock alone. Takes no memory.
    ///
    /// A caller that sleeps so long misses no time-out and no production, and wakes in vain only after the longest tick.
    /// Each event may change the time.
    fn next_wake(&self) -> Ms
        ensures due { result.0 ≡ due_in (table self.now) }
        ensures quiet { IsQuietFor (table self.now) result.0 }
        ensures longest { result.0 ≤ longest_tick };

    /// Does nothing. Its contract gives a caller the fact that the table is whole. Takes no memory.
    fn is_whole(&self)
        ensures { IsWholeDevice (table self.now) };
}

/// Performs events at a device, in order, and returns their outcomes. An event that finds no memory has the outcome
/// `OutOfMemory`, and the run goes on.
///
/// `OutOfMemory` of the run itself means that the outcomes found no memory: no event was performed then.
pub fn run<D: Device>(
    alloc: Global,
    device: &mut D,
    events: &[Event],
) -> Result<Vec<Outcome>, OutOfMemory>
    ensures run { IfOk result (λ outcomes.
        Runs (D.table device.old) events.now outcomes.items (D.table device.new)) }
    // The same as a fold over the events that found memory.
    ensures outcomes { IfOk result (λ outcomes.
        filter found_memory outcomes.items ≡ outcomes_of (D.table device.old) (performed events.now outcomes.items)) }
    ensures table { IfOk result (λ outcomes.
        D.table device.new ≡ table_after (D.table device.old) (performed events.now outcomes.items)) }
    ensures sound { IsSoundDevice (D.table device.old) → IsSoundDevice (D.table device.new) }
    ensures whole { IsWholeDevice (D.table device.old) → IsWholeDevice (D.table device.new) }
    ensures err { OnErr result (D.table device.new ≡ D.table device.old) }
{
    // Each step keeps a sound and a whole table of either kind.
    laws::tables_are_sound();
    laws::tables_are_whole();
    steps_keep_tables_whole();
    let mut outcomes = Vec::with_capacity(alloc, events.len())?;
    for event in events {
        let outcome = device.step(event);
        outcomes.push_reserved(outcome);
    }
    Ok(outcomes)
}

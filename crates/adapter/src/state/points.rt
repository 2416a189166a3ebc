//! The points of the device, written and read by its application.

ghost use Rattle.std.specs.Prelude.{◌≡◌, ◌≢◌, Ok, Err, None, ◌≤◌, false, length};
ghost use Rattle.adapter_table.specs.Productions.{produces_on_change};
ghost use Rattle.adapter_table.specs.Step.{write, read, written_table, changed_table, write_answer, written};
ghost use Rattle.cip_events.specs.Outcomes.{Follows};
ghost use Rattle.assembly_set.specs.Assemblies.{write_fault};
ghost use Rattle.std.specs.List.{list_any};

use super::AdapterState;
use adapter_replies::notices_answer;
use adapter_table::laws::tables_are_whole;
use cip_tables::{Answer, Outcome, StepFault, Verdict};
use cip_types::Items;
use indexed_connections::ConnectionTable;

impl<T: ConnectionTable> AdapterState<T> {
    /// Puts other bytes at an input, and its producers act on the write.
    #[tactic(auto, unfolding(adapter_table::specs::Step::written_table, adapter_table::specs::Step::changed_table))]
    fn put(&mut self, point: u32, bytes: &[u8])
        requires { write_fault self.old.profile point (length bytes.now) ≡ None }
        ensures { self.new ≡ changed_table (written_table self.old point bytes.now) point }
    {
        // The table stays whole. The write does not fail: the caller found the input, and its length.
        tables_are_whole();
        let _written = self.assemblies.write(point, bytes);
        self.table.write(self.clock, point);
    }

    /// Writes an input, if no producer produces at once.
    #[tactic(auto, unfolding(adapter_table::specs::Step::written_table))]
    fn write_quietly(&mut self, point: u32, bytes: &[u8]) -> Outcome
        requires input { write_fault self.old.profile point (length bytes.now) ≡ None }
        requires quiet { list_any (produces_on_change self.old.clock point) self.old.rows ≡ false }
        ensures answer { result ≡ Ok (write_answer (written_table self.old point bytes.now) point bytes.now) }
        ensures table { self.new ≡ changed_table (written_table self.old point bytes.now) point }
    {
        self.put(point, bytes);
        Ok(Answer::plain(self.alloc, Verdict::Done))
    }

    /// Writes an input, and its change-of-state producers produce.
    #[tactic(auto, unfolding(adapter_table::specs::Step::written_table, adapter_table::specs::Step::changed_table))]
    fn write_on_change(&mut self, point: u32, bytes: &[u8]) -> Outcome
        requires input { write_fault self.old.profile point (length bytes.now) ≡ None }
        requires short { length bytes.now ≤ 1400 }
        ensures { Follows (Ok (written (written_table self.old point bytes.now) point bytes.now))
            self.old result self.new }
    {
        let datagrams = self
            .table
            .sent_on_change(self.alloc, self.clock, point, bytes)?;
        self.put(point, bytes);
        Ok(notices_answer(self.alloc, datagrams, Vec::new(self.alloc)))
    }

    /// Writes an input.
    #[tactic(auto, unfolding(adapter_table::specs::Step::write))]
    pub fn write(&mut self, point: u32, bytes: &[u8]) -> Outcome
        ensures step { Follows (write self.old point bytes.now) self.old result self.new }
        ensures no_memory { list_any (produces_on_change self.old.clock point) self.old.rows ≡ false
            → result ≢ Err StepFault.OutOfMemory }
    {
        let Some(input) = self.assemblies.input(point) else {
            return Err(StepFault::NoSuchPoint);
        };
        if bytes.len() as u64 != input.len {
            return Err(StepFault::WrongLength);
        }
        if self.table.produces_at_once(self.clock, point) {
            return self.write_on_change(point, bytes);
        }
        self.write_quietly(point, bytes)
    }

    /// Reads a point.
    #[tactic(auto, unfolding(adapter_table::specs::Step::read))]
    pub fn read(&mut self, point: u32) -> Outcome
        ensures { Follows (read self.old point) self.old result self.new }
    {
        let value = Items::copy_of(self.alloc, self.assemblies.read(point)?)?;
        Ok(Answer::plain(self.alloc, Verdict::Value(value)))
    }
}

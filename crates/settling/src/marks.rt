//! A mark for each event of each device.

ghost use Rattle.std.specs.Prelude.{◌≡◌, ◌<◌, [], true, false, IfOk, length, replicate, set, slice_index_or};
ghost use Rattle.settling.specs.Receipts.{mark_at, unmarked, with_mark};

use cip_types::OutOfMemory;
use device_lock::History;
use std::alloc::Global;
use std::marker::Model;

/// The marks of one device, which contracts see as their list.
#[derive(Drop)]
struct MarkRow {
    marks: Vec<bool>,
}

impl Model for MarkRow {
    ghost use Rattle.std.specs.Prelude.{List, Bool};

    ghost Value = { List Bool };

    ghost view = { λ r. r.marks.items };
}

impl MarkRow {
    /// So many marks, none of which is set.
    fn new(alloc: Global, count: usize) -> Result<MarkRow, OutOfMemory>
        ensures { IfOk result (λ row. row ≡ replicate count false) }
    {
        Ok(MarkRow {
            marks: vec![in alloc; false; count]?,
        })
    }

    fn has(&self, place: usize) -> bool
        ensures { result ≡ slice_index_or self.now place false }
    {
        match self.marks.get(place) {
            None => false,
            Some(mark) => *mark,
        }
    }

    fn set(&mut self, place: usize)
        requires { place < length self.old }
        ensures { self.new ≡ set self.old place true }
    {
        self.marks[place] = true;
    }
}

/// For each event of each device whether a receipt is for it, which contracts see as lists of marks.
#[derive(Drop)]
pub struct Marks {
    rows: Vec<MarkRow>,
}

impl Model for Marks {
    ghost use Rattle.std.specs.Prelude.{List, Bool};

    ghost Value = { List (List Bool) };

    ghost view = { λ m. m.rows.items };
}

fn set_in(rows: &mut Vec<MarkRow>, device: usize, place: usize)
    requires device { device < length rows.old.items }
    requires place { place < length (slice_index_or rows.old.items device []) }
    ensures { rows.new.items ≡ with_mark rows.old.items device place }
{
    rows[device].set(place);
}

impl Marks {
    /// A mark for each event, none of which is set.
    pub fn new(alloc: Global, histories: &[History]) -> Result<Marks, OutOfMemory>
        ensures { IfOk result (λ marks. marks ≡ unmarked histories.now) }
    {
        let mut rows = Vec::new(alloc);
        for history in histories {
            rows.push(MarkRow::new(alloc, history.events().len())?)?;
        }
        Ok(Marks { rows })
    }

    /// Whether an event's mark is set. Takes no memory.
    pub fn has(&self, device: usize, place: usize) -> bool
        ensures { result ≡ mark_at self.now device place }
    {
        match self.rows.get(device) {
            None => false,
            Some(row) => row.has(place),
        }
    }

    /// Sets an event's mark. Takes no memory.
    pub fn set(&mut self, device: usize, place: usize)
        requires device { device < length self.old }
        requires place { place < length (slice_index_or self.old device []) }
        ensures { self.new ≡ with_mark self.old device place }
    {
        set_in(&mut self.rows, device, place);
    }
}

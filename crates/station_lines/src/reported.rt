//! What was told of points to the reader of an output.

ghost use Rattle.std.specs.Prelude.{◌≡◌, IfOk};
ghost use Rattle.station_lines.specs.Reported.{answered, begun, due_bytes, first_place, is_behind, is_due, reported_at, unreported, with_reported};

use cip_types::{Items, OutOfMemory};
use std::alloc::Global;
use std::marker::Model;

/// Of each point the bytes of its line that was taken last, and the point whose line found no room last. A line is due while
/// it is not the one that was taken last: so it stays due if it finds no room.
#[derive(Drop)]
pub struct ReportedPoints {
    reported: Vec<Option<Items<u8>>>,
    refused: Option<u32>,
}

impl Model for ReportedPoints {
    ghost use Rattle.station_lines.specs.Reported.{Reported};

    ghost Value = { Reported };

    ghost view = { λ t. record { reported = t.reported.items; refused = t.refused } };
}

impl ReportedPoints {
    /// Nothing is told of so many points. The only fault is a refused allocation.
    pub fn unreported(alloc: Global, count: u32) -> Result<ReportedPoints, OutOfMemory>
        ensures { IfOk result (λ made. made ≡ unreported count) }
    {
        let mut reported: Vec<Option<Items<u8>>> = Vec::new(alloc);
        for place in 0..count {
            reported.push(None)?;
        }
        Ok(ReportedPoints {
            reported,
            refused: None,
        })
    }

    /// The place of the point whose line is offered first: the one that found no room last.
    pub fn begin(&mut self) -> u32
        ensures first { result ≡ first_place self.old }
        ensures begun { self.new ≡ begun self.old }
    {
        self.refused.take().unwrap_or(0)
    }

    /// These bytes of the point at a place, if its line with them is due. The only fault is a refused allocation.
    pub fn due_bytes(
        &self,
        alloc: Global,
        place: u32,
        bytes: &[u8],
    ) -> Result<Option<Items<u8>>, OutOfMemory>
        ensures { IfOk result (λ due. due ≡ due_bytes self.now place bytes.now) }
    {
        if !self.is_due(place, bytes) {
            return Ok(None);
        }
        Ok(Some(Items::copy_of(alloc, bytes)?))
    }

    /// Whether the line of the point at a place is due, with these bytes.
    fn is_due(&self, place: u32, bytes: &[u8]) -> bool
        ensures { result ≡ is_due (reported_at self.now place) bytes.now }
    {
        match self.reported.get(place as usize) {
            Some(Some(reported)) => reported.as_slice() != bytes,
            Some(None) => true,
            None => false,
        }
    }

    /// The line of the point at a place, with these bytes, was offered, and was taken or found no room.
    pub fn answer(&mut self, place: u32, bytes: Items<u8>, taken: bool)
        ensures { self.new ≡ answered place bytes taken self.old }
    {
        if taken {
            self.hold(place, bytes);
        } else {
            self.refused = Some(place);
        }
    }

    /// The line with these bytes was taken.
    fn hold(&mut self, place: u32, bytes: Items<u8>)
        ensures { self.new ≡ with_reported place bytes self.old }
    {
        let index = place as usize;
        if index < self.reported.len() {
            self.reported[index] = Some(bytes);
        }
    }

    /// Whether a line found no room when lines were offered last.
    pub fn is_behind(&self) -> bool
        ensures { result ≡ is_behind self.now }
    {
        self.refused.is_some()
    }
}

//! The streams of a port: which of them are open, and which are to be cut.

ghost use Rattle.std.specs.Prelude.{◌≡◌, ◌<◌, false, None, map, position, replicate, slice_set, IfOk, IfSome};
ghost use Rattle.port_faults.specs.Orders.Marks.{cut_mark, is_to_cut, marks_after, marks_behind};
ghost use Rattle.port_faults.specs.declared.orders.marks.StreamMark.TheVariants.{Closed};

use cip_events::Arrival;
use cip_types::OutOfMemory;
use cip_types::limits::MOST_STREAMS;
use std::alloc::Global;
use std::marker::Model;
use udp_runner::Output;

/// What is known of the stream of a number.
#[derive(Clone, Copy, Debug, PartialEq, Eq)]
pub enum StreamMark {
    /// There is none.
    Closed,
    /// It is open.
    Open,
    /// It is open, and is to be cut.
    ToCut,
}

/// Of the stream of each number what is known. Contracts see a list.
#[derive(Drop)]
pub struct StreamMarks {
    marks: Vec<StreamMark>,
}

impl Model for StreamMarks {
    ghost use Rattle.std.specs.Prelude.{◌≡◌, List, length};
    ghost use Rattle.port_faults.specs.declared.orders.marks.StreamMark.{StreamMark};

    ghost Value = { List StreamMark };

    ghost view = { λ m. m.marks.items };

    ghost invariant = { λ m. length m.marks.items ≡ 16 };
}

impl StreamMarks {
    /// No stream is open. The only fault is a refused allocation.
    pub fn none(alloc: Global) -> Result<StreamMarks, OutOfMemory>
        ensures made { IfOk result (λ marks. marks ≡ replicate 16 Closed) }
        ensures none { IfOk result (λ marks. position is_to_cut marks ≡ None) }
    {
        Ok(StreamMarks {
            marks: vec![in alloc; StreamMark::Closed; MOST_STREAMS]?,
        })
    }

    /// Notes what has arrived. Takes no memory.
    pub fn note(&mut self, arrival: &Arrival)
        ensures noted { self.new ≡ marks_after arrival.now self.old }
        ensures none { position is_to_cut self.old ≡ None → position is_to_cut self.new ≡ None }
    {
        match arrival {
            Arrival::Opened { stream, peer: _ } => self.put(*stream, StreamMark::Open),
            Arrival::Cut { stream } => self.put(*stream, StreamMark::Closed),
            _ => {}
        }
    }

    /// Notes what was sent. Takes no memory.
    pub fn note_sent(&mut self, output: &Output<'_>)
        ensures noted { self.new ≡ marks_behind output.now self.old }
        ensures none { position is_to_cut self.old ≡ None → position is_to_cut self.new ≡ None }
    {
        match output {
            Output::Close { stream } => self.put(*stream, StreamMark::Closed),
            _ => {}
        }
    }

    /// Each open stream is to be cut.
    pub fn cut_all(&mut self)
        ensures { self.new ≡ map cut_mark self.old }
    {
        cut_marks(&mut self.marks);
    }

    /// The first stream that is to be cut.
    pub fn first_to_cut(&self) -> Option<u16>
        ensures { result ≡ position is_to_cut self.now }
    {
        match self.place_to_cut() {
            Some(place) => Some(place as u16),
            None => None,
        }
    }

    /// The place of the first stream that is to be cut.
    fn place_to_cut(&self) -> Option<usize>
        ensures first { result ≡ position is_to_cut self.now }
        ensures inside { IfSome result (λ place. place < 16) }
    {
        self.marks.iter().position(|mark| is_to_cut(*mark))
    }

    /// Whether a stream is to be cut.
    pub fn any_to_cut(&self) -> bool {
        self.first_to_cut().is_some()
    }

    /// Puts what is known of the stream of a number, if there are so many.
    fn put(&mut self, stream: u16, mark: StreamMark)
        ensures put { self.new ≡ slice_set self.old stream mark }
        ensures none { is_to_cut mark ≡ false → position is_to_cut self.old ≡ None
            → position is_to_cut self.new ≡ None }
    {
        let index = usize::from(stream);
        if index < self.marks.len() {
            self.marks[index] = mark;
        }
    }
}

/// Each open stream is to be cut.
fn cut_marks(marks: &mut [StreamMark])
    ensures { marks.new ≡ map cut_mark marks.old }
{
    for mark in marks.iter_mut() {
        *mark = cut_mark(*mark);
    }
}

/// What is known of a stream once all are to be cut.
fn cut_mark(mark: StreamMark) -> StreamMark
    ensures { result ≡ cut_mark mark }
{
    match mark {
        StreamMark::Closed => StreamMark::Closed,
        StreamMark::Open => StreamMark::ToCut,
        StreamMark::ToCut => StreamMark::ToCut,
    }
}

/// Whether a stream is to be cut.
fn is_to_cut(mark: StreamMark) -> bool
    ensures { result ≡ is_to_cut mark }
{
    match mark {
        StreamMark::ToCut => true,
        _ => false,
    }
}

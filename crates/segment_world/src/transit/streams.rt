//! All streams between the devices, with their queues.

ghost use Rattle.std.specs.Prelude.{◌≡◌, ◌≤◌, ◌<◌, ◌+◌, ◌∷◌, [], ◌++◌, true, false, length, slice_get, IsOk, OnOk, OnErr};
ghost use Rattle.std.specs.Option.{option_map};
ghost use Rattle.segment_world.specs.Transit.Streams.{fresh_stream, with_stream, sent_over, closed_by, cut_stream, taken_from};
ghost use Rattle.segment_world.specs.Transit.Fronts.{endpoints_of, is_open, view_front, front_of, has_taken};

use crate::transit::buffers::{Buffers, MOST_FRAMES};
use crate::transit::direction::Direction;
use crate::transit::front::QueueFront;
use crate::transit::links::{Endpoints, StreamLink, link_at, put_link};
use crate::transit::waiting::{QueuedFrame, drop_frames, first};
use cip_types::OutOfMemory;
use std::alloc::Global;
use std::marker::Model;

/// The streams between devices, numbered from 0 in the order in which they were opened. Contracts see them as their
/// list, with the number of frames that can be queued without memory (`space`).
#[derive(Drop)]
pub struct Streams {
    links: Vec<StreamLink>,
    waiting: Vec<QueuedFrame>,
    buffers: Buffers,
}

impl Model for Streams {
    ghost use Rattle.std.specs.Prelude.{◌-◌, min};
    ghost use Rattle.std.specs.Vec.{vec_len, vec_capacity};
    ghost use Rattle.segment_world.specs.Transit.Queues.{Queues, streams_in, AreLive};

    ghost Value = { Queues };

    ghost view = { λ s. record { streams = streams_in 0 s.waiting.items s.links.items; space = min (vec_capacity s.waiting - vec_len s.waiting) s.buffers } };

    ghost invariant = { λ s. AreLive s.links.items s.waiting.items };
}

impl Streams {
    /// Makes an empty list of streams. Takes no memory.
    #[tactic(auto, unfolding(crate::specs::Transit::Queues::streams_in, crate::specs::Transit::Queues::AreLive))]
    pub fn new(alloc: Global) -> Streams
        ensures { result.streams ≡ [] }
    {
        Streams {
            links: Vec::new(alloc),
            waiting: Vec::new(alloc),
            buffers: Buffers::new(alloc),
        }
    }

    /// Returns how many streams were opened, ended ones among them.
    pub fn len(&self) -> usize
        ensures { result ≡ length self.now.streams }
    {
        self.links.len()
    }

    /// Returns the ends of the stream of this number, if there is one.
    pub fn endpoints(&self, number: u16) -> Option<Endpoints>
        ensures { result ≡ option_map endpoints_of (slice_get self.now.streams number) }
    {
        let Some(link) = link_at(&self.links, number) else {
            return None;
        };
        Some(Endpoints {
            from: link.from,
            to: link.to,
            ended: link.ended,
        })
    }

    /// Returns whether the end that takes from a direction has taken the mark that the stream opens. False where no
    /// stream has the number. Takes no memory.
    pub fn has_taken(&self, number: u16, direction: Direction) -> bool
        ensures { result ≡ has_taken direction (slice_get self.now.streams number) }
    {
        let Some(link) = link_at(&self.links, number) else {
            return false;
        };
        link.end(direction).taken
    }

    /// Reserves memory for the frames of any answer: 64 frames of 2,048 bytes. `OutOfMemory` is the only error, and
    /// leaves the streams as they were.
    pub fn reserve_answer(&mut self) -> Result<(), OutOfMemory>
        ensures streams { self.new.streams ≡ self.old.streams }
        ensures space { OnOk result (64 ≤ self.new.space) }
    {
        self.waiting.reserve(MOST_FRAMES)?;
        self.buffers.refill()
    }

    /// Opens a stream from one device to another. The mark that it has opened waits for both ends. `OutOfMemory` is
    /// the only error, and leaves the streams as they were.
    pub fn open(&mut self, from: u32, to: u32) -> Result<(), OutOfMemory>
        ensures opened { OnOk result (self.new.streams ≡ self.old.streams ++ fresh_stream from to ∷ []) }
        ensures kept { OnErr result (self.new.streams ≡ self.old.streams) }
    {
        self.links.push(StreamLink::new(from, to))?;
        Ok(())
    }

    /// Queues a frame that a device sends over a stream. A frame over a stream that has ended, or is none of the
    /// device, is lost. Takes no memory within the reserved space if the frame has at most 2,048 bytes. `OutOfMemory` is
    /// the only error. It comes only beyond that, and leaves the streams as they were.
    pub fn send_over(&mut self, device: u32, number: u16, bytes: &[u8]) -> Result<(), OutOfMemory>
        ensures streams { OnOk result
            (self.new.streams ≡ with_stream (sent_over device bytes.now) number self.old.streams) }
        ensures kept { OnErr result (self.new.streams ≡ self.old.streams) }
        ensures room { 0 < self.old.space → length bytes.now ≤ 2048 → IsOk result }
        ensures space { self.old.space ≤ self.new.space + 1 }
    {
        let Some(link) = link_at(&self.links, number) else {
            return Ok(());
        };
        let Some(direction) = link.way_from(device) else {
            return Ok(());
        };
        self.waiting.reserve(1)?;
        let bytes = self.buffers.filled(bytes)?;
        self.waiting.push_reserved(QueuedFrame {
            stream: number,
            direction,
            bytes,
        });
        Ok(())
    }

    /// Closes a stream by the device at one of its ends. The frames that wait on it are lost. A stream that has ended,
    /// or is none of the device, stays. Takes no memory.
    pub fn close_by(&mut self, device: u32, number: u16)
        ensures streams { self.new.streams ≡ with_stream (closed_by device) number self.old.streams }
        ensures space { self.old.space ≤ self.new.space }
    {
        let Some(link) = link_at(&self.links, number) else {
            return;
        };
        let Some(direction) = link.way_from(device) else {
            return;
        };
        put_link(&mut self.links, number, link.closed(direction));
        drop_frames(&mut self.waiting, number);
    }

    /// Cuts the stream of this number: the frames that wait on it are lost, and the mark waits for both ends. Takes no
    /// memory.
    ///
    /// Returns whether there was such a stream that had not ended; otherwise nothing changes.
    pub fn cut(&mut self, number: u16) -> bool
        ensures open { result ≡ is_open (slice_get self.old.streams number) }
        ensures cut { result ≡ true → self.new.streams ≡ with_stream cut_stream number self.old.streams }
        ensures kept { result ≡ false → self.new.streams ≡ self.old.streams }
    {
        let Some(stream) = link_at(&self.links, number) else {
            return false;
        };
        if stream.ended {
            return false;
        }
        put_link(&mut self.links, number, stream.cut());
        drop_frames(&mut self.waiting, number);
        true
    }

    /// Returns the front of a direction of the stream of this number, if anything waits there.
    pub fn front(&self, number: u16, direction: Direction) -> Option<QueueFront<'_>>
        ensures { option_map view_front result ≡ front_of direction (slice_get self.now.streams number) }
    {
        let Some(link) = link_at(&self.links, number) else {
            return None;
        };
        let end = link.end(direction);
        if link.ended {
            return if end.ending {
                Some(QueueFront::Ending)
            } else {
                None
            };
        }
        if !end.taken {
            return Some(QueueFront::Opening);
        }
        let Some(index) = first(&self.waiting, number, direction) else {
            return None;
        };
        Some(QueueFront::Frame(self.waiting[index].bytes.as_slice()))
    }

    /// Removes the front of a direction of the stream of this number, if anything waits there. Takes no memory.
    pub fn take_front(&mut self, number: u16, direction: Direction)
        ensures streams { self.new.streams ≡ with_stream (taken_from direction) number self.old.streams }
        ensures space { self.old.space ≤ self.new.space }
    {
        let Some(link) = link_at(&self.links, number) else {
            return;
        };
        if link.is_marked(direction) {
            put_link(&mut self.links, number, link.after(direction));
            return;
        }
        if let Some(first) = first(&self.waiting, number, direction) {
            let _taken = self.waiting.remove(first);
        }
    }
}

//! Streams without their frames: the devices at both ends, and the marks that wait for them.

ghost use Rattle.std.specs.Prelude.{◌≡◌, ◌<◌, length, set, slice_get};
ghost use Rattle.segment_world.specs.Transit.Links.{closed_link, cut_link, end_after, end_of, ending_end, fresh_link, is_marked, quiet_end, with_end};
ghost use Rattle.segment_world.specs.Transit.Streams.{way_between};

use crate::transit::direction::Direction;

/// The receiving end of one direction.
#[derive(Clone, Copy)]
pub struct StreamEnd {
    /// Whether the end has received the mark that the stream has opened.
    pub taken: bool,
    /// Whether the mark that the stream was cut waits for the end.
    pub ending: bool,
}

/// A stream between two devices.
#[derive(Clone, Copy)]
pub struct StreamLink {
    /// The index of the device that opened the stream.
    pub from: u32,
    /// The index of the device that accepted it.
    pub to: u32,
    /// Whether the stream was cut or closed.
    pub ended: bool,
    /// The end of the device that accepted the stream.
    pub forth: StreamEnd,
    /// The end of the device that opened it.
    pub back: StreamEnd,
}

impl StreamEnd {
    /// Queues the mark that the stream was cut, if the end has received the mark that it has opened.
    pub fn ending(self) -> StreamEnd
        ensures { result ≡ ending_end self }
    {
        StreamEnd {
            taken: self.taken,
            ending: self.taken,
        }
    }

    /// Queues nothing.
    pub fn quiet(self) -> StreamEnd
        ensures { result ≡ quiet_end self }
    {
        StreamEnd {
            taken: self.taken,
            ending: false,
        }
    }

    /// Receives the mark that waits: that the stream was cut if it has ended, else that it has opened.
    pub fn after(self, ended: bool) -> StreamEnd
        ensures { result ≡ end_after ended self }
    {
        if ended {
            self.quiet()
        } else {
            StreamEnd {
                taken: true,
                ending: self.ending,
            }
        }
    }
}

/// The two ends of a stream.
#[derive(Clone, Copy, PartialEq, Eq)]
pub struct Endpoints {
    /// The index of the device that opened the stream.
    pub from: u32,
    /// The index of the device that accepted it.
    pub to: u32,
    /// Whether the stream was cut or closed.
    pub ended: bool,
}

const FRESH: StreamEnd = StreamEnd {
    taken: false,
    ending: false,
};

impl StreamLink {
    /// Makes a stream on which only the mark that it has opened waits, for both ends.
    pub fn new(from: u32, to: u32) -> StreamLink
        ensures { result ≡ fresh_link from to }
    {
        StreamLink {
            from,
            to,
            ended: false,
            forth: FRESH,
            back: FRESH,
        }
    }

    /// Returns the direction in which a device sends: none if the stream has ended, or is no stream of the device.
    pub fn way_from(&self, device: u32) -> Option<Direction>
        ensures { result ≡ way_between device self.now.ended self.now.from self.now.to }
    {
        if self.ended {
            return None;
        }
        if self.from == device {
            return Some(Direction::Forth);
        }
        if self.to == device {
            return Some(Direction::Back);
        }
        None
    }

    /// Cuts the stream: the mark waits for each end that has received the mark that the stream has opened.
    pub fn cut(self) -> StreamLink
        ensures { result ≡ cut_link self }
    {
        StreamLink {
            ended: true,
            forth: self.forth.ending(),
            back: self.back.ending(),
            ..self
        }
    }

    /// Closes the stream by the device that sends in this direction: the mark waits for the other end alone, if that
    /// has received the mark that the stream has opened.
    pub fn closed(self, direction: Direction) -> StreamLink
        ensures { result ≡ closed_link self direction }
    {
        match direction {
            Direction::Forth => StreamLink {
                ended: true,
                forth: self.forth.ending(),
                back: self.back.quiet(),
                ..self
            },
            Direction::Back => StreamLink {
                ended: true,
                forth: self.forth.quiet(),
                back: self.back.ending(),
                ..self
            },
        }
    }

    /// Returns the receiving end of a direction.
    pub fn end(&self, direction: Direction) -> StreamEnd
        ensures { result ≡ end_of direction self.now }
    {
        match direction {
            Direction::Forth => self.forth,
            Direction::Back => self.back,
        }
    }

    /// Returns whether the front of a direction, if there is one, is a mark.
    pub fn is_marked(&self, direction: Direction) -> bool
        ensures { result ≡ is_marked self.now.ended (end_of direction self.now).taken }
    {
        self.ended || !self.end(direction).taken
    }

    /// Receives the mark at the front of a direction.
    pub fn after(self, direction: Direction) -> StreamLink
        ensures { result ≡ with_end direction self (end_after self.ended (end_of direction self)) }
    {
        match direction {
            Direction::Forth => StreamLink {
                forth: self.forth.after(self.ended),
                ..self
            },
            Direction::Back => StreamLink {
                back: self.back.after(self.ended),
                ..self
            },
        }
    }
}

/// Returns the link of this number, if there is one.
pub fn link_at(links: &[StreamLink], number: u16) -> Option<StreamLink>
    ensures { result ≡ slice_get links.now number }
{
    links.get(usize::from(number)).copied()
}

/// Replaces the link of this number. Takes no memory.
pub fn put_link(links: &mut Vec<StreamLink>, number: u16, link: StreamLink)
    requires { number < length links.old.items }
    ensures { links.new.items ≡ set links.old.items number link }
{
    links[usize::from(number)] = link;
}

//! The order of a port's polls.

ghost use Rattle.std.specs.Prelude.{◌≡◌, not, nat_le, false, if◌then◌else◌};
ghost use Rattle.socket_port.specs.Streams.Polling.{accept_weight, is_for_streams, next_poll, stream_behind, weight_after};

use cip_types::limits::MOST_STREAMS;

/// The numbers of streams are below this one.
const STREAM_NUMBERS: u16 = MOST_STREAMS as u16;

/// One in this many polls asks the streams before the datagrams.
const POLLS_PER_ROUND: u8 = 16;

/// The listener is asked once the polls since the last time have this weight: a call that finds no connection costs as
/// much as four reads.
const ACCEPT_WEIGHT: u8 = 240;

/// The weight of a poll that finds something, which takes microseconds.
const BUSY_POLL: u8 = 1;

/// The weight of a poll that finds nothing, and follows a wait of a millisecond.
const IDLE_POLL: u8 = 30;

/// The order in which a port asks its listener, its datagrams and its streams, so that none of them waits long for the
/// others.
#[derive(Clone, Copy)]
pub struct PollOrder {
    polls: u8,
    first: u16,
    since_accept: u8,
    idle: bool,
}

impl PollOrder {
    /// The order of a port that was not polled yet: its first poll asks the listener, and then the streams.
    pub fn begin() -> Self
        ensures { result ≡ record { polls = 0; first = 0; since_accept = accept_weight; idle = false } }
    {
        PollOrder {
            polls: 0,
            first: 0,
            since_accept: ACCEPT_WEIGHT,
            idle: false,
        }
    }

    /// Whether the last poll found nothing.
    pub fn is_idle(&self) -> bool
        ensures { result ≡ self.now.idle }
    {
        self.idle
    }

    /// Whether this poll asks the listener: 240 polls that found something, or 8 that found nothing, passed since it
    /// was asked.
    pub fn asks_listener(&mut self) -> bool
        ensures asks { result ≡ nat_le accept_weight self.old.since_accept }
        ensures begins { self.new ≡ record self.old { since_accept = if result then 0 else self.old.since_accept } }
    {
        if self.since_accept < ACCEPT_WEIGHT {
            return false;
        }
        self.since_accept = 0;
        true
    }

    /// Whether this poll asks the streams before the datagrams, as the first one of each 16 does.
    pub fn asks_streams_first(&mut self) -> bool
        ensures first { result ≡ is_for_streams self.old.polls }
        ensures next { self.new ≡ record self.old { polls = next_poll self.old.polls } }
    {
        let is_first = self.polls == 0;
        self.polls = (self.polls % POLLS_PER_ROUND + 1) % POLLS_PER_ROUND;
        is_first
    }

    /// The number of the stream that is asked at this place. The 16 streams are asked at the places 0 to 15.
    pub fn stream_at(&self, place: u16) -> u16
        ensures { result ≡ stream_behind self.now.first place }
    {
        (self.first % STREAM_NUMBERS + place % STREAM_NUMBERS) % STREAM_NUMBERS
    }

    /// The stream of this number had an arrival, so the next one is asked first.
    pub fn begin_behind(&mut self, number: u16)
        ensures { self.new ≡ record self.old { first = stream_behind number 1 } }
    {
        self.first = (number % STREAM_NUMBERS + 1) % STREAM_NUMBERS;
    }

    /// The poll ends: it found an arrival, or nothing.
    pub fn end_poll(&mut self, found: bool)
        ensures { self.new ≡ record self.old { idle = not found; since_accept = weight_after self.old.since_accept found } }
    {
        self.idle = !found;
        let weight = if found { BUSY_POLL } else { IDLE_POLL };
        self.since_accept = self.since_accept.saturating_add(weight);
    }
}

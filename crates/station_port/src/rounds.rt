//! Rounds of polls: in which order a port reads its sockets. A round begins as the system reports which of them have something.
//! The datagrams that wait come before all else, at most 64 of them in a round.

ghost use Rattle.std.specs.Prelude.{◌≡◌, ◌||◌};
ghost use Rattle.station_port.specs.Rounds.{any_source, fresh_round, is_full, is_over, next_other, next_source, poll_sources, with_datagram, with_poll, without};
ghost use Rattle.station_port.specs.Streams.Readiness.{any_ready};

use crate::streams::Ready;

/// So many datagrams are read in a round before the other sockets have their turn.
const MOST_DATAGRAMS: u8 = 64;

/// A round is over behind so many polls that asked the other sockets first.
const MOST_OTHERS: u8 = 16;

/// A full round is over behind so many: an inquiry and a stream have their turn.
const OTHERS_IF_FULL: u8 = 2;

/// What a poll reads.
#[derive(Clone, Copy, PartialEq, Eq)]
pub enum PollSource {
    /// The datagrams of class 1.
    Datagrams,
    /// The connections that peers open, and the streams that are being opened.
    Connections,
    /// The sockets of inquiries.
    Inquiries,
    /// The open streams.
    Streams,
    /// No socket.
    Nothing,
}

/// What a poll has not read yet and may have something.
#[derive(Clone, Copy)]
pub struct PollSources {
    pub datagrams: bool,
    pub connections: bool,
    pub inquiries: bool,
    pub streams: bool,
}

impl PollSources {
    /// What may have something: the sockets that are ready, each of them, and at a station that answers inquiries one that waits, of
    /// which its time says when it is due.
    pub fn of(ready: &Ready, answers_inquiries: bool) -> PollSources
        ensures sources { result ≡ poll_sources ready.now answers_inquiries }
        ensures whole { any_source result ≡ (any_ready ready.now || answers_inquiries) }
    {
        PollSources {
            datagrams: ready.datagrams,
            connections: ready.listener || ready.openings,
            inquiries: ready.finder || answers_inquiries,
            streams: ready.streams,
        }
    }

    /// What is left once this was read.
    pub fn without(self, source: PollSource) -> PollSources
        ensures { result ≡ without self source }
    {
        let mut left = self;
        match source {
            PollSource::Datagrams => left.datagrams = false,
            PollSource::Connections => left.connections = false,
            PollSource::Inquiries => left.inquiries = false,
            PollSource::Streams => left.streams = false,
            PollSource::Nothing => {}
        }
        left
    }
}

/// A round: the datagrams that were read in it, and the polls that asked the other sockets first.
#[derive(Clone, Copy)]
pub struct PollRound {
    datagrams: u8,
    others: u8,
}

impl PollRound {
    /// A round in which nothing was read.
    pub fn begin() -> PollRound
        ensures { result ≡ fresh_round }
    {
        PollRound {
            datagrams: 0,
            others: 0,
        }
    }

    /// Whether so many datagrams were read that the other sockets have their turn.
    fn is_full(&self) -> bool
        ensures { result ≡ is_full self.now }
    {
        MOST_DATAGRAMS <= self.datagrams
    }

    /// Whether the system is to be asked again which sockets have something.
    pub fn is_over(&self) -> bool
        ensures { result ≡ is_over self.now }
    {
        MOST_OTHERS <= self.others || (self.is_full() && OTHERS_IF_FULL <= self.others)
    }

    /// A datagram was read.
    pub fn note_datagram(&mut self)
        ensures { self.new ≡ with_datagram self.old }
    {
        self.datagrams = self.datagrams.saturating_add(1);
    }

    /// A poll is made, with datagrams to read or without.
    pub fn note_poll(&mut self, datagrams: bool)
        ensures { self.new ≡ with_poll self.old datagrams }
    {
        if !datagrams || self.is_full() {
            self.others = self.others.saturating_add(1);
        }
    }

    /// What a poll reads next, of what it has not read yet.
    pub fn next_source(&self, left: PollSources) -> PollSource
        ensures { result ≡ next_source self.now left }
    {
        if left.datagrams && !self.is_full() {
            return PollSource::Datagrams;
        }
        next_other(self.others == 0, left)
    }
}

/// Which of the other sockets comes first. Datagrams beyond a full round are read if no other socket has anything.
fn next_other(first: bool, left: PollSources) -> PollSource
    ensures { result ≡ next_other first left }
{
    if first && left.connections {
        return PollSource::Connections;
    }
    if first && left.inquiries {
        return PollSource::Inquiries;
    }
    if left.streams {
        return PollSource::Streams;
    }
    if left.connections {
        return PollSource::Connections;
    }
    if left.inquiries {
        return PollSource::Inquiries;
    }
    if left.datagrams {
        return PollSource::Datagrams;
    }
    PollSource::Nothing
}

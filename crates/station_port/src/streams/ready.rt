//! Which sockets may have something.

ghost use Rattle.std.specs.Prelude.{◌≡◌, false};
ghost use Rattle.station_port.specs.Streams.Readiness.{after_accept, all_ready, any_ready, asks_system, marked, with_refused};

use mio::{Events, Token};
use std::io::ErrorKind;

/// The token of the listener.
pub const LISTENER: Token = Token(0);

/// The token of the socket of class 1 datagrams.
pub const DATAGRAMS: Token = Token(1);

/// The token of every open stream.
pub const STREAMS: Token = Token(2);

/// The token of every stream that is being opened.
pub const OPENINGS: Token = Token(3);

/// The token of the sockets of inquiries.
pub const FINDER: Token = Token(4);

/// The token of a waker, which marks nothing.
pub const WAKER: Token = Token(5);

/// Which sockets may have something: those that were reported since they last had nothing.
#[derive(Clone, Copy)]
pub struct Ready {
    pub listener: bool,
    pub datagrams: bool,
    pub streams: bool,
    pub openings: bool,
    pub finder: bool,
    /// A connection could not be accepted: the listener is asked again once the system was.
    pub refused: bool,
    /// A wait has reported, and no poll followed it yet.
    pub reported: bool,
}

impl Ready {
    /// Every socket may have something.
    pub fn all() -> Ready
        ensures { result ≡ all_ready }
    {
        Ready {
            listener: true,
            datagrams: true,
            streams: true,
            openings: true,
            finder: true,
            refused: false,
            reported: false,
        }
    }

    /// Whether a socket may have something.
    pub fn any(&self) -> bool
        ensures { result ≡ any_ready self.now }
    {
        self.listener || self.datagrams || self.streams || self.openings || self.finder
    }

    /// The sockets of these events were reported, and no others. A listener whose connection could not be accepted is asked
    /// again.
    pub fn mark_all(&mut self, events: &Events)
        ensures { self.new.refused ≡ false }
    {
        self.mark_refused();
        for event in events.iter() {
            self.mark(event.token());
        }
    }

    /// The system was asked: so is a listener whose connection could not be accepted.
    fn mark_refused(&mut self)
        ensures { self.new ≡ with_refused self.old }
    {
        self.listener = self.listener || self.refused;
        self.refused = false;
    }

    /// Whether a poll asks the system which sockets have something: not if the wait before it did. While one may have
    /// something, a poll asks only if the round is over.
    pub fn asks_system(&mut self, is_over: bool) -> bool
        ensures asks { result ≡ asks_system is_over self.old }
        ensures begins { self.new ≡ record self.old { reported = false } }
    {
        let reported = self.reported;
        self.reported = false;
        !reported && (is_over || !self.any())
    }

    /// The listener gave a connection, or failed with this error. Another one may wait behind a connection, and none does
    /// if the call would have to wait for it.
    pub fn note_accept(&mut self, failure: Option<ErrorKind>)
        ensures { self.new ≡ after_accept self.old failure }
    {
        match failure {
            None => self.listener = true,
            Some(ErrorKind::WouldBlock) => self.listener = false,
            Some(_) => {
                self.listener = false;
                self.refused = true;
            }
        }
    }

    /// The sockets of this token were reported.
    pub fn mark(&mut self, token: Token)
        ensures { self.new ≡ marked self.old token.0 }
    {
        match token.0 {
            0 => self.listener = true,
            1 => self.datagrams = true,
            2 => self.streams = true,
            3 => self.openings = true,
            4 => self.finder = true,
            _ => {}
        }
    }
}

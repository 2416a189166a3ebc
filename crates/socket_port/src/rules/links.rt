//! The links of a scanner to its targets: which one is to be opened now, which is given up, and when a closed one is
//! tried again.

ghost use Rattle.std.specs.Prelude.{◌≡◌, ◌<◌, replicate, position, slice_set, IfOk};
ghost use Rattle.socket_port.specs.Rules.Links.{again_link, requested_link, at_stream, at_target, dropped_link, received_link, opening_link, failed_link, given_up_link, is_due, is_late, is_of, is_registering, is_unregistered, link_at, lost_link, new_link, refused_link, registering_link, registered_link, registers_on, renewed_link, renewed_stream, retry_at, stream_of, succeeded_link, wait_after, wait_of};

use cip_types::OutOfMemory;
use std::alloc::Global;
use std::marker::Model;

/// A stream that is not open after so many milliseconds is given up.
const OPENING_MS: u64 = 3_000;

/// The state of the link to one target. Times are in milliseconds.
#[derive(Clone, Copy, PartialEq, Eq)]
pub enum LinkState {
    /// There is no stream. From this time on one is to be opened.
    Down { retry_ms: u64 },
    /// A stream is being opened. At this time it is given up.
    Opening { until_ms: u64 },
    /// The stream of this number is open, and has no session. At this time it is given up.
    Registering { stream: u16, until_ms: u64 },
    /// A session is registered on the stream of this number.
    Open { stream: u16 },
}

/// The link to one target.
#[derive(Clone, Copy, PartialEq, Eq)]
pub struct TargetLink {
    /// Its state.
    pub state: LinkState,
    /// How many tries its target answered and failed since a connection with it was established: at most 255.
    pub tries: u8,
    /// Whether no message came over its stream since a request was sent over it.
    pub waits: bool,
}

/// The links to the targets of a scanner, in order, and the time after which a stream without a session is given up.
/// Contracts see that time and the list of the links.
#[derive(Drop)]
pub struct TargetLinks {
    session_ms: u64,
    links: Vec<TargetLink>,
}

impl Model for TargetLinks {
    ghost use Rattle.socket_port.specs.Rules.Links.{Links};

    ghost Value = { Links };

    ghost view = { λ l. record { session_ms = l.session_ms; links = l.links.items } };
}

impl TargetLinks {
    /// Links to this number of targets: each stream is to be opened at once, and is given up if it has no session after
    /// so many milliseconds. The only fault is a refused allocation.
    pub fn new(alloc: Global, count: usize, session_ms: u64) -> Result<TargetLinks, OutOfMemory>
        ensures { IfOk result (λ links. links ≡ record { session_ms = session_ms; links = replicate count new_link }) }
    {
        Ok(TargetLinks {
            session_ms,
            links: vec![in alloc; new_link(); count]?,
        })
    }

    /// The first target whose stream is to be opened now. Takes no memory.
    pub fn due(&self, now_ms: u64) -> Option<usize>
        ensures { result ≡ position (is_due now_ms) self.now.links }
    {
        self.links.iter().position(|link| link.is_due(now_ms))
    }

    /// The first target whose stream did not open in time. Takes no memory.
    pub fn late(&self, now_ms: u64) -> Option<usize>
        ensures { result ≡ position (is_late now_ms) self.now.links }
    {
        self.links.iter().position(|link| link.is_late(now_ms))
    }

    /// The first target whose stream has no session in time. Takes no memory.
    pub fn unregistered(&self, now_ms: u64) -> Option<usize>
        ensures { result ≡ position (is_unregistered now_ms) self.now.links }
    {
        self.links
            .iter()
            .position(|link| link.is_unregistered(now_ms))
    }

    /// The target of the stream of this number. Takes no memory.
    pub fn target_of(&self, stream: u16) -> Option<usize>
        ensures { result ≡ position (is_of stream) self.now.links }
    {
        self.links.iter().position(|link| link.is_of(stream))
    }

    /// The link to this target; one that was not tried yet if there is no such target. Takes no memory.
    pub fn link(&self, target: usize) -> TargetLink
        ensures { result ≡ link_at self.now.links target }
    {
        match self.links.get(target) {
            Some(link) => *link,
            None => new_link(),
        }
    }

    /// A stream to this target is being opened from now on. Takes no memory.
    pub fn begin(&mut self, target: usize, now_ms: u64)
        ensures { self.new ≡ at_target self.old target (opening_link now_ms) }
    {
        let link = self.link(target).begun(now_ms);
        self.put(target, link);
    }

    /// The stream to this target is open under a number, and a session is to be registered on it. Takes no memory.
    pub fn open(&mut self, target: usize, stream: u16, now_ms: u64)
        ensures { self.new ≡ at_target self.old target (registering_link self.old.session_ms stream now_ms) }
    {
        let link = self.link(target).opened(self.session_ms, stream, now_ms);
        self.put(target, link);
    }

    /// A session is registered on the stream to this target. Takes no memory.
    pub fn register(&mut self, target: usize)
        ensures { self.new ≡ at_target self.old target registered_link }
    {
        let link = self.link(target).registered();
        self.put(target, link);
    }

    /// Nothing answered at this target: it is tried again after a second. Takes no memory.
    pub fn give_up(&mut self, target: usize, now_ms: u64)
        ensures { self.new ≡ at_target self.old target (given_up_link now_ms) }
    {
        let link = self.link(target).given_up(now_ms);
        self.put(target, link);
    }

    /// The target answered, and failed: each further time it is tried again later. Takes no memory.
    pub fn fail(&mut self, target: usize, now_ms: u64)
        ensures { self.new ≡ at_target self.old target (failed_link now_ms) }
    {
        let link = self.link(target).failed(now_ms);
        self.put(target, link);
    }

    /// The stream to this target ended: it is a failure only if it had no session. Takes no memory.
    pub fn lose(&mut self, target: usize, now_ms: u64)
        ensures { self.new ≡ at_target self.old target (lost_link now_ms) }
    {
        let link = self.link(target).lost(now_ms);
        self.put(target, link);
    }

    /// A connection with this target is established. Takes no memory.
    pub fn succeed(&mut self, target: usize)
        ensures { self.new ≡ at_target self.old target succeeded_link }
    {
        let link = self.link(target).succeeded();
        self.put(target, link);
    }

    /// Whether a session is being registered on the stream of this number. Takes no memory.
    pub fn is_registering(&self, stream: u16) -> bool
        ensures { result ≡ registers_on self.now.links stream }
    {
        match self.target_of(stream) {
            Some(target) => self.link(target).is_registering(),
            None => false,
        }
    }

    /// A session is registered on the stream of this number. Takes no memory.
    pub fn register_stream(&mut self, stream: u16)
        ensures { self.new ≡ at_stream self.old stream registered_link }
    {
        if let Some(target) = self.target_of(stream) {
            self.register(target);
        }
    }

    /// The session of the stream of this number is refused: if it was being registered, its target failed. Takes no
    /// memory.
    pub fn refuse_stream(&mut self, stream: u16, now_ms: u64)
        ensures { self.new ≡ at_stream self.old stream (refused_link now_ms) }
    {
        if let Some(target) = self.target_of(stream) {
            let link = self.link(target).refused(now_ms);
            self.put(target, link);
        }
    }

    /// The stream of this number ended: its target's is opened again later. Takes no memory.
    pub fn lose_stream(&mut self, stream: u16, now_ms: u64)
        ensures { self.new ≡ at_stream self.old stream (lost_link now_ms) }
    {
        if let Some(target) = self.target_of(stream) {
            self.lose(target, now_ms);
        }
    }

    /// A request was sent over the stream of this number. Takes no memory.
    pub fn request_over(&mut self, stream: u16)
        ensures { self.new ≡ at_stream self.old stream requested_link }
    {
        if let Some(target) = self.target_of(stream) {
            let link = self.link(target).requested();
            self.put(target, link);
        }
    }

    /// RegisterSession was sent over the stream of this number: on an open stream the session is waited for again, as on a new
    /// one. Takes no memory.
    pub fn register_over(&mut self, stream: u16, now_ms: u64)
        ensures { self.new ≡ at_stream self.old stream (again_link self.old.session_ms now_ms) }
    {
        if let Some(target) = self.target_of(stream) {
            let link = self.link(target).registering_again(self.session_ms, now_ms);
            self.put(target, link);
        }
    }

    /// A message came over the stream of this number. Takes no memory.
    pub fn receive_over(&mut self, stream: u16)
        ensures { self.new ≡ at_stream self.old stream received_link }
    {
        if let Some(target) = self.target_of(stream) {
            let link = self.link(target).received();
            self.put(target, link);
        }
    }

    /// A request to this target was not answered in time. Drops its stream if no message came over that since a request was sent
    /// over it, and then the target failed: the number of that stream. Takes no memory.
    pub fn renew_stream(&mut self, target: usize, now_ms: u64) -> Option<u16>
        ensures stream { result ≡ renewed_stream (link_at self.old.links target) }
        ensures links { self.new ≡ at_target self.old target (renewed_link now_ms) }
    {
        let link = self.link(target);
        self.put(target, link.renewed(now_ms));
        link.renewed_stream()
    }

    /// Drops the stream to this target, which failed if it has one: the number of that stream. Takes no memory.
    pub fn drop_stream(&mut self, target: usize, now_ms: u64) -> Option<u16>
        ensures stream { result ≡ stream_of (link_at self.old.links target) }
        ensures links { self.new ≡ at_target self.old target (dropped_link now_ms) }
    {
        let link = self.link(target);
        self.put(target, link.dropped(now_ms));
        link.stream()
    }

    /// Puts a link, if there is such a target.
    fn put(&mut self, target: usize, link: TargetLink)
        ensures { self.new ≡ record self.old { links = slice_set self.old.links target link } }
    {
        if target < self.links.len() {
            self.links[target] = link;
        }
    }

    /// The milliseconds until a stream is to be opened or given up: none if one is now. At most so many. Takes no memory.
    pub fn wait(&self, now_ms: u64, most_ms: u64) -> u64
        ensures { result ≡ wait_of now_ms most_ms most_ms self.now.links }
    {
        least_wait(self.links.as_slice(), now_ms, most_ms)
    }
}

/// A link that was not tried yet.
fn new_link() -> TargetLink
    ensures { result ≡ new_link }
{
    TargetLink {
        state: LinkState::Down { retry_ms: 0 },
        tries: 0,
        waits: false,
    }
}

impl TargetLink {
    /// Whether its stream is to be opened now.
    fn is_due(&self, now_ms: u64) -> bool
        ensures { result ≡ is_due now_ms self.now }
    {
        matches!(self.state, LinkState::Down { retry_ms } if retry_ms <= now_ms)
    }

    /// Whether its stream did not open in time.
    fn is_late(&self, now_ms: u64) -> bool
        ensures { result ≡ is_late now_ms self.now }
    {
        matches!(self.state, LinkState::Opening { until_ms } if until_ms <= now_ms)
    }

    /// Whether its stream has no session in time.
    fn is_unregistered(&self, now_ms: u64) -> bool
        ensures { result ≡ is_unregistered now_ms self.now }
    {
        matches!(self.state, LinkState::Registering { stream: _, until_ms } if until_ms <= now_ms)
    }

    /// Whether its stream has this number.
    fn is_of(&self, number: u16) -> bool
        ensures { result ≡ is_of number self.now }
    {
        match self.state {
            LinkState::Registering {
                stream,
                until_ms: _,
            } => stream == number,
            LinkState::Open { stream } => stream == number,
            _ => false,
        }
    }

    /// Whether a session is being registered on its stream.
    fn is_registering(&self) -> bool
        ensures { result ≡ is_registering self.now }
    {
        matches!(
            self.state,
            LinkState::Registering {
                stream: _,
                until_ms: _,
            }
        )
    }

    /// The number of its stream, if it is open.
    fn stream(self) -> Option<u16>
        ensures { result ≡ stream_of self }
    {
        match self.state {
            LinkState::Registering {
                stream,
                until_ms: _,
            } => Some(stream),
            LinkState::Open { stream } => Some(stream),
            _ => None,
        }
    }

    /// The link while a stream is being opened.
    fn begun(self, now_ms: u64) -> TargetLink
        ensures { result ≡ opening_link now_ms self }
    {
        TargetLink {
            state: LinkState::Opening {
                until_ms: now_ms.saturating_add(OPENING_MS),
            },
            ..self
        }
    }

    /// The link after its stream opened.
    fn opened(self, session_ms: u64, stream: u16, now_ms: u64) -> TargetLink
        ensures { result ≡ registering_link session_ms stream now_ms self }
    {
        TargetLink {
            state: LinkState::Registering {
                stream,
                until_ms: now_ms.saturating_add(session_ms),
            },
            waits: false,
            ..self
        }
    }

    /// The link after a session was registered on its stream.
    fn registered(self) -> TargetLink
        ensures { result ≡ registered_link self }
    {
        match self.state {
            LinkState::Registering {
                stream,
                until_ms: _,
            } => TargetLink {
                state: LinkState::Open { stream },
                ..self
            },
            _ => self,
        }
    }

    /// The link after nothing answered.
    fn given_up(self, now_ms: u64) -> TargetLink
        ensures { result ≡ given_up_link now_ms self }
    {
        TargetLink {
            state: LinkState::Down {
                retry_ms: now_ms.saturating_add(wait_after(0)),
            },
            waits: false,
            ..self
        }
    }

    /// The link after its target answered and failed.
    fn failed(self, now_ms: u64) -> TargetLink
        ensures { result ≡ failed_link now_ms self }
    {
        let tries = self.tries.saturating_add(1);
        TargetLink {
            state: LinkState::Down {
                retry_ms: now_ms.saturating_add(wait_after(tries)),
            },
            tries,
            waits: false,
        }
    }

    /// The link after a request was sent over its stream.
    fn requested(self) -> TargetLink
        ensures { result ≡ requested_link self }
    {
        TargetLink {
            waits: true,
            ..self
        }
    }

    /// The link after RegisterSession was sent over its stream.
    fn registering_again(self, session_ms: u64, now_ms: u64) -> TargetLink
        ensures { result ≡ again_link session_ms now_ms self }
    {
        match self.state {
            LinkState::Open { stream } => TargetLink {
                state: LinkState::Registering {
                    stream,
                    until_ms: now_ms.saturating_add(session_ms),
                },
                waits: true,
                ..self
            },
            _ => self.requested(),
        }
    }

    /// The link after a message came over its stream.
    fn received(self) -> TargetLink
        ensures { result ≡ received_link self }
    {
        TargetLink {
            waits: false,
            ..self
        }
    }

    /// The link after a request was not answered in time.
    fn renewed(self, now_ms: u64) -> TargetLink
        ensures { result ≡ renewed_link now_ms self }
    {
        if self.waits {
            self.dropped(now_ms)
        } else {
            self
        }
    }

    /// The number of its stream, if that is dropped when a request was not answered in time.
    fn renewed_stream(self) -> Option<u16>
        ensures { result ≡ renewed_stream self }
    {
        if self.waits { self.stream() } else { None }
    }

    /// The link after its session was refused.
    fn refused(self, now_ms: u64) -> TargetLink
        ensures { result ≡ refused_link now_ms self }
    {
        match self.state {
            LinkState::Registering {
                stream: _,
                until_ms: _,
            } => self.failed(now_ms),
            _ => self,
        }
    }

    /// The link after its stream was dropped.
    fn dropped(self, now_ms: u64) -> TargetLink
        ensures { result ≡ dropped_link now_ms self }
    {
        match self.state {
            LinkState::Registering {
                stream: _,
                until_ms: _,
            } => self.failed(now_ms),
            LinkState::Open { stream: _ } => self.failed(now_ms),
            _ => self,
        }
    }

    /// The link after its stream ended.
    fn lost(self, now_ms: u64) -> TargetLink
        ensures { result ≡ lost_link now_ms self }
    {
        match self.state {
            LinkState::Registering {
                stream: _,
                until_ms: _,
            } => self.failed(now_ms),
            _ => self.given_up(now_ms),
        }
    }

    /// The link after a connection was established.
    fn succeeded(self) -> TargetLink
        ensures { result ≡ succeeded_link self }
    {
        TargetLink { tries: 0, ..self }
    }

    /// The milliseconds until its stream is to be opened or given up, at most so many.
    fn wait(&self, now_ms: u64, most_ms: u64) -> u64
        ensures { result ≡ retry_at now_ms most_ms self.now }
    {
        match self.state {
            LinkState::Down { retry_ms } => retry_ms.saturating_sub(now_ms),
            LinkState::Opening { until_ms } => until_ms.saturating_sub(now_ms),
            LinkState::Registering {
                stream: _,
                until_ms,
            } => until_ms.saturating_sub(now_ms),
            LinkState::Open { stream: _ } => most_ms,
        }
    }
}

/// The milliseconds from the last of so many failed tries to the next one.
fn wait_after(tries: u8) -> u64
    ensures { result ≡ wait_after tries }
{
    if tries <= 4 {
        1_000
    } else if tries == 5 {
        2_000
    } else if tries == 6 {
        4_000
    } else if tries == 7 {
        8_000
    } else if tries == 8 {
        16_000
    } else {
        30_000
    }
}

/// The least of these links' times, at most so many milliseconds.
fn least_wait(links: &[TargetLink], now_ms: u64, most_ms: u64) -> u64
    ensures { result ≡ wait_of now_ms most_ms most_ms links.now }
{
    let mut wait = most_ms;
    for link in links {
        wait = wait.min(link.wait(now_ms, most_ms));
    }
    wait
}

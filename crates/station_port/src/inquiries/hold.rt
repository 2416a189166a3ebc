//! Inquiries that came by broadcast, and wait for their time.

ghost use Rattle.std.specs.Prelude.{◌≡◌, [], None, OnOk, OnErr, IfSome, IfNone, ◌<◌, filter, length, min, position};
ghost use Rattle.station_port.specs.Inquiries.Holds.{GivesInquiry, crowded_place, held_after, inquiry_wait, is_inquiry_due, is_of_node, is_of_peer, older_place, time_to_inquiry};

use crate::inquiries::asking::Asker;
use crate::inquiries::delays::{drawn_delay, longest_delay};
use cip_types::{Items, Node, OutOfMemory};
use rand_core::SeedableRng;
use rand_core::utils::NextWord;
use rand_xoshiro::SplitMix64;
use std::alloc::Global;
use std::marker::Model;

/// At most so many inquiries wait.
pub const MOST_HELD: usize = 64;

/// At most so many of them are of one address.
pub const MOST_HELD_OF_ONE: usize = 4;

/// An inquiry that waits until a time.
#[derive(Drop)]
pub struct HeldInquiry {
    pub asker: Asker,
    pub bytes: Items<u8>,
    pub due_ms: u64,
}

/// The random words that are to come, and the inquiries that wait, in the order in which they came.
#[derive(Drop)]
pub struct InquiryHold {
    alloc: Global,
    words: SplitMix64,
    waiting: Vec<HeldInquiry>,
}

impl Model for InquiryHold {
    ghost use Rattle.std.specs.Prelude.{◌≤◌, length};
    ghost use Rattle.station_port.specs.Inquiries.Holds.{InquiriesHeld};

    ghost Value = { InquiriesHeld };

    ghost view = { λ h. record { words = h.words; waiting = h.waiting.items } };

    ghost invariant = { λ h. length h.waiting.items ≤ 64 };
}

impl InquiryHold {
    /// No inquiry waits. The seed draws the delays. Takes no memory.
    pub fn new(alloc: Global, seed: u64) -> InquiryHold
        ensures { result ≡ record { words = seed; waiting = [] } }
    {
        InquiryHold {
            alloc,
            words: SplitMix64::seed_from_u64(seed),
            waiting: Vec::new(alloc),
        }
    }

    /// From now on this seed draws the delays. Takes no memory.
    pub fn draw_by(&mut self, seed: u64)
        ensures { self.new ≡ record self.old { words = seed } }
    {
        self.words = SplitMix64::seed_from_u64(seed);
    }

    /// Holds an inquiry that came by broadcast at this time, until a drawn time. It takes the place of the older one of its
    /// peer, or else of the first one of its address if four of that wait, and is not due later than that one. Without an older
    /// one it waits behind all others; one for which there is no room is lost, and draws nothing. OutOfMemory is the only fault,
    /// and nothing changes then.
    pub fn hold(&mut self, now_ms: u64, asker: Asker, request: &[u8]) -> Result<(), OutOfMemory>
        ensures kept { OnOk result (self.new ≡ held_after self.old now_ms asker request.now) }
        ensures same { OnErr result (self.new ≡ self.old) }
    {
        let older = older_place(self.waiting.as_slice(), asker);
        if older.is_none() && self.waiting.len() >= MOST_HELD {
            return Ok(());
        }
        let bytes = Items::copy_of(self.alloc, request)?;
        self.waiting.reserve(1)?;
        let delay_ms = drawn_delay(self.words.next_word(), longest_delay(request));
        let held = HeldInquiry {
            asker,
            bytes,
            due_ms: now_ms.saturating_add(delay_ms),
        };
        let held = match older {
            Some(place) => no_later(self.waiting.remove(place), held),
            None => held,
        };
        self.waiting.push_reserved(held);
        Ok(())
    }

    /// The first inquiry that is due at this time, which waits no longer. Takes no memory.
    pub fn next_due(&mut self, now_ms: u64) -> Option<HeldInquiry>
        ensures none { IfNone result (position (is_inquiry_due now_ms) self.old.waiting ≡ None) }
        ensures some { IfSome result (λ first. GivesInquiry now_ms self.old first self.new) }
        ensures kept { IfNone result (self.new ≡ self.old) }
    {
        let place = self.place_due(now_ms)?;
        Some(self.waiting.remove(place))
    }

    /// The place of the first inquiry that is due.
    fn place_due(&self, now_ms: u64) -> Option<usize>
        ensures { result ≡ position (is_inquiry_due now_ms) self.now.waiting }
    {
        self.waiting.iter().position(|held| is_due(now_ms, held))
    }

    /// The milliseconds until an inquiry is due, at most so many.
    pub fn wait_ms(&self, now_ms: u64, most_ms: u64) -> u64
        ensures { result ≡ inquiry_wait now_ms most_ms self.now.waiting }
    {
        least_wait(now_ms, most_ms, self.waiting.as_slice())
    }
}

/// The place of the older inquiry whose place one of this peer takes.
fn older_place(waiting: &[HeldInquiry], asker: Asker) -> Option<usize>
    ensures place { result ≡ older_place waiting.now asker }
    ensures inside { IfSome result (λ place. place < length waiting.now) }
{
    match peer_place(waiting, asker) {
        Some(place) => Some(place),
        None => crowded_place(waiting, asker),
    }
}

/// The place of the inquiry of this peer.
fn peer_place(waiting: &[HeldInquiry], asker: Asker) -> Option<usize>
    ensures place { result ≡ position (is_of_peer asker) waiting.now }
    ensures inside { IfSome result (λ place. place < length waiting.now) }
{
    waiting.iter().position(|held| is_of_peer(asker, held))
}

/// The place of the first inquiry of this peer's address, if as many of that wait as may.
fn crowded_place(waiting: &[HeldInquiry], asker: Asker) -> Option<usize>
    ensures place { result ≡ crowded_place waiting.now asker }
    ensures inside { IfSome result (λ place. place < length waiting.now) }
{
    if node_count(waiting, asker.node) < MOST_HELD_OF_ONE {
        None
    } else {
        node_place(waiting, asker.node)
    }
}

/// The place of the first inquiry of an address.
fn node_place(waiting: &[HeldInquiry], node: Node) -> Option<usize>
    ensures place { result ≡ position (is_of_node node) waiting.now }
    ensures inside { IfSome result (λ place. place < length waiting.now) }
{
    waiting.iter().position(|held| is_of_node(node, held))
}

/// How many inquiries of an address wait.
fn node_count(waiting: &[HeldInquiry], node: Node) -> usize
    ensures { result ≡ length (filter (is_of_node node) waiting.now) }
{
    waiting.iter().filter(|held| is_of_node(node, held)).count()
}

/// Whether an inquiry is of this address and port.
fn is_of_peer(asker: Asker, held: &HeldInquiry) -> bool
    ensures { result ≡ is_of_peer asker held.now }
{
    is_of_node(asker.node, held) && held.asker.at.port() == asker.at.port()
}

/// Whether an inquiry is of this address.
fn is_of_node(node: Node, held: &HeldInquiry) -> bool
    ensures { result ≡ is_of_node node held.now }
{
    held.asker.node.0 == node.0
}

/// An inquiry in the place of an older one, which is not due later than that one.
fn no_later(older: HeldInquiry, held: HeldInquiry) -> HeldInquiry
    ensures { result ≡ record held { due_ms = min older.due_ms held.due_ms } }
{
    HeldInquiry {
        due_ms: older.due_ms.min(held.due_ms),
        ..held
    }
}

/// The milliseconds until one of these inquiries is due, at most so many.
fn least_wait(now_ms: u64, most_ms: u64, waiting: &[HeldInquiry]) -> u64
    ensures { result ≡ inquiry_wait now_ms most_ms waiting.now }
{
    let mut least = most_ms;
    for held in waiting {
        least = least.min(time_to(now_ms, held));
    }
    least
}

/// Whether an inquiry is due.
fn is_due(now_ms: u64, held: &HeldInquiry) -> bool
    ensures { result ≡ is_inquiry_due now_ms held.now }
{
    held.due_ms <= now_ms
}

/// The milliseconds until an inquiry is due.
fn time_to(now_ms: u64, held: &HeldInquiry) -> u64
    ensures { result ≡ time_to_inquiry now_ms held.now }
{
    held.due_ms.saturating_sub(now_ms)
}

//! Datagrams that wait at a port.

ghost use Rattle.std.specs.Prelude.{◌≡◌, ◌+◌, ◌≤◌, ◌++◌, [], None, IfOk, OnOk, IfErr, OnErr, IfSome, IfNone, length, option_map, position, vec_len, vec_capacity};
ghost use Rattle.port_faults.specs.Holds.{GivesDue, behind_of, copied_if, copy_at, due_of, given, given_if, has_room, is_due, is_late, kept_of, taken, time_to, wait_of};

use crate::rates::{DatagramImpairment, FaultRates};
use cip_types::{Items, Node, OutOfMemory};
use std::alloc::Global;
use std::marker::Model;

/// At most so many datagrams wait.
pub const MOST_WAITING: usize = 64;

/// A datagram that is to be overtaken waits at most so many milliseconds for the next one.
const LONGEST_MS: u64 = 1_000;

/// A datagram that waits: until a time, or until so many datagrams have arrived.
#[derive(Drop)]
pub struct HeldDatagram {
    pub peer: Node,
    pub bytes: Items<u8>,
    pub due_ms: u64,
    pub behind: u64,
}

/// How many datagrams have arrived, and those that wait, in the order in which they came.
#[derive(Drop)]
pub struct DatagramHold {
    alloc: Global,
    rates: FaultRates,
    arrived: u64,
    waiting: Vec<HeldDatagram>,
}

impl Model for DatagramHold {
    ghost use Rattle.std.specs.Prelude.{◌≤◌, length};
    ghost use Rattle.port_faults.specs.Holds.{HoldValue};

    ghost Value = { HoldValue };

    ghost view = { λ h. record { rates = h.rates; arrived = h.arrived; waiting = h.waiting.items } };

    ghost invariant = { λ h. length h.waiting.items ≤ 64 };
}

impl DatagramHold {
    /// No datagram has arrived. Takes no memory.
    pub fn new(alloc: Global, rates: FaultRates) -> DatagramHold
        ensures { result ≡ record { rates = rates; arrived = 0; waiting = [] } }
    {
        DatagramHold {
            alloc,
            rates,
            arrived: 0,
            waiting: Vec::new(alloc),
        }
    }

    /// Takes a datagram that arrives at this time, and answers its bytes if it goes on at once. Where there is no room for two
    /// more, it is lost or goes on. If an allocation is refused,
    /// nothing changes, and it is answered as a fault.
    pub fn take(
        &mut self,
        now_ms: u64,
        peer: Node,
        bytes: Items<u8>,
    ) -> Result<Option<Items<u8>>, Items<u8>>
        ensures given { IfOk result (λ got. got ≡ given self.old bytes) }
        ensures kept { OnOk result (self.new ≡ taken self.old now_ms peer bytes) }
        ensures refused { IfErr result (λ back. back ≡ bytes) }
        ensures same { OnErr result (self.new ≡ self.old) }
    {
        let impairment = self.rates.impairment_of(self.arrived);
        if !self.has_room() {
            self.arrived = self.arrived.saturating_add(1);
            return Ok(if impairment.lost { None } else { Some(bytes) });
        }
        let Ok(copy) = copy_if(
            self.alloc,
            impairment.repeated && !impairment.lost,
            bytes.as_slice(),
        ) else {
            return Err(bytes);
        };
        if self.waiting.reserve(2).is_err() {
            return Err(bytes);
        }
        let held = HeldDatagram {
            peer,
            bytes,
            due_ms: due_of(impairment, now_ms),
            behind: behind_of(impairment, self.arrived),
        };
        self.arrived = self.arrived.saturating_add(1);
        let copy = copy_at(peer, now_ms, copy);
        Ok(keep(
            &mut self.waiting,
            !impairment.lost,
            is_late(impairment),
            held,
            copy,
        ))
    }

    /// Whether two more datagrams can wait.
    fn has_room(&self) -> bool
        ensures { result ≡ has_room self.now.waiting }
    {
        self.waiting.len() <= MOST_WAITING - 2
    }

    /// The first datagram that is due at this time, which waits no longer. Takes no memory.
    pub fn next_due(&mut self, now_ms: u64) -> Option<HeldDatagram>
        ensures none { IfNone result (position (is_due now_ms self.old.arrived) self.old.waiting ≡ None) }
        ensures some { IfSome result (λ first. GivesDue now_ms self.old first self.new) }
        ensures kept { IfNone result (self.new ≡ self.old) }
    {
        let place = self.place_due(now_ms)?;
        Some(self.waiting.remove(place))
    }

    /// The place of the first datagram that is due.
    fn place_due(&self, now_ms: u64) -> Option<usize>
        ensures { result ≡ position (is_due now_ms self.now.arrived) self.now.waiting }
    {
        let arrived = self.arrived;
        self.waiting
            .iter()
            .position(|held| is_due(now_ms, arrived, held))
    }

    /// The milliseconds until a datagram is due, at most so many.
    pub fn wait_ms(&self, now_ms: u64, most_ms: u64) -> u64
        ensures { result ≡ wait_of now_ms self.now.arrived most_ms self.now.waiting }
    {
        least_wait(now_ms, self.arrived, most_ms, self.waiting.as_slice())
    }
}

/// The milliseconds until one of these datagrams is due, at most so many.
fn least_wait(now_ms: u64, arrived: u64, most_ms: u64, waiting: &[HeldDatagram]) -> u64
    ensures { result ≡ wait_of now_ms arrived most_ms waiting.now }
{
    let mut least = most_ms;
    for held in waiting {
        least = least.min(time_to(now_ms, arrived, held));
    }
    least
}

/// Whether a datagram is due.
fn is_due(now_ms: u64, arrived: u64, held: &HeldDatagram) -> bool
    ensures { result ≡ is_due now_ms arrived held.now }
{
    held.due_ms <= now_ms || held.behind <= arrived
}

/// The milliseconds until a datagram is due, if no other one arrives.
fn time_to(now_ms: u64, arrived: u64, held: &HeldDatagram) -> u64
    ensures { result ≡ time_to now_ms arrived held.now }
{
    if held.behind <= arrived {
        return 0;
    }
    held.due_ms.saturating_sub(now_ms)
}

/// Whether a datagram waits by its impairment.
fn is_late(impairment: DatagramImpairment) -> bool
    ensures { result ≡ is_late impairment }
{
    impairment.overtaken || impairment.delay_ms > 0
}

/// Until when a datagram waits that arrives at this time.
fn due_of(impairment: DatagramImpairment, now_ms: u64) -> u64
    ensures { result ≡ due_of impairment now_ms }
{
    if impairment.overtaken {
        now_ms.saturating_add(LONGEST_MS)
    } else {
        now_ms.saturating_add(impairment.delay_ms)
    }
}

/// Until how many datagrams have arrived a datagram waits, behind which there are so many.
fn behind_of(impairment: DatagramImpairment, arrived: u64) -> u64
    ensures { result ≡ behind_of impairment arrived }
{
    if impairment.overtaken {
        arrived.saturating_add(2)
    } else {
        u64::MAX
    }
}

/// A copy of bytes, if there is to be one.
fn copy_if(alloc: Global, requested: bool, bytes: &[u8]) -> Result<Option<Items<u8>>, OutOfMemory>
    ensures { IfOk result (λ copy. copy ≡ copied_if requested bytes.now) }
{
    if requested {
        let copy = Items::copy_of(alloc, bytes)?;
        Ok(Some(copy))
    } else {
        Ok(None)
    }
}

/// The second copy of a datagram, which is due at once.
fn copy_at(peer: Node, now_ms: u64, copy: Option<Items<u8>>) -> Option<HeldDatagram>
    ensures { result ≡ option_map (copy_at peer now_ms) copy }
{
    let bytes = copy?;
    Some(HeldDatagram {
        peer,
        bytes,
        due_ms: now_ms,
        behind: u64::MAX,
    })
}

/// Keeps a datagram and its copy, where there is room for both: if the datagram is not late, its bytes are answered, and if
/// it is lost, nothing of it stays.
fn keep(
    waiting: &mut Vec<HeldDatagram>,
    arrives: bool,
    late: bool,
    held: HeldDatagram,
    copy: Option<HeldDatagram>,
) -> Option<Items<u8>>
    requires room { vec_len waiting.old + 2 ≤ vec_capacity waiting.old }
    ensures given { result ≡ given_if arrives late held.bytes }
    ensures kept { waiting.new.items ≡ waiting.old.items ++ kept_of arrives late held copy }
    ensures few { length waiting.new.items ≤ length waiting.old.items + 2 }
{
    if !arrives {
        return None;
    }
    let answer = if late {
        waiting.push_reserved(held);
        None
    } else {
        Some(held.bytes)
    };
    if let Some(copy) = copy {
        waiting.push_reserved(copy);
    }
    answer
}

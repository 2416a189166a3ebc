//! A port over memory, whose arrivals and outputs contracts know, and a clock that is stepped.

ghost use Rattle.std.specs.Prelude.{◌≡◌, ◌∷◌, ◌++◌, [], true, nat_eq, OnOk, OnErr};
ghost use Rattle.udp_runner.specs.Outputs.{view_output};

use crate::fault::PortFault;
use crate::output::{Output, SentOutput};
use crate::port::{Clock, Port};
use cip_events::Arrival;
use cip_types::OutOfMemory;
use std::alloc::Global;
use std::collections::VecDeque;

/// Receives the arrivals of a list, and then nothing; keeps the outputs that it sends. One of its calls can be made to
/// fail: receives and sends are counted together from 1.
///
/// It keeps the allocator that it was made with.
#[derive(Drop)]
pub struct MemoryPort {
    alloc: Global,
    arrivals: VecDeque<Option<Arrival>>,
    sent: Vec<SentOutput>,
    failures: u64,
    calls: u64,
    fails_at: u64,
}

impl MemoryPort {
    /// A port with these arrivals that fails at the call of this number. With 0 it never fails.
    pub fn new(alloc: Global, arrivals: VecDeque<Option<Arrival>>, fails_at: u64) -> MemoryPort
        ensures tape { ⟦<MemoryPort as Port>⟧.tape result ≡ record { coming = arrivals.items; sent = [] } }
        ensures failed { ⟦<MemoryPort as Port>⟧.failed result ≡ 0 }
        ensures uncalled { result.calls ≡ 0 }
        ensures failing { result.fails_at ≡ fails_at }
    {
        MemoryPort {
            alloc,
            arrivals,
            sent: Vec::new(alloc),
            failures: 0,
            calls: 0,
            fails_at,
        }
    }

    /// All outputs that were sent.
    pub fn sent(&self) -> &[SentOutput]
        ensures { result.now ≡ (⟦<MemoryPort as Port>⟧.tape self.now).sent }
    {
        self.sent.as_slice()
    }

    /// The number of calls, failed ones included.
    pub fn calls(&self) -> u64
        ensures { result ≡ self.now.calls }
    {
        self.calls
    }

    /// Counts a call, and answers whether it is the one that fails.
    fn is_failing(&mut self) -> bool
        ensures kept { self.new ≡ record self.old { calls = self.new.calls } }
        ensures fails { result ≡ nat_eq self.new.calls self.old.fails_at }
    {
        self.calls = self.calls.saturating_add(1);
        self.calls == self.fails_at
    }
}

impl Port for MemoryPort {
    ghost is_scripted = { true };

    ghost tape = { λ port. record { coming = port.arrivals.items; sent = port.sent.items } };

    ghost failed = { λ port. port.failures };

    fn failures(&self) -> u64 {
        self.failures
    }

    fn receive(&mut self) -> Result<Option<Arrival>, PortFault> {
        if self.is_failing() {
            self.failures += 1;
            return Err(PortFault::Receive);
        }
        match self.arrivals.pop_front() {
            None => Ok(None),
            Some(arrival) => Ok(arrival),
        }
    }

    fn send(&mut self, output: &Output<'_>) -> Result<(), PortFault> {
        if self.is_failing() {
            self.failures += 1;
            return Err(PortFault::Send);
        }
        match keep(self.alloc, &mut self.sent, output) {
            Ok(()) => Ok(()),
            Err(OutOfMemory) => {
                self.failures += 1;
                Err(PortFault::Memory)
            }
        }
    }
}

/// Keeps an output that is sent.
fn keep(alloc: Global, sent: &mut Vec<SentOutput>, output: &Output<'_>) -> Result<(), OutOfMemory>
    ensures ok { OnOk result (sent.new.items ≡ sent.old.items ++ view_output output.now ∷ []) }
    ensures err { OnErr result (sent.new.items ≡ sent.old.items) }
{
    let copy = output.copy(alloc)?;
    sent.push(copy)?;
    Ok(())
}

/// A clock that is stepped: it answers the times of a list, and then 0.
#[derive(Drop)]
pub struct SteppedClock {
    pub times_ms: VecDeque<u64>,
}

impl Clock for SteppedClock {
    ghost is_scripted = { true };

    ghost coming = { λ clock. clock.times_ms.items };

    fn passed(&mut self) -> u64 {
        match self.times_ms.pop_front() {
            None => 0,
            Some(ms) => ms,
        }
    }
}

//! What a station does, step by step.

ghost use Rattle.std.specs.Prelude.{◌≡◌, IfOk};

use cip_events::Event;
use cip_types::{Items, OutOfMemory};
use port_faults::PortOrder;
use station_lines::AttributeCall;
use std::alloc::Global;

/// How a life of a station's device ends.
#[derive(Clone, Copy, Debug, PartialEq, Eq)]
pub enum LifeEnd {
    /// Its time is over, and the device closes what it has open.
    Over,
    /// Its input has ended, of which a line tells, and the device closes what it has open.
    InputEnd,
    /// The device loses its power, and closes nothing. Another life begins, with the same incarnation or with the next one.
    Restart { same: bool },
}

/// What a station does next.
#[derive(PartialEq, Drop)]
pub enum StationStep {
    /// It performs a call of its application.
    Call(Event),
    /// Its scanner sends the request of a call that concerns an attribute.
    Ask(AttributeCall),
    /// It prints its state.
    Status,
    /// It prints what was counted of its connections.
    Numbers,
    /// It reports that the line of this number of its input is no call.
    NoCall { line: u64 },
    /// Its port obeys an order.
    Order(PortOrder),
    /// It prints what its script tells of a line.
    Say { text: Items<u8> },
    /// It makes a turn that waits at most so many milliseconds. Behind each other step but an end it makes one that does not
    /// wait.
    Wait { ms: u64 },
    /// Its life ends.
    End(LifeEnd),
}

impl StationStep {
    /// A copy of the step. The only fault is a refused allocation.
    pub fn copy(&self, alloc: Global) -> Result<StationStep, OutOfMemory>
        ensures { IfOk result (λ copy. copy ≡ self.now) }
    {
        match self {
            StationStep::Call(event) => Ok(StationStep::Call(event.copy(alloc)?)),
            StationStep::Ask(call) => Ok(StationStep::Ask(call_copy(alloc, call)?)),
            StationStep::Status => Ok(StationStep::Status),
            StationStep::Numbers => Ok(StationStep::Numbers),
            StationStep::NoCall { line } => Ok(StationStep::NoCall { line: *line }),
            StationStep::Order(order) => Ok(StationStep::Order(order_copy(alloc, order)?)),
            StationStep::Say { text } => {
                let text = Items::copy_of(alloc, text.as_slice())?;
                Ok(StationStep::Say { text })
            }
            StationStep::Wait { ms } => Ok(StationStep::Wait { ms: *ms }),
            StationStep::End(end) => Ok(StationStep::End(*end)),
        }
    }
}

/// A copy of a call.
fn call_copy(alloc: Global, call: &AttributeCall) -> Result<AttributeCall, OutOfMemory>
    ensures { IfOk result (λ copy. copy ≡ call.now) }
{
    match call {
        AttributeCall::Get(at) => Ok(AttributeCall::Get(*at)),
        AttributeCall::Set(at, bytes) => {
            let bytes = Items::copy_of(alloc, bytes.as_slice())?;
            Ok(AttributeCall::Set(*at, bytes))
        }
    }
}

/// A copy of an order.
fn order_copy(alloc: Global, order: &PortOrder) -> Result<PortOrder, OutOfMemory>
    ensures { IfOk result (λ copy. copy ≡ order.now) }
{
    match order {
        PortOrder::Cut => Ok(PortOrder::Cut),
        PortOrder::Pause { ms } => Ok(PortOrder::Pause { ms: *ms }),
        PortOrder::Send { node, bytes } => {
            let bytes = Items::copy_of(alloc, bytes.as_slice())?;
            Ok(PortOrder::Send { node: *node, bytes })
        }
    }
}

//! What a device says of its connections and slots, as numbers.

ghost use Rattle.std.specs.Prelude.{◌≡◌};
ghost use Rattle.eip_c.specs.States.{kind_number, mode_number, accepted_number, age_number, connection_numbers, unconnected, slot_numbers, WritesConnection, WritesSlot};

use crate::status::{DONE, NO_CONNECTION, NO_SUCH_SLOT};
use cip_tables::{Age, ConnectionReport, Kind, Mode, SlotReport};

/// What is known of a connection of an adapter. In C it is the struct of a connection.
#[repr(C)]
#[derive(Clone, Copy)]
pub struct ConnectionNumbers {
    /// The time since the newest accepted datagram, or since the opening, in milliseconds.
    pub age_ms: u64,
    /// The originator.
    pub peer: u32,
    /// 1 exclusive owner, 2 input only, 3 listen only.
    pub kind: u32,
    pub consumed: u32,
    pub produced: u32,
    pub o_t_api_ms: u32,
    pub t_o_api_ms: u32,
    /// 0 none, 1 idle, 2 run.
    pub mode: u32,
    /// 0 if it has timed out.
    pub established: u32,
    /// 0 if it has accepted no datagram.
    pub accepted: u32,
}

/// What is known of a slot of a scanner. In C it is the struct of a slot.
#[repr(C)]
#[derive(Clone, Copy)]
pub struct SlotNumbers {
    /// The time since the newest accepted datagram, or since the opening, in milliseconds.
    pub age_ms: u64,
    /// The standard's number of the state.
    pub state: u32,
    pub o_t_api_ms: u32,
    pub t_o_api_ms: u32,
    /// 0 if it has accepted no datagram.
    pub accepted: u32,
}

fn kind_number(kind: Kind) -> u32
    ensures { result ≡ kind_number kind }
{
    match kind {
        Kind::ExclusiveOwner => 1,
        Kind::InputOnly => 2,
        Kind::ListenOnly => 3,
    }
}

fn mode_number(mode: Option<Mode>) -> u32
    ensures { result ≡ mode_number mode }
{
    match mode {
        None => 0,
        Some(Mode::Idle) => 1,
        Some(Mode::Run) => 2,
    }
}

fn accepted_number(age: Age) -> u32
    ensures { result ≡ accepted_number age }
{
    match age {
        Age::SinceOpening(_) => 0,
        Age::SinceAccepted(_) => 1,
    }
}

fn age_number(age: Age) -> u64
    ensures { result ≡ age_number age }
{
    match age {
        Age::SinceOpening(ms) | Age::SinceAccepted(ms) => ms.0,
    }
}

fn connection_numbers(report: &ConnectionReport) -> ConnectionNumbers
    ensures { result ≡ connection_numbers report.now }
{
    ConnectionNumbers {
        age_ms: age_number(report.age),
        peer: report.peer.0,
        kind: kind_number(report.kind),
        consumed: report.consumed,
        produced: report.produced,
        o_t_api_ms: report.o_t_api_ms,
        t_o_api_ms: report.t_o_api_ms,
        mode: mode_number(report.mode),
        established: u32::from(report.established),
        accepted: accepted_number(report.age),
    }
}

/// A slot without an open connection.
fn unconnected(state: u32) -> SlotNumbers
    ensures { result ≡ unconnected state }
{
    SlotNumbers {
        age_ms: 0,
        state,
        o_t_api_ms: 0,
        t_o_api_ms: 0,
        accepted: 0,
    }
}

fn slot_numbers(report: SlotReport) -> SlotNumbers
    ensures { result ≡ slot_numbers report }
{
    match report {
        SlotReport::Idle => unconnected(0),
        SlotReport::Opening => unconnected(2),
        SlotReport::Established(target) => SlotNumbers {
            age_ms: age_number(target.age),
            state: 3,
            o_t_api_ms: target.o_t_api_ms,
            t_o_api_ms: target.t_o_api_ms,
            accepted: accepted_number(target.age),
        },
        SlotReport::TimedOut => unconnected(4),
        SlotReport::Closing => unconnected(6),
    }
}

/// Writes the numbers of a connection, if there is one.
pub fn put_connection(report: Option<ConnectionReport>, out: &mut ConnectionNumbers) -> u32
    ensures { WritesConnection report result out.old out.new }
{
    let Some(report) = report else {
        return NO_CONNECTION;
    };
    *out = connection_numbers(&report);
    DONE
}

/// Writes the numbers of a slot, if there is one.
pub fn put_slot(report: Option<SlotReport>, out: &mut SlotNumbers) -> u32
    ensures { WritesSlot report result out.old out.new }
{
    let Some(report) = report else {
        return NO_SUCH_SLOT;
    };
    *out = slot_numbers(report);
    DONE
}

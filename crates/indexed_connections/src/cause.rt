//! Why producers send: they are due, or their input changes.

ghost use Rattle.std.specs.Prelude.{◌≡◌, ◌≤◌, Some, true, length};
ghost use Rattle.std.specs.List.{list_any};
ghost use Rattle.adapter_table.specs.Productions.{is_produced_by};
ghost use Rattle.conn_slab.specs.Producing.{producer_by};
ghost use Rattle.indexed_connections.specs.Turns.{IsInTime, AreShort, input_by, rows_on, written_if, producer_on, is_among, sends, rank};

use adapter_table::{Row, is_produced_by};
use assembly_set::AssemblySet;
use cip_productions::{Producer, Production, is_produced_on_change, is_production_due};
use cip_types::Ms;
use conn_slab::Connections;

/// Why producers send.
#[derive(Clone, Copy)]
pub(crate) enum SendCause<'a> {
    /// They are due at this time.
    Due(Ms),
    /// They are due at this time, and are none of these connections', which time out.
    DueBut(Ms, &'a [Row]),
    /// At this time this input is written, and they produce at changes of state.
    Change(Ms, u32),
}

/// What the inputs of producers hold.
#[derive(Clone, Copy)]
pub(crate) enum Inputs<'a> {
    /// The bytes of each.
    Held(&'a AssemblySet),
    /// The bytes that are written to the one input of all of them.
    Written(&'a [u8]),
}

/// The bytes that the input of a producer holds.
#[inline(always)]
pub(crate) fn input_by<'a>(inputs: Inputs<'a>, producer: &Producer) -> &'a [u8]
    requires { AreShort inputs }
    ensures value { result.now ≡ input_by inputs.entry producer.now }
    ensures short { length result.now ≤ 65533 }
{
    match inputs {
        Inputs::Held(assemblies) => assemblies.input_of(producer),
        Inputs::Written(bytes) => bytes,
    }
}

/// The producer has new data, if it produces the point.
#[inline(always)]
pub(crate) fn written_if(point: u32, producer: Producer) -> Producer
    ensures { result ≡ written_if point producer }
{
    if producer.point != point {
        return producer;
    }
    Producer {
        production: Production {
            written: true,
            ..producer.production
        },
        ..producer
    }
}

/// A producer as it is when a cause arises.
#[inline(always)]
fn producer_on(cause: SendCause<'_>, producer: Producer) -> Producer
    ensures { result ≡ producer_on cause.entry producer }
{
    match cause {
        SendCause::Due(_) | SendCause::DueBut(..) => producer,
        SendCause::Change(_, point) => written_if(point, producer),
    }
}

/// The producer of a number, as it is when a cause arises. The search tries one index first.
#[inline(always)]
pub(crate) fn producer_at(
    cause: SendCause<'_>,
    connections: &Connections,
    number: u32,
    hint: usize,
) -> Producer
    requires { list_any (is_produced_by number) (rows_on cause connections.now) ≡ true }
    ensures { Some result ≡ producer_by number (rows_on cause.entry connections.now) }
{
    producer_on(cause, connections.producer_with_hint(number, hint))
}

/// Whether one of the connections has the producer.
fn is_among(rows: &[Row], producer: &Producer) -> bool
    ensures { result ≡ is_among rows.now producer.now.production }
{
    rows.iter()
        .any(|row| is_produced_by(row, producer.production.producer))
}

/// Whether a producer sends for a cause.
#[inline(always)]
pub(crate) fn sends(cause: SendCause<'_>, producer: &Producer) -> bool
    requires { IsInTime cause }
    ensures { result ≡ sends cause.entry producer.now }
{
    match cause {
        SendCause::Due(clock) => is_production_due(&producer.production, clock),
        SendCause::DueBut(clock, rows) => {
            is_production_due(&producer.production, clock) && !is_among(rows, producer)
        }
        SendCause::Change(clock, point) => {
            producer.point == point && is_produced_on_change(&producer.production, clock)
        }
    }
}

/// What orders producers before their numbers do: when they are due, and nothing at a change.
#[inline(always)]
pub(crate) fn rank(cause: SendCause<'_>, producer: &Producer) -> u64
    ensures { result ≡ rank cause.entry producer.now }
{
    match cause {
        SendCause::Due(_) | SendCause::DueBut(..) => producer.production.due.0,
        SendCause::Change(..) => 0,
    }
}

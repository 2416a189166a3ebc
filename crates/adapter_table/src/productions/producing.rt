//! The producer of one connection: when it is due, and its state after it produced or its input was written.

ghost use Rattle.std.specs.Prelude.{◌≡◌, ◌≤◌, ◌+◌, ◌^◌};
ghost use Rattle.std.specs.List.{list_any};
ghost use Rattle.adapter_table.specs.Rows.{written_row, written_state};
ghost use Rattle.adapter_table.specs.Productions.{producer_in, producer_number, is_produced_by, same_node, due_of, is_due, produced_state, produced_row, produces_on_change, changed_state, changed_row};

use crate::{Row, State};
use cip_productions::{
    Producer, Production, changed, is_produced_on_change, is_production_due, produced,
};
use cip_types::{Ms, Node};

/// The producer of a connection, which an established one has.
///
/// Volume 1, chapter 3, transport class 1.
pub fn producer_in(row: &Row) -> Option<Producer>
    ensures { result ≡ producer_in row.now }
{
    match row.state {
        State::Established(production) => Some(Producer {
            point: row.produced,
            id: row.t_o_id,
            production,
        }),
        State::TimedOut => None,
    }
}

/// The number of the producer that an established connection has.
///
/// Volume 2, chapter 3, multicast connections.
pub fn producer_number(state: &State) -> Option<u32>
    ensures { result ≡ producer_number state.now }
{
    match state {
        State::Established(production) => Some(production.producer),
        State::TimedOut => None,
    }
}

/// Whether a node is in a list of nodes. Takes no memory.
pub fn has_node(nodes: &[Node], node: Node) -> bool
    ensures { result ≡ list_any (λ other. same_node other node) nodes.now }
{
    nodes.iter().any(|other| other.0 == node.0)
}

/// Whether a connection is established, and this is the number of its producer.
///
/// Volume 2, chapter 3, multicast connections.
pub fn is_produced_by(row: &Row, number: u32) -> bool
    ensures { result ≡ is_produced_by number row.now }
{
    match row.state {
        State::Established(production) => production.producer == number,
        State::TimedOut => false,
    }
}

/// Whether a connection is established, and its producer is due.
pub fn is_due(row: &Row, clock: Ms) -> bool
    ensures { result ≡ is_due clock row.now }
{
    match row.state {
        State::Established(production) => is_production_due(&production, clock),
        State::TimedOut => false,
    }
}

fn produced_state(state: State, clock: Ms, api: u32) -> State
    requires time { clock.0 ≤ 2 ^ 48 }
    requires due { due_of state ≤ 2 ^ 48 + 10000 }
    ensures { result ≡ produced_state clock api state }
{
    match state {
        State::Established(production) if is_production_due(&production, clock) => {
            State::Established(produced(production, clock, api))
        }
        other => other,
    }
}

/// A connection whose producer has produced, if it was due.
///
/// Volume 1, chapter 3, production triggers.
pub fn produced_row(row: Row, clock: Ms) -> Row
    requires time { clock.0 ≤ 2 ^ 48 }
    requires due { due_of row.state ≤ 2 ^ 48 + 10000 }
    ensures { result ≡ produced_row clock row }
{
    Row {
        state: produced_state(row.state, clock, row.t_o_api_ms),
        ..row
    }
}

/// Whether a connection is established, and a write of this input makes its producer produce at once.
///
/// Volume 1, chapter 3, production triggers and production inhibit time.
pub fn produces_on_change(row: &Row, clock: Ms, point: u32) -> bool
    requires { clock.0 ≤ 2 ^ 48 }
    ensures { result ≡ produces_on_change clock point row.now }
{
    match row.state {
        State::Established(production) => {
            row.produced == point && is_produced_on_change(&production, clock)
        }
        State::TimedOut => false,
    }
}

fn changed_state(state: State, clock: Ms, api: u32) -> State
    requires time { clock.0 ≤ 2 ^ 48 }
    requires due { due_of state ≤ 2 ^ 48 + 10000 }
    ensures { result ≡ changed_state clock api state }
{
    match state {
        State::Established(production) => State::Established(changed(production, clock, api)),
        State::TimedOut => State::TimedOut,
    }
}

/// A connection whose producer has acted on a write of the input, if it produces that input.
///
/// Volume 1, chapter 3, production triggers and production inhibit time.
pub fn changed_row(row: Row, clock: Ms, point: u32) -> Row
    requires time { clock.0 ≤ 2 ^ 48 }
    requires due { due_of row.state ≤ 2 ^ 48 + 10000 }
    ensures { result ≡ changed_row clock point row }
{
    if row.produced != point {
        return row;
    }
    Row {
        state: changed_state(row.state, clock, row.t_o_api_ms),
        ..row
    }
}

fn written_state(state: State) -> State
    ensures { result ≡ written_state state }
{
    match state {
        State::Established(production) => State::Established(Production {
            written: true,
            ..production
        }),
        State::TimedOut => State::TimedOut,
    }
}

/// A connection whose producer has new data, if it produces that input.
///
/// Volume 1, chapter 3, class 1 transport.
pub fn written_row(row: Row, point: u32) -> Row
    ensures { result ≡ written_row point row }
{
    if row.produced != point {
        return row;
    }
    Row {
        state: written_state(row.state),
        ..row
    }
}

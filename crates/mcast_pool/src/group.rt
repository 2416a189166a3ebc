//! One producer and the connections that share it.

ghost use Rattle.std.specs.Prelude.{◌≡◌, ◌≤◌, ◌+◌, ◌^◌, true};
ghost use Rattle.cip_productions.specs.Productions.{is_production_due};
ghost use Rattle.mcast_pool.specs.Groups.{has_number, serves, begun, touched_production, touched, produced_group, produced_if_due, written_and_changed, FitsGroup};

use cip_netparams::Trigger;
use cip_productions::{
    Producer, Production, changed, deferred, is_free, is_production_due, produced,
};
use cip_types::Ms;

/// A producer, its actual packet interval in milliseconds, and how many connections share it.
#[derive(Clone, Copy)]
pub struct Group {
    pub producer: Producer,
    /// Whether other connections of the point share it.
    pub shared: bool,
    pub api: u32,
    pub subscribers: u32,
}

pub(crate) fn has_number(group: &Group, number: u32) -> bool
    ensures { result ≡ has_number number group.now }
{
    group.producer.production.producer == number
}

pub(crate) fn serves(group: &Group, point: u32) -> bool
    ensures { result ≡ serves point group.now }
{
    group.shared && group.producer.point == point
}

/// A group of one connection.
pub(crate) fn begun(producer: Producer, shared: bool, api: u32) -> Group
    ensures { result ≡ begun producer shared api }
{
    Group {
        producer,
        shared,
        api,
        subscribers: 1,
    }
}

fn with_production(group: Group, production: Production) -> Group
    ensures { result ≡ record group { producer = record group.producer { production = production } } }
{
    Group {
        producer: Producer {
            production,
            ..group.producer
        },
        ..group
    }
}

/// A producer that has new data. One that produces at changes of state, and whose inhibit time runs, is due at its
/// end.
fn touched_production(production: Production, clock: Ms) -> Production
    requires time { clock.0 ≤ 2 ^ 48 }
    requires due { production.due.0 ≤ 2 ^ 48 + 10000 }
    ensures { result ≡ touched_production clock production }
{
    let written = Production {
        written: true,
        ..production
    };
    match production.trigger {
        Trigger::ChangeOfState if !is_free(&production, clock) => deferred(written),
        _ => written,
    }
}

/// A group whose producer has new data, if it produces that point.
pub(crate) fn touched(group: Group, clock: Ms, point: u32) -> Group
    requires time { clock.0 ≤ 2 ^ 48 }
    requires fits { FitsGroup group }
    ensures { result ≡ touched clock point group }
{
    if group.producer.point != point {
        return group;
    }
    with_production(group, touched_production(group.producer.production, clock))
}

/// A group whose producer has produced.
pub(crate) fn produced_group(group: Group, clock: Ms) -> Group
    requires time { clock.0 ≤ 2 ^ 48 }
    requires fits { FitsGroup group }
    ensures { result ≡ produced_group clock group }
{
    with_production(group, produced(group.producer.production, clock, group.api))
}

/// The producer has produced, if it was due.
pub(crate) fn produce_if_due(group: &mut Group, clock: Ms)
    requires time { clock.0 ≤ 2 ^ 48 }
    requires fits { FitsGroup group.old }
    ensures { group.new ≡ produced_if_due clock group.old }
{
    if is_production_due(&group.producer.production, clock) {
        group.producer.production = produced(group.producer.production, clock, group.api);
    }
}

/// The producer has new data and has acted on the write, if it produces that point.
pub(crate) fn write_group(group: &mut Group, clock: Ms, point: u32)
    requires time { clock.0 ≤ 2 ^ 48 }
    requires fits { FitsGroup group.old }
    ensures { group.new ≡ written_and_changed clock point group.old }
{
    if group.producer.point != point {
        return;
    }
    group.producer.production.written = true;
    match group.producer.production.trigger {
        Trigger::Cyclic => {}
        Trigger::ChangeOfState => {
            group.producer.production = changed(group.producer.production, clock, group.api);
        }
    }
}

//! The next state of a producer.

ghost use Rattle.std.specs.Prelude.{◌≡◌, ◌≤◌, ◌+◌, ◌^◌};
ghost use Rattle.cip_productions.specs.Productions.{next_count, due_again, produced, is_production_due, is_free, is_on_change, is_produced_on_change, sooner_due, deferred, produced_or_deferred, changed};

use crate::production::Production;
use cip_netparams::Trigger;
use cip_types::Ms;

/// The count of a producer's next datagram.
///
/// Volume 1, chapter 3, class 1 transport.
pub fn next_count(production: &Production) -> u16
    ensures { result ≡ next_count production.now }
{
    if production.written {
        production.count.wrapping_add(1)
    } else {
        production.count
    }
}

/// The next due time of a producer that produces now, in milliseconds. A cyclic one keeps its pace, unless it is
/// late by a whole interval.
///
/// Volume 1, chapter 3, production triggers.
pub fn due_again(trigger: Trigger, clock: u64, due: u64, api: u32) -> u64
    requires time { clock ≤ 2 ^ 48 }
    requires due { due ≤ 2 ^ 48 + 10000 }
    ensures { result ≡ due_again trigger clock due api }
{
    let next = due + u64::from(api);
    match trigger {
        Trigger::Cyclic if clock < next => next,
        _ => clock + u64::from(api),
    }
}

/// Whether a production is due.
pub fn is_production_due(production: &Production, clock: Ms) -> bool
    ensures { result ≡ is_production_due clock production.now }
{
    production.due.0 <= clock.0
}

/// A producer after a production.
///
/// Volume 1, chapter 3, class 1 transport.
pub fn produced(production: Production, clock: Ms, api: u32) -> Production
    requires time { clock.0 ≤ 2 ^ 48 }
    requires due { production.due.0 ≤ 2 ^ 48 + 10000 }
    ensures { result ≡ produced clock api production }
{
    Production {
        sequence: production.sequence.wrapping_add(1),
        count: next_count(&production),
        written: false,
        due: Ms(due_again(production.trigger, clock.0, production.due.0, api)),
        last: Some(clock),
        ..production
    }
}

/// Whether the production inhibit time of a producer is over, so that it may produce.
///
/// Volume 1, chapter 3, production inhibit time.
pub fn is_free(production: &Production, clock: Ms) -> bool
    requires { clock.0 ≤ 2 ^ 48 }
    ensures { result ≡ is_free clock production.now }
{
    match production.last {
        Some(last) => last.0.saturating_add(u64::from(production.inhibit)) <= clock.0,
        None => true,
    }
}

fn is_on_change(trigger: Trigger) -> bool
    ensures { result ≡ is_on_change trigger }
{
    match trigger {
        Trigger::Cyclic => false,
        Trigger::ChangeOfState => true,
    }
}

/// Whether a change of state makes a producer produce at once.
///
/// Volume 1, chapter 3, production triggers and production inhibit time.
pub fn is_produced_on_change(production: &Production, clock: Ms) -> bool
    requires { clock.0 ≤ 2 ^ 48 }
    ensures { result ≡ is_produced_on_change clock production.now }
{
    is_on_change(production.trigger) && is_free(production, clock)
}

fn sooner_due(last: Option<Ms>, inhibit: u8, due: Ms) -> Ms
    requires { due.0 ≤ 2 ^ 48 + 10000 }
    ensures { result ≡ sooner_due last inhibit due }
{
    match last {
        Some(last) => Ms(due.0.min(last.0.saturating_add(u64::from(inhibit)))),
        None => due,
    }
}

/// A producer within its production inhibit time: it is due at the end of that time, and no later than before.
///
/// Volume 1, chapter 3, production inhibit time.
pub fn deferred(production: Production) -> Production
    requires { production.due.0 ≤ 2 ^ 48 + 10000 }
    ensures { result ≡ deferred production }
{
    Production {
        due: sooner_due(production.last, production.inhibit, production.due),
        ..production
    }
}

/// A change-of-state producer after a change: it produces, or is due at the end of its production inhibit time.
fn produced_or_deferred(production: Production, clock: Ms, api: u32) -> Production
    requires time { clock.0 ≤ 2 ^ 48 }
    requires due { production.due.0 ≤ 2 ^ 48 + 10000 }
    ensures { result ≡ produced_or_deferred clock api production }
{
    if is_free(&production, clock) {
        produced(production, clock, api)
    } else {
        deferred(production)
    }
}

/// A producer after a change of its data. A cyclic one is unchanged. A change-of-state one produces, or is due at
/// the end of its production inhibit time.
///
/// Volume 1, chapter 3, production triggers and production inhibit time.
pub fn changed(production: Production, clock: Ms, api: u32) -> Production
    requires time { clock.0 ≤ 2 ^ 48 }
    requires due { production.due.0 ≤ 2 ^ 48 + 10000 }
    ensures { result ≡ changed clock api production }
{
    match production.trigger {
        Trigger::Cyclic => production,
        Trigger::ChangeOfState => produced_or_deferred(production, clock, api),
    }
}

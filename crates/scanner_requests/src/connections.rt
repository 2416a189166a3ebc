//! The connections that successful replies open.

ghost use Rattle.std.specs.Prelude.{◌≡◌, ◌≤◌, ◌^◌};
ghost use Rattle.cip_types.specs.Cases.{first_case};
ghost use Rattle.cip_netparams.specs.Rate.{interval_ms};
ghost use Rattle.conn_state.specs.Answers.{answer_tests};
ghost use Rattle.scanner_table.specs.Productions.{producer_trigger, producer_inhibit};
ghost use Rattle.scanner_requests.specs.Connections.{link_or_why, connection_of};

use cip_fwdopen::service::{FORWARD_OPEN, REPLY};
use cip_fwdopen::{OpenAnswer, OpenReply, Opened};
use cip_netparams::{Trigger, timeout_of};
use cip_productions::{first_deadline, first_production};
use cip_types::{Mismatch, Ms};
use conn_state::{Idle, Link, Requested};
use scanner_table::{SlotConfig, SlotConnection};

/// Returns the triad and ids of the connection that a successful reply opens, or the mismatch of the reply.
pub fn linked(requested: Requested, opened: &Opened, id_free: bool) -> Result<Link, Mismatch>
    ensures { result ≡ link_or_why requested opened.now (first_case (answer_tests requested opened.now id_free)) }
{
    let reply = OpenReply {
        service: FORWARD_OPEN | REPLY,
        answer: OpenAnswer::Opened(*opened),
    };
    match Idle
        .open(requested.triad, requested.t_o_id)
        .accept(&reply, id_free)
    {
        Ok(established) => Ok(established.link()),
        Err((_opening, why)) => Err(why),
    }
}

/// Converts microseconds to milliseconds, rounded up.
fn interval_ms(interval: u32) -> u32
    ensures { result ≡ interval_ms interval }
{
    interval.div_ceil(1000)
}

/// Returns the trigger of a slot's producer: a tidy scanner's slot has its own, and any other is cyclic.
fn producer_trigger(tidy: bool, trigger: Trigger) -> Trigger
    ensures { result ≡ producer_trigger tidy trigger }
{
    if tidy { trigger } else { Trigger::Cyclic }
}

/// Returns the production inhibit time of a slot's producer in milliseconds, which a cyclic one does not have.
fn producer_inhibit(tidy: bool, inhibit: u8) -> u8
    ensures { result ≡ producer_inhibit tidy inhibit }
{
    if tidy { inhibit } else { 0 }
}

/// Returns the connection that a successful reply opens, with the actual packet intervals of the reply. A tidy scanner's slot
/// produces by its own trigger, and any other at its interval alone.
#[tactic(auto, using(cip_netparams::specs::Timeouts::timeout_fits))]
pub fn new_connection(
    tidy: bool,
    clock: Ms,
    config: &SlotConfig,
    number: u32,
    opening: u64,
    link: Link,
    opened: &Opened,
) -> SlotConnection
    requires time { clock.0 ≤ 2 ^ 48 }
    requires mult { config.now.mult ≤ 7 }
    requires interval { interval_ms opened.now.t_o_api_us ≤ 10000 }
    ensures { result ≡ connection_of tidy clock config.now number opening link opened.now }
{
    let t_o_api_ms = interval_ms(opened.t_o_api_us);
    // The multiplier is at most 7 and the interval at most 10 seconds, so there is a time-out.
    let watchdog = timeout_of(config.mult, t_o_api_ms).unwrap();
    SlotConnection {
        opening,
        link,
        o_t_api_ms: interval_ms(opened.o_t_api_us),
        t_o_api_ms,
        watchdog,
        last: None,
        deadline: first_deadline(clock, watchdog),
        production: first_production(
            clock,
            number,
            config.target,
            producer_trigger(tidy, config.trigger),
            producer_inhibit(tidy, config.inhibit),
        ),
    }
}

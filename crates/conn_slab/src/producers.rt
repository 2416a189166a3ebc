//! The productions of connections, in the pool of producers.

ghost use Rattle.std.specs.Prelude.{◌≡◌, ◌<◌, ◌≤◌, ◌+◌, ◌^◌};
ghost use Rattle.std.specs.List.{list_any};
ghost use Rattle.cip_productions.specs.Productions.{is_on_change};
ghost use Rattle.mcast_pool.specs.Groups.{subscribers, is_due, is_at_once};
ghost use Rattle.conn_slab.specs.Records.{state_of, row_of, entered, left_by};
ghost use Rattle.conn_slab.specs.Layout.{IsLive, MayEnter};
ghost use Rattle.conn_slab.specs.Producing.{group_changes};

use crate::record::Record;
use adapter_table::{Row, State, producer_in};
use cip_netparams::Trigger;
use cip_productions::{is_produced_on_change, is_production_due};
use cip_types::Ms;
use mcast_pool::{Group, Pool};

/// The state of a connection whose producer has this number. The search tries one index first.
#[inline(always)]
fn state_of(pool: &Pool, producer: Option<u32>, hint: usize) -> State
    requires { IsLive pool.now producer }
    ensures { result ≡ state_of pool.now producer }
{
    match producer {
        Some(number) => State::Established(pool.production_with_hint(number, hint)),
        None => State::TimedOut,
    }
}

/// The connection of a record. The search for its producer tries one index first.
#[inline(always)]
pub(crate) fn row_of(pool: &Pool, record: &Record, hint: usize) -> Row
    requires { IsLive pool.now record.now.state }
    ensures { result ≡ row_of pool.now record.now }
{
    record.with_state(state_of(pool, record.state, hint))
}

/// The index to try first for the producer of the connection after this one.
#[inline(always)]
pub(crate) fn hint_after(pool: &Pool, record: &Record, hint: usize) -> usize
    ensures { result ≤ hint + 1 }
{
    match record.state {
        Some(number) => pool.hint_after(number, hint),
        None => hint,
    }
}

/// A connection joins the producer of its group, or starts its own. Takes no memory.
pub(crate) fn enter(pool: &mut Pool, row: &Row)
    requires few { subscribers pool.old < 64 }
    requires may { MayEnter row.now pool.old }
    ensures { pool.new ≡ entered row.now pool.old }
{
    if let Some(producer) = producer_in(row) {
        pool.join(producer, row.multicast, row.t_o_api_ms);
    }
}

/// A connection leaves its producer. The search for it tries one index first. Takes no memory.
pub(crate) fn leave(pool: &mut Pool, producer: Option<u32>, hint: usize)
    requires { IsLive pool.old producer }
    ensures { pool.new ≡ left_by producer pool.old }
{
    if let Some(number) = producer {
        pool.leave_with_hint(number, hint);
    }
}

/// Whether one of the producers is due.
pub(crate) fn has_due(groups: &[Group], clock: Ms) -> bool
    ensures { result ≡ list_any (is_due clock) groups.now }
{
    groups.iter().any(|group| is_production_due(&group.producer.production, clock))
}

/// Whether a write of the point makes one of the producers produce at once.
pub(crate) fn has_at_once(groups: &[Group], clock: Ms, point: u32) -> bool
    requires { clock.0 ≤ 2 ^ 48 }
    ensures { result ≡ list_any (is_at_once clock point) groups.now }
{
    groups.iter().any(|group| {
        group.producer.point == point && is_produced_on_change(&group.producer.production, clock)
    })
}

/// Whether the producer of a trigger produces at changes of state.
///
/// Volume 1, chapter 3, production triggers.
pub fn is_on_change(trigger: Trigger) -> bool
    ensures { result ≡ is_on_change trigger }
{
    match trigger {
        Trigger::Cyclic => false,
        Trigger::ChangeOfState => true,
    }
}

/// Whether one of the producers produces at changes of state.
pub(crate) fn has_changing(groups: &[Group]) -> bool
    ensures { result ≡ list_any group_changes groups.now }
{
    groups
        .iter()
        .any(|group| is_on_change(group.producer.production.trigger))
}

//! A record that receives a datagram.

ghost use Rattle.std.specs.Prelude.{◌≡◌, ◌≤◌, ◌^◌};
ghost use Rattle.cip_datagram.specs.Datagram.{view_datagram};
ghost use Rattle.conn_slab.specs.Reception.{IsReceivedBy, received_row};

use crate::record::Record;
use adapter_table::{Judgement, Profile, judge};
use cip_datagram::Datagram;
use cip_types::Ms;

/// The judgement of a datagram that was for a connection, the point that the connection consumes, and when its
/// watchdog runs out afterwards.
#[derive(Clone, Copy)]
pub struct Received<'a> {
    pub judgement: Judgement<'a>,
    pub consumed: u32,
    pub deadline: Ms,
}

/// The record judges a datagram that is for it, and accepts it if it is judged so.
///
/// Volume 1, chapter 3, class 1 transport and inactivity watchdog.
#[tactic(auto, using(crate::proofs::ReceptionLemmas::judged_says, crate::proofs::ReceptionLemmas::accepted_is))]
pub(crate) fn receive_record<'a>(
    record: &mut Record,
    profile: &Profile,
    clock: Ms,
    datagram: &Datagram<'a>,
) -> Received<'a>
    requires waits { record.old.watchdog.0 ≤ 5120000 }
    requires time { clock.0 ≤ 2 ^ 48 }
    ensures received { IsReceivedBy profile.now clock (view_datagram datagram.now) record.old result }
    ensures after { record.new ≡ received_row profile.now clock (view_datagram datagram.now) record.old }
{
    let judgement = judge(profile, clock, record, datagram);
    if judgement.delivery().is_accepted() {
        record.accept(clock, datagram, &judgement);
    }
    Received {
        judgement,
        consumed: record.consumed,
        deadline: record.deadline,
    }
}

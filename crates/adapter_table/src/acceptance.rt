//! The judgement of a datagram that is for a connection, and the connection that has accepted it.

ghost use Rattle.std.specs.Prelude.{◌≡◌, ◌≤◌, ◌+◌, ◌==◌, ◌^◌};
ghost use Rattle.cip_datagram.specs.Datagram.{view_datagram};
ghost use Rattle.cip_datagram.specs.Header.{header_at};
ghost use Rattle.adapter_table.specs.Datagrams.{is_for, expected_len, run_data, owned_delivery, accepted_delivery, row_delivery, mode_after, accepted_row, accepted_if_for};
ghost use Rattle.adapter_table.specs.Judging.{IsJudged, judged_delivery};
ghost use Rattle.adapter_table.specs.StatedLimits.{accepts_at};

use crate::profile::Profile;
use crate::row::{Connection, Mode, Row};
use crate::rows::is_established;
use cip_datagram::{Datagram, read_header};
use cip_events::Delivery;
use cip_productions::{Accepted, Kind, accepts_number, is_duplicate, since_accepted};
use cip_types::{ConnId, Ms, Node};

/// The bytes of a run/idle header.
const HEADER: u64 = 4;

/// The judgement of a datagram that is for a connection.
#[derive(Clone, Copy)]
pub enum Judgement<'a> {
    /// It is accepted, and the output takes these data of run mode.
    Applied(&'a [u8]),
    /// It is accepted in idle mode, and the idle action is done.
    Idle,
    /// It is accepted, and brings no output data.
    Heartbeat,
    /// It is accepted, and its data are those of the last one.
    Duplicate,
    /// Its sequence number is not newer than the last accepted one, or too far ahead of it.
    Old,
    /// It has another size than the connection's datagrams.
    WrongSize,
}

impl Judgement<'_> {
    /// The delivery of the datagram. Takes no memory.
    pub fn delivery(&self) -> Delivery
        ensures { result ≡ judged_delivery self.now }
    {
        match self {
            Judgement::Applied(_) => Delivery::Applied,
            Judgement::Idle => Delivery::Idle,
            Judgement::Heartbeat => Delivery::Heartbeat,
            Judgement::Duplicate => Delivery::Duplicate,
            Judgement::Old => Delivery::Old,
            Judgement::WrongSize => Delivery::WrongSize,
        }
    }
}

/// Whether a connection is established, is of the peer, and has this O->T id. Takes no memory.
///
/// Volume 2, chapter 2, sequenced address item.
pub fn is_for(row: &Row, peer: Node, id: ConnId) -> bool
    ensures { result ≡ is_for peer id.0 row.now }
{
    is_established(row) && row.peer.0 == peer.0 && row.o_t_id.0 == id.0
}

/// Whether the O->T datagrams of a connection have so many bytes behind the sequence count.
fn has_expected_len<P>(profile: &Profile, row: &Connection<P>, len: u64) -> bool
    ensures { result ≡ (len == expected_len profile.now row.now) }
{
    if row.kind != Kind::ExclusiveOwner {
        return len == 0;
    }
    match profile.output(row.consumed) {
        Some(output) => len >= HEADER && len - HEADER == output.len,
        None => len == HEADER,
    }
}

/// Whether a connection accepts a number at this time: it is newer than the last accepted one, and near it.
fn accepts_at<P>(within: Option<u32>, clock: Ms, row: &Connection<P>, number: u32) -> bool
    ensures { result ≡ accepts_at within clock row.now number }
{
    let since = since_accepted(clock, row.watchdog, row.deadline);
    accepts_number(within, since, row.o_t_pace_ms, row.last, number)
}

/// The judgement of an owner's datagram that is newer than the last accepted one.
fn judge_owned<'a, P>(row: &Connection<P>, datagram: &Datagram<'a>) -> Judgement<'a>
    ensures { IsJudged (owned_delivery row.now (view_datagram datagram.now))
        (run_data (header_at (view_datagram datagram.now).payload)) result }
{
    if is_duplicate(row.last, datagram.count) {
        return Judgement::Duplicate;
    }
    match read_header(datagram.data) {
        Some((true, data)) => Judgement::Applied(data),
        Some((false, _)) | None => Judgement::Idle,
    }
}

/// The judgement of a datagram that a connection accepts.
fn judge_accepted<'a, P>(row: &Connection<P>, datagram: &Datagram<'a>) -> Judgement<'a>
    ensures { IsJudged (accepted_delivery row.now (view_datagram datagram.now))
        (run_data (header_at (view_datagram datagram.now).payload)) result }
{
    if row.kind != Kind::ExclusiveOwner {
        return Judgement::Heartbeat;
    }
    judge_owned(row, datagram)
}

/// The judgement of a datagram that is for a connection, at this time. It is refused if it has another size than the
/// connection's (`WrongSize`), then if its number is not newer than the last accepted one, or farther ahead of it than
/// the maker states (`Old`); otherwise it is accepted. Takes no memory.
///
/// Volume 1, chapter 3, class 1 transport and run/idle.
pub fn judge<'a, P>(
    profile: &Profile,
    clock: Ms,
    row: &Connection<P>,
    datagram: &Datagram<'a>,
) -> Judgement<'a>
    ensures { IsJudged (row_delivery profile.now clock row.now (view_datagram datagram.now))
        (run_data (header_at (view_datagram datagram.now).payload)) result }
{
    if !has_expected_len(profile, row, datagram.data.len() as u64) {
        return Judgement::WrongSize;
    }
    if !accepts_at(profile.limits.newer, clock, row, datagram.sequence) {
        return Judgement::Old;
    }
    judge_accepted(row, datagram)
}

/// The mode of the newest data, after a datagram of this delivery.
fn mode_after(delivery: Delivery, before: Option<Mode>) -> Option<Mode>
    ensures { result ≡ mode_after delivery before }
{
    match delivery {
        Delivery::Applied => Some(Mode::Run),
        Delivery::Idle => Some(Mode::Idle),
        _ => before,
    }
}

impl<P> Connection<P> {
    /// The connection accepts a datagram that is judged so: it keeps the datagram's number and count, and the mode of
    /// its data, and its watchdog begins again. Takes no memory.
    ///
    /// Volume 1, chapter 3, inactivity watchdog and run/idle.
    pub fn accept(&mut self, clock: Ms, datagram: &Datagram<'_>, judgement: &Judgement<'_>)
        requires judged { judged_delivery judgement.now ≡ accepted_delivery self.old (view_datagram datagram.now) }
        requires waits { self.old.watchdog.0 ≤ 5120000 }
        requires time { clock.0 ≤ 2 ^ 48 }
        ensures { self.new ≡ accepted_row clock (view_datagram datagram.now) self.old }
    {
        self.mode = mode_after(judgement.delivery(), self.mode);
        self.last = Some(Accepted {
            number: datagram.sequence,
            count: datagram.count,
        });
        self.deadline = Ms(clock.0 + self.watchdog.0);
    }
}

/// The connection accepts a datagram if it is for it. Takes no memory.
pub fn accept_if_for(row: &mut Row, clock: Ms, peer: Node, datagram: &Datagram<'_>)
    requires waits { row.old.watchdog.0 ≤ 5120000 }
    requires time { clock.0 ≤ 2 ^ 48 }
    ensures { row.new ≡ accepted_if_for clock peer (view_datagram datagram.now) row.old }
{
    if is_for(row, peer, datagram.connection) {
        let judgement = judge_accepted(row, datagram);
        row.accept(clock, datagram, &judgement);
    }
}

//! Notices as items.

ghost use Rattle.std.specs.Prelude.{◌≡◌};
ghost use Rattle.flat_answers.specs.Flat.{triad_head, fault_head, mismatch_head, reason_head, unanswered_head, notice_head};

use crate::head::{ItemHeader, one_number};
use cip_events::{Notice, Reason, Unanswered};
use cip_types::{Fault, Mismatch, Triad};

/// The kind and the numbers of a notice.
pub fn notice_head(notice: Notice) -> ItemHeader
    ensures { result ≡ notice_head notice }
{
    match notice {
        Notice::Opened(triad, id) => ItemHeader {
            d: id.0,
            ..triad_head(48, triad)
        },
        Notice::Closed(triad) => triad_head(49, triad),
        Notice::Expired(triad) => triad_head(50, triad),
        Notice::Dropped(triad) => triad_head(51, triad),
        Notice::Replaced(triad) => triad_head(52, triad),
        Notice::StreamClosed(stream) => one_number(53, stream as u32),
        Notice::Slot(slot, state) => ItemHeader {
            b: state as u32,
            ..one_number(54, slot)
        },
        Notice::NoIds(slot) => one_number(55, slot),
        Notice::Reset(kind) => one_number(56, kind as u32),
        Notice::Refused(slot, why) => reason_head(slot, why),
        Notice::Unanswered(number, why) => unanswered_head(number, why),
    }
}

fn unanswered_head(number: u32, why: Unanswered) -> ItemHeader
    ensures { result ≡ unanswered_head number why }
{
    match why {
        Unanswered::TimedOut => one_number(72, number),
        Unanswered::Lost => one_number(73, number),
        Unanswered::Encap(status) => ItemHeader {
            b: status,
            ..one_number(74, number)
        },
        Unanswered::Unreadable => one_number(75, number),
    }
}

fn triad_head(kind: u32, triad: Triad) -> ItemHeader
    ensures { result ≡ triad_head kind triad }
{
    ItemHeader {
        kind,
        a: triad.serial as u32,
        b: triad.vendor as u32,
        c: triad.originator,
        d: 0,
    }
}

fn reason_head(slot: u32, why: Reason) -> ItemHeader
    ensures { result ≡ reason_head slot why }
{
    match why {
        Reason::Encap(status) => ItemHeader {
            b: status,
            ..one_number(64, slot)
        },
        Reason::Unreadable => one_number(65, slot),
        Reason::Cip(fault) => fault_head(66, slot, fault),
        Reason::Mismatch(why) => mismatch_head(slot, why),
    }
}

fn mismatch_head(slot: u32, why: Mismatch) -> ItemHeader
    ensures { result ≡ mismatch_head slot why }
{
    match why {
        Mismatch::Triad => one_number(67, slot),
        Mismatch::Id => one_number(68, slot),
        Mismatch::Api => one_number(69, slot),
        Mismatch::Refused(fault) => fault_head(70, slot, fault),
    }
}

fn fault_head(kind: u32, slot: u32, fault: Fault) -> ItemHeader
    ensures { result ≡ fault_head kind slot fault fault.extended }
{
    let general = fault.general as u32;
    match fault.extended {
        None => ItemHeader {
            b: general,
            ..one_number(kind, slot)
        },
        Some(extended) => ItemHeader {
            kind,
            a: slot,
            b: general,
            c: 1,
            d: extended as u32,
        },
    }
}

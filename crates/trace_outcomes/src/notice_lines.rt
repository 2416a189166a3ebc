//! The lines of recorded notices.

ghost use Rattle.trace_words.specs.Reader.{unread_words, Takes, next_word};
ghost use Rattle.trace_outcomes.specs.Parts.{triad_reader, last_triad_reader, mismatch_of, reason_reader, why_unanswered_reader, notice_reader};

use cip_events::{Notice, Reason, Unanswered};
use cip_types::{Fault, Mismatch, Triad};
use std::alloc::Global;
use trace_words::{TextFault, Words};

/// What follows `note`.
pub fn read_notice(alloc: Global, words: &mut Words<'_>) -> Result<Notice, TextFault>
    ensures { Takes (notice_reader (unread_words words.old)) result (unread_words words.new) }
{
    match words.word()? {
        "opened" => {
            let triad = read_triad(words)?;
            let id = words.id(alloc)?;
            words.last(Notice::Opened(triad, id))
        }
        "closed" => last_triad(words).map(Notice::Closed),
        "expired" => last_triad(words).map(Notice::Expired),
        "dropped" => last_triad(words).map(Notice::Dropped),
        "replaced" => last_triad(words).map(Notice::Replaced),
        "stream-closed" => {
            let stream = words.u16()?;
            words.last(Notice::StreamClosed(stream))
        }
        "slot" => {
            let slot = words.u32()?;
            let state = words.u8()?;
            words.last(Notice::Slot(slot, state))
        }
        "refused" => {
            let slot = words.u32()?;
            let why = read_reason(alloc, words)?;
            Ok(Notice::Refused(slot, why))
        }
        "no-ids" => {
            let slot = words.u32()?;
            words.last(Notice::NoIds(slot))
        }
        "reset" => {
            let kind = words.u8()?;
            words.last(Notice::Reset(kind))
        }
        "unanswered" => {
            let number = words.u32()?;
            let why = read_unanswered(words)?;
            Ok(Notice::Unanswered(number, why))
        }
        _ => Err(TextFault::Bad),
    }
}

fn read_triad(words: &mut Words<'_>) -> Result<Triad, TextFault>
    ensures { Takes (triad_reader (unread_words words.old)) result (unread_words words.new) }
{
    Ok(Triad {
        serial: words.u16()?,
        vendor: words.u16()?,
        originator: words.u32()?,
    })
}

/// A triad at the end of a line.
fn last_triad(words: &mut Words<'_>) -> Result<Triad, TextFault>
    ensures { Takes (last_triad_reader (unread_words words.old)) result (unread_words words.new) }
{
    let triad = read_triad(words)?;
    words.last(triad)
}

/// Why a reply did not open a slot's connection.
fn read_reason(alloc: Global, words: &mut Words<'_>) -> Result<Reason, TextFault>
    ensures { Takes (reason_reader (unread_words words.old)) result (unread_words words.new) }
{
    match words.word()? {
        "cip" => {
            let general = words.general(alloc)?;
            let extended = words.extended(alloc)?;
            words.last(Reason::Cip(Fault { general, extended }))
        }
        "encap" => {
            let status = words.u32()?;
            words.last(Reason::Encap(status))
        }
        "mismatch" => {
            let why = read_mismatch(words)?;
            words.last(Reason::Mismatch(why))
        }
        "unreadable" => words.last(Reason::Unreadable),
        _ => Err(TextFault::Bad),
    }
}

/// The mismatch of a reply, by its name.
#[tactic(auto, unfolding(crate::specs::Parts::mismatch_of))]
fn read_mismatch(words: &mut Words<'_>) -> Result<Mismatch, TextFault>
    ensures { Takes (next_word mismatch_of (unread_words words.old)) result (unread_words words.new) }
{
    match words.word()? {
        "Triad" => Ok(Mismatch::Triad),
        "Id" => Ok(Mismatch::Id),
        "Api" => Ok(Mismatch::Api),
        _ => Err(TextFault::Bad),
    }
}

/// Why an explicit request has no reply.
fn read_unanswered(words: &mut Words<'_>) -> Result<Unanswered, TextFault>
    ensures { Takes (why_unanswered_reader (unread_words words.old)) result (unread_words words.new) }
{
    match words.word()? {
        "timed-out" => words.last(Unanswered::TimedOut),
        "lost" => words.last(Unanswered::Lost),
        "encap" => {
            let status = words.u32()?;
            words.last(Unanswered::Encap(status))
        }
        "unreadable" => words.last(Unanswered::Unreadable),
        _ => Err(TextFault::Bad),
    }
}

//! The number of bytes of an answer, without writing them.
//!
//! A sum that 64 bits do not count is the greatest `usize`, which no room has.

ghost use Rattle.std.specs.Prelude.{ℕ, ◌≡◌, ◌+◌, ◌*◌, length, flat_map};
ghost use Rattle.flat_answers.specs.Flat.{item, reply_items, two_items, verdict_item, frame_item, datagram_items, answer_bytes};
ghost use Rattle.flat_answers.specs.declared.head.ItemHeader.{ItemHeader};
ghost use Rattle.flat_answers.specs.Places.{counted};

use cip_events::{Answer, Frame, OutgoingDatagram, Verdict};

/// The bytes of an item before its data.
const HEAD_LEN: usize = 28;

/// The number of bytes of an answer. Takes no memory.
pub fn answer_len(answer: &Answer) -> usize
    ensures { result ≡ counted (length (answer_bytes answer.now)) }
{
    let sent = frames_len(answer.frames.as_slice()).saturating_add(datagrams_len(
        answer.datagrams.as_slice(),
    ));
    verdict_len(&answer.verdict)
        .saturating_add(sent)
        .saturating_add(heads_len(answer.notices.as_slice().len()))
}

/// The number of bytes of an item with these data.
fn item_len(bytes: &[u8]) -> usize
    ensures { (header : ItemHeader) → length (item header bytes.now) ≡ result }
{
    HEAD_LEN + bytes.len()
}

/// The number of bytes of so many items without data.
fn heads_len(count: usize) -> usize
    ensures { result ≡ counted (28 * count) }
{
    count.saturating_mul(HEAD_LEN)
}

#[tactic(auto, using(crate::proofs::Pieces::bare))]
fn verdict_len(verdict: &Verdict) -> usize
    ensures { result ≡ counted (length (verdict_item verdict.now)) }
{
    match verdict {
        Verdict::Replied {
            additional,
            data,
            ..
        } => reply_len(additional.as_slice(), data.as_slice()),
        Verdict::Asked { data, .. } => two_len(data.as_slice()),
        Verdict::Value(bytes) => item_len(bytes.as_slice()),
        Verdict::Done | Verdict::BadFrame | Verdict::Ignored | Verdict::Delivered(_) => HEAD_LEN,
    }
}

/// The number of bytes of the items of a reply with this additional status and these data.
fn reply_len(additional: &[u8], content: &[u8]) -> usize
    ensures { (number status : ℕ) → result ≡ counted (length (reply_items number status additional.now content.now)) }
{
    item_len(content).saturating_add(item_len(additional))
}

/// The number of bytes of an item with these data, and of one without.
fn two_len(content: &[u8]) -> usize
    ensures { (first second : ItemHeader) → result ≡ counted (length (two_items first content.now second)) }
{
    item_len(content).saturating_add(item_len(&[]))
}

fn frames_len(frames: &[Frame]) -> usize
    ensures { result ≡ counted (length (flat_map frame_item frames.now)) }
{
    let mut len: usize = 0;
    for frame in frames {
        len = len.saturating_add(item_len(frame.bytes.as_slice()));
    }
    len
}

fn datagrams_len(datagrams: &[OutgoingDatagram]) -> usize
    ensures { result ≡ counted (length (flat_map datagram_items datagrams.now)) }
{
    let mut len: usize = 0;
    for outgoing in datagrams {
        len = len.saturating_add(datagram_len(outgoing));
    }
    len
}

fn datagram_len(outgoing: &OutgoingDatagram) -> usize
    ensures { result ≡ counted (length (datagram_items outgoing.now)) }
{
    item_len(outgoing.bytes.as_slice()).saturating_add(heads_len(outgoing.nodes.as_slice().len()))
}

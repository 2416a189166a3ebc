//! Answers as items.

ghost use Rattle.std.specs.Prelude.{◌≡◌, ◌+◌, ◌≤◌, ◌++◌, length, drop, flat_map};
ghost use Rattle.flat_answers.specs.Flat.{own_request_head, delivery_number, delivery_of, path_head, reply_items, two_items, verdict_item, recipient_head, frame_item, consumer_item, datagram_items, notice_item, answer_bytes};
ghost use Rattle.flat_answers.specs.Places.{Puts};

use crate::head::{ItemHeader, one_number, put_item};
use crate::notices::notice_head;
use cip_events::{Answer, Delivery, Frame, Notice, OutgoingDatagram, Recipient, Verdict};
use cip_types::Node;

/// Writes the bytes of an answer at the front of a room, which has that many bytes or more. Takes no memory.
pub fn put_answer(out: &mut [u8], answer: &Answer)
    requires { length (answer_bytes answer.now) ≤ length out.old }
    ensures { out.new ≡ answer_bytes answer.now ++ drop (length (answer_bytes answer.now)) out.old }
{
    let at = put_verdict(out, 0, &answer.verdict);
    let at = put_frames(out, at, answer.frames.as_slice());
    let at = put_datagrams(out, at, answer.datagrams.as_slice());
    let _end = put_notices(out, at, answer.notices.as_slice());
}

/// The number of a delivery, in the order of its cases, from 0.
pub fn delivery_number(delivery: Delivery) -> u32
    ensures number { result ≡ delivery_number delivery }
    ensures same { delivery_of result ≡ delivery }
{
    match delivery {
        Delivery::Applied => 0,
        Delivery::Idle => 1,
        Delivery::Heartbeat => 2,
        Delivery::Duplicate => 3,
        Delivery::Old => 4,
        Delivery::UnknownId => 5,
        Delivery::WrongSize => 6,
        Delivery::Malformed => 7,
    }
}

fn put_verdict(out: &mut [u8], at: usize, verdict: &Verdict) -> usize
    requires { at + length (verdict_item verdict.now) ≤ length out.old }
    ensures { Puts (verdict_item verdict.now) at out.old result out.new }
{
    match verdict {
        Verdict::Done => put_item(out, at, one_number(1, 0), &[]),
        Verdict::BadFrame => put_item(out, at, one_number(2, 0), &[]),
        Verdict::Ignored => put_item(out, at, one_number(3, 0), &[]),
        Verdict::Value(bytes) => put_item(out, at, one_number(4, 0), bytes.as_slice()),
        Verdict::Delivered(delivery) => {
            put_item(out, at, one_number(5, delivery_number(*delivery)), &[])
        }
        Verdict::Replied {
            number,
            status,
            additional,
            data,
        } => put_reply(
            out,
            at,
            *number,
            *status,
            additional.as_slice(),
            data.as_slice(),
        ),
        Verdict::Asked {
            number,
            service,
            class,
            instance,
            attribute,
            data,
        } => put_two(
            out,
            at,
            own_request_head(*number, *service),
            data.as_slice(),
            path_head(*class, *instance, *attribute),
        ),
    }
}

/// The number and the service of a request that the application is to answer.
fn own_request_head(number: u64, service: u8) -> ItemHeader
    ensures { result ≡ own_request_head number service }
{
    ItemHeader {
        kind: 8,
        a: (number % 4_294_967_296) as u32,
        b: (number / 4_294_967_296) as u32,
        c: service as u32,
        d: 0,
    }
}

/// The class, the instance and the attribute of such a request.
fn path_head(class: u32, instance: u32, attribute: Option<u32>) -> ItemHeader
    ensures { result ≡ path_head class instance attribute }
{
    match attribute {
        Some(attribute) => ItemHeader {
            kind: 9,
            a: class,
            b: instance,
            c: 1,
            d: attribute,
        },
        None => ItemHeader {
            kind: 9,
            a: class,
            b: instance,
            c: 0,
            d: 0,
        },
    }
}

/// Writes an item with these data, and one without behind it.
fn put_two(
    out: &mut [u8],
    at: usize,
    first: ItemHeader,
    content: &[u8],
    second: ItemHeader,
) -> usize
    requires { at + length (two_items first content.now second) ≤ length out.old }
    ensures { Puts (two_items first content.now second) at out.old result out.new }
{
    let at = put_item(out, at, first, content);
    put_item(out, at, second, &[])
}

/// Writes the items of a reply to the explicit request of this number.
fn put_reply(
    out: &mut [u8],
    at: usize,
    number: u32,
    status: u8,
    additional: &[u8],
    content: &[u8],
) -> usize
    requires { at + length (reply_items number status additional.now content.now) ≤ length out.old }
    ensures { Puts (reply_items number status additional.now content.now) at out.old result out.new }
{
    let head = ItemHeader {
        b: status as u32,
        ..one_number(6, number)
    };
    let at = put_item(out, at, head, content);
    put_item(out, at, one_number(7, number), additional)
}

fn put_frames(out: &mut [u8], at: usize, frames: &[Frame]) -> usize
    requires { at + length (flat_map frame_item frames.now) ≤ length out.old }
    ensures { Puts (flat_map frame_item frames.now) at out.old result out.new }
{
    let mut end = at;
    for frame in frames {
        end = put_frame(out, end, frame);
    }
    end
}

fn put_frame(out: &mut [u8], at: usize, frame: &Frame) -> usize
    requires { at + length (frame_item frame.now) ≤ length out.old }
    ensures { Puts (frame_item frame.now) at out.old result out.new }
{
    put_item(out, at, recipient_head(frame.to), frame.bytes.as_slice())
}

fn recipient_head(recipient: Recipient) -> ItemHeader
    ensures { result ≡ recipient_head recipient }
{
    match recipient {
        Recipient::Stream(stream) => one_number(16, stream as u32),
        Recipient::Peer(node) => one_number(17, node.0),
    }
}

fn put_datagrams(out: &mut [u8], at: usize, datagrams: &[OutgoingDatagram]) -> usize
    requires { at + length (flat_map datagram_items datagrams.now) ≤ length out.old }
    ensures { Puts (flat_map datagram_items datagrams.now) at out.old result out.new }
{
    let mut end = at;
    for outgoing in datagrams {
        end = put_datagram(out, end, outgoing);
    }
    end
}

fn put_datagram(out: &mut [u8], at: usize, outgoing: &OutgoingDatagram) -> usize
    requires { at + length (datagram_items outgoing.now) ≤ length out.old }
    ensures { Puts (datagram_items outgoing.now) at out.old result out.new }
{
    let head = one_number(32, outgoing.address.0);
    let at = put_item(out, at, head, outgoing.bytes.as_slice());
    put_consumers(out, at, outgoing.nodes.as_slice())
}

fn put_consumers(out: &mut [u8], at: usize, nodes: &[Node]) -> usize
    requires { at + length (flat_map consumer_item nodes.now) ≤ length out.old }
    ensures { Puts (flat_map consumer_item nodes.now) at out.old result out.new }
{
    let mut end = at;
    for node in nodes {
        end = put_consumer(out, end, *node);
    }
    end
}

fn put_consumer(out: &mut [u8], at: usize, node: Node) -> usize
    requires { at + length (consumer_item node) ≤ length out.old }
    ensures { Puts (consumer_item node) at out.old result out.new }
{
    put_item(out, at, one_number(33, node.0), &[])
}

fn put_notices(out: &mut [u8], at: usize, notices: &[Notice]) -> usize
    requires { at + length (flat_map notice_item notices.now) ≤ length out.old }
    ensures { Puts (flat_map notice_item notices.now) at out.old result out.new }
{
    let mut end = at;
    for notice in notices {
        end = put_notice(out, end, *notice);
    }
    end
}

fn put_notice(out: &mut [u8], at: usize, notice: Notice) -> usize
    requires { at + length (notice_item notice) ≤ length out.old }
    ensures { Puts (notice_item notice) at out.old result out.new }
{
    put_item(out, at, notice_head(notice), &[])
}

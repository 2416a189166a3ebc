//! Services that carry requests: Multiple_Service_Packet and Unconnected_Send.

ghost use Rattle.std.specs.Prelude.{◌≡◌, ◌≤◌, ◌+◌, ◌++◌, ◌&&◌, IfOk, OnOk, length, true};
ghost use Rattle.std.specs.List.{flat_map};
ghost use Rattle.cip_router.specs.Replies.{reply_text, view_reply};
ghost use Rattle.adapter_table.specs.Carrying.{are_placed, are_rising, are_successes, inner_answer, is_success, member_of, member_replies, next_start, object_answer, packed_answer, packet_answer, packet_replied, packet_status, part_of, routed_answer, sent_answer, starts_from};
ghost use Rattle.adapter_table.specs.Objects.{u16};
ghost use Rattle.adapter_replies.specs.Objects.Views.{view_answer, view_carried};

use super::Adapter;
use adapter_replies::{
    Carried, ObjectAnswer, ObjectRequest, answer_within, carried_request, is_packet, is_sending,
    naming, put_low, said_reply, word_of,
};
use cip_router::{ObjectService, Reply, UNCONNECTED_SEND};
use cip_tables::{Status, read_router_request};
use cip_types::OutOfMemory;
use cip_types::fields::put_bytes;
use indexed_connections::ConnectionTable;

/// How many requests a reply has room for.
const MOST_MEMBERS: usize = 233;

/// The general status of a packet of which a request is not answered with success.
///
/// Volume 1, appendix B, general status codes.
const EMBEDDED_SERVICE_ERROR: u8 = 0x1E;

// WHERE REQUESTS BEGIN

/// Where the next request begins, or the last one ends.
fn next_start(body: &[u8], starts: &[u8]) -> usize
    ensures { result ≡ next_start body.now starts.now }
{
    match starts {
        [low, high, ..] => usize::from(word_of(*low, *high)),
        _ => body.len(),
    }
}

/// Whether each request has a byte, and ends where the next one begins.
fn are_rising(body: &[u8], starts: &[u8]) -> bool
    ensures { result ≡ are_rising body.now starts.now }
{
    let [low, high, rest @ ..] = starts else {
        return true;
    };
    usize::from(word_of(*low, *high)) < next_start(body, rest) && are_rising(body, rest)
}

/// Whether the requests begin behind their places, one behind the other.
fn are_placed(body: &[u8], starts: &[u8]) -> bool
    ensures { result ≡ are_placed body.now starts.now }
{
    2 + starts.len() <= next_start(body, starts) && are_rising(body, starts)
}

/// The bytes from one place to another.
fn part_of(bytes: &[u8], from: usize, to: usize) -> &[u8]
    requires order { from ≤ to }
    requires within { to ≤ length bytes.now }
    ensures { result.now ≡ part_of bytes.now from to }
{
    let (_, rest) = bytes.split_at(from);
    let (part, _) = rest.split_at(to - from);
    part
}

// REPLIES

/// The replies of a packet so far: where each begins, their bytes, and whether each is a success.
#[derive(Drop)]
struct PacketDraft {
    starts: Vec<u8>,
    texts: Vec<u8>,
    whole: bool,
}

/// Whether the general status of a reply is 0.
fn is_success(reply: &Reply<'_>) -> bool
    ensures { result ≡ is_success (view_reply reply.now) }
{
    match reply {
        Reply::Opened(_, _) | Reply::Closed(_) | Reply::Object(_, _) => true,
        Reply::Refused(_, _, _) | Reply::Unacceptable(_, _, _) | Reply::NoRoute(_) => false,
        Reply::Own(_, general, _) => *general == 0,
    }
}

/// The general status of a packet.
fn packet_status(whole: bool) -> u8
    ensures { result ≡ packet_status whole }
{
    if whole { 0 } else { EMBEDDED_SERVICE_ERROR }
}

impl PacketDraft {
    /// Appends a reply, where the first one begins behind so many bytes.
    fn put(&mut self, front: u32, reply: &Reply<'_>) -> Result<(), OutOfMemory>
        ensures starts { OnOk result (self.new.starts.items
            ≡ self.old.starts.items ++ u16 (front + length self.old.texts.items)) }
        ensures texts { OnOk result (self.new.texts.items
            ≡ self.old.texts.items ++ reply_text (view_reply reply.now)) }
        ensures whole { OnOk result (self.new.whole ≡ (self.old.whole && is_success (view_reply reply.now))) }
    {
        put_low(&mut self.starts, u64::from(front) + self.texts.len() as u64)?;
        reply.put(&mut self.texts)?;
        self.whole = self.whole && is_success(reply);
        Ok(())
    }
}

impl<T: ConnectionTable> Adapter<T> {
    /// Appends the reply to a request of a packet.
    fn put_member(
        &self,
        draft: &mut PacketDraft,
        front: u32,
        bytes: &[u8],
    ) -> Result<(), OutOfMemory>
        ensures starts { OnOk result (draft.new.starts.items
            ≡ draft.old.starts.items ++ u16 (front + length draft.old.texts.items)) }
        ensures texts { OnOk result (draft.new.texts.items
            ≡ draft.old.texts.items ++ reply_text (member_of self.now bytes.now)) }
        ensures whole { OnOk result (draft.new.whole
            ≡ (draft.old.whole && is_success (member_of self.now bytes.now))) }
    {
        let objects = self.state.profile().objects.as_slice();
        match carried_request(
            ObjectService::Packet.code(),
            objects,
            read_router_request(bytes),
        ) {
            Carried::Barred(service, why) => {
                draft.put(front, &Reply::Refused(service, why.fault(), None))
            }
            Carried::Asking(class, instance, request) => {
                let answer = self.alone_answer(class, instance, request)?;
                draft.put(front, &said_reply(request.service, &answer))
            }
        }
    }
}

/// Appends the replies to the requests that begin at these places.
fn put_members<T: ConnectionTable>(
    adapter: &Adapter<T>,
    draft: &mut PacketDraft,
    front: u32,
    body: &[u8],
    starts: &[u8],
) -> Result<(), OutOfMemory>
    requires { are_rising body.now starts.now ≡ true }
    ensures starts { OnOk result (draft.new.starts.items
        ≡ draft.old.starts.items ++ starts_from (front + length draft.old.texts.items)
        (member_replies adapter.now body.now starts.now)) }
    ensures texts { OnOk result (draft.new.texts.items
        ≡ draft.old.texts.items ++ flat_map reply_text (member_replies adapter.now body.now starts.now)) }
    ensures whole { OnOk result (draft.new.whole
        ≡ (draft.old.whole && are_successes (member_replies adapter.now body.now starts.now))) }
{
    let [low, high, rest @ ..] = starts else {
        return Ok(());
    };
    let from = usize::from(word_of(*low, *high));
    let member = part_of(body, from, next_start(body, rest));
    adapter.put_member(draft, front, member)?;
    put_members(adapter, draft, front, body, rest)
}

impl<T: ConnectionTable> Adapter<T> {
    /// The reply to the requests that begin at these places.
    #[tactic(auto, using(crate::proofs::Packets::packed_is))]
    fn packet_replied(
        &self,
        low: u8,
        high: u8,
        body: &[u8],
        starts: &[u8],
    ) -> Result<ObjectAnswer<'_>, OutOfMemory>
        requires { are_rising body.now starts.now ≡ true }
        ensures { IfOk result (λ answer. view_answer answer
            ≡ packet_replied low high (member_replies self.now body.now starts.now)) }
    {
        let alloc = self.state.alloc();
        let mut draft = PacketDraft {
            starts: Vec::new(alloc),
            texts: Vec::new(alloc),
            whole: true,
        };
        let front = 2 + 2 * u32::from(word_of(low, high));
        put_members(self, &mut draft, front, body, starts)?;
        let mut made = Vec::new(alloc);
        put_bytes(&mut made, &[low, high])?;
        put_bytes(&mut made, draft.starts.as_slice())?;
        put_bytes(&mut made, draft.texts.as_slice())?;
        let status = packet_status(draft.whole);
        Ok(answer_within(ObjectService::Packet, status, made))
    }

    /// Multiple_Service_Packet: the refusals are in this order no number of requests, or too few bytes for their places (0x13), more than
    /// a reply has room for (0x11), places that overlap or lie outside (0x20), and replies that are too large together (0x11).
    ///
    /// Volume 1, appendix A, common services.
    fn packet_answer(&self, body: &[u8]) -> Result<ObjectAnswer<'_>, OutOfMemory>
        ensures { IfOk result (λ answer. view_answer answer ≡ packet_answer self.now body.now) }
    {
        let [low, high, rest @ ..] = body else {
            return Ok(ObjectAnswer::Denied(Status::NotEnoughData));
        };
        let count = usize::from(word_of(*low, *high));
        if rest.len() < 2 * count {
            return Ok(ObjectAnswer::Denied(Status::NotEnoughData));
        }
        if count > MOST_MEMBERS {
            return Ok(ObjectAnswer::Denied(Status::ReplyTooLarge));
        }
        let (starts, _) = rest.split_at(2 * count);
        if !are_placed(body, starts) {
            return Ok(ObjectAnswer::Denied(Status::InvalidParameter));
        }
        self.packet_replied(*low, *high, body, starts)
    }

    /// What the device answers to a service of an object, a packet among them.
    fn packed_answer(
        &self,
        class: u32,
        instance: u32,
        request: ObjectRequest<'_>,
    ) -> Result<ObjectAnswer<'_>, OutOfMemory>
        ensures { IfOk result (λ answer. view_answer answer
            ≡ packed_answer self.now request.entry.service class instance request.entry.attribute
            request.entry.body.now) }
    {
        let described = self.state.profile().description.is_some();
        if is_packet(described, request.service, class, instance) {
            return self.packet_answer(request.body);
        }
        self.alone_answer(class, instance, request)
    }

    // A REQUEST WITH A ROUTE

    /// The answer to the request that is carried.
    fn inner_answer(&self, inner: Carried<'_>) -> Result<ObjectAnswer<'_>, OutOfMemory>
        ensures { IfOk result (λ answer. view_answer answer ≡ inner_answer self.now (view_carried inner.entry)) }
    {
        match inner {
            Carried::Barred(service, why) => Ok(ObjectAnswer::Refusing(service, why)),
            Carried::Asking(class, instance, request) => {
                let answer = self.packed_answer(class, instance, request)?;
                Ok(naming(request.service, answer))
            }
        }
    }

    /// The answer to the request, by what follows it.
    fn routed_answer(&self, inner: &[u8], behind: &[u8]) -> Result<ObjectAnswer<'_>, OutOfMemory>
        ensures { IfOk result (λ answer. view_answer answer ≡ routed_answer self.now inner.now behind.now) }
    {
        let [words, _, route @ ..] = behind else {
            return Ok(ObjectAnswer::Denied(Status::NotEnoughData));
        };
        let len = 2 * usize::from(*words);
        if route.len() < len {
            return Ok(ObjectAnswer::Denied(Status::NotEnoughData));
        }
        if route.len() > len {
            return Ok(ObjectAnswer::Denied(Status::TooMuchData));
        }
        if *words != 0 {
            return Ok(ObjectAnswer::Unrouted(*words));
        }
        let objects = self.state.profile().objects.as_slice();
        self.inner_answer(carried_request(UNCONNECTED_SEND, objects, read_router_request(inner)))
    }

    /// Unconnected_Send: the refusals are in this order bytes that end within it (0x13), bytes behind it (0x15), and a route, since no
    /// port of the device leads on (general status 1, extended status 0x0311).
    ///
    /// Volume 1, chapter 3, Connection Manager services.
    #[tactic(auto, using(crate::proofs::Packets::cut_short))]
    fn sent_answer(&self, body: &[u8]) -> Result<ObjectAnswer<'_>, OutOfMemory>
        ensures { IfOk result (λ answer. view_answer answer ≡ sent_answer self.now body.now) }
    {
        let [_, _, low, high, rest @ ..] = body else {
            return Ok(ObjectAnswer::Denied(Status::NotEnoughData));
        };
        let len = usize::from(word_of(*low, *high));
        if rest.len() < len + len % 2 {
            return Ok(ObjectAnswer::Denied(Status::NotEnoughData));
        }
        let (inner, _) = rest.split_at(len);
        let (_, behind) = rest.split_at(len + len % 2);
        self.routed_answer(inner, behind)
    }

    /// What the device answers to a service of an object, at most 1,400 bytes.
    #[tactic(auto, unfolding(adapter_table::specs::Carrying::object_answer))]
    pub(crate) fn object_answer(
        &self,
        class: u32,
        instance: u32,
        request: ObjectRequest<'_>,
    ) -> Result<ObjectAnswer<'_>, OutOfMemory>
        ensures { IfOk result (λ answer. view_answer answer
            ≡ object_answer self.now request.entry.service class instance request.entry.attribute
            request.entry.body.now) }
    {
        let described = self.state.profile().description.is_some();
        if is_sending(described, request.service, class, instance) {
            return self.sent_answer(request.body);
        }
        self.packed_answer(class, instance, request)
    }
}

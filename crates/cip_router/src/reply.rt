//! Replies to requests.

ghost use Rattle.std.specs.Prelude.{◌≡◌, ◌++◌, IfOk, OnOk, length};
ghost use Rattle.cip_fwdopen.specs.Reply.{extended_text, failure_text};
ghost use Rattle.cip_router.specs.Replies.{view_reply, reply_text, no_route_text, object_reply_text, own_reply_text, HasStatus};

use crate::object_service::ObjectService;
use cip_fwdopen::service::REPLY;
use cip_fwdopen::{
    AcceptableIntervals, OpenService, Opened, put_closed, put_opened, put_refused,
    put_unacceptable, write_closed, write_opened, write_refused, write_unacceptable,
};
use cip_types::fields::put_bytes;
use cip_types::{Fault, OutOfMemory, Triad};
use std::alloc::Global;

/// A reply of the message router, of its Connection Manager, or of another object.
///
/// Volume 1, chapter 2, message router reply, and chapter 3, Connection Manager.
#[derive(Clone, Copy)]
pub enum Reply<'a> {
    /// A connection was opened, by this service.
    Opened(OpenService, Opened),
    /// A connection was closed.
    Closed(Triad),
    /// The data that answer a service of an object.
    Object(ObjectService, &'a [u8]),
    /// A request of this service was refused. A refused connection has its triad.
    Refused(u8, Fault, Option<Triad>),
    /// A connection was refused for its packet intervals, and others are acceptable.
    Unacceptable(u8, AcceptableIntervals, Triad),
    /// An object answers a request of this service: with this general status, and data.
    Own(u8, u8, &'a [u8]),
    /// No port leads to the route of an Unconnected_Send, of which so many words are left.
    NoRoute(u8),
}

/// The number of bytes of an extended status, with its size.
fn extended_len(extended: Option<u16>) -> usize
    ensures { result ≡ length (extended_text extended) }
{
    match extended {
        Some(_) => 3,
        None => 1,
    }
}

/// The number of bytes of the data of a failure.
fn failure_len(triad: Option<Triad>) -> usize
    ensures { result ≡ length (failure_text triad) }
{
    match triad {
        Some(_) => 10,
        None => 0,
    }
}

/// Appends the data that answer a service, behind the reply's service, a reserved byte, general status 0 and no
/// extended status.
#[tactic(auto, unfolding(crate::specs::Replies::object_reply_text))]
fn put_object_reply(
    out: &mut Vec<u8>,
    service: ObjectService,
    value: &[u8],
) -> Result<(), OutOfMemory>
    ensures { OnOk result (out.new.items ≡ out.old.items ++ object_reply_text service value.now) }
{
    put_bytes(out, &[service.reply_code(), 0, 0, 0])?;
    put_bytes(out, value)
}

/// Writes the same.
fn write_object_reply(
    alloc: Global,
    service: ObjectService,
    value: &[u8],
) -> Result<Vec<u8>, OutOfMemory>
    ensures { IfOk result (λ bytes. bytes.items ≡ object_reply_text service value.now) }
{
    let mut out = Vec::with_capacity(alloc, 4usize.saturating_add(value.len()))?;
    put_object_reply(&mut out, service, value)?;
    Ok(out)
}

/// Appends the reply of an object of the maker's own: the service, a reserved byte, the general status, no extended
/// status, and the data.
#[tactic(auto, unfolding(crate::specs::Replies::own_reply_text))]
fn put_own_reply(
    out: &mut Vec<u8>,
    service: u8,
    status: u8,
    content: &[u8],
) -> Result<(), OutOfMemory>
    ensures { OnOk result (out.new.items ≡ out.old.items ++ own_reply_text service status content.now) }
{
    put_bytes(out, &[REPLY + service % REPLY, 0, status, 0])?;
    put_bytes(out, content)
}

/// Writes the same.
fn write_own_reply(
    alloc: Global,
    service: u8,
    status: u8,
    content: &[u8],
) -> Result<Vec<u8>, OutOfMemory>
    ensures { IfOk result (λ bytes. bytes.items ≡ own_reply_text service status content.now) }
{
    let mut out = Vec::with_capacity(alloc, 4usize.saturating_add(content.len()))?;
    put_own_reply(&mut out, service, status, content)?;
    Ok(out)
}

/// Appends the refusal of an Unconnected_Send, since no port leads to its route, of which so many words are left.
fn put_no_route(out: &mut Vec<u8>, words: u8) -> Result<(), OutOfMemory>
    ensures { OnOk result (out.new.items ≡ out.old.items ++ no_route_text words) }
{
    put_bytes(out, &[0xD2, 0, 1, 1, 0x11, 0x03, words, 0])
}

/// Writes the same.
fn write_no_route(alloc: Global, words: u8) -> Result<Vec<u8>, OutOfMemory>
    ensures { IfOk result (λ bytes. bytes.items ≡ no_route_text words) }
{
    let mut out = Vec::with_capacity(alloc, 8)?;
    put_no_route(&mut out, words)?;
    Ok(out)
}

impl Reply<'_> {
    /// The number of bytes of the reply. Takes no memory.
    pub fn len(&self) -> usize
        ensures { result ≡ length (reply_text (view_reply self.now)) }
    {
        match self {
            Reply::Opened(_, _) => 30,
            Reply::Closed(_) => 14,
            Reply::Object(_, value) => 4 + value.len(),
            Reply::Refused(_, fault, triad) => {
                3 + extended_len(fault.extended) + failure_len(*triad)
            }
            Reply::Unacceptable(_, _, _) => 26,
            Reply::Own(_, _, content) => 4 + content.len(),
            Reply::NoRoute(_) => 8,
        }
    }

    /// Appends the reply. OutOfMemory is the only fault.
    pub fn put(&self, out: &mut Vec<u8>) -> Result<(), OutOfMemory>
        ensures { OnOk result (out.new.items ≡ out.old.items ++ reply_text (view_reply self.now)) }
    {
        match self {
            Reply::Opened(service, opened) => put_opened(out, *service, opened),
            Reply::Closed(triad) => put_closed(out, *triad),
            Reply::Object(service, value) => put_object_reply(out, *service, value),
            Reply::Refused(service, fault, triad) => put_refused(out, *service, *fault, *triad),
            Reply::Unacceptable(service, intervals, triad) => {
                put_unacceptable(out, *service, intervals, Some(*triad))
            }
            Reply::Own(service, status, content) => put_own_reply(out, *service, *status, content),
            Reply::NoRoute(words) => put_no_route(out, *words),
        }
    }

    /// Writes the reply. OutOfMemory is the only fault.
    pub fn write(&self, alloc: Global) -> Result<Vec<u8>, OutOfMemory>
        requires { HasStatus (view_reply self.now) }
        ensures { IfOk result (λ bytes. bytes.items ≡ reply_text (view_reply self.now)) }
    {
        match self {
            Reply::Opened(service, opened) => write_opened(alloc, *service, opened),
            Reply::Closed(triad) => write_closed(alloc, *triad),
            Reply::Object(service, value) => write_object_reply(alloc, *service, value),
            Reply::Refused(service, fault, triad) => write_refused(alloc, *service, *fault, *triad),
            Reply::Unacceptable(service, intervals, triad) => {
                write_unacceptable(alloc, *service, intervals, Some(*triad))
            }
            Reply::Own(service, status, content) => {
                write_own_reply(alloc, *service, *status, content)
            }
            Reply::NoRoute(words) => write_no_route(alloc, *words),
        }
    }
}

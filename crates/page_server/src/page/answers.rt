//! What is answered to a request.

ghost use Rattle.std.specs.Prelude.{◌≡◌};
ghost use Rattle.page_server.specs.Page.Answers.{answer_to, answer_to_read, answer_to_call, is_there, method_for, needs_word};

use crate::page::request::{Allowed, Body, Method, PagePath, PageRequest};

/// Why a request is refused.
///
/// RFC 9110, section 15.5.
#[derive(Clone, Copy, PartialEq, Eq)]
pub enum PageRefusal {
    /// 400: it is no request, or has a body where none is other.
    Bad,
    /// 403: another host or page, no right word or token, or calls are not allowed.
    Forbidden,
    /// 404: there is nothing at its path.
    NotFound,
    /// 405: its path takes another method.
    NotAllowed,
    /// 408: it did not arrive in time.
    Late,
    /// 413: its head or its body is too long.
    TooLarge,
    /// 503: too many requests are served, another file is, or the station takes no call now.
    Busy,
}

/// What is answered to a request.
#[derive(Clone, Copy, PartialEq, Eq)]
pub enum PageAnswer {
    /// The page.
    Page,
    /// The event stream.
    Events,
    /// The call in a body of so many bytes is handed to the station.
    Call(usize),
    /// The record.
    Record,
    /// The record as a capture file.
    Capture,
    /// Nothing: it is refused.
    Refused(PageRefusal),
}

/// What is answered to a request.
///
/// The refusals, in order: `Forbidden` if its host is not the page's or another page makes it; `NotFound`; `NotAllowed`;
/// `Forbidden` if it does not show the word of the page, which the page itself needs not; of a call `Forbidden` if calls are
/// not allowed or it does not show the token, `TooLarge`, `Bad`; of any other request `Bad` if it has a body.
pub fn answer_to(request: PageRequest, allowed: Allowed) -> PageAnswer
    ensures { result ≡ answer_to request allowed }
{
    if !request.has_own_host || request.is_foreign {
        return PageAnswer::Refused(PageRefusal::Forbidden);
    }
    if !is_there(request.path, allowed) {
        return PageAnswer::Refused(PageRefusal::NotFound);
    }
    if request.method != method_for(request.path) {
        return PageAnswer::Refused(PageRefusal::NotAllowed);
    }
    if needs_word(request.path) && !request.has_word {
        return PageAnswer::Refused(PageRefusal::Forbidden);
    }
    match request.path {
        PagePath::Call => answer_to_call(request, allowed),
        _ => answer_to_read(request),
    }
}

/// Whether there is something at a path.
fn is_there(path: PagePath, allowed: Allowed) -> bool
    ensures { result ≡ is_there path allowed }
{
    match path {
        PagePath::Record | PagePath::Capture => allowed.record,
        PagePath::Unknown => false,
        _ => true,
    }
}

/// The method that a path takes.
fn method_for(path: PagePath) -> Method
    ensures { result ≡ method_for path }
{
    match path {
        PagePath::Call => Method::Post,
        _ => Method::Get,
    }
}

/// Whether a path is for the page alone, which has the word. The page itself is for everybody.
fn needs_word(path: PagePath) -> bool
    ensures { result ≡ needs_word path }
{
    match path {
        PagePath::Page => false,
        _ => true,
    }
}

/// What is answered to a call.
fn answer_to_call(request: PageRequest, allowed: Allowed) -> PageAnswer
    ensures { result ≡ answer_to_call request allowed }
{
    if !allowed.writes || !request.has_token {
        return PageAnswer::Refused(PageRefusal::Forbidden);
    }
    match request.body {
        Body::Bytes(count) => PageAnswer::Call(count),
        Body::TooLong => PageAnswer::Refused(PageRefusal::TooLarge),
        _ => PageAnswer::Refused(PageRefusal::Bad),
    }
}

/// What is answered to a request that reads.
fn answer_to_read(request: PageRequest) -> PageAnswer
    ensures { result ≡ answer_to_read request }
{
    if request.body != Body::Empty {
        return PageAnswer::Refused(PageRefusal::Bad);
    }
    match request.path {
        PagePath::Page => PageAnswer::Page,
        PagePath::Events => PageAnswer::Events,
        PagePath::Record => PageAnswer::Record,
        PagePath::Capture => PageAnswer::Capture,
        _ => PageAnswer::Refused(PageRefusal::NotFound),
    }
}

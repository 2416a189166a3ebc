//! What the words of a request's head say.

ghost use Rattle.std.specs.Prelude.{◌≡◌, ◌<◌, length, position, IfSome};
ghost use Rattle.page_server.specs.Page.Values.{body_of, body_with, is_from_host, is_other_site, is_query_mark, method_of, path_of, target_parts};

use crate::page::request::{Body, Method, PagePath};
use trace_words::read_u64;

/// A call has at most so many bytes: the digits of the longest point, and the words before them.
const LONGEST_CALL: u64 = 4_096;

/// The paths of the page, of its event stream, of calls, of the record and of its capture file.
const PAGE_PATH: &[u8] = b"/";

const EVENTS_PATH: &[u8] = b"/events";

const CALL_PATH: &[u8] = b"/call";

const RECORD_PATH: &[u8] = b"/record";

const CAPTURE_PATH: &[u8] = b"/record.pcap";

/// What stands before the host in the origin of a page.
const SCHEME: &[u8] = b"http://";

/// What a browser says of a request that a page of another site makes, or another page of the same host.
const OTHER_SITE: &[u8] = b"cross-site";

const OTHER_ORIGIN: &[u8] = b"same-site";

/// The method of a word.
pub fn method_of(word: &[u8]) -> Method
    ensures { result ≡ method_of word.now }
{
    match word {
        b"GET" => Method::Get,
        b"POST" => Method::Post,
        _ => Method::Other,
    }
}

/// The path of a request's target, and what stands behind its first question mark.
///
/// RFC 3986, section 3.4.
pub fn split_target(target: &[u8]) -> (&[u8], &[u8])
    ensures { (result.0.now, result.1.now) ≡ target_parts target.now }
{
    match query_place(target) {
        Some(place) => (&target[..place], &target[place + 1..]),
        None => (target, &[]),
    }
}

/// The place of the first question mark.
fn query_place(target: &[u8]) -> Option<usize>
    ensures first { result ≡ position is_query_mark target.now }
    ensures inside { IfSome result (λ place. place < length target.now) }
{
    target.iter().position(|byte| *byte == b'?')
}

/// What a path names.
pub fn path_of(path: &[u8]) -> PagePath
    ensures { result ≡ path_of path.now }
{
    if path == PAGE_PATH {
        return PagePath::Page;
    }
    if path == EVENTS_PATH {
        return PagePath::Events;
    }
    if path == CALL_PATH {
        return PagePath::Call;
    }
    if path == RECORD_PATH {
        return PagePath::Record;
    }
    if path == CAPTURE_PATH {
        return PagePath::Capture;
    }
    PagePath::Unknown
}

/// The body of a length in digits.
///
/// RFC 9110, section 8.6.
pub fn body_of(digits: &str) -> Body
    ensures { result ≡ body_of digits.now }
{
    match read_u64(digits) {
        Some(count) => body_with(count),
        None => Body::Bad,
    }
}

/// A body of so many bytes.
fn body_with(count: u64) -> Body
    ensures { result ≡ body_with count }
{
    if count == 0 {
        return Body::Empty;
    }
    if count > LONGEST_CALL {
        return Body::TooLong;
    }
    Body::Bytes(count as usize)
}

/// Whether an origin is that of the page at a host.
///
/// RFC 6454, section 7.
pub fn is_from_host(origin: &[u8], host: &[u8]) -> bool
    ensures { result ≡ is_from_host origin.now host.now }
{
    match origin.split_at_checked(SCHEME.len()) {
        Some((scheme, rest)) => scheme == SCHEME && rest == host,
        None => false,
    }
}

/// Whether a browser says that another page makes a request. A word that it may say in future is not judged.
///
/// W3C Fetch Metadata Request Headers, section 2.3.
pub fn is_other_site(word: &[u8]) -> bool
    ensures { result ≡ is_other_site word.now }
{
    word == OTHER_SITE || word == OTHER_ORIGIN
}

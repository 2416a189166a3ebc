//! The heads of answers.

use crate::page::answers::{PageAnswer, PageRefusal};

/// What each answer says to a browser: nothing of it is kept, nothing comes from elsewhere, and no other page shows it or takes
/// anything of it.
///
/// Fetch, section 3.7 (Cross-Origin-Resource-Policy).
const PAGE_HEAD: &str = "\
HTTP/1.1 200 OK\r\nContent-Type: text/html; charset=utf-8\r\nCache-Control: no-store\r\nConnection: close\r\n\
Cross-Origin-Resource-Policy: same-origin\r\n\
X-Content-Type-Options: nosniff\r\nX-Frame-Options: DENY\r\nReferrer-Policy: no-referrer\r\n\
Content-Security-Policy: default-src 'none'; script-src 'unsafe-inline'; style-src 'unsafe-inline'; connect-src 'self'; \
img-src data:; base-uri 'none'; form-action 'none'; frame-ancestors 'none'\r\n\r\n";

/// The head of an event stream.
///
/// HTML, section 9.2.
const EVENTS_HEAD: &str = "\
HTTP/1.1 200 OK\r\nContent-Type: text/event-stream\r\nCache-Control: no-store\r\nConnection: close\r\n\
Cross-Origin-Resource-Policy: same-origin\r\n\
X-Content-Type-Options: nosniff\r\nX-Frame-Options: DENY\r\n\r\n";

/// The head of an answer to a call that was handed on.
const CALL_HEAD: &str =
    "HTTP/1.1 204 No Content\r\nCache-Control: no-store\r\nConnection: close\r\n\
     Cross-Origin-Resource-Policy: same-origin\r\n\r\n";

/// The head of a record, which ends with its stream.
const RECORD_HEAD: &str = "\
HTTP/1.1 200 OK\r\nContent-Type: text/plain; charset=utf-8\r\nContent-Disposition: attachment; filename=record.trace\r\n\
Cache-Control: no-store\r\nConnection: close\r\n\
Cross-Origin-Resource-Policy: same-origin\r\nX-Content-Type-Options: nosniff\r\nX-Frame-Options: DENY\r\n\r\n";

/// The head of a capture file.
const CAPTURE_HEAD: &str = "\
HTTP/1.1 200 OK\r\nContent-Type: application/vnd.tcpdump.pcap\r\nContent-Disposition: attachment; filename=record.pcap\r\n\
Cache-Control: no-store\r\nConnection: close\r\n\
Cross-Origin-Resource-Policy: same-origin\r\nX-Content-Type-Options: nosniff\r\nX-Frame-Options: DENY\r\n\r\n";

/// The head of an answer. A refusal is whole with it.
pub fn head_of(answer: PageAnswer) -> &'static str {
    match answer {
        PageAnswer::Page => PAGE_HEAD,
        PageAnswer::Events => EVENTS_HEAD,
        PageAnswer::Call(_) => CALL_HEAD,
        PageAnswer::Record => RECORD_HEAD,
        PageAnswer::Capture => CAPTURE_HEAD,
        PageAnswer::Refused(refusal) => refusal_text(refusal),
    }
}

/// The whole answer of a refusal.
///
/// RFC 9110, section 15.5.
pub fn refusal_text(refusal: PageRefusal) -> &'static str {
    match refusal {
        PageRefusal::Bad => {
            "HTTP/1.1 400 Bad Request\r\nContent-Length: 14\r\nConnection: close\r\n\
             Cross-Origin-Resource-Policy: same-origin\r\n\r\nno such thing\n"
        }
        PageRefusal::Forbidden => {
            "HTTP/1.1 403 Forbidden\r\nContent-Length: 14\r\nConnection: close\r\n\
             Cross-Origin-Resource-Policy: same-origin\r\n\r\nnot from here\n"
        }
        PageRefusal::NotFound => {
            "HTTP/1.1 404 Not Found\r\nContent-Length: 14\r\nConnection: close\r\n\
             Cross-Origin-Resource-Policy: same-origin\r\n\r\nnothing there\n"
        }
        PageRefusal::NotAllowed => {
            "HTTP/1.1 405 Method Not Allowed\r\nAllow: GET, POST\r\nContent-Length: 16\r\nConnection: close\r\n\
             Cross-Origin-Resource-Policy: same-origin\r\n\r\nnot that method\n"
        }
        PageRefusal::Late => {
            "HTTP/1.1 408 Request Timeout\r\nContent-Length: 9\r\nConnection: close\r\n\
             Cross-Origin-Resource-Policy: same-origin\r\n\r\ntoo late\n"
        }
        PageRefusal::TooLarge => {
            "HTTP/1.1 413 Content Too Large\r\nContent-Length: 9\r\nConnection: close\r\n\
             Cross-Origin-Resource-Policy: same-origin\r\n\r\ntoo long\n"
        }
        PageRefusal::Busy => {
            "HTTP/1.1 503 Service Unavailable\r\nContent-Length: 5\r\nConnection: close\r\n\
             Cross-Origin-Resource-Policy: same-origin\r\n\r\nbusy\n"
        }
    }
}

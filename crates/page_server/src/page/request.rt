//! What a request asks for, and what a page allows.

/// The method of a request.
///
/// RFC 9110, section 9.
#[derive(Clone, Copy, PartialEq, Eq)]
pub enum Method {
    Get,
    Post,
    /// Any other one.
    Other,
}

/// What the path of a request names.
#[derive(Clone, Copy, PartialEq, Eq)]
pub enum PagePath {
    /// `/`: the page.
    Page,
    /// `/events`: the event stream.
    Events,
    /// `/call`: a call of the application.
    Call,
    /// `/record`: the record.
    Record,
    /// `/record.pcap`: the record as a capture file.
    Capture,
    /// Any other path.
    Unknown,
}

/// The body that a request announces.
///
/// RFC 9112, section 6.
#[derive(Clone, Copy, PartialEq, Eq)]
pub enum Body {
    /// No body.
    Empty,
    /// A body of so many bytes, from 1 on.
    Bytes(usize),
    /// A body that has more bytes than a call may have.
    TooLong,
    /// A length that is no number, two lengths, or a body in chunks.
    Bad,
}

/// What a request asks for, and what it shows.
#[derive(Clone, Copy, PartialEq, Eq)]
pub struct PageRequest {
    pub method: Method,
    pub path: PagePath,
    /// Whether its one host is a name of the page, so that no name of a stranger leads here.
    pub has_own_host: bool,
    /// Whether another page makes it.
    pub is_foreign: bool,
    /// Whether it shows the word that the page has, so that only the page itself makes it.
    pub has_word: bool,
    /// Whether it shows the token that the station printed.
    pub has_token: bool,
    pub body: Body,
}

/// What a page allows.
#[derive(Clone, Copy, PartialEq, Eq)]
pub struct Allowed {
    /// Calls of the application.
    pub writes: bool,
    /// The record.
    pub record: bool,
}

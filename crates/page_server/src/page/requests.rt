//! The head of a request, as a browser sends it.

ghost use Rattle.std.specs.Prelude.{◌≡◌, option_map, string_bytes, IfOk, IsUtf8};
ghost use Rattle.page_server.specs.Page.Requests.{AreNames, Announces, Shows, ReadsAs, found_at, found_in, has_other_origin, host_at, is_foreign, is_given, is_named, is_of_other_site, is_own, is_own_host, is_own_token, is_token, is_word, text_at, view_field};
ghost use Rattle.page_server.specs.Page.Values.{body_of};

use crate::page::request::{Body, PageRequest};
use crate::page::values::{body_of, is_from_host, is_other_site, method_of, path_of, split_target};
use cip_types::{Node, OutOfMemory};
use httparse::Status;
use httparse::spans::{EMPTY_HEADER_SPAN, HeaderSpan, RequestSpans, Span, parse_request};
use std::alloc::Global;
use std::str;
use trace_words::push_node;

/// The head of a request has at most so many fields.
const MOST_FIELDS: usize = 48;

/// The names of a page, which a request has to use, the word that only the page itself has, and the token that its calls have
/// to show.
#[derive(Drop)]
pub struct OwnNames {
    address: String,
    local: String,
    host: Option<String>,
    word: Vec<u8>,
    token: Vec<u8>,
}

impl OwnNames {
    /// The names of a page at this address and port: that address, `localhost`, and the name of the host that is given. The
    /// fault: an allocation was refused.
    pub fn new(
        alloc: Global,
        address: Node,
        port: u16,
        host: Option<&str>,
        secrets: Secrets<'_>,
    ) -> Result<OwnNames, OutOfMemory>
        ensures { IfOk result (AreNames address port (option_map (λ name. name.now) host.entry)
            secrets.entry.word.now secrets.entry.token.now) }
    {
        let mut name = String::new(alloc);
        push_node(&mut name, address)?;
        write!(name, ":{port}")?;
        Ok(OwnNames {
            address: name,
            local: format!(in alloc; "localhost:{port}")?,
            host: host_at(alloc, host, port)?,
            word: Vec::from_slice(alloc, secrets.word)?,
            token: Vec::from_slice(alloc, secrets.token)?,
        })
    }

    /// The word of the page.
    pub fn word(&self) -> &[u8]
        ensures { result.now ≡ self.now.word.items }
    {
        self.word.as_slice()
    }

    /// Whether a host is a name of the page.
    fn is_own(&self, host: &[u8]) -> bool
        ensures { result ≡ is_own self.now host.now }
    {
        host == self.address.as_bytes() || host == self.local.as_bytes() || self.is_given(host)
    }

    /// Whether a host is the name that was given, whatever the case of its letters.
    fn is_given(&self, host: &[u8]) -> bool
        ensures { result ≡ is_given self.now host.now }
    {
        match &self.host {
            Some(name) => is_named(host, name.as_bytes()),
            None => false,
        }
    }

    /// Whether a head has a host that is a name of the page.
    fn is_own_host(&self, host: Field<'_>) -> bool
        ensures { result ≡ is_own_host self.now (view_field host.entry) }
    {
        match host {
            Field::One(host) => self.is_own(host),
            _ => false,
        }
    }

    /// Whether a word is the page's, which is not empty.
    fn is_word(&self, word: &[u8]) -> bool
        ensures { result ≡ is_word self.now word.now }
    {
        !word.is_empty() && word == self.word.as_slice()
    }

    /// Whether a token is the page's, which is not empty.
    fn is_token(&self, token: &[u8]) -> bool
        ensures { result ≡ is_token self.now token.now }
    {
        !token.is_empty() && token == self.token.as_slice()
    }

    /// Whether a head shows the page's token.
    fn is_own_token(&self, token: Field<'_>) -> bool
        ensures { result ≡ is_own_token self.now (view_field token.entry) }
    {
        match token {
            Field::One(token) => self.is_token(token),
            _ => false,
        }
    }
}

/// What a page tells to few: the word to itself, and the token to who reads the station's reports.
#[derive(Clone, Copy)]
pub struct Secrets<'a> {
    pub word: &'a [u8],
    pub token: &'a [u8],
}

/// A name of the host with a port.
fn host_at(alloc: Global, host: Option<&str>, port: u16) -> Result<Option<String>, OutOfMemory>
    ensures { IfOk result (λ named. option_map (λ name. string_bytes name) named
        ≡ host_at (option_map (λ name. name.now) host.entry) port) }
{
    match host {
        Some(name) => Ok(Some(format!(in alloc; "{name}:{port}")?)),
        None => Ok(None),
    }
}

/// What the bytes that arrived so far are.
#[derive(Clone, Copy, PartialEq, Eq)]
pub enum RequestReading {
    /// The front of a head.
    Partial,
    /// No request.
    Bad,
    /// A whole head of so many bytes, which asks for this.
    Whole(PageRequest, usize),
}

/// What the bytes that arrived so far ask of the page with these names.
///
/// RFC 9112, sections 2 to 5.
pub fn read_request(bytes: &[u8], names: &OwnNames) -> RequestReading
    ensures { ReadsAs names.now bytes.now result }
{
    let mut fields = [EMPTY_HEADER_SPAN; MOST_FIELDS];
    match parse_request(bytes, &mut fields) {
        Ok(Status::Complete(spans)) => {
            let known = fields.get(..spans.headers).unwrap_or(&[]);
            RequestReading::Whole(request_in(names, bytes, &spans, known), spans.len)
        }
        Ok(Status::Partial) => RequestReading::Partial,
        Err(_) => RequestReading::Bad,
    }
}

/// What a whole head asks for.
fn request_in(
    names: &OwnNames,
    bytes: &[u8],
    spans: &RequestSpans,
    fields: &[HeaderSpan],
) -> PageRequest
    ensures { Shows names.now bytes.now spans.now fields.now result }
{
    let host = sole(bytes, fields, b"host");
    let origin = sole(bytes, fields, b"origin");
    let site = sole(bytes, fields, b"sec-fetch-site");
    let token = sole(bytes, fields, b"x-station-token");
    let coding = sole(bytes, fields, b"transfer-encoding");
    let count = sole(bytes, fields, b"content-length");
    let (path, query) = split_target(text_at(bytes, spans.path));
    PageRequest {
        method: method_of(text_at(bytes, spans.method)),
        path: path_of(path),
        has_own_host: names.is_own_host(host),
        is_foreign: is_foreign(host, origin, site),
        has_word: names.is_word(query),
        has_token: names.is_own_token(token),
        body: announced(coding, count),
    }
}

/// A field of a head.
#[derive(Clone, Copy)]
enum Field<'a> {
    /// The head does not have it.
    Missing,
    /// The head has it once, with this value.
    One(&'a [u8]),
    /// The head has it more than once.
    Several,
}

/// The field of a name.
fn sole<'a>(bytes: &'a [u8], fields: &[HeaderSpan], name: &[u8]) -> Field<'a>
    ensures { view_field result ≡ found_in bytes.entry.now name.now fields.now }
{
    let mut found = Field::Missing;
    for field in fields {
        found = found_at(bytes, name, found, field);
    }
    found
}

/// What was found so far of a field, and with one field more.
fn found_at<'a>(bytes: &'a [u8], name: &[u8], found: Field<'a>, field: &HeaderSpan) -> Field<'a>
    ensures { view_field result ≡ found_at bytes.entry.now name.now (view_field found.entry) field.now }
{
    if !is_named(text_at(bytes, field.name), name) {
        return found;
    }
    match found {
        Field::Missing => Field::One(text_at(bytes, field.value)),
        _ => Field::Several,
    }
}

/// Whether a field has this name, whatever the case of its letters.
///
/// RFC 9110, section 5.1.
fn is_named(name: &[u8], other: &[u8]) -> bool
    ensures { result ≡ is_named name.now other.now }
{
    name.eq_ignore_ascii_case(other)
}

/// Whether another page makes a request: by its origin, or by what its browser says of the page's site.
fn is_foreign(host: Field<'_>, origin: Field<'_>, site: Field<'_>) -> bool
    ensures { result ≡ is_foreign (view_field host.entry) (view_field origin.entry) (view_field site.entry) }
{
    has_other_origin(host, origin) || is_of_other_site(site)
}

/// Whether a browser says that a page of another site makes a request, or another page of this host.
fn is_of_other_site(site: Field<'_>) -> bool
    ensures { result ≡ is_of_other_site (view_field site.entry) }
{
    match site {
        Field::Missing => false,
        Field::One(word) => is_other_site(word),
        Field::Several => true,
    }
}

/// Whether a request has an origin, and not that of its host.
fn has_other_origin(host: Field<'_>, origin: Field<'_>) -> bool
    ensures { result ≡ has_other_origin (view_field host.entry) (view_field origin.entry) }
{
    match (host, origin) {
        (_, Field::Missing) => false,
        (Field::One(host), Field::One(origin)) => !is_from_host(origin, host),
        _ => true,
    }
}

/// The body that a head with these fields announces.
///
/// RFC 9112, section 6.
fn announced(coding: Field<'_>, count: Field<'_>) -> Body
    ensures { Announces (view_field coding.entry) (view_field count.entry) result }
{
    match (coding, count) {
        (Field::Missing, Field::Missing) => Body::Empty,
        (Field::Missing, Field::One(digits)) => body_in(digits),
        _ => Body::Bad,
    }
}

/// The body of a length in digits. What is no text is no length.
fn body_in(digits: &[u8]) -> Body
    ensures { IsUtf8 digits.now → result ≡ body_of digits.now }
{
    match str::from_utf8(digits) {
        Ok(digits) => body_of(digits),
        Err(_) => Body::Bad,
    }
}

/// The bytes of a span.
fn text_at(bytes: &[u8], span: Span) -> &[u8]
    ensures { result.now ≡ text_at bytes.entry.now span }
{
    if span.start <= span.end && span.end <= bytes.len() {
        span.of(bytes)
    } else {
        &[]
    }
}

//! The head of a request.

use crate::buffer::LIMIT;
use crate::fault::Fault;
use httparse::spans::{EMPTY_HEADER_SPAN, HeaderSpan, RequestSpans, Span, parse_request};
use httparse::{Error, Status};

/// How many fields a head has at most.
const MOST_FIELDS: usize = 64;

/// The head of a request that may be answered.
#[derive(Clone, Copy, Debug)]
pub(crate) struct Head<'a> {
    pub(crate) target: &'a [u8],
    /// How many octets it has.
    pub(crate) len: usize,
    /// The connection ends after the answer.
    pub(crate) ends: bool,
}

/// What the fields of a head say.
#[derive(Clone, Copy, Debug)]
struct Fields {
    has_body: bool,
    closes: bool,
}

/// The octets of a span. httparse's lie in the octets that it was given.
fn part(octets: &[u8], span: Span) -> &[u8] {
    match octets.get(span.start..span.end) {
        Some(its) => its,
        None => &[],
    }
}

/// The octets from a place on.
fn part_after(octets: &[u8], place: usize) -> &[u8] {
    match octets.get(place..) {
        Some(its) => its,
        None => &[],
    }
}

/// Whether `close` is among the options with commas between (RFC 9110 section 7.6.1).
fn has_close(options: &[u8]) -> bool {
    let Ok(text) = str::from_utf8(options) else {
        return false;
    };
    for option in text.split(',') {
        if option.trim_ascii().eq_ignore_ascii_case("close") {
            return true;
        }
    }
    false
}

/// Adds what a field says.
fn add_field(fields: Fields, name: &[u8], value: &[u8]) -> Fields {
    let has_body = name.eq_ignore_ascii_case(b"transfer-encoding")
        || (name.eq_ignore_ascii_case(b"content-length") && !matches!(value, b"0"));
    let closes = name.eq_ignore_ascii_case(b"connection") && has_close(value);
    Fields {
        has_body: fields.has_body || has_body,
        closes: fields.closes || closes,
    }
}

/// What the fields at the first of these spans say.
fn fields_of(octets: &[u8], spans: &[HeaderSpan], count: usize) -> Fields {
    let mut fields = Fields {
        has_body: false,
        closes: false,
    };
    for span in spans.iter().take(count) {
        fields = add_field(fields, part(octets, span.name), part(octets, span.value));
    }
    fields
}

/// Whether the answer to the request at the front of the octets has a body: one to HEAD has none, also if its head is refused. Empty lines
/// before a request are passed over.
pub(crate) fn lacks_body(octets: &[u8]) -> bool {
    for (place, octet) in octets.iter().enumerate() {
        if !matches!(*octet, b'\r' | b'\n') {
            return !part_after(octets, place).starts_with(b"HEAD ");
        }
    }
    true
}

/// The head at these spans, if its request may be answered.
fn checked<'a>(octets: &'a [u8], spans: &RequestSpans, fields: Fields) -> Result<Head<'a>, Fault> {
    match part(octets, spans.method) {
        b"GET" => {}
        b"HEAD" => {}
        _ => return Err(Fault::OtherMethod),
    }
    if fields.has_body {
        return Err(Fault::HasBody);
    }
    Ok(Head {
        target: part(octets, spans.path),
        len: spans.len,
        ends: fields.closes || spans.version == 0,
    })
}

/// The head of the request at the front of the octets; none, while it isn't whole and may still become one.
pub(crate) fn head_of(octets: &[u8]) -> Result<Option<Head<'_>>, Fault> {
    let mut spans = [EMPTY_HEADER_SPAN; MOST_FIELDS];
    match parse_request(octets, &mut spans) {
        Ok(Status::Complete(request)) => {
            let fields = fields_of(octets, &spans, request.headers);
            match checked(octets, &request, fields) {
                Ok(head) => Ok(Some(head)),
                Err(fault) => Err(fault),
            }
        }
        Ok(Status::Partial) if octets.len() < LIMIT => Ok(None),
        Ok(Status::Partial) => Err(Fault::LongHead),
        Err(Error::TooManyHeaders) => Err(Fault::LongHead),
        Err(_) => Err(Fault::NotHttp),
    }
}

//! The head of a request: method, target and the header fields that the server uses.
ghost use Rattle.std.specs.Prelude.{◌≡◌, ◌+◌, ◌<◌, length, map, Some, None, true, All, Option};
ghost use Rattle.std.specs.Prelude.{option_map};
ghost use Rattle.std.specs.List.{list_all};
ghost use Rattle.std.specs.Char.{is_ascii_digit};
ghost use Rattle.std.specs.Str.Parse.{digits_value};
ghost use Rattle.httparse.specs.Grammar.{RequestHead};
ghost use Rattle.httparse.specs.Spans.{IsWithin, IsHeaderWithin, span_bytes, header_bytes};
ghost use Rattle.http_head.specs.Framing.{scan_start, end_from};
ghost use Rattle.http_head.specs.Head.{is_name, field_occurrence, is_number, number_of, named_length, has_good_host};
ghost use Rattle.http_head.specs.Head.{is_absent};
ghost use Rattle.http_head.specs.Head.{single_value, body_length, outline_from, outline_of, IsReadAs};
ghost use Rattle.http_head.specs.Head.{named_host_from, named_host_of};
ghost use Rattle.http_head.specs.internal.HeadViews.{named_host_view, occurrence_view, outline_result};

use crate::refusals::HeadRefusal;
use httparse::Status;
use httparse::spans::{EMPTY_HEADER_SPAN, HeaderSpan, RequestSpans, parse_request};

/// The occurrences of a header field.
#[derive(Clone, Copy)]
enum FieldOccurrence<'b> {
    Absent,
    Once(&'b [u8]),
    Twice,
}

/// The parts of a head that the server uses.
#[derive(Clone, Copy)]
pub struct ParsedHead<'b> {
    /// The method.
    pub method: &'b [u8],
    /// The request target.
    pub target: &'b [u8],
    /// The value of `Member-Key`, if the field occurs once.
    pub key: Option<&'b [u8]>,
    /// The length of the body in bytes.
    pub length: usize,
}

/// The host that a head names.
#[derive(Clone, Copy)]
pub struct NamedHost<'b> {
    /// The request target.
    pub target: &'b [u8],
    /// The value of `Host`; `None` in HTTP/1.0 without this field.
    pub host: Option<&'b [u8]>,
}

// Whether two field names are equal, ignoring ASCII case.
fn is_name(name: &[u8], other: &[u8]) -> bool
    ensures { result ≡ is_name name.now other.now }
{
    name.eq_ignore_ascii_case(other)
}

// The occurrences of a field name.
fn field<'b>(head: &'b [u8], spans: &[HeaderSpan], name: &[u8]) -> FieldOccurrence<'b>
    requires { All (IsHeaderWithin (length head.now)) spans.now }
    ensures { occurrence_view result ≡ field_occurrence name.now (map (header_bytes head.now) spans.now) }
{
    let mut found = FieldOccurrence::Absent;
    for span in spans {
        if is_name(name, span.name.of(head)) {
            match found {
                FieldOccurrence::Absent => found = FieldOccurrence::Once(span.value.of(head)),
                FieldOccurrence::Once(_) => return FieldOccurrence::Twice,
                FieldOccurrence::Twice => return FieldOccurrence::Twice,
            }
        }
    }
    found
}

fn has_digits(text: &[u8]) -> bool
    ensures { result ≡ list_all is_ascii_digit text.now }
{
    text.iter().all(|byte| byte.is_ascii_digit())
}

// Whether the text is 1 to 9 digits.
fn is_number(text: &[u8]) -> bool
    ensures { result ≡ is_number text.now }
{
    if text.is_empty() {
        return false;
    }
    if text.len() >= 10 {
        return false;
    }
    has_digits(text)
}

// The decimal value of the digits.
fn value_of(text: &[u8]) -> u32
    requires { is_number text.now ≡ true }
    ensures { result ≡ digits_value 10 text.now }
{
    let mut n: u32 = 0;
    for byte in text {
        n = n * 10 + u32::from(*byte - b'0');
    }
    n
}

/// Parses a number of 1 to 9 digits.
pub fn number_of(text: &[u8]) -> Option<u32>
    ensures { result ≡ number_of text.now }
{
    if is_number(text) {
        Some(value_of(text))
    } else {
        None
    }
}

// The value of `Content-Length`, if present; it may occur once only.
fn named_length(field: FieldOccurrence<'_>) -> Result<Option<u32>, HeadRefusal>
    ensures { result ≡ named_length (occurrence_view field.entry) }
{
    match field {
        FieldOccurrence::Absent => Ok(None),
        FieldOccurrence::Once(value) => match number_of(value) {
            None => Err(HeadRefusal::BadHead),
            Some(n) => Ok(Some(n)),
        },
        FieldOccurrence::Twice => Err(HeadRefusal::BadHead),
    }
}

// Whether `Host` occurs once, or is absent in HTTP/1.0 (RFC 9112, section 3.2).
fn has_good_host(minor: u8, field: FieldOccurrence<'_>) -> bool
    ensures { result ≡ has_good_host minor (occurrence_view field.entry) }
{
    match field {
        FieldOccurrence::Absent => minor == 0,
        FieldOccurrence::Once(_) => true,
        FieldOccurrence::Twice => false,
    }
}

fn is_absent(field: FieldOccurrence<'_>) -> bool
    ensures { result ≡ is_absent (occurrence_view field.entry) }
{
    match field {
        FieldOccurrence::Absent => true,
        FieldOccurrence::Once(_) => false,
        FieldOccurrence::Twice => false,
    }
}

// The value of a field that occurs once.
fn single_value<'b>(field: FieldOccurrence<'b>) -> Option<&'b [u8]>
    ensures { option_map (λ v. v.now) result ≡ single_value (occurrence_view field.entry) }
{
    match field {
        FieldOccurrence::Absent => None,
        FieldOccurrence::Once(value) => Some(value),
        FieldOccurrence::Twice => None,
    }
}

// The length of the body: a POST must name it, another request without one has no body.
fn body_length(method: &[u8], named: Option<u32>) -> Result<usize, HeadRefusal>
    ensures { result ≡ body_length method.now named }
{
    match named {
        None => {
            if method == b"POST".as_slice() {
                Err(HeadRefusal::NoLength)
            } else {
                Ok(0)
            }
        }
        Some(n) => {
            if n > 65536 {
                Err(HeadRefusal::TooLong)
            } else {
                Ok(n as usize)
            }
        }
    }
}

// Checks the fields of a parsed head, in the order of the refusals.
fn outline_from<'b>(
    head: &'b [u8],
    found: &RequestSpans,
    spans: &[HeaderSpan],
) -> Result<ParsedHead<'b>, HeadRefusal>
    requires method { IsWithin (length head.now) found.now.method }
    requires target { IsWithin (length head.now) found.now.path }
    requires fields { All (IsHeaderWithin (length head.now)) spans.now }
    ensures { outline_result result ≡ outline_from (span_bytes head.now found.now.method)
        (span_bytes head.now found.now.path)
        found.now.version (map (header_bytes head.now) spans.now) }
{
    let named = named_length(field(head, spans, b"Content-Length"))?;
    if !has_good_host(found.version, field(head, spans, b"Host")) {
        return Err(HeadRefusal::BadHost);
    }
    if !is_absent(field(head, spans, b"Transfer-Encoding")) {
        return Err(HeadRefusal::NotImplemented);
    }
    let method = found.method.of(head);
    let length = body_length(method, named)?;
    Ok(ParsedHead {
        method,
        target: found.path.of(head),
        key: single_value(field(head, spans, b"Member-Key")),
        length,
    })
}

/// Parses a head.
///
/// # Errors
///
/// The first `HeadRefusal` that applies, in the order of the specification `outline_of`.
pub(crate) fn read_head(head: &[u8], lines: usize) -> Result<ParsedHead<'_>, HeadRefusal>
    requires { end_from scan_start head.now ≡ Some (length head.now, lines) }
    ensures { (read : Option RequestHead) × IsReadAs lines head.now read ×
        (outline_result result ≡ outline_of lines read) }
{
    if lines > 65 {
        return Err(HeadRefusal::HeadTooLong);
    }
    let mut spans = [EMPTY_HEADER_SPAN; 64];
    match parse_request(head, &mut spans) {
        Ok(Status::Complete(found)) => {
            if found.len == head.len() {
                outline_from(head, &found, &spans[..found.headers])
            } else {
                Err(HeadRefusal::BadHead)
            }
        }
        Ok(Status::Partial) => Err(HeadRefusal::BadHead),
        Err(_) => Err(HeadRefusal::BadHead),
    }
}

// The target and the value of Host of a parsed head, unless a refusal comes before.
fn named_host_from<'b>(
    head: &'b [u8],
    found: &RequestSpans,
    spans: &[HeaderSpan],
) -> Option<NamedHost<'b>>
    requires target { IsWithin (length head.now) found.now.path }
    requires fields { All (IsHeaderWithin (length head.now)) spans.now }
    ensures { option_map named_host_view result ≡ named_host_from (span_bytes head.now found.now.path)
        found.now.version (map (header_bytes head.now) spans.now) }
{
    let host = field(head, spans, b"Host");
    match named_length(field(head, spans, b"Content-Length")) {
        Err(_) => None,
        Ok(_) => {
            if has_good_host(found.version, host) {
                Some(NamedHost {
                    target: found.path.of(head),
                    host: single_value(host),
                })
            } else {
                None
            }
        }
    }
}

/// The host that a head names; `None` if the head is refused for something that comes before the value of Host.
pub(crate) fn read_named_host(head: &[u8], lines: usize) -> Option<NamedHost<'_>>
    requires { end_from scan_start head.now ≡ Some (length head.now, lines) }
    ensures { (read : Option RequestHead) × IsReadAs lines head.now read ×
        (option_map named_host_view result ≡ named_host_of lines read) }
{
    if lines > 65 {
        return None;
    }
    let mut spans = [EMPTY_HEADER_SPAN; 64];
    match parse_request(head, &mut spans) {
        Ok(Status::Complete(found)) => {
            if found.len == head.len() {
                named_host_from(head, &found, &spans[..found.headers])
            } else {
                None
            }
        }
        Ok(Status::Partial) => None,
        Err(_) => None,
    }
}

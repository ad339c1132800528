//! Parsing of requests from any prefix of their bytes.
ghost use Rattle.std.specs.Prelude.{◌≡◌, Ok, length, option_map};
ghost use Rattle.http_head.specs.Head.{ParsedHead as outline};
ghost use Rattle.http_head.specs.internal.HeadViews.{named_host_view, outline_view};
ghost use Rattle.http_head.specs.Request.{Sees, ParseState as seen, body_seen, skip_line_breaks, begin_with_head};
ghost use Rattle.http_head.specs.Request.{asks_head, NamesHost};
ghost use Rattle.http_head.specs.internal.RequestViews.{seen_view};

use crate::framing::Scan;
use crate::head::{NamedHost, ParsedHead, read_head, read_named_host};
use crate::refusals::HeadRefusal;

/// A complete request.
#[derive(Clone, Copy)]
pub struct HttpRequest<'b> {
    /// The method.
    pub method: &'b [u8],
    /// The request target.
    pub target: &'b [u8],
    /// The value of `Member-Key`, if the field occurs once.
    pub key: Option<&'b [u8]>,
    /// The body.
    pub body: &'b [u8],
}

/// The result of parsing a prefix of a request.
#[derive(Clone, Copy)]
pub enum ParseState<'b> {
    /// More bytes are needed.
    Unfinished,
    /// The head is refused.
    Refused(HeadRefusal),
    /// The request is complete; further bytes are ignored.
    Whole(HttpRequest<'b>),
}

// A request from its parsed head and the bytes after it.
fn with_body<'b>(outline: ParsedHead<'b>, behind: &'b [u8]) -> ParseState<'b>
    ensures { seen_view result ≡ body_seen behind.now (Ok (outline_view outline.entry)) }
{
    if behind.len() < outline.length {
        return ParseState::Unfinished;
    }
    ParseState::Whole(HttpRequest {
        method: outline.method,
        target: outline.target,
        key: outline.key,
        body: &behind[..outline.length],
    })
}

/// The result of parsing, and whether the reply must have no body.
#[derive(Clone, Copy)]
pub struct Reading<'b> {
    /// The result of parsing.
    pub seen: ParseState<'b>,
    /// Whether the method is HEAD, whose reply has no body (RFC 9110, section 9.3.2).
    pub asks_head: bool,
}

/// The bytes without CR and LF at the front (RFC 9112, section 2.2).
pub fn skip_line_breaks(bytes: &[u8]) -> &[u8]
    ensures { result.now ≡ skip_line_breaks bytes.now }
{
    for (i, byte) in bytes.iter().enumerate() {
        if *byte != b'\r' && *byte != b'\n' {
            return &bytes[i..];
        }
    }
    &[]
}

// Whether the bytes begin with HEAD and a blank, after any CR and LF.
fn begin_with_head(bytes: &[u8]) -> bool
    ensures { result ≡ begin_with_head bytes.now }
{
    let rest = skip_line_breaks(bytes);
    let length = rest.len().min(5);
    &rest[..length] == b"HEAD ".as_slice()
}

/// Parses a prefix of a request.
///
/// # Guarantees
///
/// `seen`: the result is the one that the specification `Sees` allows; by `laws::one_reading` there is one only.
pub fn read_request(bytes: &[u8]) -> Reading<'_>
    ensures seen { Sees bytes.now (seen_view result.seen) }
    ensures asks_head { result.asks_head ≡ asks_head bytes.now }
{
    let limit = bytes.len().min(16384);
    match Scan::start().go_on(&bytes[..limit]) {
        None => {
            let front = bytes.len().min(16385);
            let asks_head = begin_with_head(&bytes[..front]);
            if bytes.len() > 16384 {
                Reading {
                    seen: ParseState::Refused(HeadRefusal::HeadTooLong),
                    asks_head,
                }
            } else {
                Reading {
                    seen: ParseState::Unfinished,
                    asks_head,
                }
            }
        }
        Some(end) => {
            let asks_head = begin_with_head(&bytes[..end.length]);
            match read_head(&bytes[..end.length], end.lines) {
                Err(refusal) => Reading {
                    seen: ParseState::Refused(refusal),
                    asks_head,
                },
                Ok(outline) => Reading {
                    seen: with_body(outline, &bytes[end.length..]),
                    asks_head,
                },
            }
        }
    }
}

/// The host that the head of a request names; `None` if the head is incomplete, or is refused for something that comes
/// before the value of Host.
pub fn named_host(bytes: &[u8]) -> Option<NamedHost<'_>>
    ensures { NamesHost bytes.now (option_map named_host_view result) }
{
    let most = bytes.len().min(16384);
    match Scan::start().go_on(&bytes[..most]) {
        None => None,
        Some(end) => read_named_host(&bytes[..end.length], end.lines),
    }
}

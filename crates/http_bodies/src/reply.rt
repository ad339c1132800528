//! The bytes of replies: status line, header fields and body (RFC 9112, section 2.1).
ghost use Rattle.std.specs.Prelude.{◌≡◌, IfOk, string_bytes, Some, None, unwrap_or, [], false};
ghost use Rattle.http.specs.StatusCode.{IsStatusCode, reason_phrase};
ghost use Rattle.serde_json.specs.Written.{compact_text, has_float};
ghost use Rattle.serde_json.specs.View.{view};
ghost use Rattle.http_bodies.specs.Reply.{kind_text, status_line, type_line, length_line, reply_head, reply_bytes};
ghost use Rattle.http_bodies.specs.Reply.{caching_lines, key_lines, further_lines, refusal_reply, error_data};
ghost use Rattle.http_bodies.specs.Reply.{fault_reply, retry_lines, shown_reply, policy_line, page_reply};
ghost use Rattle.http_bodies.specs.internal.ReplyViews.{lines_of};
ghost use Rattle.club_page.specs.Joined.{page};

use crate::refusals::{HttpRefusal, Method};
use club_page::{page_1, page_2, page_3, page_4, policy};
use club_requests::Refusal;
use http::StatusCode;
use serde_json::{Value, json};
use std::alloc::{AllocError, Global};

// The first allocation for the page, in bytes: all of it.
const PAGE_ROOM: usize = 112_640;

/// The content type of a body.
#[derive(Clone, Copy, Debug, PartialEq, Eq)]
pub enum ContentType {
    /// `application/json`.
    Json,
    /// `text/plain`.
    Plain,
    /// `text/html` in UTF-8.
    Html,
}

/// Whether a reply may be cached and its content type guessed.
#[derive(Clone, Copy, Debug, PartialEq, Eq)]
pub enum Caching {
    /// The reply says nothing about it.
    Unspecified,
    /// The reply forbids both.
    NoStore,
}

// The header lines that a reply adds: its own, then those about caching.
#[derive(Clone, Copy)]
struct FurtherLines<'a> {
    own: &'a str,
    caching: Caching,
}

// The header lines about caching.
fn caching_lines(caching: Caching) -> &'static str
    ensures { result.now ≡ caching_lines caching }
{
    match caching {
        Caching::Unspecified => "",
        Caching::NoStore => "Cache-Control: no-store\r\nX-Content-Type-Options: nosniff\r\n",
    }
}

// The value of `Content-Type`.
fn kind_text(kind: ContentType) -> &'static str
    ensures { result.now ≡ kind_text kind }
{
    match kind {
        ContentType::Json => "application/json",
        ContentType::Plain => "text/plain",
        ContentType::Html => "text/html; charset=utf-8",
    }
}

// The reason phrase of a status.
fn phrase(status: u16) -> &'static str
    requires { IsStatusCode status }
    ensures { result.now ≡ unwrap_or (reason_phrase status) [] }
{
    match StatusCode::from_u16(status) {
        Ok(code) => match code.canonical_reason() {
            Some(phrase) => phrase,
            None => "",
        },
        Err(_) => unreachable!(),
    }
}

fn status_line(alloc: Global, status: u16, phrase: &str) -> Result<String, AllocError>
    ensures { IfOk result (λ s. string_bytes s ≡ status_line status phrase.now) }
{
    let mut text = format!(in alloc; "HTTP/1.1 {status} ")?;
    text.push_str(phrase)?;
    text.push_str("\r\n")?;
    Ok(text)
}

fn type_line(alloc: Global, kind: &str) -> Result<String, AllocError>
    ensures { IfOk result (λ s. string_bytes s ≡ type_line kind.now) }
{
    format!(in alloc; "Content-Type: {kind}\r\n")
}

fn length_line(alloc: Global, n: usize) -> Result<String, AllocError>
    ensures { IfOk result (λ s. string_bytes s ≡ length_line n) }
{
    format!(in alloc; "Content-Length: {n}\r\n")
}

#[tactic(auto, unfolding(crate::specs::Reply::reply_head))]
fn reply_head(
    alloc: Global,
    status: u16,
    phrase: &str,
    kind: ContentType,
    body_length: usize,
    further: FurtherLines<'_>,
) -> Result<String, AllocError>
    ensures { IfOk result (λ s. string_bytes s ≡
        reply_head status phrase.now kind body_length (lines_of further.entry)) }
{
    let mut text = status_line(alloc, status, phrase)?;
    let kind_line = type_line(alloc, kind_text(kind))?;
    let length_line = length_line(alloc, body_length)?;
    text.push_str(kind_line.as_str())?;
    text.push_str(length_line.as_str())?;
    text.push_str("Connection: close\r\n")?;
    text.push_str(further.own)?;
    text.push_str(caching_lines(further.caching))?;
    text.push_str("\r\n")?;
    Ok(text)
}

// A reply, with or without its body. Its `Content-Length` is that of the body either way.
fn reply_bytes(
    alloc: Global,
    status: u16,
    kind: ContentType,
    further: FurtherLines<'_>,
    body: &[u8],
    without_body: bool,
) -> Result<Vec<u8>, AllocError>
    requires { IsStatusCode status }
    ensures { IfOk result (λ v. v.items ≡
        reply_bytes status kind (lines_of further.entry) body.now without_body) }
{
    let head = reply_head(alloc, status, phrase(status), kind, body.len(), further)?;
    let mut bytes = head.into_bytes();
    if !without_body {
        bytes.extend_from_slice(body)?;
    }
    Ok(bytes)
}

// The header line that names the authentication scheme, for an unknown key.
fn key_lines(refusal: Refusal) -> &'static str
    ensures { result.now ≡ key_lines refusal }
{
    match refusal {
        Refusal::UnknownKey => "WWW-Authenticate: Member-Key\r\n",
        _ => "",
    }
}

// The header lines that a refusal adds.
fn further_lines(refusal: HttpRefusal) -> &'static str
    ensures { result.now ≡ further_lines refusal }
{
    match refusal {
        HttpRefusal::WrongMethod(Method::Get) => "Allow: GET\r\n",
        HttpRefusal::WrongMethod(Method::Post) => "Allow: POST\r\n",
        HttpRefusal::Club(refusal) => key_lines(refusal),
        _ => "",
    }
}

// The JSON body of an error.
fn error_value(alloc: Global, number: u64, name: &str) -> Result<Value, AllocError>
    ensures { IfOk result (λ v. view v ≡ error_data number name.now) }
{
    json!(in alloc; {"error": number, "name": name})
}

/// A JSON value as compact text.
///
/// # Errors
///
/// `AllocError` if out of memory.
pub fn text_of(alloc: Global, value: &Value) -> Result<String, AllocError>
    requires { has_float (view value.now) ≡ false }
    ensures { IfOk result (λ s. string_bytes s ≡ compact_text (view value.now)) }
{
    value.to_string(alloc)
}

fn json_reply(
    alloc: Global,
    status: u16,
    further: FurtherLines<'_>,
    value: &Value,
    without_body: bool,
) -> Result<Vec<u8>, AllocError>
    requires status { IsStatusCode status }
    requires value { has_float (view value.now) ≡ false }
    ensures { IfOk result (λ v. v.items ≡
        reply_bytes status ContentType.Json (lines_of further.entry) (compact_text (view value.now)) without_body) }
{
    let body = text_of(alloc, value)?;
    reply_bytes(
        alloc,
        status,
        ContentType::Json,
        further,
        body.as_bytes(),
        without_body,
    )
}

fn error_reply(
    alloc: Global,
    status: u16,
    further: FurtherLines<'_>,
    number: u16,
    name: &str,
    without_body: bool,
) -> Result<Vec<u8>, AllocError>
    requires { IsStatusCode status }
    ensures { IfOk result (λ v. v.items ≡ reply_bytes status ContentType.Json (lines_of further.entry)
        (compact_text (error_data number name.now)) without_body) }
{
    let value = error_value(alloc, u64::from(number), name)?;
    json_reply(alloc, status, further, &value, without_body)
}

/// The reply to a refused request.
///
/// # Errors
///
/// `AllocError` if out of memory.
pub fn refusal_reply(
    alloc: Global,
    refusal: HttpRefusal,
    caching: Caching,
    without_body: bool,
) -> Result<Vec<u8>, AllocError>
    ensures { IfOk result (λ v. v.items ≡ refusal_reply refusal caching without_body) }
{
    let further = FurtherLines {
        own: further_lines(refusal),
        caching,
    };
    error_reply(
        alloc,
        refusal.status(),
        further,
        refusal.number(),
        refusal.name(),
        without_body,
    )
}

/// A 200 reply with a body of a content type.
///
/// # Errors
///
/// `AllocError` if out of memory.
pub fn shown_reply(
    alloc: Global,
    kind: ContentType,
    body: &[u8],
    caching: Caching,
    without_body: bool,
) -> Result<Vec<u8>, AllocError>
    ensures { IfOk result (λ v. v.items ≡ shown_reply kind body.now caching without_body) }
{
    let further = FurtherLines { own: "", caching };
    reply_bytes(alloc, 200, kind, further, body, without_body)
}

fn policy_line(alloc: Global, policy: &str) -> Result<String, AllocError>
    ensures { IfOk result (λ s. string_bytes s ≡ policy_line policy.now) }
{
    format!(in alloc; "Content-Security-Policy: {policy}\r\n")
}

// The members' page, which `club_page` stores in four parts.
#[tactic(auto, using(crate::proofs::PageLemmas::of_parts))]
fn page_text(alloc: Global) -> Result<String, AllocError>
    ensures { IfOk result (λ s. string_bytes s ≡ page) }
{
    let mut text = String::with_capacity(alloc, PAGE_ROOM)?;
    text.push_str(page_1())?;
    text.push_str(page_2())?;
    text.push_str(page_3())?;
    text.push_str(page_4())?;
    Ok(text)
}

/// The members' page, with its content security policy.
///
/// # Errors
///
/// `AllocError` if out of memory.
pub fn page_reply(
    alloc: Global,
    caching: Caching,
    without_body: bool,
) -> Result<Vec<u8>, AllocError>
    ensures { IfOk result (λ v. v.items ≡ page_reply caching without_body) }
{
    let line = policy_line(alloc, policy())?;
    let page = page_text(alloc)?;
    let further = FurtherLines {
        own: line.as_str(),
        caching,
    };
    reply_bytes(
        alloc,
        200,
        ContentType::Html,
        further,
        page.as_bytes(),
        without_body,
    )
}

// The header line that says when to try again, for a fault that passes soon.
fn retry_lines(passes_soon: bool) -> &'static str
    ensures { result.now ≡ retry_lines passes_soon }
{
    if passes_soon {
        "Retry-After: 2\r\n"
    } else {
        ""
    }
}

/// The 503 reply for a fault of the club, with its error number and name, and with `Retry-After` if the fault passes
/// soon.
///
/// # Errors
///
/// `AllocError` if out of memory.
pub fn fault_reply(
    alloc: Global,
    number: u16,
    name: &str,
    passes_soon: bool,
    caching: Caching,
    without_body: bool,
) -> Result<Vec<u8>, AllocError>
    ensures { IfOk result (λ v. v.items ≡ fault_reply number name.now passes_soon caching without_body) }
{
    let further = FurtherLines {
        own: retry_lines(passes_soon),
        caching,
    };
    error_reply(alloc, 503, further, number, name, without_body)
}

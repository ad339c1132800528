//! The check of the host that a request is for: loopback names and addresses, and names that the server is given.
//!
//! A page of another site that makes its own name an address of this machine (DNS rebinding) sends that name.
ghost use Rattle.std.specs.Prelude.{◌≡◌, IfOk, length, map, string_bytes};
ghost use Rattle.std.specs.Prelude.{Option, option_map};
ghost use Rattle.std.specs.List.{list_any};
ghost use Rattle.http_head.specs.Head.{NamedHost as Named, is_name};
ghost use Rattle.http_head.specs.Request.{NamesHost, asks_head};
ghost use Rattle.http_head.specs.internal.HeadViews.{named_host_view};
ghost use Rattle.http_bodies.specs.Reply.{refusal_reply};
ghost use Rattle.http_head.specs.declared.refusals.HeadRefusal.TheVariants.{BadHost};
ghost use Rattle.http_bodies.specs.declared.refusals.HttpRefusal.TheVariants.{Head};
ghost use Rattle.http_bodies.specs.declared.reply.Caching.TheVariants.{Unspecified};
ghost use Rattle.http_desk.specs.Hosts.{is_octet, is_loopback_address, is_known_host, is_port, is_port_part};
ghost use Rattle.http_desk.specs.Hosts.{has_known_host, is_accepted_host, requested_host, names_other_host, is_foreign};

use crate::routes::{front, rest_after, starts_with};
use http_bodies::{Caching, HttpRefusal, refusal_reply};
use http_head::{HeadRefusal, NamedHost, named_host, number_of, read_request};
use std::alloc::{AllocError, Global};

// Whether the text is 1 to 3 digits of a number up to 255.
fn is_octet(text: &[u8]) -> bool
    ensures { result ≡ is_octet text.now }
{
    if text.len() >= 4 {
        return false;
    }
    match number_of(text) {
        None => false,
        Some(n) => n < 256,
    }
}

// Whether the host is an address of 127.0.0.0/8.
fn is_loopback_address(host: &[u8]) -> bool
    ensures { result ≡ is_loopback_address host.now }
{
    if front(host, b'.') != b"127".as_slice() {
        return false;
    }
    let second = rest_after(host, b'.');
    if !is_octet(front(second, b'.')) {
        return false;
    }
    let third = rest_after(second, b'.');
    if !is_octet(front(third, b'.')) {
        return false;
    }
    is_octet(rest_after(third, b'.'))
}

// Whether two host names are equal, ignoring ASCII case.
fn is_same_name(host: &[u8], name: &[u8]) -> bool
    ensures { result ≡ is_name host.now name.now }
{
    host.eq_ignore_ascii_case(name)
}

// Whether one of the names is the host.
fn has_name(names: &[String], host: &[u8]) -> bool
    ensures { result ≡ list_any (λ name. is_name host.now (string_bytes name)) names.now }
{
    names.iter().any(|name| is_same_name(host, name.as_bytes()))
}

// Whether the host is one of the names.
fn is_among(names: &[String], host: &[u8]) -> bool
    ensures { result ≡ list_any (is_name host.now) (map string_bytes names.now) }
{
    has_name(names, host)
}

// Whether the host is `localhost`, an address of 127.0.0.0/8, or one of the names.
fn is_known_host(names: &[String], host: &[u8]) -> bool
    ensures { result ≡ is_known_host (map string_bytes names.now) host.now }
{
    if is_same_name(host, b"localhost") {
        return true;
    }
    if is_loopback_address(host) {
        return true;
    }
    is_among(names, host)
}

fn is_port(number: Option<u32>) -> bool
    ensures { result ≡ is_port number }
{
    match number {
        None => false,
        Some(n) => n > 0 && n < 65_536,
    }
}

// Whether the text is empty, or a colon and a port.
fn is_port_part(text: &[u8]) -> bool
    ensures { result ≡ is_port_part text.now }
{
    if text.is_empty() {
        return true;
    }
    if !starts_with(text, b":") {
        return false;
    }
    is_port(number_of(&text[1..]))
}

// Whether the value is a known host, with or without a port.
#[tactic(auto, using(crate::proofs::CutLemmas::before_le))]
fn has_known_host(names: &[String], value: &[u8]) -> bool
    ensures { result ≡ has_known_host (map string_bytes names.now) value.now }
{
    let host = front(value, b':');
    if !is_known_host(names, host) {
        return false;
    }
    is_port_part(&value[host.len()..])
}

// Whether the value is `[::1]` or a known host, with or without a port.
fn is_accepted_host(names: &[String], value: &[u8]) -> bool
    ensures { result ≡ is_accepted_host (map string_bytes names.now) value.now }
{
    if starts_with(value, b"[::1]") && value.len() >= 5 {
        return is_port_part(&value[5..]);
    }
    has_known_host(names, value)
}

// The host that a request is for: the authority of a target in absolute form, otherwise the value of Host.
fn requested_host<'b>(named: &NamedHost<'b>) -> Option<&'b [u8]>
    ensures { option_map (λ v. v.now) result ≡ requested_host (named_host_view named.now) }
{
    let target = front(named.target, b'?');
    if starts_with(target, b"http://") && target.len() >= 7 {
        return Some(front(&target[7..], b'/'));
    }
    named.host
}

// Whether a host is named that is not accepted.
fn names_other_host(names: &[String], named: Option<NamedHost<'_>>) -> bool
    ensures { result ≡ names_other_host (map string_bytes names.now) (option_map named_host_view named.entry) }
{
    match named {
        None => false,
        Some(named) => match requested_host(&named) {
            None => false,
            Some(value) => !is_accepted_host(names, value),
        },
    }
}

/// Whether these bytes of a request are for a host for which the server does not answer, and no refusal of the head
/// comes before that. Without names it answers for all hosts.
pub fn is_foreign(names: &[String], bytes: &[u8]) -> bool
    ensures { (named : Option Named) × NamesHost bytes.now named ×
        (result ≡ is_foreign (map string_bytes names.now) named) }
{
    let named = named_host(bytes);
    if names.is_empty() {
        return false;
    }
    names_other_host(names, named)
}

/// The reply to a request for another host.
///
/// # Errors
///
/// `AllocError` if out of memory.
pub fn foreign_reply(alloc: Global, bytes: &[u8]) -> Result<Vec<u8>, AllocError>
    ensures { IfOk result (λ v. v.items ≡ refusal_reply (Head BadHost) Unspecified (asks_head bytes.now)) }
{
    let without_body = read_request(bytes).asks_head;
    let refusal = HttpRefusal::Head(HeadRefusal::BadHost);
    refusal_reply(alloc, refusal, Caching::Unspecified, without_body)
}

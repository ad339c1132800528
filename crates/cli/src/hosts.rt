//! The host names of `serve --host`.

ghost use Rattle.std.specs.Prelude.{◌≡◌, map, string_bytes};
ghost use Rattle.std.specs.List.{list_all};
ghost use Rattle.cli.specs.Asked.{is_host_byte, is_host_name};
ghost use Rattle.cli.specs.internal.Asked.{IsTold};

use crate::words::BadWords;
use std::alloc::Global;

fn is_host_byte(byte: u8) -> bool
    ensures { result ≡ is_host_byte byte }
{
    byte.is_ascii_alphanumeric() || byte == b'.' || byte == b'_' || byte == b'-'
}

fn has_host_bytes(text: &[u8]) -> bool
    ensures { result ≡ list_all is_host_byte text.now }
{
    text.iter().all(|byte| is_host_byte(*byte))
}

// Whether the text is 1 to 253 letters, digits, `.`, `_` or `-`.
fn is_host_name(text: &str) -> bool
    ensures { result ≡ is_host_name text.now }
{
    if text.is_empty() {
        return false;
    }
    if text.len() >= 254 {
        return false;
    }
    has_host_bytes(text.as_bytes())
}

// Whether each of the texts is a host name.
fn are_all_names(hosts: &[String]) -> bool
    ensures { result ≡ list_all (λ host. is_host_name (string_bytes host)) hosts.now }
{
    hosts.iter().all(|host| is_host_name(host.as_str()))
}

/// Whether each of the texts is a host name.
pub(crate) fn are_host_names(hosts: &[String]) -> bool
    ensures { result ≡ list_all is_host_name (map string_bytes hosts.now) }
{
    are_all_names(hosts)
}

/// The error for a value of `--host` that is no host name.
pub(crate) fn bad_host(alloc: Global) -> BadWords
    ensures { IsTold result }
{
    let text =
        "error: a NAME after '--host' is 1 to 253 letters, digits, '.', '_' or '-', without a port\n";
    match String::from_str(alloc, text) {
        Ok(text) => BadWords::Text(text),
        Err(_) => BadWords::Memory,
    }
}

//! The status of a reply.
ghost use Rattle.std.specs.Prelude.{◌≡◌};
ghost use Rattle.http_bodies.specs.internal.Reply.{status_in};

use http_head::number_of;

/// The three-digit status in the status line of a reply; `None` if it has fewer than 12 bytes.
pub fn status_of(reply: &[u8]) -> Option<u32>
    ensures { result ≡ status_in reply.now }
{
    if reply.len() < 12 {
        return None;
    }
    number_of(&reply[9..12])
}

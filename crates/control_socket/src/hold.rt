//! The policy for releasing the file.

ghost use Rattle.std.specs.Prelude.{◌≡◌};
ghost use Rattle.control_socket.specs.internal.Holding.{should_release};

/// Whether the server must release the file to a process that waits for it.
///
/// First it serves the `owed` requests that were queued while the file was opened; `ready` requests are ready in all.
pub fn should_release(is_asked: bool, owed: usize, ready: usize) -> bool
    ensures { result ≡ should_release is_asked owed ready }
{
    is_asked && (owed == 0 || ready == 0)
}

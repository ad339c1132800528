//! Whose server a command line sends an order to.

ghost use Rattle.std.specs.Prelude.{◌≡◌};
ghost use Rattle.control_socket.specs.internal.Peers.{is_trusted};

use crate::listener::socket_path;
use crate::places::FilePlace;
use std::fs::{metadata, symlink_metadata};
use std::os::unix::fs::MetadataExt;
use std::os::unix::net::UnixStream;

// The user id of root, who can read the club's file anyway.
const ROOT: u32 = 0;

// Whether the server of the user `server` may receive orders for a file of the user `owner`.
fn is_trusted(server: u32, owner: u32) -> bool
    ensures { result ≡ is_trusted server owner }
{
    server == owner || server == ROOT
}

// Whether the control socket is one of the file's owner, or of root.
fn is_owners(rt: &HostRuntime, file: &str, socket: &str) -> bool {
    let Ok(club) = metadata(rt, file) else {
        return false;
    };
    let Ok(found) = symlink_metadata(rt, socket) else {
        return false;
    };
    is_trusted(found.uid(), club.uid())
}

/// Connects to the server that holds a file. `None` if there is none, or if its control socket belongs to another user
/// than the file's owner or root: such a server would receive keys, and could answer that an order was done.
pub(crate) fn connect(rt: &HostRuntime, file: &str) -> Option<UnixStream> {
    let place = FilePlace::find(rt, file).ok()?;
    let path = socket_path(rt.alloc(), place.file()).ok()?;
    if !is_owners(rt, file, path.as_str()) {
        return None;
    }
    let stream = UnixStream::connect(rt, path.as_str()).ok()?;
    // The socket may have been replaced before the connection was made.
    if !is_owners(rt, file, path.as_str()) {
        return None;
    }
    Some(stream)
}

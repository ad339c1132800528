//! Where the control socket of a file is, whatever path leads to the file.

ghost use Rattle.std.specs.Prelude.{◌≡◌};
ghost use Rattle.std.specs.Fs.{permissions_mode};
ghost use Rattle.control_socket.specs.internal.Modes.{socket_mode};

use std::fs::{File, Permissions, canonicalize};
use std::io;
use std::os::fd::AsRawFd;
use std::os::unix::fs::PermissionsExt;

// The longest path of a file whose control socket is bound at its own path: the address of a socket has 107 bytes at
// most, with the suffix.
const LONGEST_PATH: usize = 102;

/// A path of a club's file without symbolic links, which is short enough for a control socket beside it.
#[derive(Drop)]
pub(crate) struct FilePlace {
    file: String,
    // The folder of the file, which stays open while a long path is replaced by one through its descriptor.
    _folder: Option<File>,
}

impl FilePlace {
    /// The place of a file. All paths that lead to one file have the same.
    ///
    /// # Errors
    ///
    /// An `io::Error` if there is no such file, its folder cannot be opened, or if out of memory.
    pub(crate) fn find(rt: &HostRuntime, file: &str) -> io::Result<FilePlace> {
        let real = canonicalize(rt, file)?;
        let path = real.as_str();
        if path.len() <= LONGEST_PATH {
            return Ok(FilePlace {
                file: String::from_str(rt.alloc(), path)?,
                _folder: None,
            });
        }
        let (folder, name) = path.rsplit_once('/').unwrap_or(("/", path));
        let folder = File::open(rt, folder)?;
        Ok(FilePlace {
            file: format!(in rt.alloc(); "/proc/self/fd/{}/{name}", folder.as_raw_fd())?,
            _folder: Some(folder),
        })
    }

    /// The path of the file.
    pub(crate) fn file(&self) -> &str {
        self.file.as_str()
    }
}

/// The permissions of the control socket of a file with this mode: for the owner, and for the group if it may read and
/// write the file.
pub(crate) fn socket_permissions(file_mode: u32) -> Permissions
    ensures { permissions_mode result ≡ socket_mode file_mode }
{
    if file_mode / 8 % 8 >= 6 {
        Permissions::from_mode(0o660)
    } else {
        Permissions::from_mode(0o600)
    }
}

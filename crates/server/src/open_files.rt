//! The limit on the open files of this process, and the connections for which it leaves room.

ghost use Rattle.std.specs.Prelude.{◌≤◌, ◌<◌, ◌+◌};
ghost use Rattle.server.specs.declared.client_queues.TheConstants.{MOST_CLIENTS};
ghost use Rattle.server.specs.declared.open_files.TheConstants.{KEPT_FILES};

use crate::client_queues::MOST_CLIENTS;
use std::fs;

// The file in which Linux states the limits of the process.
const LIMITS: &str = "/proc/self/limits";

// The beginning of the line with the limit on open files; the soft limit is the next word.
const OPEN_FILES: &str = "Max open files";

// The folder in which Linux has an entry for each open file of the process.
const DESCRIPTORS: &str = "/proc/self/fd";

// The file descriptors that are kept for the database and for the connections of the control socket.
const KEPT_FILES: usize = 16;

// The soft limit on open files that a text of limits states.
fn limit_in(limits: &str) -> Option<usize> {
    for line in limits.lines() {
        if let Some(numbers) = line.strip_prefix(OPEN_FILES) {
            let soft = numbers.split_ascii_whitespace().next()?;
            return soft.parse().ok();
        }
    }
    None
}

// The soft limit on open files.
fn file_limit(rt: &HostRuntime) -> Option<usize> {
    let limits = fs::read_to_string(rt, LIMITS).ok()?;
    limit_in(limits.as_str())
}

// The number of open files, that of the folder which lists them included.
fn open_file_count(rt: &HostRuntime) -> Option<usize> {
    let mut count: usize = 0;
    for _ in fs::read_dir(rt, DESCRIPTORS).ok()? {
        count = count.saturating_add(1);
    }
    Some(count)
}

// The most connections at once of a process that has so many files open and may open `limit` files in all.
fn connections_within(limit: usize, used: usize) -> usize
    ensures some { 1 ≤ result }
    ensures most { result ≤ MOST_CLIENTS }
    ensures kept { used + KEPT_FILES < limit → result + used + KEPT_FILES ≤ limit }
    ensures all { used + KEPT_FILES < limit → result < MOST_CLIENTS → limit ≤ result + used + KEPT_FILES }
{
    limit
        .saturating_sub(used)
        .saturating_sub(KEPT_FILES)
        .min(MOST_CLIENTS)
        .max(1)
}

/// The most connections at once, by the limit on open files and the files that are open now: between 1 and
/// `MOST_CLIENTS`, and `MOST_CLIENTS` if the limit is not known.
pub(crate) fn most_connections(rt: &HostRuntime) -> usize {
    match (file_limit(rt), open_file_count(rt)) {
        (Some(limit), Some(used)) => connections_within(limit, used),
        _ => MOST_CLIENTS,
    }
}

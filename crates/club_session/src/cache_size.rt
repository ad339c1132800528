//! The size of a connection's page cache.

ghost use Rattle.std.specs.Prelude.{◌≡◌, ◌<◌};
ghost use Rattle.club_session.specs.internal.CacheSize.{cache_pages};

use crate::preflight::{OpenMode, page_bytes};
use std::fs::metadata;

// The least size for one order, in pages: each page is cleared when the connection is opened.
const PAGES_OF_AN_ORDER: u64 = 128;

// The least size where the file may grow, in pages.
const PAGES_OF_MANY: u64 = 2_000;

// The most memory for the cache of a large file, in bytes.
const MOST_BYTES: u64 = 134_217_728;

// The number of pages to keep of a file with this size and page size, in bytes.
fn pages_for(file_bytes: u64, page_bytes: u64, least: u64) -> u64
    requires { 0 < page_bytes }
    ensures { result ≡ cache_pages MOST_BYTES least file_bytes page_bytes }
{
    let pages = file_bytes / page_bytes;
    let wanted = pages.saturating_add(pages / 4);
    least.max(wanted.min(MOST_BYTES / page_bytes))
}

/// The number of pages of a file that a connection keeps in memory.
pub(crate) fn cache_pages(rt: &HostRuntime, file: &str, mode: OpenMode) -> usize {
    let least = match mode {
        OpenMode::Ordering => PAGES_OF_AN_ORDER,
        OpenMode::Making | OpenMode::Batching | OpenMode::Serving => PAGES_OF_MANY,
    };
    let file_bytes = metadata(rt, file).map_or(0, |found| found.len());
    pages_for(file_bytes, page_bytes(rt, file), least) as usize
}

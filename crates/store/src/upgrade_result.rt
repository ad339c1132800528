//! The result of an upgrade.

use store_tables::Version;

/// Which schema an upgrade found.
#[derive(Debug, Clone, Copy, PartialEq, Eq)]
pub enum Upgrade {
    /// This earlier schema, which is now the requested one.
    Done(Version),
    /// This schema, which is the requested one or a later one, and is unchanged.
    Already(Version),
}

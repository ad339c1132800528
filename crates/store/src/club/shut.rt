//! Whether a club is unavailable after a fault, and whether it has an arbiter.

ghost use Rattle.std.specs.Prelude.{◌≡◌};

use super::Club;
use sqlite::Alter;

impl<S: Alter> Club<S> {
    /// Whether an earlier call failed, so that every later call is refused.
    pub fn needs_reopening(&self) -> bool
        ensures { result ≡ self.now.needs_reopening }
    {
        self.needs_reopening
    }

    /// Whether the club has an arbiter: schema 3, otherwise schema 2.
    pub fn has_arbiter(&self) -> bool
        ensures { result ≡ self.now.has_arbiter }
    {
        self.has_arbiter
    }
}

//! Authentication: the member who has a key.

ghost use Rattle.std.specs.Prelude.{◌≡◌, ◌⊎◌, true, false, Err, IfOk, IfErr, OnOk, OnErr, is_ok, option_map};
ghost use Rattle.std.specs.Prelude.{string_bytes};
ghost use Rattle.sqlite.specs.State.{HasCleanDisk};
ghost use Rattle.sqlite.specs.Held.{state};
ghost use Rattle.store_tables.specs.Reading.{Reads};
ghost use Rattle.club_rows.specs.Club.{ClubState};
ghost use Rattle.store.specs.Clubs.{Asks};
ghost use Rattle.club_reads.specs.Keys.{member_by_key};

use super::{Club, version_of};
use crate::fault::StoreFault;
use club_reads::member_by_key;
use sqlite::Alter;
use std::alloc::Global;

impl<S: Alter> Club<S> {
    /// The name of the member who has this key now, if any. Changes nothing.
    ///
    /// # Errors
    ///
    /// - `StoreFault::Store`: a call of the database failed, or it holds rows that no club has.
    /// - `StoreFault::Memory`: out of memory.
    /// - `StoreFault::Reopen`: an earlier call failed.
    ///
    /// After any of these every later call returns `Reopen`.
    pub fn member_by_key(&mut self, alloc: Global, key: &str) -> Result<Option<String>, StoreFault>
        ensures shut { self.old.needs_reopening ≡ true → (result ≡ Err StoreFault.Reopen) × (self.new ≡ self.old) }
        ensures same_schema { self.new.has_arbiter ≡ self.old.has_arbiter }
        ensures stays_open { OnOk result (self.new.needs_reopening ≡ false) }
        ensures ends { OnErr result (self.new.needs_reopening ≡ true) }
        ensures possible_faults { IfErr result (λ fault. self.old.needs_reopening ≡ false →
            (fault ≡ StoreFault.Store) ⊎ (fault ≡ StoreFault.Memory)) }
        ensures reads { Reads (is_ok result) (state S.Store self.old.connection)
            (state S.Store self.new.connection) }
        ensures held { HasCleanDisk (state S.Store self.new.connection) → IfOk result (λ name. (s : ClubState) →
            Asks self.old.has_arbiter (state S.Store self.old.connection) s →
            option_map string_bytes name ≡ member_by_key s key.now) }
    {
        if self.needs_reopening {
            return Err(StoreFault::Reopen);
        }
        let version = version_of(self.has_arbiter);
        match member_by_key(alloc, version, &mut self.connection, key) {
            Ok(name) => Ok(name),
            Err(fault) => {
                self.needs_reopening = true;
                Err(StoreFault::from(fault))
            }
        }
    }
}

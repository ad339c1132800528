//! The contract of every command that needs an authenticated caller.

ghost use Rattle.std.specs.Prelude.{◌≡◌, ◌≤◌, IfOk, IsTrue, is_ok};
ghost use Rattle.sqlite.specs.State.{HasCleanDisk};
ghost use Rattle.sqlite.specs.Held.{state};
ghost use Rattle.club_core.specs.State.{Command, takes};
ghost use Rattle.club_rows.specs.Club.{ClubState, IsClub, StoresClub};
ghost use Rattle.club_rows.specs.Tables.{version_of};
ghost use Rattle.store_tables.specs.Reading.{Reads};
ghost use Rattle.club_changes.specs.internal.Steps.{caller_step, IsDecided};
ghost use Rattle.club_changes.specs.internal.Whole.{IsWhole};

use clocks::Moment;
use club_changes::CommandEffect;
use club_reads::LookupFault;
use club_requests::Caller;
use sqlite::{Alter, Connection};
use std::alloc::Global;
use store_tables::Version;

/// A command of an authenticated caller.
pub(crate) trait Decide {
    /// The command in the specification of the club.
    ghost command: { Self → Command };

    /// Decides the command at the effective timestamp, in a club of this version: its outcome, and the rows to write if
    /// it is accepted. Reads only.
    fn decide<S: Alter>(
        &self,
        alloc: Global,
        version: Version,
        conn: &mut Connection<S>,
        caller: Caller,
        moment: Moment,
    ) -> Result<CommandEffect, LookupFault>
        ensures reads { Reads (is_ok result) (state S.Store conn.old) (state S.Store conn.new) }
        ensures acts { IfOk result IsWhole }
        ensures step { HasCleanDisk (state S.Store conn.new) → IfOk result (λ d. (s : ClubState) → IsClub s →
            version ≡ version_of s → IsTrue (takes s (command self.now)) → s.last ≤ moment →
            StoresClub s (state S.Store conn.old) →
            IsDecided s (caller_step s moment caller (command self.now)) d) };
}

//! An open club: creation, opening, and the execution of one command.

ghost use Rattle.std.specs.Prelude.{◌&&◌, not};
ghost use Rattle.std.specs.Prelude.{◌≡◌, ◌≢◌, ◌≤◌, ◌⊎◌, ◌++◌, ◌∷◌, [], false, true, pos, Err, IfOk, IfErr, OnOk, OnErr};
ghost use Rattle.sqlite.specs.Effect.{IsDatabase};
ghost use Rattle.sqlite.specs.State.{HasCleanDisk, IsUnchanged};
ghost use Rattle.sqlite.specs.Held.{state};
ghost use Rattle.sqlite_trees.specs.View.{doubt};
ghost use Rattle.store_tables.specs.Placed.{HasTables, HasTablesOf};
ghost use Rattle.store_tables.specs.Contents.{IsExactlyEmpty, IsEmpty};
ghost use Rattle.store_tables.specs.Club.{IsExactly, Leaves};
ghost use Rattle.store_tables.specs.Migrations.{HoldsInVersion};
ghost use Rattle.store_tables.specs.Over.{alone, HoldsClubAmong, LeavesBeside};
ghost use Rattle.store_tables.specs.Room.{IsWithoutClub, LeavesNoClub};
ghost use Rattle.store_tables.specs.Reading.{KeepsContent, KeepsMay, OnlyReads, Reads};
ghost use Rattle.store_tables.specs.declared.names.Version.TheVariants.{V1, V2, V3};
ghost use Rattle.schema_match.specs.Shapes.{is_of_club};
ghost use Rattle.club_check.specs.ReasonIsRight.{IsRightFault};
ghost use Rattle.club_check.specs.RightTables.{NamesFirstDamaged};
ghost use Rattle.club_check.specs.Versions.{HasClub, HasToldTables, HoldsRows, IsOpenedAt};
ghost use Rattle.club_rows.specs.FirstSchema.{IsClubOf, IsFirstClub, first_tables, upgraded_to};
ghost use Rattle.store.specs.Histories.{IsReachable, IsHistory, answered_session, cut_session};
ghost use Rattle.store_tables.specs.internal.Changed.{FitsVersion, changed};
ghost use Rattle.store_tables.specs.Tables.{IsServed};
ghost use Rattle.store.specs.Clubs.{Asks, Serves, version_with};
ghost use Rattle.club_rows.specs.Tables.{version_of};
ghost use Rattle.club_changes.specs.Whole.{IsAccepted};
ghost use Rattle.club_core.specs.Answer.{answered, command_of, outcome_of};
ghost use Rattle.club_core.specs.State.{needs_arbiter, opening_state};
ghost use Rattle.club_rows.specs.Club.{ClubState, IsClub, tables};
ghost use Rattle.club_changes.specs.Steps.{request, club_step, club_next};

mod asking;
mod keys;
mod previews;
mod run;
mod sessions;
mod shut;

use crate::command::decide_request;
use crate::fault::StoreFault;
use clocks::Moment;
use club_changes::{CommandEffect, needs_arbiter};
use club_check::{OpenFault, check_database, fault_of};
use club_requests::{Command, Outcome, Who};
pub use run::Run;
pub use sessions::resume;
use sqlite::{Alter, Connection};
use std::alloc::Global;
use std::marker::Model;
use store_sql::{commit_changes, create_tables};
use store_tables::{Changes, Version};

/// A club's open database, over any store of `sqlite`. No transaction is open between calls.
#[derive(Drop)]
pub struct Club<S: Alter> {
    connection: Connection<S>,
    /// Whether the club has an arbiter: schema 3, otherwise schema 2.
    has_arbiter: bool,
    /// A call failed since the database was opened, so every later call is refused.
    needs_reopening: bool,
}

impl<S: Alter> Model for Club<S> {
    ghost use Rattle.std.specs.Prelude.{◌≡◌, false};
    ghost use Rattle.store.specs.Clubs.{Kept, kept_code};

    ghost Value = { Kept S };

    ghost coded = { kept_code S.code };

    ghost view = { λ c. record {
      connection = c.connection;
      has_arbiter = c.has_arbiter;
      needs_reopening = c.needs_reopening;
    } };

    ghost invariant = { λ c. c.connection.in_transaction ≡ false };
}

/// The schema version of a club with or without an arbiter.
fn version_of(has_arbiter: bool) -> Version
    ensures { result ≡ version_with has_arbiter }
{
    if has_arbiter {
        Version::V3
    } else {
        Version::V2
    }
}

/// Whether a club of this version has an arbiter.
fn is_third(version: Version) -> bool
    ensures { IsServed version → version_with result ≡ version }
{
    match version {
        Version::V1 => false,
        Version::V2 => false,
        Version::V3 => true,
    }
}

/// Whether only a club with an arbiter can record the command, and this club has none.
fn lacks_arbiter(has_arbiter: bool, command: &Command) -> bool
    ensures { result ≡ (not has_arbiter && needs_arbiter (command_of command.now)) }
{
    !has_arbiter && needs_arbiter(command)
}

/// A connection whose database was not accepted, with the reason.
#[derive(Drop)]
pub struct Unopened<S: Alter> {
    pub fault: OpenFault,
    pub conn: Connection<S>,
}

/// Creates the tables of an empty club, with an arbiter (schema 3) or without one (schema 2), in an empty database or
/// beside foreign tables, in one transaction with one commit. `_alloc` is not used.
///
/// # Errors
///
/// - `OpenFault::Foreign`: a club's table exists already; the database is unchanged.
/// - `OpenFault::Store`: a call of the database failed.
///
/// # Guarantees
///
/// `after_crash`, `behind_fault`: after an error or a crash there is the empty club or no club, and foreign tables keep
/// their rows. `begins`: the history of the new club, in its schema, is empty.
pub fn create<S: Alter>(
    _alloc: Global,
    conn: Connection<S>,
    has_arbiter: bool,
) -> Result<Club<S>, Unopened<S>>
    requires { conn.in_transaction ≡ false }
    ensures ready { IfOk result (λ club. club.needs_reopening ≡ false) }
    ensures schema { IfOk result (λ club. club.has_arbiter ≡ has_arbiter) }
    ensures stored { IfOk result (λ club. HasCleanDisk (state S.Store club.connection) → IsExactlyEmpty
        (state S.Store conn) → IsExactly (version_with has_arbiter)
        (tables (upgraded_to (version_with has_arbiter) opening_state)) (state S.Store club.connection)) }
    ensures fresh { IfOk result (λ club. HasCleanDisk (state S.Store club.connection) →
        ¬ HasTables V1 (state S.Store conn).now.schema) }
    ensures clean { IfOk result (λ club. doubt (state S.Store conn).is_clean ≤ doubt
        (state S.Store club.connection).is_clean) }
    ensures idle { IfErr result (λ u. u.conn.in_transaction ≡ false) }
    ensures possible_faults { IfErr result (λ u. (u.fault ≡ OpenFault.Foreign) ⊎ (u.fault ≡ OpenFault.Store)) }
    ensures empty { IfErr result (λ u. HasCleanDisk (state S.Store u.conn) → IsExactlyEmpty (state S.Store conn) →
        u.fault ≡ OpenFault.Store) }
    ensures fault { IfErr result (λ u. HasCleanDisk (state S.Store u.conn) → IsExactlyEmpty (state S.Store conn) →
        (db : _) → (state S.Store u.conn).may_leave db → IsEmpty db ⊎ Leaves (version_with has_arbiter)
        (tables (upgraded_to (version_with has_arbiter) opening_state)) db) }
    ensures begins { IfOk result (λ club. HasCleanDisk (state S.Store club.connection) → IsExactlyEmpty
        (state S.Store conn) → IsHistory (version_with has_arbiter) (version_with has_arbiter)
        (alone (version_with has_arbiter)) [] (state S.Store club.connection)) }
    ensures after_crash { IfErr result (λ u. HasCleanDisk (state S.Store u.conn) → IsExactlyEmpty (state S.Store conn) →
        (db : _) → (state S.Store u.conn).may_leave db → IsEmpty db ⊎
        IsReachable (version_with has_arbiter) (version_with has_arbiter) (alone (version_with has_arbiter)) [] db) }
    // Beside foreign tables, which keep their rows.
    ensures behind { IfOk result (λ club. HasCleanDisk (state S.Store club.connection) → (them : _) →
        them.version ≡ version_with has_arbiter → IsWithoutClub them (state S.Store conn) →
        IsHistory (version_with has_arbiter) (version_with has_arbiter) them [] (state S.Store club.connection)) }
    ensures behind_fault { IfErr result (λ u. HasCleanDisk (state S.Store u.conn) → (them : _) →
        them.version ≡ version_with has_arbiter → IsWithoutClub them (state S.Store conn) →
        (u.fault ≡ OpenFault.Store) × ((db : _) → (state S.Store u.conn).may_leave db → LeavesNoClub them db ⊎
        IsReachable (version_with has_arbiter) (version_with has_arbiter) them [] db)) }
    ensures stays { IfErr result (λ u. HasCleanDisk (state S.Store u.conn) →
        HasTables V1 (state S.Store conn).now.schema →
        KeepsMay (state S.Store conn) (state S.Store u.conn)) }
    ensures refused { IfErr result (λ u. HasCleanDisk (state S.Store u.conn) → u.fault ≡ OpenFault.Foreign → KeepsMay
        (state S.Store conn) (state S.Store u.conn)) }
    ensures known { IfErr result (λ u. doubt (state S.Store conn).is_clean ≤ doubt (state S.Store u.conn).is_clean) }
{
    let mut conn = conn;
    match create_tables(&mut conn, version_of(has_arbiter)) {
        Ok(()) => Ok(Club {
            connection: conn,
            has_arbiter,
            needs_reopening: false,
        }),
        Err(error) => Err(Unopened {
            fault: fault_of(error),
            conn,
        }),
    }
}

/// Opens the club of schema 2 or schema 3 in the connection's database, after checking every row (`check_database`).
/// Changes nothing.
///
/// # Errors
///
/// The errors of `check_database`, with the connection. Schema 1 is `OpenFault::Schema(1)`; see `upgrade`.
///
/// # Guarantees
///
/// `held`: the database holds a legal club. `accepts_sound`: a legal club is accepted, unless a call fails or memory
/// runs out.
pub fn adopt<S: Alter>(alloc: Global, conn: Connection<S>) -> Result<Club<S>, Unopened<S>>
    requires { conn.in_transaction ≡ false }
    ensures ready { IfOk result (λ club. club.needs_reopening ≡ false) }
    ensures found { IfOk result (λ club. HasCleanDisk (state S.Store club.connection) →
        IsOpenedAt (version_with club.has_arbiter) (state S.Store conn) →
        (s : _) × IsClubOf (version_with club.has_arbiter) s × IsExactly (version_with club.has_arbiter) (tables s)
        (state S.Store club.connection)) }
    ensures unchanged { IfOk result (λ club. HasCleanDisk (state S.Store club.connection) →
        HasToldTables (state S.Store conn).now →
        HasTablesOf (version_with club.has_arbiter) (state S.Store conn).now.schema × IsUnchanged (state S.Store conn)
        (state S.Store club.connection) × KeepsMay (state S.Store conn) (state S.Store club.connection)) }
    ensures held { IfOk result (λ club. HasCleanDisk (state S.Store club.connection) →
        HasToldTables (state S.Store conn).now → IsDatabase (state S.Store conn).now →
        (s : _) × IsClubOf (version_with club.has_arbiter) s ×
        HasClub (version_with club.has_arbiter) (state S.Store club.connection).now s) }
    ensures clean { IfOk result (λ club. doubt (state S.Store conn).is_clean ≤ doubt
        (state S.Store club.connection).is_clean) }
    // The schema is equivalent to a club's, whatever `CREATE` statements made it.
    ensures shape { IfOk result (λ club. is_of_club (version_with club.has_arbiter) (state S.Store conn).now.schema ≡
        true) }
    // Whatever tables there are.
    ensures kept { IfOk result (λ club. Reads true (state S.Store conn) (state S.Store club.connection)) }
    // The club of a legal state has an arbiter just where the state has one.
    ensures standing { IfOk result (λ club. HasCleanDisk (state S.Store club.connection) → (s : _) → IsClub s →
        HoldsRows (version_of s) (tables s) (state S.Store conn).now → club.has_arbiter ≡ s.has_arbiter) }
    ensures idle { IfErr result (λ u. u.conn.in_transaction ≡ false) }
    ensures reason_is_right { IfErr result (λ u. HasCleanDisk (state S.Store u.conn) →
        HasToldTables (state S.Store conn).now → IsRightFault V2 (state S.Store conn).now u.fault) }
    ensures first_damaged { IfErr result (λ u. HasCleanDisk (state S.Store u.conn) →
        HasToldTables (state S.Store conn).now → NamesFirstDamaged (state S.Store conn).now u.fault) }
    ensures older { IfOk result (λ club. HasCleanDisk (state S.Store club.connection) → (them : _) (s : _) →
        IsFirstClub s → IsServed them.version →
        ¬ HoldsInVersion V1 them (first_tables s) (state S.Store conn)) }
    ensures first { IfErr result (λ u. HasCleanDisk (state S.Store u.conn) → (them : _) (s : _) → IsFirstClub s →
        IsServed them.version → HoldsInVersion V1 them (first_tables s) (state S.Store conn) →
        is_of_club V1 (state S.Store conn).now.schema ≡ true → (u.fault ≡ OpenFault.Schema (pos 1))
        ⊎ ((u.fault ≡ OpenFault.Store) ⊎ (u.fault ≡ OpenFault.Memory))) }
    // A legal club, alone or beside foreign tables, is accepted.
    ensures accepts_sound { IfErr result (λ u. HasCleanDisk (state S.Store u.conn) → (s : _) → IsClub s →
        HoldsRows (version_of s) (tables s) (state S.Store conn).now →
        is_of_club (version_of s) (state S.Store conn).now.schema ≡ true →
        (u.fault ≡ OpenFault.Store) ⊎ (u.fault ≡ OpenFault.Memory)) }
    ensures reads { IfErr result (λ u. OnlyReads (state S.Store conn) (state S.Store u.conn)) }
{
    let mut conn = conn;
    match check_database(alloc, &mut conn) {
        Ok(version) => Ok(Club {
            connection: conn,
            has_arbiter: is_third(version),
            needs_reopening: false,
        }),
        Err(fault) => Err(Unopened { fault, conn }),
    }
}

impl<S: Alter> Club<S> {
    /// Returns the connection, also after a fault.
    pub fn into_connection(self) -> Connection<S>
        ensures same { result ≡ self.connection }
        ensures idle { result.in_transaction ≡ false }
    {
        let Club {
            connection,
            has_arbiter: _,
            needs_reopening: _,
        } = self;
        connection
    }

    /// Writes all rows in one transaction with one commit. After a fault every later call returns `Reopen`.
    pub(crate) fn apply_changes(&mut self, changes: &Changes) -> Result<(), StoreFault>
        ensures clean { doubt (state S.Store self.old.connection).is_clean ≤ doubt
            (state S.Store self.new.connection).is_clean }
        ensures shut { self.old.needs_reopening ≡ true → (result ≡ Err StoreFault.Reopen) × (self.new ≡ self.old) }
        ensures same_schema { self.new.has_arbiter ≡ self.old.has_arbiter }
        ensures stays_open { OnOk result (self.new.needs_reopening ≡ false) }
        ensures ends { OnErr result (self.new.needs_reopening ≡ true) }
        ensures possible_faults { IfErr result (λ fault. self.old.needs_reopening ≡ false → fault ≡ StoreFault.Store) }
        ensures stored { HasCleanDisk (state S.Store self.new.connection) → OnOk result (
            FitsVersion (version_with self.old.has_arbiter) changes.now → (them : _) (content : _) →
            them.version ≡ version_with self.old.has_arbiter →
            HoldsClubAmong them content (state S.Store self.old.connection) →
            HoldsClubAmong them (changed (version_with self.old.has_arbiter) changes.now content)
            (state S.Store self.new.connection)) }
        ensures fault { HasCleanDisk (state S.Store self.new.connection) →
            OnErr result (self.old.needs_reopening ≡ false →
            FitsVersion (version_with self.old.has_arbiter) changes.now → (them : _) (content : _) →
            them.version ≡ version_with self.old.has_arbiter →
            HoldsClubAmong them content (state S.Store self.old.connection) → (db : _) →
            (state S.Store self.new.connection).may_leave db → LeavesBeside them content db ⊎
            LeavesBeside them (changed (version_with self.old.has_arbiter) changes.now content) db) }
    {
        if self.needs_reopening {
            return Err(StoreFault::Reopen);
        }
        let version = version_of(self.has_arbiter);
        match commit_changes(&mut self.connection, version, changes) {
            Ok(()) => Ok(()),
            Err(_) => {
                self.needs_reopening = true;
                Err(StoreFault::Store)
            }
        }
    }

    /// Executes one command atomically. An accepted command is one transaction with one commit; any other changes
    /// nothing.
    ///
    /// # Errors
    ///
    /// - `StoreFault::Store`: a call of the database failed, or it holds rows that no club has.
    /// - `StoreFault::Memory`: out of memory.
    /// - `StoreFault::Reopen`: an earlier call failed; nothing was done.
    ///
    /// After any of these every later call returns `Reopen`.
    ///
    /// - `StoreFault::Schema(2)`: a club without an arbiter cannot record the command; nothing was done, without a call
    ///   of the database, and the club stays open.
    ///
    /// # Guarantees
    ///
    /// `answer`, `step`: the outcome and the new state are those of the club's specification. `fault`, `after_crash`:
    /// after an error or a crash the file holds the state before or after the command. `schema`: only an arbiter's
    /// command to a club without an arbiter is `Schema(2)`, and changes nothing. The tables stay in their schema.
    pub fn apply(
        &mut self,
        alloc: Global,
        who: &Who,
        command: &Command,
        moment: Moment,
    ) -> Result<Outcome, StoreFault>
        ensures shut { self.old.needs_reopening ≡ true → (result ≡ Err StoreFault.Reopen) × (self.new ≡ self.old) }
        ensures same_schema { self.new.has_arbiter ≡ self.old.has_arbiter }
        ensures stays_open { OnOk result (self.new.needs_reopening ≡ false) }
        ensures ends { IfErr result (λ fault. fault ≢ StoreFault.Schema (pos 2) → self.new.needs_reopening ≡ true) }
        ensures possible_faults { IfErr result (λ fault. self.old.needs_reopening ≡ false →
            (fault ≡ StoreFault.Store) ⊎ ((fault ≡ StoreFault.Memory) ⊎ (fault ≡ StoreFault.Schema (pos 2)))) }
        ensures schema { self.old.needs_reopening ≡ false → self.old.has_arbiter ≡ false →
            needs_arbiter (command_of command.now) ≡ true →
            (result ≡ Err (StoreFault.Schema (pos 2))) × (self.new ≡ self.old) }
        ensures other_schema { result ≡ Err (StoreFault.Schema (pos 2)) → (self.old.has_arbiter ≡ false) ×
            (needs_arbiter (command_of command.now) ≡ true) }
        ensures clean { doubt (state S.Store self.old.connection).is_clean ≤ doubt
            (state S.Store self.new.connection).is_clean }
        ensures answer { HasCleanDisk (state S.Store self.new.connection) → IfOk result (λ outcome. (s : ClubState) →
            Asks self.old.has_arbiter (state S.Store self.old.connection) s →
            outcome_of outcome ≡ answered (club_step s (request who.now command.now moment))) }
        ensures step { HasCleanDisk (state S.Store self.new.connection) → OnOk result ((them : _) (s : ClubState) →
            Serves self.old.has_arbiter (state S.Store self.old.connection) them s →
            HoldsClubAmong them (tables (club_next s (request who.now command.now moment)))
            (state S.Store self.new.connection)) }
        ensures fault { HasCleanDisk (state S.Store self.new.connection) →
            OnErr result (self.old.needs_reopening ≡ false → (them : _) (s : ClubState) →
            Serves self.old.has_arbiter (state S.Store self.old.connection) them s →
            (db : _) → (state S.Store self.new.connection).may_leave db → LeavesBeside them (tables s) db ⊎
            LeavesBeside them (tables (club_next s (request who.now command.now moment))) db) }
        ensures stands { HasCleanDisk (state S.Store self.new.connection) → IfOk result (λ outcome.
            (from : _) (them : _) (sessions : _) →
            IsHistory from (version_with self.old.has_arbiter) them sessions (state S.Store self.old.connection) →
            IsHistory from (version_with self.old.has_arbiter) them
            (sessions ++ answered_session (request who.now command.now moment) outcome ∷ [])
            (state S.Store self.new.connection)) }
        ensures after_crash { HasCleanDisk (state S.Store self.new.connection) →
            OnErr result (self.old.needs_reopening ≡ false → (from : _) (them : _) (sessions : _) →
            IsHistory from (version_with self.old.has_arbiter) them sessions (state S.Store self.old.connection) →
            (db : _) → (state S.Store self.new.connection).may_leave db →
            IsReachable from (version_with self.old.has_arbiter) them
            (sessions ++ cut_session (request who.now command.now moment) ∷ []) db) }
        ensures unchanged { HasCleanDisk (state S.Store self.new.connection) → IfOk result (λ outcome.
            ¬ IsAccepted outcome → KeepsContent (state S.Store self.old.connection)
            (state S.Store self.new.connection)) }
    {
        if self.needs_reopening {
            return Err(StoreFault::Reopen);
        }
        if lacks_arbiter(self.has_arbiter, command) {
            return Err(StoreFault::Schema(2));
        }
        let _within = moment.seconds();
        let version = version_of(self.has_arbiter);
        let decided = match decide_request(
            alloc,
            version,
            &mut self.connection,
            who,
            command,
            moment,
        ) {
            Ok(decided) => decided,
            Err(fault) => {
                self.needs_reopening = true;
                return Err(StoreFault::from(fault));
            }
        };
        let CommandEffect { outcome, changes } = decided;
        match changes {
            Some(changes) => match self.apply_changes(&changes) {
                Ok(()) => Ok(outcome),
                Err(fault) => Err(fault),
            },
            None => Ok(outcome),
        }
    }
}

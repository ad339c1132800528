//! Commits the rows that a command changes in one transaction.

ghost use Rattle.std.specs.Prelude.{◌≡◌, ◌≤◌, ◌⊎◌, false, [], ◌∷◌, IsTrue, OnOk, OnErr, map};
ghost use Rattle.std.specs.Option.{option_map};
ghost use Rattle.sqlite.specs.State.{HasCleanDisk, Survives};
ghost use Rattle.sqlite.specs.Held.{state};
ghost use Rattle.sqlite_trees.specs.View.{doubt};
ghost use Rattle.store_tables.specs.Over.{HoldsClubAmong, LeavesBeside};
ghost use Rattle.store_tables.specs.internal.Over.{HoldsBeside, StepsBeside};
ghost use Rattle.store_tables.specs.Placed.{TakesClub};
ghost use Rattle.store_tables.specs.Tables.{IsServed};
ghost use Rattle.store_tables.specs.internal.Changed.{FitsVersion, people_put, play_put, counts_put, rulings_put};
ghost use Rattle.store_tables.specs.internal.Changed.{meta_at, meta_put, changed};
ghost use Rattle.store_tables.specs.internal.Cells.{meta_cells};

use crate::upsert::{Upsert, put_all};
use sqlite::{Alter, Connection, Error, Transaction};
use store_tables::{Changes, MetaRow, Version};

/// Upserts the members, the events with their rules, and the challenges.
fn put_people<S: Alter>(tx: &mut Transaction<'_, S>, changes: &Changes) -> Result<(), Error>
    ensures same_reference { tx.new.conn.ghost_name ≡ tx.old.conn.ghost_name }
    ensures put { HasCleanDisk (state S.Store tx.new.conn.now) → IsTrue
        (state S.Store tx.old.conn.now).in_transaction → OnOk result ((version : _) →
        IsServed version → StepsBeside version (people_put changes.now) (state S.Store tx.old.conn.now)
        (state S.Store tx.new.conn.now)) }
    ensures survives { Survives (state S.Store tx.old.conn.now) (state S.Store tx.new.conn.now) (λ _. ⊥) }
{
    put_all(tx, &changes.members)?;
    put_all(tx, &changes.events)?;
    put_all(tx, &changes.event_rules)?;
    put_all(tx, &changes.challenges)?;
    Ok(())
}

/// Upserts the games and their moves.
fn put_play<S: Alter>(tx: &mut Transaction<'_, S>, changes: &Changes) -> Result<(), Error>
    ensures same_reference { tx.new.conn.ghost_name ≡ tx.old.conn.ghost_name }
    ensures put { HasCleanDisk (state S.Store tx.new.conn.now) → IsTrue
        (state S.Store tx.old.conn.now).in_transaction → OnOk result ((version : _) →
        IsServed version → StepsBeside version (play_put changes.now) (state S.Store tx.old.conn.now)
        (state S.Store tx.new.conn.now)) }
    ensures survives { Survives (state S.Store tx.old.conn.now) (state S.Store tx.new.conn.now) (λ _. ⊥) }
{
    put_all(tx, &changes.games)?;
    put_all(tx, &changes.moves)?;
    Ok(())
}

/// Upserts the repetition counts and the scores.
fn put_counts<S: Alter>(tx: &mut Transaction<'_, S>, changes: &Changes) -> Result<(), Error>
    ensures same_reference { tx.new.conn.ghost_name ≡ tx.old.conn.ghost_name }
    ensures put { HasCleanDisk (state S.Store tx.new.conn.now) → IsTrue
        (state S.Store tx.old.conn.now).in_transaction → OnOk result ((version : _) →
        IsServed version → StepsBeside version (counts_put changes.now) (state S.Store tx.old.conn.now)
        (state S.Store tx.new.conn.now)) }
    ensures survives { Survives (state S.Store tx.old.conn.now) (state S.Store tx.new.conn.now) (λ _. ⊥) }
{
    put_all(tx, &changes.seen)?;
    put_all(tx, &changes.scores)?;
    Ok(())
}

/// Upserts the rows of the arbiter's tables. Without such rows no statement is run.
fn put_rulings<S: Alter>(tx: &mut Transaction<'_, S>, changes: &Changes) -> Result<(), Error>
    ensures same_reference { tx.new.conn.ghost_name ≡ tx.old.conn.ghost_name }
    ensures put { HasCleanDisk (state S.Store tx.new.conn.now) → IsTrue
        (state S.Store tx.old.conn.now).in_transaction → OnOk result ((version : _) →
        FitsVersion version changes.now → StepsBeside version (rulings_put changes.now)
        (state S.Store tx.old.conn.now) (state S.Store tx.new.conn.now)) }
    ensures survives { Survives (state S.Store tx.old.conn.now) (state S.Store tx.new.conn.now) (λ _. ⊥) }
{
    put_all(tx, &changes.keys)?;
    put_all(tx, &changes.rulings)?;
    put_all(tx, &changes.closings)?;
    Ok(())
}

/// The row of `meta` of a club of this version, if the last timestamp changes.
fn meta_row(version: Version, changes: &Changes) -> Option<MetaRow>
    ensures { option_map meta_cells result ≡ option_map (meta_at version) changes.now.last }
{
    match changes.last {
        Some(last) => Some(MetaRow {
            id: 1,
            schema: version.number(),
            last,
        }),
        None => None,
    }
}

/// Upserts the row of `meta` with the last timestamp, if there is one.
fn put_meta<S: Alter>(
    tx: &mut Transaction<'_, S>,
    version: Version,
    changes: &Changes,
) -> Result<(), Error>
    ensures same_reference { tx.new.conn.ghost_name ≡ tx.old.conn.ghost_name }
    ensures put { HasCleanDisk (state S.Store tx.new.conn.now) → IsTrue
        (state S.Store tx.old.conn.now).in_transaction → OnOk result (StepsBeside version
        (meta_put version changes.now) (state S.Store tx.old.conn.now) (state S.Store tx.new.conn.now)) }
    ensures survives { Survives (state S.Store tx.old.conn.now) (state S.Store tx.new.conn.now) (λ _. ⊥) }
{
    match meta_row(version, changes) {
        Some(meta) => meta.put(tx),
        None => Ok(()),
    }
}

/// Upserts all rows in an open transaction.
pub(crate) fn put_changes<S: Alter>(
    tx: &mut Transaction<'_, S>,
    version: Version,
    changes: &Changes,
) -> Result<(), Error>
    ensures same_reference { tx.new.conn.ghost_name ≡ tx.old.conn.ghost_name }
    ensures put { HasCleanDisk (state S.Store tx.new.conn.now) → IsTrue
        (state S.Store tx.old.conn.now).in_transaction → OnOk result (FitsVersion version changes.now →
        StepsBeside version (changed version changes.now) (state S.Store tx.old.conn.now)
        (state S.Store tx.new.conn.now)) }
    ensures survives { Survives (state S.Store tx.old.conn.now) (state S.Store tx.new.conn.now) (λ _. ⊥) }
{
    put_people(tx, changes)?;
    put_play(tx, changes)?;
    put_counts(tx, changes)?;
    put_rulings(tx, changes)?;
    put_meta(tx, version, changes)?;
    Ok(())
}

/// Upserts all rows in a club of this version, in one transaction.
///
/// # Errors
///
/// `sqlite::Error` if a call of the database fails.
///
/// # Guarantees
///
/// - `stored`: on success the tables hold these rows; foreign tables are unchanged. Rows of the arbiter's tables need a
///   club of schema 3.
/// - `fault`, `survives`: after an error or a crash the file holds the state before or after the call (atomic).
pub fn commit_changes<S: Alter>(
    conn: &mut Connection<S>,
    version: Version,
    changes: &Changes,
) -> Result<(), Error>
    requires { conn.old.in_transaction ≡ false }
    ensures idle { conn.new.in_transaction ≡ false }
    ensures stored { HasCleanDisk (state S.Store conn.new) → OnOk result (FitsVersion version changes.now →
        (them : _) (content : _) → them.version ≡ version → HoldsClubAmong them content (state S.Store conn.old) →
        HoldsClubAmong them (changed version changes.now content) (state S.Store conn.new)) }
    ensures fault { HasCleanDisk (state S.Store conn.new) → OnErr result (FitsVersion version changes.now →
        (them : _) (content : _) → them.version ≡ version → HoldsClubAmong them content (state S.Store conn.old) →
        (db : _) → (state S.Store conn.new).may_leave db →
        LeavesBeside them content db ⊎ LeavesBeside them (changed version changes.now content) db) }
    ensures survives { Survives (state S.Store conn.old) (state S.Store conn.new) (λ db. FitsVersion version
        changes.now →
        (them : _) → them.version ≡ version → TakesClub them.version them.schema → (content : _) →
        HoldsBeside them content (state S.Store conn.old).now →
        LeavesBeside them (changed version changes.now content) db) }
{
    let mut tx = conn.transaction();
    put_changes(&mut tx, version, changes)?;
    tx.commit()?;
    Ok(())
}

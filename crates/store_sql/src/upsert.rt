//! Upserts rows into their tables, by their keys.

ghost use Rattle.std.specs.Prelude.{◌≡◌, ◌⊎◌, ℕ, List, [], ◌∷◌, IsTrue, IfErr, OnOk, map};
ghost use Rattle.sqlite.specs.State.{HasCleanDisk, Survives};
ghost use Rattle.sqlite.specs.Held.{state};
ghost use Rattle.store_tables.specs.internal.Contents.{put_in, put_each};
ghost use Rattle.store_tables.specs.internal.Cells.{meta_cells};
ghost use Rattle.store_tables.specs.internal.Over.{StepsBeside};
ghost use Rattle.store_tables.specs.internal.Reading.{IsNoInput};
ghost use Rattle.store_tables.specs.Names.{tree_of};
ghost use Rattle.store_tables.specs.Placed.{TakesClub};
ghost use Rattle.store_tables.specs.internal.Tables.{has_table};
ghost use Rattle.store_tables.specs.declared.names.Table as of_this;
ghost use Rattle.store_tables.specs.declared.names.Table.TheVariants as of_club;

use sqlite::{Alter, Error, Transaction, params};
use store_tables::{
    ChallengeRow, ClosingRow, EventRow, EventRuleRow, GameTableRow, KeyRow, MemberRow, MetaRow,
    MoveRow, RulingRow, ScoreRow, SeenRow, Table, TableRow,
};

/// A row type with an upsert statement.
pub trait Upsert: TableRow {
    // the table, the number of its tree, and the columns of its key
    ghost which: { of_this.Table };

    ghost tree: { ℕ };

    ghost key: { List ℕ };

    /// Upserts the row in an open transaction.
    ///
    /// # Errors
    ///
    /// `sqlite::Error` if a call of the database fails.
    ///
    /// # Guarantees
    ///
    /// `survives`: a crash before the commit leaves nothing of it.
    fn put<S: Alter>(&self, tx: &mut Transaction<'_, S>) -> Result<(), Error>
        ensures same_reference { tx.new.conn.ghost_name ≡ tx.old.conn.ghost_name }
        ensures put { HasCleanDisk (state S.Store tx.new.conn.now) → IsTrue
            (state S.Store tx.old.conn.now).in_transaction →
            OnOk result ((version : _) → IsTrue (has_table version which) →
            StepsBeside version (put_in tree key (Self.cells self.now)) (state S.Store tx.old.conn.now)
            (state S.Store tx.new.conn.now)) }
        ensures survives { Survives (state S.Store tx.old.conn.now) (state S.Store tx.new.conn.now) (λ _. ⊥) };
}

/// Upserts the row of `meta`. If the tables of a club exist, only the store can fail.
pub(crate) fn put_meta<S: Alter>(row: &MetaRow, tx: &mut Transaction<'_, S>) -> Result<(), Error>
    ensures same_reference { tx.new.conn.ghost_name ≡ tx.old.conn.ghost_name }
    ensures put { HasCleanDisk (state S.Store tx.new.conn.now) → IsTrue
        (state S.Store tx.old.conn.now).in_transaction →
        OnOk result ((version : _) → IsTrue (has_table version of_club.Meta) →
        StepsBeside version (put_in (tree_of of_club.Meta) (0 ∷ []) (meta_cells row.now))
        (state S.Store tx.old.conn.now) (state S.Store tx.new.conn.now)) }
    ensures known { HasCleanDisk (state S.Store tx.new.conn.now) → IsTrue
        (state S.Store tx.old.conn.now).in_transaction → (version : _) →
        TakesClub version (state S.Store tx.old.conn.now).now.schema →
        IfErr result IsNoInput }
    ensures survives { Survives (state S.Store tx.old.conn.now) (state S.Store tx.new.conn.now) (λ _. ⊥) }
{
    match tx.execute(Table::Meta.put(), params![row.id, row.schema, row.last]) {
        Ok(_) => Ok(()),
        Err(error) => Err(error),
    }
}

impl Upsert for MetaRow {
    ghost which = { of_club.Meta };

    ghost tree = { tree_of of_club.Meta };

    ghost key = { 0 ∷ [] };

    fn put<S: Alter>(&self, tx: &mut Transaction<'_, S>) -> Result<(), Error> {
        put_meta(self, tx)
    }
}

impl Upsert for MemberRow {
    ghost which = { of_club.Members };

    ghost tree = { tree_of of_club.Members };

    ghost key = { 0 ∷ [] };

    fn put<S: Alter>(&self, tx: &mut Transaction<'_, S>) -> Result<(), Error> {
        tx.execute(
            Table::Members.put(),
            params![self.id, self.name.as_str(), self.key.as_str()],
        )?;
        Ok(())
    }
}

impl Upsert for EventRow {
    ghost which = { of_club.Events };

    ghost tree = { tree_of of_club.Events };

    ghost key = { 0 ∷ [] };

    fn put<S: Alter>(&self, tx: &mut Transaction<'_, S>) -> Result<(), Error> {
        tx.execute(
            Table::Events.put(),
            params![
                self.id,
                self.name.as_str(),
                self.game,
                self.budget,
                self.increment
            ],
        )?;
        Ok(())
    }
}

impl Upsert for EventRuleRow {
    ghost which = { of_club.EventRules };

    ghost tree = { tree_of of_club.EventRules };

    ghost key = { 0 ∷ [] };

    fn put<S: Alter>(&self, tx: &mut Transaction<'_, S>) -> Result<(), Error> {
        tx.execute(Table::EventRules.put(), params![self.event, self.declares])?;
        Ok(())
    }
}

impl Upsert for MoveRow {
    ghost which = { of_club.Moves };

    ghost tree = { tree_of of_club.Moves };

    ghost key = { 0 ∷ 1 ∷ [] };

    fn put<S: Alter>(&self, tx: &mut Transaction<'_, S>) -> Result<(), Error> {
        tx.execute(
            Table::Moves.put(),
            params![
                self.game,
                self.ply,
                self.text.as_str(),
                self.moment,
                self.left,
                self.position.as_str()
            ],
        )?;
        Ok(())
    }
}

impl Upsert for GameTableRow {
    ghost which = { of_club.Games };

    ghost tree = { tree_of of_club.Games };

    ghost key = { 0 ∷ [] };

    fn put<S: Alter>(&self, tx: &mut Transaction<'_, S>) -> Result<(), Error> {
        tx.execute(
            Table::Games.put(),
            params![
                self.id,
                &self.key,
                self.event,
                self.first,
                self.second,
                self.start,
                self.since,
                self.plies,
                self.left1,
                self.left2,
                self.offer_side,
                self.offer_ply,
                &self.end,
                &self.result,
                self.position.as_str(),
                self.track_a,
                self.track_b
            ],
        )?;
        Ok(())
    }
}

impl Upsert for ChallengeRow {
    ghost which = { of_club.Challenges };

    ghost tree = { tree_of of_club.Challenges };

    ghost key = { 0 ∷ 1 ∷ [] };

    fn put<S: Alter>(&self, tx: &mut Transaction<'_, S>) -> Result<(), Error> {
        tx.execute(
            Table::Challenges.put(),
            params![
                self.member,
                self.number,
                self.event,
                self.other,
                self.first,
                self.state,
                self.game
            ],
        )?;
        Ok(())
    }
}

impl Upsert for SeenRow {
    ghost which = { of_club.Seen };

    ghost tree = { tree_of of_club.Seen };

    ghost key = { 0 ∷ 1 ∷ [] };

    fn put<S: Alter>(&self, tx: &mut Transaction<'_, S>) -> Result<(), Error> {
        tx.execute(
            Table::Seen.put(),
            params![
                self.game,
                self.position.as_str(),
                self.count,
                self.first_ply
            ],
        )?;
        Ok(())
    }
}

impl Upsert for ScoreRow {
    ghost which = { of_club.Scores };

    ghost tree = { tree_of of_club.Scores };

    ghost key = { 0 ∷ 1 ∷ 2 ∷ [] };

    fn put<S: Alter>(&self, tx: &mut Transaction<'_, S>) -> Result<(), Error> {
        tx.execute(
            Table::Scores.put(),
            params![
                self.event,
                self.member,
                self.opponent,
                self.points,
                self.wins,
                self.draws,
                self.losses
            ],
        )?;
        Ok(())
    }
}

impl Upsert for KeyRow {
    ghost which = { of_club.Keys };

    ghost tree = { tree_of of_club.Keys };

    ghost key = { 0 ∷ 1 ∷ [] };

    fn put<S: Alter>(&self, tx: &mut Transaction<'_, S>) -> Result<(), Error> {
        tx.execute(
            Table::Keys.put(),
            params![self.member, self.number, self.key.as_str()],
        )?;
        Ok(())
    }
}

impl Upsert for RulingRow {
    ghost which = { of_club.Rulings };

    ghost tree = { tree_of of_club.Rulings };

    ghost key = { 0 ∷ 1 ∷ [] };

    fn put<S: Alter>(&self, tx: &mut Transaction<'_, S>) -> Result<(), Error> {
        tx.execute(
            Table::Rulings.put(),
            params![
                self.game,
                self.number,
                self.moment,
                self.ply,
                self.kind,
                self.seconds,
                &self.result,
                &self.beneath,
                &self.beneath_result
            ],
        )?;
        Ok(())
    }
}

impl Upsert for ClosingRow {
    ghost which = { of_club.Closings };

    ghost tree = { tree_of of_club.Closings };

    ghost key = { 0 ∷ [] };

    fn put<S: Alter>(&self, tx: &mut Transaction<'_, S>) -> Result<(), Error> {
        tx.execute(Table::Closings.put(), params![self.event, self.moment])?;
        Ok(())
    }
}

/// Upserts the rows in order, in an open transaction.
///
/// # Errors
///
/// `sqlite::Error` if a call of the database fails.
///
/// # Guarantees
///
/// `survives`: a crash before the commit leaves none of them.
pub fn put_all<T: Upsert, S: Alter>(tx: &mut Transaction<'_, S>, rows: &[T]) -> Result<(), Error>
    ensures same_reference { tx.new.conn.ghost_name ≡ tx.old.conn.ghost_name }
    ensures put { HasCleanDisk (state S.Store tx.new.conn.now) → IsTrue
        (state S.Store tx.old.conn.now).in_transaction →
        OnOk result ((version : _) → IsTrue (has_table version T.which) ⊎ (rows.now ≡ []) →
        StepsBeside version (put_each T.tree T.key (map T.cells rows.now)) (state S.Store tx.old.conn.now)
        (state S.Store tx.new.conn.now)) }
    ensures survives { Survives (state S.Store tx.old.conn.now) (state S.Store tx.new.conn.now) (λ _. ⊥) }
{
    'rows: for row in rows {
        row.put(tx)?;
    }
    Ok(())
}

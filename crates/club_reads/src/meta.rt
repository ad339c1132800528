//! Reads the timestamp of the last accepted command.

ghost use Rattle.std.specs.Prelude.{◌≡◌, ◌<◌, ℕ, Some, None, IfOk, is_ok};
ghost use Rattle.sqlite.specs.State.{HasCleanDisk};
ghost use Rattle.sqlite.specs.Held.{state};
ghost use Rattle.club_rows.specs.Tables.{meta_row};
ghost use Rattle.store_tables.specs.internal.Cells.{meta_cells};
ghost use Rattle.store_tables.specs.internal.Over.{HasRows};
ghost use Rattle.store_tables.specs.Reading.{Reads};
ghost use Rattle.club_rows.specs.Club.{ClubState, tables};

use crate::fault::LookupFault;
use crate::found::first;
use clocks::Moment;
use club_rows::numbers::to_moment;
use sqlite::{Alter, Connection};
use std::alloc::Global;
use store_sql::list;
use store_tables::MetaRow;

fn last_in(row: &MetaRow) -> Result<Moment, LookupFault>
    ensures { IfOk result (λ last. (schema n : ℕ) → meta_cells row.now ≡ meta_row schema n →
        last ≡ n) }
{
    match to_moment(row.last) {
        Some(last) => Ok(last),
        None => Err(LookupFault::Store),
    }
}

/// Returns the timestamp of the last accepted command, in Unix seconds.
///
/// # Errors
///
/// - `Store` if a call of the database fails, or a row is invalid.
/// - `Memory` if out of memory.
pub fn last_moment<S: Alter>(alloc: Global, conn: &mut Connection<S>) -> Result<Moment, LookupFault>
    ensures reads { Reads (is_ok result) (state S.Store conn.old) (state S.Store conn.new) }
    ensures last { HasCleanDisk (state S.Store conn.new) → IfOk result (λ last. (s : ClubState) →
        HasRows (tables s) (state S.Store conn.old) → last ≡ s.last) }
{
    match first(list::<MetaRow, S>(alloc, conn)?) {
        Some(row) => Ok(last_in(&row)?),
        None => Err(LookupFault::Store),
    }
}

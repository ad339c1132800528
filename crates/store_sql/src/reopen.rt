//! A law about a database that is opened again after it was closed or after a crash.

ghost use Rattle.sqlite.specs.State.{Opens, IsLive};
ghost use Rattle.sqlite.specs.Held.{state};
ghost use Rattle.store_tables.specs.Contents.{IsExactly, Leaves};

use sqlite::{Alter, Connection};

/// Law: a connection that was just opened holds exactly the rows that a crash left, and a further crash leaves the
/// same.
pub fn holds_exactly<S: Alter>(conn: &Connection<S>)
    ensures { Opens (state S.Store conn.now) → IsLive (state S.Store conn.now) → (schema : _) (content : _) →
        Leaves schema content (state S.Store conn.now).committed.trees →
        IsExactly schema content (state S.Store conn.now) }
{
    let _conn = conn;
}

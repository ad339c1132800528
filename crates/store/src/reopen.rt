//! Properties of a database that is opened again after a close or a crash.

ghost use Rattle.sqlite.specs.State.{Opens, IsLive};
ghost use Rattle.sqlite.specs.Held.{state};
ghost use Rattle.store_tables.specs.Contents.{IsEmpty, IsExactlyEmpty};
ghost use Rattle.store.specs.Histories.{IsReachable, IsHistory};

use sqlite::{Alter, Connection};

/// If a history leads to the stored tables, then it leads to what a newly opened connection holds, in the same schema
/// and beside the same foreign tables.
pub fn opened_history_holds<S: Alter>(conn: &Connection<S>)
    ensures { Opens (state S.Store conn.now) → IsLive (state S.Store conn.now) →
        (from version : _) (them : _) (chapters : _) →
        IsReachable from version them chapters (state S.Store conn.now).committed.trees →
        IsHistory from version them chapters (state S.Store conn.now) }
{
    let _conn = conn;
}

/// A crash between two steps of a history leaves tables that the history leads to, in the same schema.
pub fn crash_keeps_history<S: Alter>(conn: &Connection<S>)
    ensures { (from version : _) (them : _) (chapters : _) →
        IsHistory from version them chapters (state S.Store conn.now) →
        (db : _) → (state S.Store conn.now).may_leave db → IsReachable from version them chapters db }
{
    let _conn = conn;
}

/// A newly opened connection to a database without tables is empty, as `create` requires.
pub fn opened_empty_holds<S: Alter>(conn: &Connection<S>)
    ensures { Opens (state S.Store conn.now) → IsLive (state S.Store conn.now) → IsEmpty
        (state S.Store conn.now).committed.trees → IsExactlyEmpty (state S.Store conn.now) }
{
    let _conn = conn;
}

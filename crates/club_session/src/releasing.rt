//! The end of an order: the log is copied into the database file and removed, and the files are closed.

ghost use Rattle.std.specs.Prelude.{◌≡◌, IfErr, IfOk};
ghost use Rattle.sqlite_trees.specs.Tree.{Trees};
ghost use Rattle.sqlite_store.specs.FileStore.{recovers};
ghost use Rattle.club_session.specs.internal.Released.{IsLogCopied};

use crate::preflight::remove_wal;
use sqlite::{FileFrom, FileStore};
use sqlite_disk::{Disk, Files, Start};
use sqlite_trees::store::Store;

/// Copies the log of a store into its database file, and gives the files back.
///
/// # Errors
///
/// The store, if its log cannot be copied.
///
/// # Guarantees
///
/// `empty`: the log that is left has no frame, and a crash leaves nothing that it could not leave of the store. `kept`:
/// nor does it after an error.
pub(crate) fn copy_log<D: Disk + Drop>(store: FileStore<D>) -> Result<Files<D>, FileStore<D>>
    ensures empty { IfOk result (IsLogCopied store) }
    ensures kept { IfErr result (λ left. (db : Trees) → recovers left db → recovers store db) }
{
    let mut store = store;
    // No transaction may be open, or its pages would stay in the log.
    store.rollback();
    match store.checkpoint() {
        Ok(()) => Ok(store.close()),
        Err(_) => Err(store),
    }
}

/// Ends an order and returns its result, and closes its files. If they had no log before, the log is copied into the
/// database file and removed, if that can be done. The lock is held until then, so that nobody else uses the log.
pub fn release_files<T, S: Start>(
    rt: &HostRuntime,
    file: &str,
    had_log: bool,
    done: (T, Option<FileStore<FileFrom<S>>>),
) -> T
    ensures { result ≡ done.0 }
{
    let (result, store) = done;
    if had_log {
        return result;
    }
    if let Some(store) = store {
        if let Ok(files) = copy_log(store) {
            let _removed = remove_wal(rt, file);
            drop(files);
        }
    }
    result
}

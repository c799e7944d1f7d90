//! A keeper over the two files of a database.

ghost use Rattle.std.specs.Prelude.{IfOk, IsTrue, true, ◌≡◌};
ghost use Rattle.sqlite.specs.Files.{file_state};
ghost use Rattle.sqlite.specs.State.{HasCleanDisk, IsUnchanged};
ghost use Rattle.sqlite_wal.specs.Files.{image_at};
ghost use Rattle.store_file.specs.Files.{Copies, Finds, LeavesIn};

use crate::unopened::{Unopened, unopened_by};
use sqlite::{Connection, Error, ErrorCode, FileFrom, FileStore};
use sqlite_disk::{Disk, Start};
use std::rt::HostRuntime;
use store_kv::Keeper;
use store_sqlite::{
    DatabaseFault, Ready, SqlKeeper, fault_of, has_others, make_private, missing_log, remove_log,
};

/// A keeper of the tables in a file and its log, whose contents `S` stands for.
pub type FileKeeper<S> = SqlKeeper<Ready<FileStore<FileFrom<S>>>>;

// Takes a connection whose database has no tables but the keeper's. Any other is closed and left as it is, without the log
// that its opening made.
fn own<D: Disk + Drop>(
    rt: &HostRuntime,
    conn: Connection<FileStore<D>>,
    log: &Option<String>,
) -> Result<Connection<FileStore<D>>, Unopened>
    ensures { IfOk result (λ c. HasCleanDisk (file_state c)
        → HasCleanDisk (file_state conn) × IsUnchanged (file_state conn) (file_state c)) }
{
    let mut conn = conn;
    match has_others(&mut conn) {
        Ok(false) => Ok(conn),
        Ok(true) => {
            remove_log(rt, log);
            Err(Unopened::Fault(DatabaseFault::Foreign))
        }
        Err(Error::SqliteFailure(ErrorCode::OutOfMemory)) => Err(Unopened::Memory),
        Err(error) => Err(Unopened::Fault(fault_of(error))),
    }
}

/// Opens the file at the path, with the log beside it. If it's missing, it is made, for its owner alone to read and write.
///
/// No clause ties `S` to the path: it stands for what the file held before, which is nothing if it is made.
///
/// # Errors
///
/// Why it couldn't be opened. A database that has any table but the keeper's is refused, and left as it is.
pub fn open_file<S: Start>(rt: HostRuntime, path: &str, start: S) -> Result<FileKeeper<S>, Unopened>
    ensures { IfOk result (λ k. Finds (image_at S.Start) (⟦<SqlKeeper<Ready<FileStore<FileFrom<S>>>> as Keeper>⟧.state k)) }
{
    let made = make_private(&rt, path);
    let log = missing_log(&rt, path);
    // The pages of a file that is made have checksums, those of SQLite's cksumvfs.
    match Connection::open_from(&rt, path, true, start) {
        Ok(conn) => Ok(SqlKeeper::adopt_saying(rt, own(&rt, conn, &log)?)),
        Err((error, left)) => {
            if let Some(left) = left {
                drop(left.into_files());
            }
            Err(unopened_by(&rt, path, &made, error))
        }
    }
}

// Closes the files of a connection: whether the log was copied first.
fn close<D: Disk + Drop>(conn: Connection<FileStore<D>>) -> bool
    ensures { result ≡ true → Copies conn }
{
    match conn.close_files() {
        Ok(files) => {
            drop(files);
            true
        }
        Err((_, store)) => {
            drop(store.close());
            false
        }
    }
}

/// Rolls back what isn't committed, copies the log into the file, and closes both: whether that was done.
pub fn close_file<D: Disk + Drop>(keeper: SqlKeeper<Ready<FileStore<D>>>) -> bool
    ensures { result ≡ true → LeavesIn D.Disk (⟦<SqlKeeper<Ready<FileStore<D>>> as Keeper>⟧.state keeper) }
{
    match keeper.release() {
        Some(conn) => close(conn),
        None => false,
    }
}

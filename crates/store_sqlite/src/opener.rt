//! What a keeper gets its connection from.

ghost use Rattle.std.specs.Prelude.{IfOk, IsTrue};
ghost use Rattle.sqlite.specs.State.{HasCleanDisk};
ghost use Rattle.sqlite.specs.Held.{state};
ghost use Rattle.store_sqlite.specs.Kept.{IsBlank};

use crate::beside::{make_private, missing_log, remove_log};
use crate::statements::has_others;
use sqlite::{Alter, Connection, Error, ErrorCode, File, FileStore, MemStore};
use std::alloc::Global;
use std::marker::PhantomData;
use std::rt::HostRuntime;

/// Makes the connection of a keeper, when that is opened.
pub trait Opener {
    /// What holds the database: memory, or files.
    type Base: Alter + Drop;

    // It tells that a connection which it makes is to a database without a table.
    ghost tells: { Self → Type 0 };

    /// A new connection, which is open.
    ///
    /// # Errors
    ///
    /// Why the database couldn't be opened; `ErrorCode::OutOfMemory` if out of memory.
    fn connect(&mut self, alloc: Global) -> Result<Connection<Self::Base>, Error>
        ensures open { IfOk result (λ c. HasCleanDisk (state Self.Base.Store c) → IsTrue (state Self.Base.Store c).is_open) }
        ensures blank { tells self.old
            → IfOk result (λ c. HasCleanDisk (state Self.Base.Store c) → IsBlank (state Self.Base.Store c)) }
        ensures same { tells self.old → tells self.new };
}

/// An empty database in memory, which is gone with its keeper.
#[derive(Debug, Drop)]
pub struct InMemory {}

impl Opener for InMemory {
    type Base = MemStore;

    ghost tells = { λ _. Unit {0} };

    fn connect(&mut self, alloc: Global) -> Result<Connection<MemStore>, Error> {
        match Connection::open_in_memory(alloc) {
            Ok(connection) => Ok(connection),
            Err(_) => Err(Error::SqliteFailure(ErrorCode::OutOfMemory)),
        }
    }
}

/// The database in the file at a path, which is made if it's missing, for its owner alone to read and write.
///
/// What the file holds isn't told. A database that has any table but `kept` is refused, and left as it is. Beside the file
/// is its log, named with `-wal` at the end: keep the two together.
#[derive(Drop)]
pub struct OnPath {
    rt: HostRuntime,
    path: String,
}

impl OnPath {
    /// The database at this path. No file is touched before the keeper is opened.
    pub fn new(rt: HostRuntime, path: String) -> OnPath {
        OnPath { rt, path }
    }
}

impl Opener for OnPath {
    type Base = FileStore<File>;

    ghost tells = { λ _. ⊥ };

    fn connect(&mut self, _alloc: Global) -> Result<Connection<FileStore<File>>, Error> {
        let _made = make_private(&self.rt, self.path.as_str());
        let log = missing_log(&self.rt, self.path.as_str());
        let mut conn = Connection::open(&self.rt, self.path.as_str())?;
        match has_others(&mut conn) {
            Ok(false) => Ok(conn),
            Ok(true) => {
                remove_log(&self.rt, &log);
                Err(Error::SqliteFailure(ErrorCode::NameTaken))
            }
            Err(error) => Err(error),
        }
    }
}

/// The opener of a keeper that has had its connection from the start. It is never asked for one.
#[derive(Drop)]
pub struct Ready<S> {
    of: PhantomData<S>,
}

impl<S> Ready<S> {
    pub(crate) fn new() -> Ready<S> {
        Ready { of: PhantomData }
    }
}

impl<S: Alter + Drop> Opener for Ready<S> {
    type Base = S;

    ghost tells = { λ _. ⊥ };

    fn connect(&mut self, _alloc: Global) -> Result<Connection<S>, Error> {
        Err(Error::SqliteFailure(ErrorCode::CannotOpen))
    }
}

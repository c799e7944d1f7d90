//! Why a database refused, and how often it did.

ghost use Rattle.std.specs.Prelude.{◌≡◌, ◌≤◌, ◌+◌, IsTrue, Some, None};
ghost use Rattle.sqlite.specs.declared.error.Error.TheVariants.{SqliteFailure};
ghost use Rattle.sqlite.specs.declared.error.ErrorCode.TheVariants.{OutOfMemory};
ghost use Rattle.base_value.specs.Causes.{up_to_last, Rose};

use sqlite::{Error, ErrorCode};
use std::fmt;
use std::rt::HostRuntime;
use store_kv::KeepFail;

/// Why a database refused a call, for a user to read.
#[derive(Clone, Copy, Debug, PartialEq, Eq)]
pub enum DatabaseFault {
    /// The path can't be opened for reading and writing: for one of the causes below that have names, or since a rollback
    /// journal is beside it, or the path is empty, `:memory:` or a URI. It is `ErrorCode::CannotOpen`.
    CannotOpen,
    /// Another program, or another keeper of this one, has the file open: `ErrorCode::DatabaseBusy`.
    Busy,
    /// The file isn't a database, or it's damaged, or it has what can't be read: `ErrorCode::DatabaseCorrupt` and
    /// `ErrorCode::NotADatabase`.
    NotADatabase,
    /// The disk is full, or the database can't grow any more: `ErrorCode::DiskFull`.
    Full,
    /// A file couldn't be read or written: `ErrorCode::SystemIoFailure`.
    Disk,
    /// An earlier fault has shut the database: `ErrorCode::Closed`.
    Closed,
    /// A call ran out of memory, and so did the one that was to find whether the database is still open.
    Unknown,
    /// The keeper isn't opened.
    NotOpened,
    /// The database has tables that aren't this program's: `ErrorCode::NameTaken`.
    Foreign,
    /// The path leads through something that isn't there or is no folder.
    NoFolder,
    /// The path is a folder or a device, and no file.
    NotAFile,
    /// The path is a link that leads nowhere.
    DeadLink,
    /// The file has a second name.
    SecondName,
    /// The file, or its folder, may not be read and written.
    NotPermitted,
    /// Anything else, such as a database with a table `kept` of another form.
    Other,
}

impl fmt::Display for DatabaseFault {
    fn fmt<W: fmt::Write>(&self, f: &mut fmt::Formatter<W>) -> fmt::Result {
        f.write_str(match self {
            DatabaseFault::CannotOpen => "the file can't be opened for reading and writing",
            DatabaseFault::Busy => "another program has the file open",
            DatabaseFault::NotADatabase => "the file isn't a database, or it's damaged",
            DatabaseFault::Full => "the disk is full",
            DatabaseFault::Disk => "the file couldn't be read or written",
            DatabaseFault::Closed => "an earlier fault has closed the database",
            DatabaseFault::Unknown => "out of memory, and the database may be closed",
            DatabaseFault::NotOpened => "the database isn't opened",
            DatabaseFault::Foreign => {
                "the database has other tables than this program's, and is left as it is"
            }
            DatabaseFault::NoFolder => "there is no such folder to make the file in",
            DatabaseFault::NotAFile => "it is a folder or a device, and no file",
            DatabaseFault::DeadLink => "it is a link that leads nowhere",
            DatabaseFault::SecondName => "the file has a second name, a hard link",
            DatabaseFault::NotPermitted => {
                "no permission to read and write the file and to make files in its folder"
            }
            DatabaseFault::Other =>
                "the table in the database has another form than this program's",
        })
    }
}

impl std::error::Error for DatabaseFault {}

/// What an error is for a user. Out of memory is `Unknown`: such a call doesn't say whether the database is still open.
pub fn fault_of(error: Error) -> DatabaseFault {
    match error {
        Error::SqliteFailure(ErrorCode::CannotOpen) => DatabaseFault::CannotOpen,
        Error::SqliteFailure(ErrorCode::DatabaseBusy) => DatabaseFault::Busy,
        Error::SqliteFailure(ErrorCode::NotADatabase | ErrorCode::DatabaseCorrupt) => {
            DatabaseFault::NotADatabase
        }
        Error::SqliteFailure(ErrorCode::DiskFull) => DatabaseFault::Full,
        Error::SqliteFailure(ErrorCode::SystemIoFailure) => DatabaseFault::Disk,
        Error::SqliteFailure(ErrorCode::Closed) => DatabaseFault::Closed,
        Error::SqliteFailure(ErrorCode::OutOfMemory) => DatabaseFault::Unknown,
        Error::SqliteFailure(ErrorCode::NameTaken) => DatabaseFault::Foreign,
        _ => DatabaseFault::Other,
    }
}

/// The error says that the call is out of memory.
pub(crate) fn is_out_of_memory(error: &Error) -> bool
    ensures only { IsTrue result → error.now ≡ SqliteFailure OutOfMemory }
    ensures each { error.now ≡ SqliteFailure OutOfMemory → IsTrue result }
{
    matches!(error, Error::SqliteFailure(ErrorCode::OutOfMemory))
}

/// The calls that a keeper counted as failed: how many, and why the last one was. The count saturates.
#[derive(Clone, Copy)]
pub(crate) struct Refusals {
    count: u64,
    last: Option<DatabaseFault>,
    // Where each fault is said as it is counted, if it is.
    voice: Option<HostRuntime>,
}

impl Refusals {
    /// No call failed.
    pub(crate) fn none() -> Refusals
        ensures count { result.count ≡ 0 }
        ensures last { result.last ≡ None }
    {
        Refusals {
            count: 0,
            last: None,
            voice: None,
        }
    }

    /// No call failed. The fault of each that fails is said in a line on standard error.
    pub(crate) fn saying(rt: HostRuntime) -> Refusals
        ensures count { result.count ≡ 0 }
        ensures last { result.last ≡ None }
    {
        Refusals {
            count: 0,
            last: None,
            voice: Some(rt),
        }
    }

    /// Counts a call.
    pub(crate) fn add(&mut self, fault: DatabaseFault)
        ensures count { self.new.count ≡ up_to_last (self.old.count + 1) }
        ensures counts { self.old.count ≤ self.new.count }
        ensures last { self.new.last ≡ Some fault }
    {
        self.count = self.count.saturating_add(1);
        self.last = Some(fault);
        if let Some(rt) = &self.voice {
            let _ = eprintln!(rt; "carmuguur: the store: {fault}");
        }
    }

    /// Counts a call that an error ended, unless it is out of memory.
    pub(crate) fn refuse(&mut self, error: Error) -> KeepFail
        ensures counts { self.old.count ≤ self.new.count }
        ensures cause { result ≡ KeepFail.Failed → Rose self.old.count self.new.count }
        ensures quiet { (result ≡ KeepFail.Failed → ⊥) → self.new.count ≡ self.old.count }
        ensures memory { result ≡ KeepFail.Memory → error ≡ SqliteFailure OutOfMemory }
        ensures failed { result ≡ KeepFail.Failed → error ≡ SqliteFailure OutOfMemory → ⊥ }
        ensures same { result ≡ KeepFail.Memory → self.new.last ≡ self.old.last }
    {
        if is_out_of_memory(&error) {
            KeepFail::Memory
        } else {
            self.add(fault_of(error));
            KeepFail::Failed
        }
    }

    /// Why the last call that was counted failed.
    pub(crate) fn last(&self) -> Option<DatabaseFault>
        ensures { result ≡ self.now.last }
    {
        self.last
    }
}

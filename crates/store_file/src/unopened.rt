//! Why a file couldn't be opened.

use sqlite::{Error, ErrorCode};
use std::fs::{Metadata, OpenOptions};
use std::io::ErrorKind;
use std::os::unix::fs::MetadataExt;
use std::rt::HostRuntime;
use std::{fs, io};
use store_sqlite::{DatabaseFault, fault_of, missing_log};

/// Why a file couldn't be opened.
#[derive(Clone, Copy, Debug)]
pub enum Unopened {
    /// Out of memory.
    Memory,
    /// The file had this fault.
    Fault(DatabaseFault),
}

// What an error of the system at a path says, or else what it means that nothing is there.
fn fault_by(error: &io::Error, missing: DatabaseFault) -> DatabaseFault {
    match error.kind() {
        ErrorKind::NotFound | ErrorKind::NotADirectory => missing,
        ErrorKind::PermissionDenied => DatabaseFault::NotPermitted,
        _ => DatabaseFault::CannotOpen,
    }
}

// Why a path can't be opened at which something of this kind is.
fn fault_in(rt: &HostRuntime, path: &str, found: &Metadata) -> DatabaseFault {
    if !found.is_file() {
        return DatabaseFault::NotAFile;
    }
    if found.nlink() > 1 {
        return DatabaseFault::SecondName;
    }
    match OpenOptions::new().read(true).write(true).open(rt, path) {
        Err(error) => fault_by(&error, DatabaseFault::CannotOpen),
        // Then the log couldn't be made.
        Ok(_) if missing_log(rt, path).is_some() => DatabaseFault::NotPermitted,
        Ok(_) => DatabaseFault::CannotOpen,
    }
}

// Why a path can't be opened, as far as the system says it.
fn fault_at(rt: &HostRuntime, path: &str, made: &io::Result<()>) -> DatabaseFault {
    if let Err(error) = made
        && !path.is_empty()
    {
        return fault_by(error, DatabaseFault::NoFolder);
    }
    match fs::symlink_metadata(rt, path) {
        Ok(named) if named.is_symlink() => match fs::metadata(rt, path) {
            Ok(found) => fault_in(rt, path, &found),
            Err(error) => fault_by(&error, DatabaseFault::DeadLink),
        },
        Ok(found) => fault_in(rt, path, &found),
        Err(error) => fault_by(&error, DatabaseFault::CannotOpen),
    }
}

/// What an error of an opening is for a user, at a path where a file was to be made before.
pub(crate) fn unopened_by(
    rt: &HostRuntime,
    path: &str,
    made: &io::Result<()>,
    error: Error,
) -> Unopened {
    match error {
        Error::SqliteFailure(ErrorCode::OutOfMemory) => Unopened::Memory,
        Error::SqliteFailure(ErrorCode::CannotOpen) => Unopened::Fault(fault_at(rt, path, made)),
        error => Unopened::Fault(fault_of(error)),
    }
}

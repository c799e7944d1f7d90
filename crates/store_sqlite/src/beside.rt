//! The file of a database and its log by their names, outside the time in which they are open.

use std::fs::OpenOptions;
use std::io::ErrorKind;
use std::os::unix::fs::OpenOptionsExt;
use std::rt::HostRuntime;
use std::{fs, io};

// Reading and writing for the owner of a file, and nothing for others.
const PRIVATE: u32 = 0o600;

// What `sqlite` takes for no name of a file.
fn is_no_name(path: &str) -> bool {
    path == ":memory:" || path.starts_with("file:")
}

/// Makes an empty file that its owner alone may read and write, unless something has the name. The log takes its mode.
///
/// # Errors
///
/// If it can't be made. The opening of the database then fails too.
pub fn make_private(rt: &HostRuntime, path: &str) -> io::Result<()> {
    if is_no_name(path) {
        return Ok(());
    }
    match OpenOptions::new()
        .write(true)
        .create_new(true)
        .mode(PRIVATE)
        .open(rt, path)
    {
        Ok(_) => Ok(()),
        Err(error) if error.kind() == ErrorKind::AlreadyExists => Ok(()),
        Err(error) => Err(error),
    }
}

/// The name that the log of the file at this path will get: `None` if there is one, or if the system doesn't say.
pub fn missing_log(rt: &HostRuntime, path: &str) -> Option<String> {
    if is_no_name(path) {
        return None;
    }
    let target = fs::canonicalize(rt, path).ok()?;
    let log = format!(in rt.alloc(); "{}-wal", target.display()).ok()?;
    match fs::exists(rt, &log) {
        Ok(false) => Some(log),
        _ => None,
    }
}

/// Removes a log that an opening has made and in which nothing was written, before its database is closed. If that fails, an
/// empty log stays.
pub fn remove_log(rt: &HostRuntime, log: &Option<String>) {
    if let Some(log) = log {
        let _removed = fs::remove_file(rt, log);
    }
}

//! Files in memory that stop at a call, and what is found in them afterwards.

use crate::runs::COMMANDS;
use crate::tasks::{Outcome, Task, done, unopened};
use sqlite::{Alter, Connection, FileStore, Files, Options};
use sqlite_disk::{Crash, Disk, Fuse, Memory};
use std::alloc::{AllocError, Global};
use std::test::Fail;
use store_sqlite::SqlKeeper;

// A file in memory that fails at each call after so many.
type Stopping = Fuse<Memory>;

const NEVER: u64 = u64::MAX;

// Few pages, since a file in memory is copied whole at each sync, and so short a log that it's copied into the database
// file between the batches.
const SMALL: Options = Options {
    cache_pages: 8,
    spill_pages: 8,
    checkpoint_frames: 4,
    seed: 7,
};

// A connection to the files, or the files again.
fn connect<D: Disk + Drop>(
    alloc: Global,
    files: Files<D>,
) -> Result<Connection<FileStore<D>>, Files<D>> {
    if !files.may_be_used() {
        return Err(files);
    }
    match Connection::open_files(alloc, files, SMALL) {
        Ok(conn) => Ok(conn),
        Err((_, left)) => Err(left.into_files()),
    }
}

// What comes of a task over a keeper that is made of the connection, and the connection.
fn over<S: Alter + Drop>(
    alloc: Global,
    conn: Connection<S>,
    task: Task,
) -> (Result<Outcome, AllocError>, Option<Connection<S>>) {
    let mut keeper = SqlKeeper::adopt(conn);
    let outcome = done(alloc, &mut keeper, task);
    (outcome, keeper.release())
}

// The same over files that are opened and closed, and the files.
fn within<D: Disk + Drop>(
    alloc: Global,
    files: Files<D>,
    task: Task,
) -> (Result<Outcome, AllocError>, Option<Files<D>>) {
    match connect(alloc, files) {
        Ok(conn) => {
            let (outcome, conn) = over(alloc, conn, task);
            (outcome, conn.map(|conn| conn.into_store().close()))
        }
        Err(files) => (Ok(unopened()), Some(files)),
    }
}

// New files, whose calls fail after so many.
fn stopping(alloc: Global, log: u64, db: u64) -> Files<Stopping> {
    Files {
        log: Fuse::new(Memory::new(alloc), log),
        db: Fuse::new(Memory::new(alloc), db),
    }
}

// The file with all that was written, synced or not.
fn written(alloc: Global, file: &Stopping) -> Stopping {
    let mut copy = Memory::new(alloc);
    let _ = copy.write_at(0, file.inner().bytes());
    let _ = copy.sync();
    Fuse::new(copy, NEVER)
}

// The files as a crash leaves them that loses nothing, and as one does that loses all that wasn't synced.
fn left_of(alloc: Global, mut files: Files<Stopping>) -> (Files<Stopping>, Files<Stopping>) {
    let kept = Files {
        log: written(alloc, &files.log),
        db: written(alloc, &files.db),
    };
    files.log.crash();
    files.db.crash();
    (kept, files)
}

// What a task finds in the files, as each of the two crashes leaves them.
fn found_in(
    alloc: Global,
    files: Files<Stopping>,
    task: Task,
) -> (Result<Outcome, AllocError>, Result<Outcome, AllocError>) {
    let (kept, synced) = left_of(alloc, files);
    let (of_kept, _) = within(alloc, kept, task);
    let (of_synced, _) = within(alloc, synced, task);
    (of_kept, of_synced)
}

// What is found is what was acknowledged, or one more if one was refused.
fn is_lawful(outcome: Outcome, found: Option<usize>) -> bool {
    match found {
        Some(found) => {
            found == outcome.made || outcome.refused > 0 && found == outcome.made.saturating_add(1)
        }
        None => false,
    }
}

// Stops the files after so many calls of a task, and tells whether what another finds in them afterwards is lawful.
fn holds_at(
    alloc: Global,
    (log, db): (u64, u64),
    task: Task,
    finds: Task,
) -> Result<bool, AllocError> {
    let (outcome, files) = within(alloc, stopping(alloc, log, db), task);
    let Some(files) = files else {
        return Ok(false);
    };
    let (of_kept, of_synced) = found_in(alloc, files, finds);
    let outcome = outcome?;
    Ok(is_lawful(outcome, of_kept?.found) && is_lawful(outcome, of_synced?.found))
}

#[test]
fn a_stop_of_the_log_loses_no_acknowledged_row(rt: HostRuntime) -> Result<(), Fail> {
    for step in 0..6u64 {
        let stop = (step * 9, NEVER);
        assert!(rt;
            holds_at(rt.alloc(), stop, Task::Fill, Task::CountRows)?,
            "{stop:?}"
        );
    }
    Ok(())
}

#[test]
fn a_stop_of_the_database_file_loses_no_acknowledged_row(rt: HostRuntime) -> Result<(), Fail> {
    for step in 0..5u64 {
        let stop = (NEVER, step * 5);
        assert!(rt;
            holds_at(rt.alloc(), stop, Task::Fill, Task::CountRows)?,
            "{stop:?}"
        );
    }
    Ok(())
}

// Whether the stop loses no organisation that was acknowledged.
fn holds_organisations_at(alloc: Global, stop: (u64, u64)) -> Result<bool, AllocError> {
    holds_at(alloc, stop, Task::AddTwo, Task::CountOrganisations)
}

// The log is called 43 times until both are acknowledged, and the database file 19 times.
#[test]
fn a_stop_of_the_log_loses_no_acknowledged_organisation(rt: HostRuntime) -> Result<(), Fail> {
    for calls in 0..45u64 {
        assert!(rt;
            holds_organisations_at(rt.alloc(), (calls, NEVER))?,
            "after {calls} calls"
        );
    }
    Ok(())
}

#[test]
fn a_stop_of_the_database_file_loses_no_acknowledged_organisation(
    rt: HostRuntime,
) -> Result<(), Fail> {
    for calls in 0..21u64 {
        assert!(rt;
            holds_organisations_at(rt.alloc(), (NEVER, calls))?,
            "after {calls} calls"
        );
    }
    Ok(())
}

// Runs the command of this number over the files, which are opened for it and closed, and tells whether it ends as it must.
fn ends_within(
    alloc: Global,
    files: Files<Stopping>,
    number: usize,
) -> (Result<bool, AllocError>, Option<Files<Stopping>>) {
    let (outcome, files) = within(alloc, files, Task::Command(number));
    (outcome.map(|outcome| outcome.found == Some(number)), files)
}

#[test]
fn a_store_gives_the_bytes_of_a_keeper_in_memory(rt: HostRuntime) -> Result<(), Fail> {
    let alloc = rt.alloc();
    let mut left = Some(stopping(alloc, NEVER, NEVER));
    for number in 0..COMMANDS.len() {
        let Some(files) = left else {
            assert!(rt; false, "the files aren't given back");
            return Ok(());
        };
        let (ends, files) = ends_within(alloc, files, number);
        left = files;
        assert!(rt; ends?, "command {number}");
    }
    Ok(())
}

use crate::batches::put;
use crate::visits::{Visit, look_in};
use std::alloc::AllocError;
use std::fs;
use std::test::Fail;
use store_sqlite::{DatabaseFault, OnPath};

// What opens the database on this path.
fn at(rt: HostRuntime, path: &str) -> Result<OnPath, AllocError> {
    Ok(OnPath::new(rt, String::from_str(rt.alloc(), path)?))
}

// Sets a row in the database on this path, and reads all of them. It alone names the keeper's type, which is dear to prove.
fn visit_path(rt: HostRuntime, path: &str, key: u8) -> Result<Visit, AllocError> {
    let batch = put(rt.alloc(), 7, key, b"row")?;
    let opener = at(rt, path)?;
    let second = at(rt, path)?;
    look_in(rt.alloc(), opener, second, &batch)
}

// The rows, why the keeper failed, and why a second one wasn't opened meanwhile, with `|` between them.
fn told_of(rt: HostRuntime, path: &str, key: u8) -> Result<String, AllocError> {
    let found = visit_path(rt, path, key)?;
    let rows = str::from_utf8(found.rows.as_slice()).unwrap_or("?");
    let fault = found.fault;
    let second = found.second;
    format!(in rt.alloc(); "{rows}|{fault:?}|{second:?}")
}

// Paths in a folder that has a text, one after the other, with the key of a row that is set there, and what is told of them.
const TOLD: [(&str, u8, &str); 6] = [
    ("stores/rows.db", b'b', "b=row |None|Some(Busy)"),
    ("stores/rows.db", b'a', "a=row b=row |None|Some(Busy)"),
    ("stores", b'a', "failed|Some(CannotOpen)|Some(CannotOpen)"),
    (
        "stores/none/a.db",
        b'a',
        "failed|Some(CannotOpen)|Some(CannotOpen)",
    ),
    ("", b'a', "failed|Some(CannotOpen)|Some(CannotOpen)"),
    (
        "stores/text",
        b'a',
        "failed|Some(NotADatabase)|Some(NotADatabase)",
    ),
];

#[test]
fn rows_are_found_again_on_a_path_and_faults_are_told(rt: HostRuntime) -> Result<(), Fail> {
    let _ = fs::remove_dir_all(&rt, "stores");
    fs::create_dir(&rt, "stores")?;
    let text = b"This is a text and no database.\n".as_slice();
    fs::write(&rt, "stores/text", text)?;
    for (path, key, wanted) in TOLD {
        let told = told_of(rt, path, key)?;
        assert_eq!(rt; told.as_str(), wanted, "at {path}");
    }
    fs::remove_dir_all(&rt, "stores")?;
    Ok(())
}

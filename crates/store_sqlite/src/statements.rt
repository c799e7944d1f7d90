//! One statement in each function, with what it means of the map.
//!
//! A function with several statements calls one function for each: a contract of several statements takes long to prove.

ghost use Rattle.std.specs.Prelude.{◌≡◌, ◌<◌, false, [], length, IfOk, OnOk, OnErr, IsTrue, slice_get, map, take};
ghost use Rattle.sqlite.specs.State.{HasCleanDisk, Survives, IsUnchanged, Executes, CommitsBy};
ghost use Rattle.sqlite.specs.Held.{state};
ghost use Rattle.store_kv.specs.Tables.{row_at, rows_between, after_change, after};
ghost use Rattle.store_sqlite.specs.Kept.{IsKept, IsReady, no_schema, create_text, tables_in, map_in};
ghost use Rattle.store_sqlite.specs.inner.Steps.{Keeps, IsGood, IsPending, Undoes, GoesOn, Stays, WasOpen, blob_row, kept_row, IsLimit};

use base_value::Bytes;
use sqlite::{Alter, Connection, Error, ErrorCode, Row, Statement, Transaction, params};
use std::alloc::Global;
use store_kv::{Change, KeptRow, walk_laws};

// What LIMIT is given: the limit, or -1, which is none, for one that SQL has no number for.
fn sql_limit(limit: usize) -> i64
    ensures { IsLimit limit result }
{
    match i64::try_from(limit) {
        Ok(most) => most,
        Err(_) => -1,
    }
}

/// Asks for the row of a key: at most one row, of one column.
pub(crate) fn rows_at<S: Alter>(
    conn: &mut Connection<S>,
    table: u8,
    key: &[u8],
) -> Result<Vec<Row>, Error>
    ensures row { IsReady (state S.Store conn.old) → HasCleanDisk (state S.Store conn.new)
        → IfOk result (λ rows.
        slice_get rows.items 0 ≡ blob_row (row_at (map_in (state S.Store conn.old).now.trees) table key.now)) }
    ensures stays { HasCleanDisk (state S.Store conn.new)
        → Stays (state S.Store conn.old) (state S.Store conn.new) }
    ensures was_open { HasCleanDisk (state S.Store conn.new)
        → WasOpen (state S.Store conn.old) (state S.Store conn.new) }
    ensures keeps { Keeps (state S.Store conn.old) (state S.Store conn.new) }
    ensures trusted { HasCleanDisk (state S.Store conn.new) → OnOk result (IsTrue (state S.Store conn.new).is_open) }
    ensures survives { Survives (state S.Store conn.old) (state S.Store conn.new) (λ _. ⊥) }
{
    conn.query_all(
        "SELECT r FROM kept WHERE t = ?1 AND k = ?2",
        params![u32::from(table), key],
    )
}

/// Asks for the rows with `from <= key < below`, in the order of their keys: rows of two columns, key and row. The first
/// `limit` rows are meant; there may be more only if the limit is no number of SQL.
pub(crate) fn rows_in<S: Alter>(
    conn: &mut Connection<S>,
    table: u8,
    from: &[u8],
    below: &[u8],
    limit: usize,
) -> Result<Vec<Row>, Error>
    ensures rows { IsReady (state S.Store conn.old) → HasCleanDisk (state S.Store conn.new)
        → IfOk result (λ rows. take limit (map kept_row rows.items)
        ≡ take limit (rows_between (map_in (state S.Store conn.old).now.trees) table from.now below.now)) }
    ensures stays { HasCleanDisk (state S.Store conn.new)
        → Stays (state S.Store conn.old) (state S.Store conn.new) }
    ensures was_open { HasCleanDisk (state S.Store conn.new)
        → WasOpen (state S.Store conn.old) (state S.Store conn.new) }
    ensures keeps { Keeps (state S.Store conn.old) (state S.Store conn.new) }
    ensures trusted { HasCleanDisk (state S.Store conn.new) → OnOk result (IsTrue (state S.Store conn.new).is_open) }
    ensures survives { Survives (state S.Store conn.old) (state S.Store conn.new) (λ _. ⊥) }
{
    // Only one list is a listing of an interval.
    walk_laws();
    conn.query_all(
        "SELECT k, r FROM kept WHERE t = ?1 AND k >= ?2 AND k < ?3 ORDER BY k LIMIT ?4",
        params![u32::from(table), from, below, sql_limit(limit)],
    )
}

// A row of `rows_in` in the keeper's form.
fn read_row(row: &Row) -> Result<KeptRow, Error>
    ensures { IfOk result (λ it. it ≡ kept_row row.now) }
{
    let key = row.get(0)?;
    let value = row.get(1)?;
    Ok(KeptRow {
        key: Bytes::from_vec(key),
        row: Bytes::from_vec(value),
    })
}

/// The rows of `rows_in` in the keeper's form.
pub(crate) fn kept_rows(alloc: Global, rows: &[Row]) -> Result<Vec<KeptRow>, Error>
    ensures { IfOk result (λ all. all.items ≡ map kept_row rows.now) }
{
    let mut all = Vec::new(alloc);
    for row in rows {
        let row = read_row(row)?;
        if all.push(row).is_err() {
            return Err(Error::SqliteFailure(ErrorCode::OutOfMemory));
        }
    }
    Ok(all)
}

// Sets the row of a key.
fn put_row<S: Alter>(
    tx: &mut Transaction<'_, S>,
    table: u8,
    key: &[u8],
    row: &[u8],
) -> Result<usize, Error>
    ensures same_reference { tx.new.conn.ghost_name ≡ tx.old.conn.ghost_name }
    ensures done { HasCleanDisk (state S.Store tx.new.conn.now) → IsTrue (state S.Store tx.old.conn.now).in_transaction
        → IsGood (state S.Store tx.old.conn.now)
        → OnOk result (IsPending (state S.Store tx.old.conn.now) (state S.Store tx.new.conn.now)
        (after_change (Change.Put table key.now row.now) (tables_in (state S.Store tx.old.conn.now).now.trees))) }
    ensures undone { HasCleanDisk (state S.Store tx.new.conn.now)
        → IsTrue (state S.Store tx.old.conn.now).in_transaction
        → OnErr result (Undoes (state S.Store tx.old.conn.now) (state S.Store tx.new.conn.now)) }
    ensures inside { HasCleanDisk (state S.Store tx.new.conn.now)
        → IsTrue (state S.Store tx.old.conn.now).in_transaction
        → OnOk result (GoesOn (state S.Store tx.old.conn.now) (state S.Store tx.new.conn.now)) }
    ensures survives { Survives (state S.Store tx.old.conn.now) (state S.Store tx.new.conn.now) (λ _. ⊥) }
{
    tx.execute(
        "INSERT INTO kept (t, k, r) VALUES (?1, ?2, ?3) ON CONFLICT (t, k) DO UPDATE SET r = excluded.r",
        params![u32::from(table), key, row],
    )
}

// Removes the row of a key, if there is one.
fn remove_row<S: Alter>(tx: &mut Transaction<'_, S>, table: u8, key: &[u8]) -> Result<usize, Error>
    ensures same_reference { tx.new.conn.ghost_name ≡ tx.old.conn.ghost_name }
    ensures done { HasCleanDisk (state S.Store tx.new.conn.now) → IsTrue (state S.Store tx.old.conn.now).in_transaction
        → IsGood (state S.Store tx.old.conn.now)
        → OnOk result (IsPending (state S.Store tx.old.conn.now) (state S.Store tx.new.conn.now)
        (after_change (Change.Remove table key.now) (tables_in (state S.Store tx.old.conn.now).now.trees))) }
    ensures undone { HasCleanDisk (state S.Store tx.new.conn.now)
        → IsTrue (state S.Store tx.old.conn.now).in_transaction
        → OnErr result (Undoes (state S.Store tx.old.conn.now) (state S.Store tx.new.conn.now)) }
    ensures inside { HasCleanDisk (state S.Store tx.new.conn.now)
        → IsTrue (state S.Store tx.old.conn.now).in_transaction
        → OnOk result (GoesOn (state S.Store tx.old.conn.now) (state S.Store tx.new.conn.now)) }
    ensures survives { Survives (state S.Store tx.old.conn.now) (state S.Store tx.new.conn.now) (λ _. ⊥) }
{
    tx.execute(
        "DELETE FROM kept WHERE t = ?1 AND k = ?2",
        params![u32::from(table), key],
    )
}

// Makes one change.
fn make_change<S: Alter>(tx: &mut Transaction<'_, S>, change: &Change) -> Result<usize, Error>
    ensures same_reference { tx.new.conn.ghost_name ≡ tx.old.conn.ghost_name }
    ensures done { HasCleanDisk (state S.Store tx.new.conn.now) → IsTrue (state S.Store tx.old.conn.now).in_transaction
        → IsGood (state S.Store tx.old.conn.now)
        → OnOk result (IsPending (state S.Store tx.old.conn.now) (state S.Store tx.new.conn.now)
        (after_change change.now (tables_in (state S.Store tx.old.conn.now).now.trees))) }
    ensures undone { HasCleanDisk (state S.Store tx.new.conn.now)
        → IsTrue (state S.Store tx.old.conn.now).in_transaction
        → OnErr result (Undoes (state S.Store tx.old.conn.now) (state S.Store tx.new.conn.now)) }
    ensures inside { HasCleanDisk (state S.Store tx.new.conn.now)
        → IsTrue (state S.Store tx.old.conn.now).in_transaction
        → OnOk result (GoesOn (state S.Store tx.old.conn.now) (state S.Store tx.new.conn.now)) }
    ensures survives { Survives (state S.Store tx.old.conn.now) (state S.Store tx.new.conn.now) (λ _. ⊥) }
{
    match change {
        Change::Put { table, key, row } => put_row(tx, *table, key.as_slice(), row.as_slice()),
        Change::Remove { table, key } => remove_row(tx, *table, key.as_slice()),
    }
}

// Makes all changes in one transaction, or none. It returns false if the connection is inside another one.
fn make_changes<S: Alter>(conn: &mut Connection<S>, changes: &[Change]) -> Result<bool, Error>
    requires { 0 < length changes.now }
    ensures applied { IsKept (state S.Store conn.old) → HasCleanDisk (state S.Store conn.new)
        → IfOk result (λ done. IsTrue done × IsKept (state S.Store conn.new)
        × (tables_in (state S.Store conn.new).now.trees
        ≡ after changes.now (tables_in (state S.Store conn.old).now.trees))) }
    ensures tabled { (state S.Store conn.old).in_transaction ≡ false → HasCleanDisk (state S.Store conn.new)
        → OnOk result (¬ ((state S.Store conn.old).now.schema ≡ no_schema)) }
    ensures refused { HasCleanDisk (state S.Store conn.new)
        → OnErr result (Stays (state S.Store conn.old) (state S.Store conn.new)) }
    ensures was_open { HasCleanDisk (state S.Store conn.new)
        → WasOpen (state S.Store conn.old) (state S.Store conn.new) }
    ensures trusted { HasCleanDisk (state S.Store conn.new)
        → IfOk result (λ done. IsTrue done → IsTrue (state S.Store conn.new).is_open) }
    ensures keeps { Keeps (state S.Store conn.old) (state S.Store conn.new) }
    ensures crash { IsKept (state S.Store conn.old)
        → Survives (state S.Store conn.old) (state S.Store conn.new)
        (λ db. map_in db ≡ after changes.now (tables_in (state S.Store conn.old).now.trees)) }
    ensures tableless { (state S.Store conn.old).now.schema ≡ no_schema
        → Survives (state S.Store conn.old) (state S.Store conn.new) (λ _. ⊥) }
    ensures shut { (state S.Store conn.old).is_open ≡ false
        → Survives (state S.Store conn.old) (state S.Store conn.new) (λ _. ⊥) }
{
    if !conn.is_autocommit() {
        return Ok(false);
    }
    let mut tx = conn.transaction();
    for change in changes {
        make_change(&mut tx, change)?;
    }
    tx.commit()?;
    Ok(true)
}

// The name of an object that isn't of the table `kept`, if there is one: at most one row.
fn other_names<S: Alter>(conn: &mut Connection<S>) -> Result<Vec<Row>, Error>
    ensures unchanged { HasCleanDisk (state S.Store conn.new)
        → OnOk result (IsUnchanged (state S.Store conn.old) (state S.Store conn.new)) }
    ensures clean { HasCleanDisk (state S.Store conn.new) → HasCleanDisk (state S.Store conn.old) }
{
    conn.query_all(
        "SELECT name FROM sqlite_schema WHERE tbl_name <> 'kept' LIMIT 1",
        &[],
    )
}

/// Whether the database has an object that isn't of the table `kept`, such as another table. It is `Ok` only if the
/// connection is open, and nothing has changed then.
pub fn has_others<S: Alter>(conn: &mut Connection<S>) -> Result<bool, Error>
    ensures unchanged { HasCleanDisk (state S.Store conn.new)
        → OnOk result (IsUnchanged (state S.Store conn.old) (state S.Store conn.new)) }
    ensures clean { HasCleanDisk (state S.Store conn.new) → HasCleanDisk (state S.Store conn.old) }
{
    let others = other_names(conn)?;
    Ok(!others.is_empty())
}

/// Finds whether the connection is open: `Ok` comes only if it is.
pub(crate) fn check_open<S: Alter>(conn: &mut Connection<S>) -> Result<Statement, Error>
    ensures stays { HasCleanDisk (state S.Store conn.new)
        → Stays (state S.Store conn.old) (state S.Store conn.new) }
    ensures was_open { HasCleanDisk (state S.Store conn.new)
        → WasOpen (state S.Store conn.old) (state S.Store conn.new) }
    ensures trusted { HasCleanDisk (state S.Store conn.new) → OnOk result (IsTrue (state S.Store conn.new).is_open) }
    ensures keeps { Keeps (state S.Store conn.old) (state S.Store conn.new) }
    ensures survives { Survives (state S.Store conn.old) (state S.Store conn.new) (λ _. ⊥) }
{
    conn.prepare("SELECT 1")
}

/// Makes all changes in their order in one transaction, or none. It returns false if the connection is inside another one.
pub(crate) fn apply_all<S: Alter>(
    conn: &mut Connection<S>,
    changes: &[Change],
) -> Result<bool, Error>
    ensures applied { IsReady (state S.Store conn.old) → HasCleanDisk (state S.Store conn.new)
        → IfOk result (λ done. IsTrue done
        × (IsTrue (state S.Store conn.new).is_open → IsReady (state S.Store conn.new)
        × (map_in (state S.Store conn.new).now.trees ≡ after changes.now (map_in (state S.Store conn.old).now.trees)))) }
    ensures refused { HasCleanDisk (state S.Store conn.new)
        → OnErr result (Stays (state S.Store conn.old) (state S.Store conn.new)) }
    ensures was_open { HasCleanDisk (state S.Store conn.new)
        → WasOpen (state S.Store conn.old) (state S.Store conn.new) }
    ensures trusted { HasCleanDisk (state S.Store conn.new)
        → IfOk result (λ done. IsTrue done → IsTrue (state S.Store conn.new).is_open) }
    ensures keeps { Keeps (state S.Store conn.old) (state S.Store conn.new) }
    ensures crash { IsReady (state S.Store conn.old)
        → Survives (state S.Store conn.old) (state S.Store conn.new)
        (λ db. map_in db ≡ after changes.now (map_in (state S.Store conn.old).now.trees)) }
    ensures shut { (state S.Store conn.old).is_open ≡ false
        → Survives (state S.Store conn.old) (state S.Store conn.new) (λ _. ⊥) }
{
    if changes.is_empty() {
        // An empty transaction might be committed by a connection that is shut.
        let _statement = check_open(conn)?;
        return Ok(true);
    }
    make_changes(conn, changes)
}

// The statement that makes the table.
fn prepare_table<S: Alter>(conn: &mut Connection<S>) -> Result<Statement, Error>
    ensures text { HasCleanDisk (state S.Store conn.new) → IfOk result (λ s. s.text ≡ create_text) }
    ensures ok { HasCleanDisk (state S.Store conn.new)
        → OnOk result (IsUnchanged (state S.Store conn.old) (state S.Store conn.new)) }
    ensures stays { HasCleanDisk (state S.Store conn.new)
        → Stays (state S.Store conn.old) (state S.Store conn.new) }
    ensures was_open { HasCleanDisk (state S.Store conn.new)
        → WasOpen (state S.Store conn.old) (state S.Store conn.new) }
    ensures keeps { Keeps (state S.Store conn.old) (state S.Store conn.new) }
    ensures survives { Survives (state S.Store conn.old) (state S.Store conn.new) (λ _. ⊥) }
{
    conn.prepare(
        "CREATE TABLE IF NOT EXISTS kept (t INTEGER NOT NULL, k BLOB NOT NULL, r BLOB NOT NULL, PRIMARY KEY (t, k)) STRICT",
    )
}

// Runs a statement without parameters.
fn create_table<S: Alter>(conn: &mut Connection<S>, statement: &Statement) -> Result<usize, Error>
    ensures runs { HasCleanDisk (state S.Store conn.new)
        → Executes statement.now.text [] (state S.Store conn.old) (state S.Store conn.new) result }
    ensures survives { Survives (state S.Store conn.old) (state S.Store conn.new)
        (CommitsBy statement.now.text [] (state S.Store conn.old)) }
{
    statement.execute(conn, &[])
}

// Makes the table, unless it's there.
fn create_if_missing<S: Alter>(conn: &mut Connection<S>) -> Result<(), Error>
    ensures kept { IsReady (state S.Store conn.old) → HasCleanDisk (state S.Store conn.new)
        → IsTrue (state S.Store conn.new).is_open → IsReady (state S.Store conn.new)
        × (map_in (state S.Store conn.new).now.trees ≡ map_in (state S.Store conn.old).now.trees) }
    ensures was_open { HasCleanDisk (state S.Store conn.new)
        → WasOpen (state S.Store conn.old) (state S.Store conn.new) }
    ensures keeps { Keeps (state S.Store conn.old) (state S.Store conn.new) }
    ensures crash { IsReady (state S.Store conn.old)
        → Survives (state S.Store conn.old) (state S.Store conn.new)
        (λ db. map_in db ≡ map_in (state S.Store conn.old).now.trees) }
    ensures shut { (state S.Store conn.old).is_open ≡ false
        → Survives (state S.Store conn.old) (state S.Store conn.new) (λ _. ⊥) }
{
    let statement = prepare_table(conn)?;
    create_table(conn, &statement)?;
    Ok(())
}

/// Makes the table, unless it's there. `Ok` comes only if the connection is open.
pub(crate) fn open_table<S: Alter>(conn: &mut Connection<S>) -> Result<(), Error>
    ensures kept { IsReady (state S.Store conn.old) → HasCleanDisk (state S.Store conn.new)
        → IsTrue (state S.Store conn.new).is_open → IsReady (state S.Store conn.new)
        × (map_in (state S.Store conn.new).now.trees ≡ map_in (state S.Store conn.old).now.trees) }
    ensures was_open { HasCleanDisk (state S.Store conn.new)
        → WasOpen (state S.Store conn.old) (state S.Store conn.new) }
    ensures trusted { HasCleanDisk (state S.Store conn.new) → OnOk result (IsTrue (state S.Store conn.new).is_open) }
    ensures keeps { Keeps (state S.Store conn.old) (state S.Store conn.new) }
    ensures crash { IsReady (state S.Store conn.old)
        → Survives (state S.Store conn.old) (state S.Store conn.new)
        (λ db. map_in db ≡ map_in (state S.Store conn.old).now.trees) }
    ensures shut { (state S.Store conn.old).is_open ≡ false
        → Survives (state S.Store conn.old) (state S.Store conn.new) (λ _. ⊥) }
{
    create_if_missing(conn)?;
    let _statement = check_open(conn)?;
    Ok(())
}

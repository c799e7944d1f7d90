//! A keeper over a connection.

ghost use Rattle.std.specs.Prelude.{◌≡◌, ℕ, slice_index};
ghost use Rattle.store_sqlite.specs.Kept.{keeper_state};

use crate::fault::{DatabaseFault, Refusals};
use crate::refusing::refuse_call;
use crate::statements::{apply_all, kept_rows, open_table, rows_at, rows_in};
use base_value::Bytes;
use sqlite::{Alter, Connection};
use std::alloc::Global;
use store_kv::{Batch, KeepFail, Keeper, KeptRow};

/// A connection, and what the keeper counts. The tables are the rows of the table `kept` of the connection's database.
#[derive(Drop)]
pub struct Connected<S: Alter> {
    conn: Connection<S>,
    refusals: Refusals,
    shown: [u64; 256],
    written: u64,
}

impl<S: Alter> Connected<S> {
    /// A keeper over the connection, with the refusals that were counted before. It has shown and written no row.
    pub(crate) fn resume(conn: Connection<S>, refusals: Refusals) -> Connected<S>
        ensures conn { result.conn ≡ conn }
        ensures refusals { result.refusals ≡ refusals }
        ensures shown { (table : ℕ) → slice_index result.shown table ≡ 0 }
        ensures written { result.written ≡ 0 }
    {
        Connected {
            conn,
            refusals,
            shown: [0; 256],
            written: 0,
        }
    }

    /// Hands the connection back.
    pub(crate) fn release(self) -> Connection<S>
        ensures { result ≡ self.conn }
    {
        let Connected {
            conn,
            refusals: _,
            shown: _,
            written: _,
        } = self;
        conn
    }

    /// Why the last call that was counted failed.
    pub(crate) fn last_fault(&self) -> Option<DatabaseFault>
        ensures { result ≡ self.now.refusals.last }
    {
        self.refusals.last()
    }
}

impl<S: Alter> Keeper for Connected<S> {
    ghost use Rattle.store_sqlite.specs.Laws.{settled_by};

    ghost state = { λ k. keeper_state S.Store k.conn k.refusals.count k.shown k.written };

    fn open(&mut self, _alloc: Global) -> Result<(), KeepFail> {
        match open_table(&mut self.conn) {
            Ok(()) => Ok(()),
            Err(error) => Err(refuse_call(&mut self.conn, &mut self.refusals, error)),
        }
    }

    fn get(&mut self, _alloc: Global, table: u8, key: &[u8]) -> Result<Option<Bytes>, KeepFail> {
        let rows = match rows_at(&mut self.conn, table, key) {
            Ok(rows) => rows,
            Err(error) => return Err(refuse_call(&mut self.conn, &mut self.refusals, error)),
        };
        let Some(row) = rows.first() else {
            return Ok(None);
        };
        match row.get(0) {
            Ok(bytes) => {
                let at = table as usize;
                self.shown[at] = self.shown[at].saturating_add(1);
                Ok(Some(Bytes::from_vec(bytes)))
            }
            Err(error) => Err(self.refusals.refuse(error)),
        }
    }

    fn scan(
        &mut self,
        alloc: Global,
        table: u8,
        from: &[u8],
        below: &[u8],
        limit: usize,
    ) -> Result<Vec<KeptRow>, KeepFail> {
        let mut rows = match rows_in(&mut self.conn, table, from, below, limit) {
            Ok(rows) => rows,
            Err(error) => return Err(refuse_call(&mut self.conn, &mut self.refusals, error)),
        };
        // There may be more if the limit is no number of SQL, or the connection doesn't tell its rows.
        rows.truncate(limit);
        match kept_rows(alloc, rows.as_slice()) {
            Ok(all) => {
                let at = table as usize;
                self.shown[at] = self.shown[at].saturating_add(all.len() as u64);
                Ok(all)
            }
            Err(error) => Err(self.refusals.refuse(error)),
        }
    }

    fn apply(&mut self, _alloc: Global, batch: &Batch) -> Result<(), KeepFail> {
        match apply_all(&mut self.conn, batch.changes.as_slice()) {
            Ok(true) => {
                self.written = self.written.saturating_add(batch.changes.len() as u64);
                Ok(())
            }
            Ok(false) => {
                // The connection was handed in inside a transaction.
                self.refusals.add(DatabaseFault::Other);
                Err(KeepFail::Failed)
            }
            Err(error) => Err(refuse_call(&mut self.conn, &mut self.refusals, error)),
        }
    }

    ghost settled = { λ k. settled_by (record {
      view = S.Store.view;
      faults = S.Store.faults;
      recovers = S.Store.recovers;
      is_shielded = S.Store.is_shielded;
      is_step = S.Store.is_step;
      blamed = S.Store.blamed;
      names = S.Store.names;
    }) k.conn S.Store.settled S.Store.stays k.refusals.count k.shown k.written };
}

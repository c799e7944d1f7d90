//! A keeper that gets its connection when it is opened.

ghost use Rattle.std.specs.Prelude.{◌≡◌, ℕ, IfSome};
ghost use Rattle.std.specs.Option.{option_map};
ghost use Rattle.store_sqlite.specs.Opened.{opened_state, IsUnopened, IsOver};

use crate::connected::Connected;
use crate::fault::{DatabaseFault, Refusals};
use crate::opener::{Opener, Ready};
use base_value::Bytes;
use sqlite::{Alter, Connection};
use std::alloc::Global;
use std::rt::HostRuntime;
use store_kv::{Batch, KeepFail, Keeper, KeptRow};

/// The tables in a SQL database. Until it is opened it has an opener alone, and each other call fails.
///
/// While the connection is open, it's outside a transaction, and its database has the table `kept` alone or no table at all,
/// the keeper tells its tables. A connection ceases to be open only by a fault that it counts.
#[derive(Drop)]
pub struct SqlKeeper<O: Opener> {
    opener: O,
    connected: Option<Connected<O::Base>>,
    refusals: Refusals,
}

impl<O: Opener> SqlKeeper<O> {
    /// A keeper that isn't opened.
    pub fn new(opener: O) -> SqlKeeper<O>
        ensures { IsUnopened (O.tells opener) (⟦<SqlKeeper<O> as Keeper>⟧.state result) }
    {
        SqlKeeper {
            opener,
            connected: None,
            refusals: Refusals::none(),
        }
    }

    /// Why the last call that returned `Failed` did so: `None` if no call has.
    pub fn last_fault(&self) -> Option<DatabaseFault> {
        match &self.connected {
            Some(connected) => connected.last_fault(),
            None => self.refusals.last(),
        }
    }
}

impl<O: Opener + Drop> SqlKeeper<O> {
    /// Hands the connection back: `None` exactly if the keeper has none, as before it is opened.
    pub fn release(self) -> Option<Connection<O::Base>>
        ensures connection { result ≡ option_map (λ c. c.conn) self.connected }
        ensures over { IfSome result (λ c. IsOver O.Base.Store c (⟦<SqlKeeper<O> as Keeper>⟧.state self)) }
    {
        let SqlKeeper {
            opener: _,
            connected,
            refusals: _,
        } = self;
        match connected {
            Some(connected) => Some(connected.release()),
            None => None,
        }
    }
}

impl<S: Alter + Drop> SqlKeeper<Ready<S>> {
    /// A keeper over this connection. It has to be opened too, since that makes the table.
    pub fn adopt(conn: Connection<S>) -> SqlKeeper<Ready<S>>
        ensures over { IsOver S.Store conn (⟦<SqlKeeper<Ready<S>> as Keeper>⟧.state result) }
        ensures faults { (⟦<SqlKeeper<Ready<S>> as Keeper>⟧.state result).faults ≡ 0 }
        ensures shown { (table : ℕ) → (⟦<SqlKeeper<Ready<S>> as Keeper>⟧.state result).shown table ≡ 0 }
        ensures written { (⟦<SqlKeeper<Ready<S>> as Keeper>⟧.state result).written ≡ 0 }
    {
        SqlKeeper {
            opener: Ready::new(),
            connected: Some(Connected::resume(conn, Refusals::none())),
            refusals: Refusals::none(),
        }
    }
}

impl<S: Alter + Drop> SqlKeeper<Ready<S>> {
    /// As `adopt`. The keeper also says the fault of each call that fails in a line on standard error, as
    /// `carmuguur: the store: the disk is full`.
    pub fn adopt_saying(rt: HostRuntime, conn: Connection<S>) -> SqlKeeper<Ready<S>>
        ensures over { IsOver S.Store conn (⟦<SqlKeeper<Ready<S>> as Keeper>⟧.state result) }
        ensures faults { (⟦<SqlKeeper<Ready<S>> as Keeper>⟧.state result).faults ≡ 0 }
        ensures shown { (table : ℕ) → (⟦<SqlKeeper<Ready<S>> as Keeper>⟧.state result).shown table ≡ 0 }
        ensures written { (⟦<SqlKeeper<Ready<S>> as Keeper>⟧.state result).written ≡ 0 }
    {
        SqlKeeper {
            opener: Ready::new(),
            connected: Some(Connected::resume(conn, Refusals::saying(rt))),
            refusals: Refusals::none(),
        }
    }
}

impl<O: Opener> Keeper for SqlKeeper<O> {
    ghost use Rattle.store_sqlite.specs.Opened.{opened_settled};
    ghost use Rattle.store_sqlite.specs.Laws.{settled_by};

    ghost state = { λ k. opened_state ⟦<Connected<O::Base> as Keeper>⟧.state (O.tells k.opener) k.refusals.count k.connected };

    fn open(&mut self, alloc: Global) -> Result<(), KeepFail> {
        if let Some(connected) = &mut self.connected {
            return connected.open(alloc);
        }
        match self.opener.connect(alloc) {
            Ok(conn) => {
                let mut connected = Connected::resume(conn, self.refusals);
                let opened = connected.open(alloc);
                self.connected = Some(connected);
                opened
            }
            Err(error) => Err(self.refusals.refuse(error)),
        }
    }

    fn get(&mut self, alloc: Global, table: u8, key: &[u8]) -> Result<Option<Bytes>, KeepFail> {
        let Some(connected) = &mut self.connected else {
            self.refusals.add(DatabaseFault::NotOpened);
            return Err(KeepFail::Failed);
        };
        connected.get(alloc, table, key)
    }

    fn scan(
        &mut self,
        alloc: Global,
        table: u8,
        from: &[u8],
        below: &[u8],
        limit: usize,
    ) -> Result<Vec<KeptRow>, KeepFail> {
        let Some(connected) = &mut self.connected else {
            self.refusals.add(DatabaseFault::NotOpened);
            return Err(KeepFail::Failed);
        };
        connected.scan(alloc, table, from, below, limit)
    }

    fn apply(&mut self, alloc: Global, batch: &Batch) -> Result<(), KeepFail> {
        let Some(connected) = &mut self.connected else {
            self.refusals.add(DatabaseFault::NotOpened);
            return Err(KeepFail::Failed);
        };
        connected.apply(alloc, batch)
    }

    ghost settled = { λ k. opened_settled ⟦<Connected<O::Base> as Keeper>⟧.state (λ c. settled_by (record {
      view = O.Base.Store.view;
      faults = O.Base.Store.faults;
      recovers = O.Base.Store.recovers;
      is_shielded = O.Base.Store.is_shielded;
      is_step = O.Base.Store.is_step;
      blamed = O.Base.Store.blamed;
      names = O.Base.Store.names;
    }) c.conn O.Base.Store.settled O.Base.Store.stays c.refusals.count c.shown c.written) (O.tells k.opener) k.refusals.count k.connected };
}

//! The lines in turn, over the keeper of a store.

ghost use Rattle.std.specs.Prelude.{◌≤◌, IfOk};
ghost use Rattle.std.specs.List.{All};

use crate::given::{Given, LAST_MOMENT};
use crate::line::{Asks, Fault, Line};
use crate::list::push;
use crate::output::Output;
use crate::reading::read_line;
use crate::report::{Counts, push_report};
use crate::rows::push_rows;
use base_io::{MemoryClock, MemoryDoor, MemorySink, MemorySource};
use base_json::{JsonFail, read};
use base_value::Items;
use platform::run;
use std::alloc::{AllocError, Global};
use std::fmt;
use store_kv::{Batch, Change, KeepFail, Keeper, KeptRow, MemoryKeeper};

// So many bytes may be written to each connection.
const ROOM: usize = 1 << 20;

// The table of records.
const DATA_TABLE: u8 = 7;

// No key of a row is beyond this one: a key begins with the number of its organisation, in four bytes.
const LAST_KEY: [u8; 5] = [255; 5];

/// Why a line is the last.
#[derive(Debug, Drop)]
pub enum End {
    /// It is refused, for this.
    Fault(String),
    /// The keeper failed, as its list says, where rows were to be put into it.
    Keeper,
    /// Out of memory.
    Memory,
}

impl End {
    /// The status of a process that ends there.
    pub(crate) fn status(&self) -> u8 {
        match self {
            End::Fault(_) => 65,
            End::Memory => 71,
            End::Keeper => 72,
        }
    }
}

impl fmt::Display for End {
    fn fmt<W: fmt::Write>(&self, f: &mut fmt::Formatter<W>) -> fmt::Result {
        match self {
            End::Fault(fault) => f.write_str(fault.as_str()),
            End::Keeper => f.write_str("the keeper failed"),
            End::Memory => f.write_str("out of memory"),
        }
    }
}

impl From<KeepFail> for End {
    fn from(fail: KeepFail) -> End {
        match fail {
            KeepFail::Failed => End::Keeper,
            KeepFail::Memory => End::Memory,
        }
    }
}

// The end at a line that is refused, or wasn't read.
fn refusal(alloc: Global, fault: Fault<'_>) -> End {
    if let Fault::Memory = fault {
        return End::Memory;
    }
    match format!(in alloc; "{fault}") {
        Ok(text) => End::Fault(text),
        Err(_) => End::Memory,
    }
}

// Reads what a line of text says.
fn read_text(alloc: Global, text: &str, line: &mut Line) -> Result<(), End> {
    match read(alloc, text.as_bytes()) {
        Ok(json) => match read_line(alloc, &json, line) {
            Ok(()) => Ok(()),
            Err(fault) => Err(refusal(alloc, fault)),
        },
        Err(JsonFail::NotJson) => Err(refusal(alloc, Fault::NotJson)),
        Err(JsonFail::Memory) => Err(End::Memory),
    }
}

// These numbers, or the last of the range for one beyond it.
fn at_most(alloc: Global, numbers: &[u64], most: u64) -> Result<Items<u64>, AllocError>
    ensures small { IfOk result (λ ns. All (λ n. n ≤ most) ns) }
{
    let mut list = Items::new(alloc);
    'items: for number in numbers {
        list.push((*number).min(most))?;
    }
    Ok(list)
}

// A clock of these moments.
fn clock_of(alloc: Global, moments: &[u64]) -> Result<MemoryClock, AllocError> {
    let moments = at_most(alloc, moments, LAST_MOMENT)?;
    MemoryClock::new(alloc, moments.as_slice())
}

/// The keeper of the store, which lasts until a line begins another, and what the last run left of its standard output and its door.
#[derive(Drop)]
pub struct Replay {
    keeper: MemoryKeeper,
    // How many calls of the keeper are to fail.
    failing: usize,
    sink: MemorySink,
    door: MemoryDoor,
}

impl Replay {
    /// An empty keeper of which no call fails.
    pub fn new(alloc: Global) -> Result<Replay, AllocError> {
        let keeper = MemoryKeeper::new(alloc, &[])?;
        let sink = MemorySink::new(alloc, 0, &[])?;
        let door = MemoryDoor::new(alloc, &[], ROOM, &[])?;
        Ok(Replay {
            keeper,
            failing: 0,
            sink,
            door,
        })
    }

    /// Begins another store, which is empty, with a keeper of which these calls fail.
    ///
    /// # Errors
    ///
    /// If out of memory.
    pub(crate) fn begin(&mut self, alloc: Global, failing: &[u64]) -> Result<(), AllocError> {
        self.keeper = MemoryKeeper::new(alloc, failing)?;
        self.failing = failing.len();
        Ok(())
    }

    // The rows of a table. A call that fails is made again, since each number fails once.
    fn rows_of(&mut self, alloc: Global, table: u8) -> Result<Vec<KeptRow>, KeepFail> {
        for _ in 0..self.failing {
            match self.keeper.scan(alloc, table, &[], &LAST_KEY, usize::MAX) {
                Err(KeepFail::Failed) => {}
                found => return found,
            }
        }
        self.keeper.scan(alloc, table, &[], &LAST_KEY, usize::MAX)
    }

    // Adds the changes that put the rows of a table.
    fn add_rows(
        &mut self,
        alloc: Global,
        table: u8,
        changes: &mut Vec<Change>,
    ) -> Result<(), KeepFail> {
        for kept in self.rows_of(alloc, table)? {
            let KeptRow { key, row } = kept;
            push(changes, Change::Put { table, key, row })?;
        }
        Ok(())
    }

    // The changes that put the rows of all tables.
    fn all_rows(&mut self, alloc: Global) -> Result<Batch, KeepFail> {
        let mut changes = Vec::new(alloc);
        for table in 0..=u8::MAX {
            self.add_rows(alloc, table, &mut changes)?;
        }
        Ok(Batch { changes })
    }

    /// Has these calls of the keeper fail, counted from here on, over the rows that there are.
    ///
    /// # Errors
    ///
    /// If out of memory.
    pub(crate) fn fail_at(&mut self, alloc: Global, calls: &[u64]) -> Result<(), KeepFail> {
        let rows = self.all_rows(alloc)?;
        self.begin_with(alloc, calls, &rows)
    }

    // Begins another store with these rows, of whose keeper these calls fail, counted behind the one that puts the rows.
    fn begin_with(&mut self, alloc: Global, calls: &[u64], rows: &Batch) -> Result<(), KeepFail> {
        let mut later = Vec::new(alloc);
        for call in calls {
            push(&mut later, call.saturating_add(1))?;
        }
        self.begin(alloc, later.as_slice())?;
        self.keeper.apply(alloc, rows)
    }

    /// Puts rows into the keeper as they are, each in a batch of its own.
    ///
    /// # Errors
    ///
    /// If the keeper fails, or out of memory.
    pub(crate) fn put(&mut self, alloc: Global, rows: &[Batch]) -> Result<(), KeepFail> {
        for batch in rows {
            self.keeper.apply(alloc, batch)?;
        }
        Ok(())
    }

    // Runs words over a source and a clock, and counts what this adds to the keeper's counts.
    fn run_over(
        &mut self,
        alloc: Global,
        words: &[String],
        source: &mut MemorySource,
        clock: &mut MemoryClock,
    ) -> Counts {
        let written = self.keeper.written();
        let shown = self.keeper.shown(DATA_TABLE);
        let status = run(
            alloc,
            words,
            &mut self.keeper,
            &mut self.door,
            source,
            &mut self.sink,
            clock,
        );
        Counts {
            status,
            rows_written: self.keeper.written().saturating_sub(written),
            data_rows_shown: self.keeper.shown(DATA_TABLE).saturating_sub(shown),
        }
    }

    /// Runs the words that are given over what is given with them.
    ///
    /// # Errors
    ///
    /// If out of memory.
    pub(crate) fn run(&mut self, alloc: Global, given: &Given) -> Result<Counts, AllocError> {
        self.door = MemoryDoor::new(
            alloc,
            given.connections.as_slice(),
            ROOM,
            given.door_fails.as_slice(),
        )?;
        self.sink = MemorySink::new(alloc, given.room, given.sink_fails.as_slice())?;
        let mut clock = clock_of(alloc, given.moments.as_slice())?;
        let mut source = MemorySource::new(
            alloc,
            given.stdin.as_slice(),
            given.source_fails.as_slice(),
        )?;
        Ok(self.run_over(alloc, given.words.as_slice(), &mut source, &mut clock))
    }

    /// What the last run wrote to standard output.
    pub(crate) fn written(&self) -> &[u8] {
        self.sink.written()
    }

    // Does what a line asks but for words that it runs and rows that it writes.
    fn change(&mut self, alloc: Global, line: &Line) -> Result<(), KeepFail> {
        match line.asks {
            Asks::Store => Ok(self.begin(alloc, line.failing.as_slice())?),
            Asks::Rows => self.put(alloc, line.rows.as_slice()),
            Asks::Nothing | Asks::Dump | Asks::Run => Ok(()),
        }
    }

    // Appends the report of a run of what a line has.
    fn report(&mut self, alloc: Global, line: &Line, out: &mut Output) -> Result<(), KeepFail> {
        let counts = self.run(alloc, &line.given)?;
        push_report(out, counts, self.sink.written(), self.door.outputs());
        Ok(())
    }

    // Appends all rows of the keeper, as the line of rows that puts them.
    fn dump(&mut self, alloc: Global, out: &mut Output) -> Result<(), KeepFail> {
        let batch = self.all_rows(alloc)?;
        push_rows(out, batch.changes.as_slice());
        Ok(())
    }

    // Does what a line asks, and appends the line to write, if there is one.
    fn take(
        &mut self,
        alloc: Global,
        text: &str,
        line: &Line,
        out: &mut Output,
    ) -> Result<(), KeepFail> {
        match line.asks {
            Asks::Nothing => {
                out.push(text);
                Ok(())
            }
            Asks::Run => self.report(alloc, line, out),
            Asks::Dump => self.dump(alloc, out),
            Asks::Store | Asks::Rows => self.change(alloc, line),
        }
    }

    // What a line that was read gives to write, or nothing.
    fn answer(&mut self, alloc: Global, text: &str, line: &Line) -> Result<String, KeepFail> {
        let mut out = Output::new(alloc);
        self.take(alloc, text, line, &mut out)?;
        Ok(out.finish()?)
    }

    /// Does what a line says but for words that it runs.
    ///
    /// # Errors
    ///
    /// If the line is the last.
    pub fn prepare(&mut self, alloc: Global, text: &str) -> Result<(), End> {
        let mut line = Line::new(alloc);
        read_text(alloc, text, &mut line)?;
        Ok(self.change(alloc, &line)?)
    }

    /// Does what a line says, and gives the line to write, which is empty if there is none.
    ///
    /// # Errors
    ///
    /// If the line is the last.
    pub fn line(&mut self, alloc: Global, text: &str) -> Result<String, End> {
        let mut line = Line::new(alloc);
        read_text(alloc, text, &mut line)?;
        Ok(self.answer(alloc, text, &line)?)
    }
}

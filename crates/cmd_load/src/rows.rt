//! The rows of a text, each with the moment at which it is asked.

ghost use Rattle.std.specs.Prelude.{◌≡◌, ◌+◌, IfOk, IsTrue, List, None, drop, length, map, pos, take};
ghost use Rattle.csv.specs.Records.{fields_of};
ghost use Rattle.cmd_load.specs.Batches.{AskedInTurn, batch_rows};
ghost use Rattle.cmd_load.specs.Inputs.{AreRows, Cells};
ghost use Rattle.cmd_load.specs.inner.Reading.{IsNextRow};
ghost use Rattle.base_csv.specs.Table.{first_refused};
ghost use Rattle.base_value.specs.Dates.{is_moment};

use base_csv::Records;
use base_io::Clock;
use csv::StringRecord;
use std::alloc::{AllocError, Global};
use std::marker::Model;

/// The most rows of a batch.
const BATCH: usize = 100;

/// A row of a text: its number, its cells, and the moment at which it is asked.
#[derive(Drop)]
pub struct Row {
    number: u64,
    cells: StringRecord,
    moment: u64,
}

impl Model for Row {
    ghost use Rattle.std.specs.Prelude.{IsTrue, pos};
    ghost use Rattle.csv.specs.Records.{fields_of};
    ghost use Rattle.cmd_load.specs.Batches.{AskedRow};
    ghost use Rattle.base_value.specs.Dates.{is_moment};

    ghost Value = { AskedRow };

    ghost view = { λ r. record { number = r.number; cells = fields_of r.cells; moment = r.moment } };

    ghost invariant = { λ r. IsTrue (is_moment (pos r.moment)) };
}

impl Row {
    pub(crate) fn number(&self) -> u64
        ensures { result ≡ self.now.number }
    {
        self.number
    }

    pub(crate) fn cells(&self) -> &StringRecord
        ensures { fields_of result.now ≡ self.now.cells }
    {
        &self.cells
    }

    pub(crate) fn moment(&self) -> u64
        ensures same { result ≡ self.now.moment }
        ensures calendar { IsTrue (is_moment (pos result)) }
    {
        self.moment
    }
}

/// The rows of a text that aren't read yet.
#[derive(Drop)]
pub struct Rows<'a> {
    records: Records<'a>,
}

impl<'a> Model for Rows<'a> {
    ghost use Rattle.std.specs.Prelude.{◌≡◌, None, drop};
    ghost use Rattle.cmd_load.specs.Inputs.{Unread};
    ghost use Rattle.base_csv.specs.Table.{first_refused, table_of};

    ghost Value = { Unread };

    ghost view = { λ r. record { left = drop r.records.read (table_of r.records.source); number = r.records.read } };

    ghost invariant = { λ r. first_refused r.records.source ≡ None };
}

impl<'a> Rows<'a> {
    /// Those behind the heading of a text of which no record is refused.
    ///
    /// # Errors
    ///
    /// When out of memory.
    pub fn behind_heading(alloc: Global, source: &'a [u8]) -> Result<Rows<'a>, AllocError>
        requires { first_refused source.now ≡ None }
        ensures left { IfOk result (λ unread. (rows : List Cells) → AreRows rows source.now → unread.left ≡ rows) }
        ensures number { IfOk result (λ unread. unread.number ≡ 1) }
    {
        let mut records = Records::new(alloc, source);
        match records.next() {
            Ok(Some(_heading)) => Ok(Rows { records }),
            _ => Err(AllocError),
        }
    }

    // The next row, if there is one, asked at the moment that the clock then tells.
    fn next_row<C: Clock>(&mut self, clock: &mut C) -> Result<Option<Row>, AllocError>
        ensures { IfOk result (IsNextRow self.old self.new (C.coming clock.old) (C.coming clock.new)) }
    {
        let number = self.records.read();
        let Ok(next) = self.records.next() else {
            return Err(AllocError);
        };
        let Some(cells) = next else {
            return Ok(None);
        };
        let moment = clock.now();
        let number = number as u64;
        Ok(Some(Row {
            number,
            cells,
            moment,
        }))
    }

    /// The next rows, at most a hundred, each asked at the moment that the clock then tells.
    ///
    /// # Errors
    ///
    /// When out of memory.
    pub fn next_batch<C: Clock>(
        &mut self,
        alloc: Global,
        clock: &mut C,
    ) -> Result<Vec<Row>, AllocError>
        ensures cells { IfOk result (λ rows. map (λ r. r.cells) rows.items ≡ take batch_rows self.old.left) }
        ensures left { IfOk result (λ rows. self.new.left ≡ drop batch_rows self.old.left) }
        ensures number { IfOk result (λ rows. self.new.number ≡ self.old.number + length rows.items) }
        ensures asked { IfOk result (λ rows. AskedInTurn (C.coming clock.old) (C.coming clock.new) self.old.number rows.items) }
    {
        let mut rows = Vec::new(alloc);
        'rows: while rows.len() < BATCH {
            match self.next_row(clock)? {
                Some(row) => rows.push(row)?,
                None => return Ok(rows),
            }
        }
        Ok(rows)
    }
}

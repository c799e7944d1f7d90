//! The texts of queries.

ghost use Rattle.std.specs.Prelude.{◌≡◌, ◌++◌, OnOk, IfOk, codes};
ghost use Rattle.std.specs.Fmt.{decimal};
ghost use Rattle.std.specs.Str.{IsAscii};
ghost use Rattle.soql_printer.specs.Printing as spec;

use crate::conditions::{condition, only_if};
use crate::printed::{Printed, join};
use crate::writer::Writer;
use base_value::Text;
use soql::{Cond, Item, OrderKey, Path, Query, Tail};
use std::alloc::{AllocError, Global};

impl Printed for OrderKey {
    ghost printed = { spec.printed_key };

    fn print(&self, alloc: Global, out: &mut Writer) -> Result<(), AllocError> {
        self.path.print(alloc, out)?;
        only_if(out, self.descending, " DESC")?;
        only_if(out, self.nulls_last, " NULLS LAST")
    }
}

fn filter(alloc: Global, out: &mut Writer, filter: &Option<Cond>) -> Result<(), AllocError>
    ensures { OnOk result (out.new ≡ out.old ++ spec.optional (codes " WHERE ") spec.printed_condition filter.now) }
{
    match filter {
        Some(cond) => {
            out.word(" WHERE ")?;
            condition(alloc, out, cond)
        }
        None => Ok(()),
    }
}

fn order(alloc: Global, out: &mut Writer, keys: &[OrderKey]) -> Result<(), AllocError>
    ensures { OnOk result (out.new ≡ out.old ++ spec.printed_order keys.now) }
{
    if keys.is_empty() {
        return Ok(());
    }
    out.word(" ORDER BY ")?;
    join(alloc, out, ", ", keys)
}

// A word and a number, if there is one.
fn counted(
    alloc: Global,
    out: &mut Writer,
    word: &str,
    number: Option<u32>,
) -> Result<(), AllocError>
    requires { IsAscii word.now }
    ensures { OnOk result (out.new ≡ out.old ++ spec.optional word.now decimal number) }
{
    match number {
        Some(n) => {
            out.word(word)?;
            let digits = n.to_string(alloc)?;
            out.word(digits.as_str())
        }
        None => Ok(()),
    }
}

fn tail(alloc: Global, out: &mut Writer, tail: &Tail) -> Result<(), AllocError>
    ensures { OnOk result (out.new ≡ out.old ++ spec.printed_tail tail.now) }
{
    out.word(" FROM ")?;
    out.text(&tail.from)?;
    filter(alloc, out, &tail.condition)?;
    order(alloc, out, tail.order.as_slice())?;
    counted(alloc, out, " LIMIT ", tail.limit)
}

fn child(alloc: Global, out: &mut Writer, paths: &[Path], rows: &Tail) -> Result<(), AllocError>
    ensures { OnOk result (out.new ≡ out.old ++ spec.printed_child paths.now rows.now) }
{
    out.word("(SELECT ")?;
    join(alloc, out, ", ", paths)?;
    tail(alloc, out, rows)?;
    out.word(")")
}

impl Printed for Item {
    ghost printed = { spec.printed_item };

    fn print(&self, alloc: Global, out: &mut Writer) -> Result<(), AllocError> {
        match self {
            Item::Path(path) => path.print(alloc, out),
            Item::Child { paths, tail } => child(alloc, out, paths.as_slice(), tail),
        }
    }
}

/// The text of a query, with keywords in upper case.
///
/// Parentheses are only round an AND, an OR and a NOT within another condition. `ASC` and `NULLS FIRST` aren't written. In a
/// text a backslash is only before a quote and a backslash, and in a pattern before `%` and `_` that stand for themselves too.
///
/// # Errors
///
/// If out of memory.
pub fn print(alloc: Global, query: &Query) -> Result<Text, AllocError>
    ensures { IfOk result (λ text. text ≡ spec.printed query.now) }
{
    let mut out = Writer::new(alloc);
    out.word("SELECT ")?;
    join(alloc, &mut out, ", ", query.select.as_slice())?;
    tail(alloc, &mut out, &query.tail)?;
    counted(alloc, &mut out, " OFFSET ", query.offset.map(u32::from))?;
    Ok(out.finish())
}

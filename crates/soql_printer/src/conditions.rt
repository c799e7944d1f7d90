//! The texts of conditions.

ghost use Rattle.std.specs.Prelude.{◌≡◌, ◌++◌, OnOk, codes, not};
ghost use Rattle.std.specs.List.{join_by};
ghost use Rattle.std.specs.Str.{IsAscii};
ghost use Rattle.soql_printer.specs.Printing as spec;
ghost use Rattle.soql_printer.specs.inner.Units.{unit_text};
ghost use Rattle.soql.specs.declared.query.Cond.TheVariants as c;

use crate::printed::{Printed, join};
use crate::values::{operator, quoted_pattern};
use crate::writer::Writer;
use soql::{Cond, LikePattern, Literal, Op, Path};
use std::alloc::{AllocError, Global};

// ---- tests

fn comparison(
    alloc: Global,
    out: &mut Writer,
    path: &Path,
    op: Op,
    literal: &Literal,
) -> Result<(), AllocError>
    ensures { OnOk result (out.new ≡ out.old ++ spec.printed_condition (c.Test path.now op literal.now)) }
{
    path.print(alloc, out)?;
    out.word(" ")?;
    operator(out, op)?;
    out.word(" ")?;
    literal.print(alloc, out)
}

fn likeness(
    alloc: Global,
    out: &mut Writer,
    path: &Path,
    pattern: &LikePattern,
) -> Result<(), AllocError>
    ensures { OnOk result (out.new ≡ out.old ++ spec.printed_condition (c.Like path.now pattern.now)) }
{
    path.print(alloc, out)?;
    out.word(" LIKE ")?;
    quoted_pattern(out, pattern)
}

/// A word, if it is to be written.
pub fn only_if(out: &mut Writer, is: bool, word: &str) -> Result<(), AllocError>
    requires { IsAscii word.now }
    ensures { OnOk result (out.new ≡ out.old ++ spec.only_if is word.now) }
{
    if is { out.word(word) } else { Ok(()) }
}

fn membership(
    alloc: Global,
    out: &mut Writer,
    path: &Path,
    negated: bool,
    literals: &[Literal],
) -> Result<(), AllocError>
    ensures { OnOk result (out.new ≡ out.old ++ spec.printed_condition (c.In path.now negated literals.now)) }
{
    path.print(alloc, out)?;
    only_if(out, negated, " NOT")?;
    out.word(" IN ")?;
    out.word("(")?;
    join(alloc, out, ", ", literals)?;
    out.word(")")
}

// ---- conditions

// Whether a condition needs no parentheses within another.
fn is_simple(cond: &Cond) -> bool
    ensures { result ≡ spec.is_simple cond.now }
{
    match cond {
        Cond::Test { .. } | Cond::Like { .. } | Cond::In { .. } => true,
        Cond::Not(_) | Cond::And(_) | Cond::Or(_) => false,
    }
}

/// A condition.
#[cycle(conditions)]
pub fn condition(alloc: Global, out: &mut Writer, cond: &Cond) -> Result<(), AllocError>
    ensures { OnOk result (out.new ≡ out.old ++ spec.printed_condition cond.now) }
{
    match cond {
        Cond::Test { path, op, literal } => comparison(alloc, out, path, *op, literal),
        Cond::Like { path, pattern } => likeness(alloc, out, path, pattern),
        Cond::In {
            path,
            negated,
            literals,
        } => membership(alloc, out, path, *negated, literals.as_slice()),
        Cond::Not(part) => {
            let part = part.get();
            let bare = is_simple(part);
            out.word("NOT ")?;
            only_if(out, !bare, "(")?;
            condition(alloc, out, part)?;
            only_if(out, !bare, ")")
        }
        Cond::And(parts) => units(alloc, out, " AND ", parts.as_slice()),
        Cond::Or(parts) => units(alloc, out, " OR ", parts.as_slice()),
    }
}

// Conditions within another, with this word between any two.
#[cycle(conditions)]
fn units(alloc: Global, out: &mut Writer, between: &str, parts: &[Cond]) -> Result<(), AllocError>
    requires { IsAscii between.now }
    ensures { OnOk result (out.new ≡ out.old ++ join_by unit_text between.now parts.now) }
{
    let mut begun = false;
    'parts: for part in parts {
        let bare = is_simple(part);
        only_if(out, begun, between)?;
        only_if(out, !bare, "(")?;
        condition(alloc, out, part)?;
        only_if(out, !bare, ")")?;
        begun = true;
    }
    Ok(())
}

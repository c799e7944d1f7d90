//! Which fields a formula names.

ghost use Rattle.std.specs.Prelude.{◌≡◌, ◌++◌, ◌∷◌, [], flat_map, OnOk, IfOk};
ghost use Rattle.formula.specs.Naming as spec;

use crate::formula::{Formula, Term};
use std::alloc::{AllocError, Global};

fn add(position: u8, found: &mut Vec<u8>) -> Result<(), AllocError>
    ensures { OnOk result (found.new.items ≡ found.old.items ++ position ∷ []) }
{
    found.push(position)?;
    Ok(())
}

// Adds the field that a term names.
fn add_term_names(term: &Term, found: &mut Vec<u8>) -> Result<(), AllocError>
    ensures { OnOk result (found.new.items ≡ found.old.items ++ spec.term_names term.now) }
{
    match term {
        Term::Field(position) | Term::Len(position) | Term::Prior(position) => {
            add(*position, found)
        }
        Term::Num(_) | Term::Text(_) => Ok(()),
    }
}

#[cycle(naming)]
fn add_names(formula: &Formula, found: &mut Vec<u8>) -> Result<(), AllocError>
    ensures { OnOk result (found.new.items ≡ found.old.items ++ spec.names formula.now) }
{
    match formula {
        Formula::Const(_) | Formula::IsNew => Ok(()),
        Formula::Not(part) => add_names(part.get(), found),
        Formula::And(parts) => add_all_names(parts.as_slice(), found),
        Formula::Or(parts) => add_all_names(parts.as_slice(), found),
        Formula::IsBlank(position) | Formula::IsChanged(position) => add(*position, found),
        Formula::IsPickval { field, .. } => add(*field, found),
        Formula::Compare { left, right, .. } => {
            add_term_names(left, found)?;
            add_term_names(right, found)
        }
    }
}

#[cycle(naming)]
fn add_all_names(formulas: &[Formula], found: &mut Vec<u8>) -> Result<(), AllocError>
    ensures { OnOk result (found.new.items ≡ found.old.items ++ flat_map spec.names formulas.now) }
{
    for formula in formulas {
        add_names(formula, found)?;
    }
    Ok(())
}

/// The positions of the fields that a formula names, in the order of its text, each as often as it is named there.
///
/// # Errors
///
/// When out of memory.
pub fn names(alloc: Global, formula: &Formula) -> Result<Vec<u8>, AllocError>
    ensures { IfOk result (λ positions. positions.items ≡ spec.names formula.now) }
{
    let mut found = Vec::new(alloc);
    add_names(formula, &mut found)?;
    Ok(found)
}

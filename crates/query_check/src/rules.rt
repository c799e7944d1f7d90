//! The rules by which tests are refused: names that aren't there, operators and literals that don't suit, texts that aren't ids.

ghost use Rattle.std.specs.Prelude.{◌≡◌, IfOk, option_map};
ghost use Rattle.std.specs.List.{flat_map};
ghost use Rattle.model.specs.Asking.{literals_of, text_no_id};
ghost use Rattle.model.specs.Rules.{first_of};
ghost use Rattle.model.specs.Tests.{tests, tests_of};
ghost use Rattle.query_check.specs.Rules as spec;

use crate::columns::Family;
use crate::paths::{path_column, spelled};
use crate::suits::{Way, is_ids, way_suits};
use base_value::{Text, id_in};
use model::Refusal;
use soql::{Cond, Literal, Path};
use std::alloc::{AllocError, Global};
use store_abstraction::Layout;

/// What a test may be refused for.
#[derive(Clone, Copy, Debug)]
pub enum Rule {
    /// Its name isn't one of a field.
    Name,
    /// Its operator or a literal doesn't suit.
    Suits,
    /// A text isn't an id.
    Id,
}

/// The name of a path that has one.
pub fn own_name(path: &Path) -> Option<&Text>
    ensures { option_map (λ t. t.now) result ≡ spec.own_name path.now.names }
{
    match path.names.as_slice() {
        [name] => Some(name),
        _ => None,
    }
}

/// INVALID_FIELD: the path leads to no field.
///
/// # Errors
///
/// When out of memory.
pub(crate) fn no_field(
    alloc: Global,
    layouts: &[Layout],
    layout: &Layout,
    path: &Path,
) -> Result<Option<Refusal>, AllocError>
    ensures { IfOk result (λ r. r ≡ spec.no_field layouts.now layout.now path.now.names) }
{
    let names = path.names.as_slice();
    match path_column(layouts, layout, names) {
        Some(_) => Ok(None),
        None => Ok(Some(Refusal::InvalidField {
            name: spelled(alloc, names)?,
        })),
    }
}

fn bad_id(alloc: Global, literal: &Literal) -> Result<Option<Refusal>, AllocError>
    ensures { IfOk result (λ r. r ≡ text_no_id literal.now) }
{
    match literal {
        Literal::Text(text) => match id_in(text.as_str()) {
            Some(_) => Ok(None),
            None => Ok(Some(Refusal::MalformedId {
                text: Text::from_str(alloc, text.as_str())?,
            })),
        },
        _ => Ok(None),
    }
}

fn first_bad_id(alloc: Global, literals: &[Literal]) -> Result<Option<Refusal>, AllocError>
    ensures { IfOk result (λ r. r ≡ first_of text_no_id literals.now) }
{
    for literal in literals {
        if let Some(refusal) = bad_id(alloc, literal)? {
            return Ok(Some(refusal));
        }
    }
    Ok(None)
}

fn first_of_way(alloc: Global, way: Way) -> Result<Option<Refusal>, AllocError>
    ensures { IfOk result (λ r. r ≡ first_of text_no_id (literals_of (spec.way_of way.entry))) }
{
    match way {
        Way::By(_, literal) => bad_id(alloc, literal),
        Way::Pattern => Ok(None),
        Way::Among(literals) => first_bad_id(alloc, literals),
    }
}

// MALFORMED_ID: a text that is compared with ids isn't one.
fn no_id(alloc: Global, family: Family, way: Way) -> Result<Option<Refusal>, AllocError>
    ensures { IfOk result (λ r. r ≡ spec.no_id family (spec.way_of way.entry)) }
{
    if is_ids(family) {
        return first_of_way(alloc, way);
    }
    Ok(None)
}

// INVALID_QUERY_FILTER_OPERATOR: the operator or a literal doesn't suit a field.
fn no_suit(
    alloc: Global,
    family: Family,
    path: &Path,
    way: Way,
) -> Result<Option<Refusal>, AllocError>
    ensures { IfOk result (λ r. r ≡ spec.no_suit family path.now.names (spec.way_of way.entry)) }
{
    if way_suits(family, way) {
        return Ok(None);
    }
    Ok(Some(Refusal::InvalidFilter {
        path: spelled(alloc, path.names.as_slice())?,
    }))
}

// Why a test is refused by a rule.
fn test_refusal(
    alloc: Global,
    layouts: &[Layout],
    layout: &Layout,
    rule: Rule,
    path: &Path,
    way: Way,
) -> Result<Option<Refusal>, AllocError>
    ensures { IfOk result (λ r. r ≡ spec.rule_in layouts.now layout.now rule (spec.tested path.now (spec.way_of way.entry))) }
{
    match rule {
        Rule::Name => no_field(alloc, layouts, layout, path),
        Rule::Suits => match path_column(layouts, layout, path.names.as_slice()) {
            Some(column) => no_suit(alloc, column.family, path, way),
            None => Ok(None),
        },
        Rule::Id => match path_column(layouts, layout, path.names.as_slice()) {
            Some(column) => no_id(alloc, column.family, way),
            None => Ok(None),
        },
    }
}

// Why a condition is refused by a rule: the refusal of the first of its tests that is refused by it.
#[cycle(refusals)]
fn condition_refusal(
    alloc: Global,
    layouts: &[Layout],
    layout: &Layout,
    rule: Rule,
    cond: &Cond,
) -> Result<Option<Refusal>, AllocError>
    ensures { IfOk result (λ r. r ≡ first_of (spec.rule_in layouts.now layout.now rule) (tests_of cond.now)) }
{
    match cond {
        Cond::Test { path, op, literal } => {
            test_refusal(alloc, layouts, layout, rule, path, Way::By(*op, literal))
        }
        Cond::Like { path, pattern: _ } => test_refusal(
            alloc,
            layouts,
            layout,
            rule,
            path,
            Way::Pattern,
        ),
        Cond::In {
            path,
            negated: _,
            literals,
        } => test_refusal(
            alloc,
            layouts,
            layout,
            rule,
            path,
            Way::Among(literals.as_slice()),
        ),
        Cond::Not(part) => condition_refusal(alloc, layouts, layout, rule, part.get()),
        Cond::And(parts) => refusal_among(alloc, layouts, layout, rule, parts.as_slice()),
        Cond::Or(parts) => refusal_among(alloc, layouts, layout, rule, parts.as_slice()),
    }
}

// The first refusal of some conditions.
#[cycle(refusals)]
fn refusal_among(
    alloc: Global,
    layouts: &[Layout],
    layout: &Layout,
    rule: Rule,
    conds: &[Cond],
) -> Result<Option<Refusal>, AllocError>
    ensures { IfOk result (λ r. r ≡ first_of (spec.rule_in layouts.now layout.now rule) (flat_map tests_of conds.now)) }
{
    for cond in conds {
        if let Some(refusal) = condition_refusal(alloc, layouts, layout, rule, cond)? {
            return Ok(Some(refusal));
        }
    }
    Ok(None)
}

/// Why a condition is refused by a rule, if there is one.
///
/// # Errors
///
/// When out of memory.
pub(crate) fn tests_refusal(
    alloc: Global,
    layouts: &[Layout],
    layout: &Layout,
    rule: Rule,
    cond: &Option<Cond>,
) -> Result<Option<Refusal>, AllocError>
    ensures { IfOk result (λ r. r ≡ first_of (spec.rule_in layouts.now layout.now rule) (tests cond.now)) }
{
    match cond {
        Some(cond) => condition_refusal(alloc, layouts, layout, rule, cond),
        None => Ok(None),
    }
}

//! Validation rules that refuse a record.

ghost use Rattle.std.specs.Prelude.{◌≡◌, ◌≤◌, IfOk, Option, false, length};
ghost use Rattle.std.specs.Option.{option_map};
ghost use Rattle.std.specs.Str.{chars};
ghost use Rattle.store_kv.specs.Draft.{DraftTells, tables_of};
ghost use Rattle.model.specs.FormulaTexts.{reads_text};
ghost use Rattle.model.specs.Levels.{read_holds};
ghost use Rattle.model.specs.Paths.{Asked};
ghost use Rattle.model.specs.Rules.{first_of};
ghost use Rattle.model.specs.declared.refusal.Refusal.TheVariants.{ValidationFailed};
ghost use Rattle.schema_rules.specs.Failing.{rule_failed};
ghost use Rattle.schema_rules.specs.Objects.{object_of_layout};
ghost use Rattle.schema_rules.specs.inner.Judged.{JudgesBy, row_fails};
ghost use Rattle.store_abstraction.specs.Calls.{Calls, ended};
ghost use Rattle.store_abstraction.specs.Layouts.{FindsOf};

use crate::formulas::read_text;
use crate::rows::rules_of;
use base_grammar::ParseFail;
use base_value::{Items, Value};
use formula::{Record as Values, holds};
use model::{Record, Refusal};
use std::alloc::{AllocError, Global};
use store_abstraction::{Layout, call_laws};
use store_kv::{Draft, Keeper};
use store_rows::{StoreFail, ValidationRow};

// The most custom fields of an object.
const MOST_FIELDS: usize = 40;

// Copies of values.
fn copies(alloc: Global, values: &[Value]) -> Result<Items<Value>, AllocError>
    ensures { IfOk result (λ copies. copies ≡ values.now) }
{
    let mut copies = Items::new(alloc);
    for value in values {
        copies.push(value.copy(alloc)?)?;
    }
    Ok(copies)
}

// A record's values, as formulas see them.
fn values_of(alloc: Global, whose: &Record) -> Result<Values, AllocError>
    ensures { IfOk result (λ seen. seen.values ≡ whose.now.values) }
{
    Ok(Values {
        values: copies(alloc, whose.values.as_slice())?,
    })
}

// The same of the record that it was before, if it was there.
fn old_values(alloc: Global, old: Option<&Record>) -> Result<Option<Values>, AllocError>
    ensures { IfOk result (λ seen. option_map (λ r. r.values) seen ≡ option_map (λ r. r.values) (option_map (λ r. r.now) old.entry)) }
{
    match old {
        None => Ok(None),
        Some(old) => match values_of(alloc, old) {
            Ok(values) => Ok(Some(values)),
            Err(fail) => Err(fail),
        },
    }
}

// Whether the formula that a text spells holds. A text that spells none doesn't.
fn text_holds(
    alloc: Global,
    layout: &Layout,
    text: &str,
    new: &Values,
    old: &Option<Values>,
) -> Result<bool, AllocError>
    requires { length layout.now.fields ≤ 40 }
    ensures { IfOk result (λ b. b ≡ read_holds (reads_text (object_of_layout layout.now) false (chars text.now))
        new.now.values (option_map (λ r. r.values) old.now)) }
{
    match read_text(alloc, layout, false, text) {
        Ok(formula) => match old {
            None => Ok(holds(&formula, new, None)),
            Some(old) => Ok(holds(&formula, new, Some(old))),
        },
        Err(ParseFail::Malformed(_)) => Ok(false),
        Err(ParseFail::Memory) => Err(AllocError),
    }
}

// What a rule says of a record that fails it.
fn refusal_of(alloc: Global, rule: &ValidationRow) -> Result<Refusal, AllocError>
    ensures { IfOk result (λ r. r ≡ ValidationFailed rule.now.name rule.now.message) }
{
    let message = rule.message.copy(alloc)?;
    Ok(Refusal::ValidationFailed {
        rule: rule.name.copy(alloc)?,
        message,
    })
}

// The refusal of a rule, if its formula holds.
fn refusal_if(
    alloc: Global,
    layout: &Layout,
    rule: &ValidationRow,
    new: &Values,
    old: &Option<Values>,
) -> Result<Option<Refusal>, AllocError>
    requires { length layout.now.fields ≤ 40 }
    ensures { IfOk result (λ refusal. refusal ≡ row_fails (object_of_layout layout.now) new.now.values (option_map (λ r. r.values) old.now) rule.now) }
{
    if text_holds(alloc, layout, rule.formula.as_str(), new, old)? {
        Ok(Some(refusal_of(alloc, rule)?))
    } else {
        Ok(None)
    }
}

// The refusal of the first of these rules whose formula holds.
fn first_failed(
    alloc: Global,
    layout: &Layout,
    rules: &[ValidationRow],
    new: &Values,
    old: &Option<Values>,
) -> Result<Option<Refusal>, AllocError>
    requires { length layout.now.fields ≤ 40 }
    ensures { IfOk result (λ rule. rule ≡ first_of (row_fails (object_of_layout layout.now) new.now.values (option_map (λ r. r.values) old.now)) rules.now) }
{
    let Some((rule, rules)) = rules.split_first() else {
        return Ok(None);
    };
    match refusal_if(alloc, layout, rule, new, old) {
        Ok(None) => first_failed(alloc, layout, rules, new, old),
        failed => failed,
    }
}

// The same for a record.
fn failed_of_rows(
    alloc: Global,
    layout: &Layout,
    rules: &[ValidationRow],
    new: &Record,
    old: Option<&Record>,
) -> Result<Option<Refusal>, AllocError>
    requires { length layout.now.fields ≤ 40 }
    ensures { IfOk result (λ rule. rule ≡ first_of (row_fails (object_of_layout layout.now) new.now.values (option_map (λ r. r.values) (option_map (λ r. r.now) old.entry))) rules.now) }
{
    let new = values_of(alloc, new)?;
    let old = old_values(alloc, old)?;
    first_failed(alloc, layout, rules, &new, &old)
}

// The same over a layout that may have too many fields.
fn judged_rows(
    alloc: Global,
    layout: &Layout,
    rules: &[ValidationRow],
    new: &Record,
    old: Option<&Record>,
) -> Result<Option<Refusal>, StoreFail>
    ensures { JudgesBy layout.now (first_of (row_fails (object_of_layout layout.now) new.now.values (option_map (λ r. r.values) (option_map (λ r. r.now) old.entry))) rules.now) result }
{
    if layout.fields.as_slice().len() > MOST_FIELDS {
        return Err(StoreFail::Damaged);
    }
    match failed_of_rows(alloc, layout, rules, new, old) {
        Ok(rule) => Ok(rule),
        Err(_) => Err(StoreFail::Memory),
    }
}

/// The refusal of the first validation rule of an object, by lower-case name, that a record fails: whose formula holds on it, as
/// it is to be and as it was before, if it was there. A rule whose text spells no formula refuses nothing.
///
/// # Errors
///
/// `Keeper` if the keeper failed, `Memory` if out of memory, `Damaged` never if the organisation's rows stand for a tenant whose
/// layout it is.
pub fn failed_rule<K: Keeper>(
    alloc: Global,
    draft: &mut Draft<'_, K>,
    layout: &Layout,
    new: &Record,
    old: Option<&Record>,
) -> Result<Option<Refusal>, StoreFail>
    ensures finds { DraftTells K.state draft.old draft.new → (a : Asked)
        → FindsOf layout.now (rule_failed a layout.now.object new.now (option_map (λ r. r.now) old.entry)) (tables_of K.state draft.old) result }
    ensures calls { Calls K.state 0 (ended result) draft.old draft.new }
{
    call_laws::<K>();
    match rules_of(alloc, draft, layout) {
        Ok(rules) => judged_rows(alloc, layout, rules.as_slice(), new, old),
        Err(fail) => Err(fail),
    }
}

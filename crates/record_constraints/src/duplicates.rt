//! Values of unique fields that another record has.

ghost use Rattle.std.specs.Prelude.{◌≡◌, ◌<◌, Err, IfErr, IfOk, IsSome, IsTrue, None, Ok, length};
ghost use Rattle.std.specs.Option.{option_map};
ghost use Rattle.record_read.specs.Decoding.{has_types, kinds_in};
ghost use Rattle.formula.specs.Meaning.{value_at};
ghost use Rattle.store_kv.specs.Draft.{DraftTells, tables_of};
ghost use Rattle.store_rows.specs.declared.fail.StoreFail.TheVariants.{Memory};
ghost use Rattle.model.specs.Edits.{duplicate};
ghost use Rattle.model.specs.SoundRecords.{all_valid};
ghost use Rattle.record_constraints.specs.Judged.{FindsRule};
ghost use Rattle.record_constraints.specs.inner.Clashes.{clash_at, clash_told, clash_with, clashes_from, clashing_id, other_than, told_clash, unique_value, unless_own};
ghost use Rattle.access_traits.specs.Rights.{level_shown};
ghost use Rattle.schema_rules.specs.Objects.{numbered_in};
ghost use Rattle.store_abstraction.specs.Calls.{Calls, done, ended};
ghost use Rattle.store_abstraction.specs.Layouts.{FindsOf};
ghost use Rattle.base_value.specs.Causes.{GivesOr};

use crate::reading::is_readable;
use crate::unique::unique_find;
use access_traits::Rights;
use base_value::{Id, Value, order_laws, value_laws};
use model::{Record, Refusal};
use std::alloc::{AllocError, Global};
use store_abstraction::{FieldPlace, Layout, call_laws};
use store_kv::{Draft, Keeper, draft_laws};
use store_rows::StoreFail;

// The value at a position, if no two records may have it: the field is unique, and it isn't null.
fn unique_value<'a>(field: &FieldPlace, values: &'a [Value], position: usize) -> Option<&'a Value>
    ensures { option_map (λ v. v.now) result ≡ unique_value field.now (value_at values.now position) }
{
    if !field.unique {
        return None;
    }
    match values.get(position) {
        None | Some(Value::Null) => None,
        value => value,
    }
}

// An id that was found, unless it is the record's own.
fn unless_own(own: &Id, other: Id) -> Option<Id>
    ensures { result ≡ unless_own own.now other }
{
    if other == *own { None } else { Some(other) }
}

// The same by what was read.
fn other_than(own: &Id, found: Result<Option<Id>, StoreFail>) -> Result<Option<Id>, StoreFail>
    ensures { result ≡ other_than own.now found }
{
    match found {
        Ok(None) => Ok(None),
        Ok(Some(other)) => Ok(unless_own(own, other)),
        Err(fail) => Err(fail),
    }
}

// The id of another record that has the record's value of the field with this number, if the field is unique.
fn clashing_id<K: Keeper>(
    alloc: Global,
    draft: &mut Draft<'_, K>,
    layout: &Layout,
    new: &Record,
    number: usize,
) -> Result<Option<Id>, StoreFail>
    requires field { number < length layout.now.fields }
    requires types { IsTrue (has_types layout.now) }
    requires values { IsTrue (all_valid (kinds_in layout.now.fields) new.now.values) }
    ensures finds { DraftTells K.state draft.old draft.new
        → FindsOf layout.now (clashing_id layout.now new.now number) (tables_of K.state draft.old) result }
    ensures calls { Calls K.state 0 (ended result) draft.old draft.new }
{
    value_laws();
    order_laws();
    call_laws::<K>();
    let fields = layout.fields.as_slice();
    let field = &fields[number];
    match unique_value(field, new.values.as_slice(), number + 1) {
        None => Ok(None),
        Some(value) => {
            let found = unique_find(alloc, draft, layout, number, value);
            other_than(&new.id, found)
        }
    }
}

// What a record is refused whose value of a field the record with this id has.
fn clash_with(
    alloc: Global,
    field: &FieldPlace,
    other: &Id,
    readable: bool,
) -> Result<Refusal, AllocError>
    ensures { IfOk result (λ refusal. refusal ≡ clash_with field.now.name other.now readable) }
{
    let field = field.name.copy(alloc)?;
    if readable {
        let other = *other;
        Ok(Refusal::DuplicateOf { field, other })
    } else {
        Ok(Refusal::DuplicateValue { field })
    }
}

// The same by what was asked of that record.
fn clash_told(
    alloc: Global,
    field: &FieldPlace,
    other: &Id,
    readable: Result<bool, StoreFail>,
) -> Result<Option<Refusal>, StoreFail>
    ensures clash { GivesOr Memory (clash_told field.now.name other.now readable) result }
    ensures some { IfOk result (λ rule. IsSome rule) }
    ensures failed { IfErr readable (λ e. result ≡ Err e) }
{
    match readable {
        Ok(readable) => match clash_with(alloc, field, other, readable) {
            Ok(refusal) => Ok(Some(refusal)),
            Err(_) => Err(StoreFail::Memory),
        },
        Err(fail) => Err(fail),
    }
}

// The same. The other's id is told only to who may read that record.
fn told_clash<K: Keeper, R: Rights>(
    alloc: Global,
    draft: &mut Draft<'_, K>,
    rights: &R,
    layout: &Layout,
    field: &FieldPlace,
    other: &Id,
) -> Result<Option<Refusal>, StoreFail>
    ensures finds { DraftTells K.state draft.old draft.new
        → FindsRule layout.now (R.whose rights.now) (told_clash layout.now.object field.now.name other.now)
        (tables_of K.state draft.old) result }
    ensures some { IfOk result (λ rule. IsSome rule) }
    ensures calls { Calls K.state level_shown (ended result) draft.old draft.new }
{
    let readable = is_readable(alloc, draft, rights, layout.org, layout.object, other);
    clash_told(alloc, field, other, readable)
}

// The refusal of the field with this number, if another record has its value. Nothing is asked of a record unless there is one.
fn clash_at<K: Keeper, R: Rights>(
    alloc: Global,
    draft: &mut Draft<'_, K>,
    rights: &R,
    layout: &Layout,
    new: &Record,
    number: usize,
) -> Result<Option<Refusal>, StoreFail>
    requires field { number < length layout.now.fields }
    requires types { IsTrue (has_types layout.now) }
    requires values { IsTrue (all_valid (kinds_in layout.now.fields) new.now.values) }
    ensures finds { DraftTells K.state draft.old draft.new
        → FindsRule layout.now (R.whose rights.now) (clash_at layout.now new.now number) (tables_of K.state draft.old) result }
    ensures calls { Calls K.state level_shown (ended result) draft.old draft.new }
    ensures none { result ≡ Ok None → Calls K.state 0 done draft.old draft.new }
{
    draft_laws::<K>();
    call_laws::<K>();
    let fields = layout.fields.as_slice();
    let field = &fields[number];
    match clashing_id(alloc, draft, layout, new, number) {
        Ok(None) => Ok(None),
        Ok(Some(other)) => told_clash(alloc, draft, rights, layout, field, &other),
        Err(fail) => Err(fail),
    }
}

// The refusal of the first of the fields from this number on.
fn clashes_from<K: Keeper, R: Rights>(
    alloc: Global,
    draft: &mut Draft<'_, K>,
    rights: &R,
    layout: &Layout,
    new: &Record,
    number: usize,
) -> Result<Option<Refusal>, StoreFail>
    requires types { IsTrue (has_types layout.now) }
    requires values { IsTrue (all_valid (kinds_in layout.now.fields) new.now.values) }
    ensures finds { DraftTells K.state draft.old draft.new
        → FindsRule layout.now (R.whose rights.now) (clashes_from layout.now new.now number) (tables_of K.state draft.old) result }
    ensures calls { Calls K.state level_shown (ended result) draft.old draft.new }
{
    draft_laws::<K>();
    call_laws::<K>();
    if number < layout.fields.as_slice().len() {
        match clash_at(alloc, draft, rights, layout, new, number) {
            Ok(None) => clashes_from(alloc, draft, rights, layout, new, number + 1),
            Ok(Some(refusal)) => Ok(Some(refusal)),
            Err(fail) => Err(fail),
        }
    } else {
        Ok(None)
    }
}

/// DUPLICATE_VALUE: the first unique field of an object whose value another record of the object has. Its id is told if the record
/// can be read by whose rights these are. Null is no record's.
///
/// # Errors
///
/// `Keeper` if the keeper failed, `Memory` if out of memory, `Damaged` never if the organisation's rows stand for a tenant whose
/// layout it is and of whose user the rights are.
pub fn duplicate<K: Keeper, R: Rights>(
    alloc: Global,
    draft: &mut Draft<'_, K>,
    rights: &R,
    layout: &Layout,
    new: &Record,
) -> Result<Option<Refusal>, StoreFail>
    requires types { IsTrue (has_types layout.now) }
    requires values { IsTrue (all_valid (kinds_in layout.now.fields) new.now.values) }
    ensures finds { DraftTells K.state draft.old draft.new
        → FindsRule layout.now (R.whose rights.now) (λ a. duplicate a (numbered_in layout.now) new.now)
        (tables_of K.state draft.old) result }
    ensures calls { Calls K.state level_shown (ended result) draft.old draft.new }
{
    clashes_from(alloc, draft, rights, layout, new, 0)
}

//! The unique field that an upsert names, the value that it is given, and the record that has the value.

ghost use Rattle.std.specs.Prelude.{◌≡◌, ◌≢◌, ◌<◌, IfErr, IfOk, IfSome, IsTrue, Some, length};
ghost use Rattle.std.specs.Option.{option_map};
ghost use Rattle.store_kv.specs.Draft.{DraftTells, tables_of};
ghost use Rattle.store_rows.specs.declared.fail.StoreFail.TheVariants.{Keeper};
ghost use Rattle.model.specs.Tenant.{Tenant};
ghost use Rattle.record_target.specs.Kept.{FitsKept};
ghost use Rattle.record_target.specs.Usable.{IsReady};
ghost use Rattle.record_constraints.specs.Uniques.{HasUnique};
ghost use Rattle.schema_rules.specs.Objects.{field_of_place};
ghost use Rattle.store_abstraction.specs.Calls.{Calls, ended};
ghost use Rattle.store_abstraction.specs.Fails.{of_store};
ghost use Rattle.store_abstraction.specs.Layouts.{IsLayout};
ghost use Rattle.store_abstraction.specs.Local.{StandsIn};
ghost use Rattle.store_abstraction.specs.Plan.{OrgPlan};
ghost use Rattle.record_save.specs.upsert.Finding.{FindsKept, FindsKey, NamesField, ReadsValue, kept_there};
ghost use Rattle.base_value.specs.Types.{is_type};
ghost use Rattle.base_value.specs.Values.{valid};

use base_value::{Text, Value};
use model::Refusal;
use record_constraints::unique_find;
use record_input::{declared_name, key_value, unique_named};
use record_target::{KeptRecord, kept_record};
use std::alloc::Global;
use store_abstraction::{EditFail, FieldPlace, Layout, call_laws};
use store_kv::{Draft, Keeper, draft_laws};
use store_rows::StoreFail;

/// A unique field, by its number among the custom fields, and a value of its type.
#[derive(Drop)]
pub struct FoundKey {
    pub number: usize,
    pub value: Value,
}

// The number of the unique field with this name.
fn found_field(alloc: Global, layout: &Layout, key: &Text) -> Result<usize, EditFail>
    ensures { NamesField layout.now key.now result }
{
    match unique_named(layout, key.as_str()) {
        Some(number) => Ok(number),
        None => {
            let name = declared_name(alloc, layout, key)?;
            Err(EditFail::Refused(Refusal::InvalidField { name }))
        }
    }
}

// The value that a text gives to a field.
fn read_value(alloc: Global, field: &FieldPlace, text: Option<&Text>) -> Result<Value, EditFail>
    requires { IsTrue (is_type field.now.kind) }
    ensures reads { ReadsValue (field_of_place field.now) (option_map (λ t. t.now) text.entry) result }
    ensures valid { IfOk result (λ v. IsTrue (valid field.now.kind v)) }
{
    match key_value(alloc, field, text)? {
        Ok(value) => Ok(value),
        Err(refusal) => Err(EditFail::Refused(refusal)),
    }
}

/// The unique field with this name, and the value that a text gives it.
///
/// # Errors
///
/// `Refused` with `InvalidField` if there is no such field, or with why the text gives it no value; `Store` with `Memory` if out of
/// memory.
pub fn found_key(
    alloc: Global,
    layout: &Layout,
    key: &Text,
    text: Option<&Text>,
) -> Result<FoundKey, EditFail>
    requires { IsReady layout.now.org layout.now }
    ensures finds { FindsKey layout.now key.now (option_map (λ t. t.now) text.entry) result }
    ensures unique { IfOk result (λ k. (k.number < length layout.now.fields) × HasUnique layout.now k.number k.value) }
    ensures cause { IfErr result (λ e. e ≢ of_store Keeper) }
{
    let number = found_field(alloc, layout, key)?;
    let fields = layout.fields.as_slice();
    let value = read_value(alloc, &fields[number], text)?;
    Ok(FoundKey { number, value })
}

// The record with an id that some record has.
fn there(found: Result<Option<KeptRecord>, StoreFail>) -> Result<Option<KeptRecord>, StoreFail>
    ensures { result ≡ kept_there found }
{
    match found {
        Ok(Some(kept)) => Ok(Some(kept)),
        Ok(None) => Err(StoreFail::Damaged),
        Err(fail) => Err(fail),
    }
}

/// The record of an object that has this value in the unique field with this number, if there is one, and its row.
///
/// # Errors
///
/// `Keeper` if the keeper failed, `Memory` if out of memory, `Damaged` never if the organisation's rows stand for a tenant whose
/// layout it is.
pub fn found_record<K: Keeper>(
    alloc: Global,
    draft: &mut Draft<'_, K>,
    layout: &Layout,
    key: &FoundKey,
) -> Result<Option<KeptRecord>, StoreFail>
    requires { HasUnique layout.now key.now.number key.now.value }
    ensures finds { DraftTells K.state draft.old draft.new
        → (q : OrgPlan) (t : Tenant) → StandsIn layout.now.org q (tables_of K.state draft.old) (Some t) → IsLayout q t layout.now
        → FindsKept q t layout.now key.now.number key.now.value result }
    ensures form { IfOk result (λ found. IfSome found (FitsKept layout.now)) }
    ensures calls { Calls K.state 1 (ended result) draft.old draft.new }
{
    draft_laws::<K>();
    call_laws::<K>();
    match unique_find(alloc, draft, layout, key.number, &key.value)? {
        None => Ok(None),
        Some(id) => there(kept_record(alloc, draft, layout, &id)),
    }
}

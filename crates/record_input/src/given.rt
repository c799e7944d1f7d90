//! The values that a body gives to a record.

ghost use Rattle.std.specs.Prelude.{◌≡◌, ◌∷◌, IfOk, IsTrue, Ok, map};
ghost use Rattle.std.specs.List.{list_all};
ghost use Rattle.formula.specs.Meaning.{value_at};
ghost use Rattle.record_input.specs.Given.{FindsAll, FindsFor, GivesValues, IsGiven, all_given};
ghost use Rattle.record_input.specs.declared.key.AllGiven.{AllGiven};
ghost use Rattle.record_read.specs.Decoding.{has_types};
ghost use Rattle.schema_rules.specs.Objects.{object_of_layout};
ghost use Rattle.record_input.specs.inner.Fields.{column_at, columns_from};
ghost use Rattle.record_input.specs.inner.Found.{FindsAmong};
ghost use Rattle.record_input.specs.inner.Read.{ValueOrRefusal, JudgesValue, owner_in, refused_among, value_over};
ghost use Rattle.model.specs.Edits.{bad_value, given_owner, given_to, with_given};
ghost use Rattle.model.specs.Fields.{name_column, owner_columns, ref_of};
ghost use Rattle.model.specs.Paths.{Asked};
ghost use Rattle.model.specs.Tenant.{Tenant};
ghost use Rattle.store_abstraction.specs.declared.layout.Layout.{Layout};
ghost use Rattle.base_value.specs.Types.{is_type};

use crate::columns::is_detail;
use crate::key::AllGiven;
use crate::reading::{value_over, value_to};
use crate::unread::{Unread, ended};
use base_value::{FieldType, Id, Items, OnDelete, Value};
use model::{Record, Refusal};
use std::alloc::{AllocError, Global};
use store_abstraction::{FieldPlace, Layout};

/// What a body gives to a record, read, over what the record had.
#[derive(Drop)]
pub struct GivenValues {
    /// The owner, if one is given.
    pub owner: Option<Id>,
    /// The name's value, and then those of the custom fields in their order.
    pub values: Items<Value>,
}

// The record that a value names, if it names one.
fn id_in(value: &Value) -> Option<Id>
    ensures { result ≡ ref_of value.now }
{
    match value {
        Value::Ref(id) => Some(*id),
        _ => None,
    }
}

// The owner in what was read.
fn owner_in(read: Option<Result<Value, Unread>>) -> Result<Option<Id>, Unread>
    ensures { result ≡ owner_in read }
{
    match read {
        None => Ok(None),
        Some(Ok(value)) => Ok(id_in(&value)),
        Some(Err(unread)) => Err(unread),
    }
}

// The owner that is given, if one is. Its id is read as that of a lookup is.
fn owner_given(alloc: Global, layout: &Layout, given: &AllGiven<'_>) -> Result<Option<Id>, Unread>
    ensures { (t : Tenant) → FindsAll t (object_of_layout layout.now) given.now
        → ValueOrRefusal (refused_among t (all_given given.now) (owner_columns (object_of_layout layout.now)))
        (λ owner. owner ≡ given_owner t (object_of_layout layout.now) (all_given given.now)) result }
{
    if is_detail(layout) {
        Ok(None)
    } else {
        owner_in(value_to(
            alloc,
            given,
            "OwnerId",
            &FieldType::Lookup {
                object: 0,
                on_delete: OnDelete::Clear,
            },
        ))
    }
}

// The value of the name, over what the record had.
fn name_over(alloc: Global, given: &AllGiven<'_>, old: &Record) -> Result<Value, Unread>
    ensures { (t : Tenant) → FindsFor t given.now.found.now given.now.body.now name_column
        → JudgesValue (given_to t (all_given given.now) name_column) (value_at old.now.values 0) result }
{
    value_over(alloc, given, "Name", &FieldType::Text(80), old, 0)
}

// The value of the field at a position, over what the record had.
fn field_over(
    alloc: Global,
    field: &FieldPlace,
    given: &AllGiven<'_>,
    old: &Record,
    position: usize,
) -> Result<Value, Unread>
    ensures { IsTrue (is_type field.now.kind) → (t : Tenant)
        → FindsFor t given.now.found.now given.now.body.now (column_at position field.now)
        → JudgesValue (given_to t (all_given given.now) (column_at position field.now)) (value_at old.now.values position) result }
{
    value_over(
        alloc,
        given,
        field.name.as_str(),
        &field.kind,
        old,
        position,
    )
}

// The value of the name, and behind it those of these fields, over what the record had.
#[tactic(auto, using(crate::proofs::Judging::judged_first, crate::proofs::Judging::judged_last))]
fn values_over(
    alloc: Global,
    fields: &[FieldPlace],
    given: &AllGiven<'_>,
    old: &Record,
    name: Value,
) -> Result<Vec<Value>, Unread>
    ensures { IsTrue (list_all (λ f. is_type f.kind) fields.now) → (t : Tenant)
        → FindsAmong t given.now.found.now given.now.body.now (columns_from 1 fields.now)
        → ValueOrRefusal (refused_among t (all_given given.now) (columns_from 1 fields.now))
        (λ vs. vs.items ≡ name ∷ map (value_over t (all_given given.now) old.now) (columns_from 1 fields.now)) result }
{
    let mut values = Vec::new(alloc);
    values.push(name)?;
    let mut rest = fields;
    'fields: while let Some((field, more)) = rest.split_first() {
        match field_over(alloc, field, given, old, values.len()) {
            Ok(value) => values.push(value)?,
            Err(unread) => return Err(unread),
        }
        rest = more;
    }
    Ok(values)
}

// As `read_given`.
fn read_all(
    alloc: Global,
    layout: &Layout,
    given: &AllGiven<'_>,
    old: &Record,
) -> Result<GivenValues, Unread>
    ensures { IsTrue (has_types layout.now) → (t : Tenant) → FindsAll t (object_of_layout layout.now) given.now
        → ValueOrRefusal (bad_value t (object_of_layout layout.now) (all_given given.now))
        (IsGiven t (object_of_layout layout.now) (all_given given.now) old.now) result }
{
    let name = match name_over(alloc, given, old) {
        Ok(name) => name,
        Err(unread) => return Err(unread),
    };
    let owner = match owner_given(alloc, layout, given) {
        Ok(owner) => owner,
        Err(unread) => return Err(unread),
    };
    match values_over(alloc, layout.fields.as_slice(), given, old, name) {
        Ok(values) => Ok(GivenValues {
            owner,
            values: Items::from_vec(values),
        }),
        Err(unread) => Err(unread),
    }
}

/// The values that are given to a record of an object, over what the record had, and the owner if one is given; or why the first
/// value that is refused is, in the order of the object's fields. Each is read once.
///
/// What is said of it is said of tenants in which what finds a record finds those that are told: where none is told it is refused
/// as of a wrong type. The types of the object's fields are within their bounds, as those of every organisation are.
///
/// # Errors
///
/// When out of memory.
pub fn read_given(
    alloc: Global,
    layout: &Layout,
    given: &AllGiven<'_>,
    old: &Record,
) -> Result<Result<GivenValues, Refusal>, AllocError>
    ensures { IsTrue (has_types layout.now) → IfOk result (GivesValues layout.now given.now old.now) }
{
    ended(read_all(alloc, layout, given, old))
}

/// The record with what a body gives in place of what it had, modified at this moment.
#[tactic(auto, using(crate::proofs::Made::made_given))]
pub fn with_given(old: Record, given: GivenValues, now: i64) -> Record
    ensures same { (a : Asked) (l : Layout) (x : AllGiven) → a.now ≡ now → FindsAll a.tenant (object_of_layout l) x
        → GivesValues l x old (Ok given) → result ≡ with_given a (object_of_layout l) (all_given x) old }
    ensures values { result.values ≡ given.values }
{
    Record {
        id: old.id,
        owner: given.owner.or(old.owner),
        created: old.created,
        modified: now,
        values: given.values,
    }
}

//! INVALID_FIELD: the members of a body that the object doesn't have, that can't be given, or that give the key another value.

ghost use Rattle.std.specs.Prelude.{◌≡◌, IfOk, IsTrue, not};
ghost use Rattle.std.specs.Option.{option_map};
ghost use Rattle.std.specs.Str.{chars};
ghost use Rattle.schema_rules.specs.Objects.{object_of_layout};
ghost use Rattle.record_input.specs.Given.{FindsAll, IsKnown, IsPlain, has_key_type, key_in, key_of};
ghost use Rattle.record_input.specs.inner.Columns.{bad_name};
ghost use Rattle.record_input.specs.inner.Keys.{KnowsKey, KnowsKeyOf, PlainKey, bad_member, has_other};
ghost use Rattle.model.specs.Edits.{bad_field};
ghost use Rattle.model.specs.Given.{read_given};
ghost use Rattle.model.specs.Keys.{bad_fields, other_key, reads_as};
ghost use Rattle.model.specs.Tenant.{Tenant};

use crate::columns::column_named;
use crate::found::Found;
use crate::key::{AllGiven, UpsertKey};
use crate::reading::read_given;
use crate::unread::ended;
use base_value::{Text, Value, same_value};
use model::{Assignment, Given, Refusal, same_name};
use std::alloc::{AllocError, Global};
use store_abstraction::Layout;

// The name that is refused, as declared or else as given.
fn bad_name<'a>(layout: &'a Layout, name: &'a str) -> Option<&'a str>
    ensures { option_map (λ bad. chars bad.now) result ≡ bad_name (object_of_layout layout.now) (chars name.now) }
{
    match column_named(layout, name) {
        None => Some(name),
        Some(column) => {
            if column.is_writable {
                None
            } else {
                Some(column.name)
            }
        }
    }
}

// The refusal of this name, if it is refused.
fn bad_field(
    alloc: Global,
    layout: &Layout,
    member: &Assignment,
) -> Result<Option<Refusal>, AllocError>
    ensures { IfOk result (λ r. r ≡ bad_field (object_of_layout layout.now) member.now) }
{
    match bad_name(layout, member.field.as_str()) {
        None => Ok(None),
        Some(bad) => {
            let name = Text::from_str(alloc, bad)?;
            Ok(Some(Refusal::InvalidField { name }))
        }
    }
}

// Whether what was read is exactly this value.
fn reads_as(read: &Result<Value, Refusal>, value: &Value) -> bool
    ensures { result ≡ reads_as value.now read.now }
{
    match read {
        Ok(read) => same_value(read, value),
        Err(_) => false,
    }
}

// Whether what is given reads as another value than the key's. What is refused does.
fn is_other(
    alloc: Global,
    found: &[Found<'_>],
    key: &UpsertKey<'_>,
    given: &Given,
) -> Result<bool, AllocError>
    ensures { IsTrue (has_key_type key.now) → IfOk result (λ other. (t : Tenant)
        → IsKnown t found.now (key_in key.now).column given.now
        → other ≡ not (reads_as key.now.value.now (read_given t (key_in key.now).column given.now))) }
{
    let given = read_given(
        alloc,
        found,
        key.field.name.as_str(),
        &key.field.kind,
        given,
    );
    let read = ended(given)?;
    Ok(!reads_as(&read, key.value))
}

// Whether this gives the key another value.
fn gives_other(
    alloc: Global,
    found: &[Found<'_>],
    key: &UpsertKey<'_>,
    member: &Assignment,
) -> Result<bool, AllocError>
    ensures { IsTrue (has_key_type key.now) → IfOk result (λ other. (t : Tenant)
        → KnowsKey t found.now (key_in key.now) member.now → other ≡ has_other t (key_in key.now) member.now) }
{
    if same_name(member.field.as_str(), key.field.name.as_str()) {
        is_other(alloc, found, key, &member.given)
    } else {
        Ok(false)
    }
}

// The refusal of another value of the key, if this gives one.
fn other_key(
    alloc: Global,
    found: &[Found<'_>],
    key: &Option<UpsertKey<'_>>,
    member: &Assignment,
) -> Result<Option<Refusal>, AllocError>
    ensures { PlainKey key.now → IfOk result (λ r. (t : Tenant) → KnowsKeyOf t found.now (option_map key_in key.now) member.now
        → r ≡ other_key t (option_map key_in key.now) member.now) }
{
    match key {
        None => Ok(None),
        Some(key) => {
            if gives_other(alloc, found, key, member)? {
                let name = key.field.name.copy(alloc)?;
                Ok(Some(Refusal::InvalidField { name }))
            } else {
                Ok(None)
            }
        }
    }
}

// The refusal of a member of a body: of its name, or of what it gives the key.
fn bad_member(
    alloc: Global,
    layout: &Layout,
    found: &[Found<'_>],
    key: &Option<UpsertKey<'_>>,
    member: &Assignment,
) -> Result<Option<Refusal>, AllocError>
    ensures { PlainKey key.now → IfOk result (λ r. (t : Tenant) → KnowsKeyOf t found.now (option_map key_in key.now) member.now
        → r ≡ bad_member t (object_of_layout layout.now) (option_map key_in key.now) member.now) }
{
    match bad_field(alloc, layout, member)? {
        Some(refusal) => Ok(Some(refusal)),
        None => other_key(alloc, found, key, member),
    }
}

/// INVALID_FIELD: the first name of a body that the object doesn't have, or whose field can't be given, or that gives the key of an
/// upsert another value, if there is one.
///
/// # Errors
///
/// When out of memory.
pub fn bad_fields(
    alloc: Global,
    layout: &Layout,
    given: &AllGiven<'_>,
) -> Result<Option<Refusal>, AllocError>
    ensures { IsPlain given.now → IfOk result (λ r. (t : Tenant) → FindsAll t (object_of_layout layout.now) given.now
        → r ≡ bad_fields t (object_of_layout layout.now) (key_of given.now) given.now.body.now) }
{
    let mut rest = given.body;
    'names: while let Some((first, more)) = rest.split_first() {
        match bad_member(alloc, layout, given.found, &given.key, first)? {
            Some(refusal) => return Ok(Some(refusal)),
            None => rest = more,
        }
    }
    Ok(None)
}

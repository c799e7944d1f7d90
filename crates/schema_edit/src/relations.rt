//! Relationships and masters as an organisation's layouts have them.

ghost use Rattle.std.specs.Prelude.{◌≡◌, ◌≤◌, ℕ, IfOk, MatchOption, Some, None};
ghost use Rattle.std.specs.List.{list_any};
ghost use Rattle.std.specs.Str.{chars};
ghost use Rattle.schema_edit.specs.Judging.{AreLayouts};
ghost use Rattle.schema_edit.specs.inner.Relations as inner;
ghost use Rattle.model.specs.Metadata.{detail_level, masters_above};
ghost use Rattle.model.specs.Tenant.{Tenant};
ghost use Rattle.schema_rules.specs.Objects.{field_of_place};

use crate::references::{is_master, parent_name, target_of};
use model::same_name;
use std::alloc::{AllocError, Global};
use store_abstraction::{FieldPlace, Layout};

/// The layout of the object with this name, whatever the case of its letters.
pub fn layout_named<'a>(layouts: &'a [Layout], name: &str) -> Option<&'a Layout>
    ensures { MatchOption result (inner.layout_by_name layouts.now (chars name.now) ≡ None)
        (λ l. inner.layout_by_name layouts.now (chars name.now) ≡ Some l.now) }
{
    match layouts.split_first() {
        None => None,
        Some((first, rest)) => {
            if same_name(first.name.as_str(), name) {
                Some(first)
            } else {
                layout_named(rest, name)
            }
        }
    }
}

// Whether a reference's child relationship has this name.
fn is_child(field: &FieldPlace, name: &str) -> bool
    ensures { result ≡ inner.has_child (chars name.now) field.now.child }
{
    match &field.child {
        None => false,
        Some(child) => same_name(name, child.as_str()),
    }
}

// Whether a field of this object gives the object with this number a relationship with this name.
fn gives(
    alloc: Global,
    number: u16,
    name: &str,
    object: u16,
    field: &FieldPlace,
) -> Result<bool, AllocError>
    ensures { IfOk result (λ b. b ≡ inner.gives number (chars name.now) object (field_of_place field.now)) }
{
    let Some(target) = target_of(&field.kind) else {
        return Ok(false);
    };
    let parent = parent_name(alloc, field.name.as_str())?;
    Ok(
        object == number && same_name(name, parent.as_str())
            || target == number && is_child(field, name),
    )
}

// Whether one of these fields of this object does.
fn any_gives(
    alloc: Global,
    number: u16,
    name: &str,
    object: u16,
    fields: &[FieldPlace],
) -> Result<bool, AllocError>
    ensures { IfOk result (λ b. b ≡ list_any (λ f. inner.gives number (chars name.now) object (field_of_place f)) fields.now) }
{
    match fields.split_first() {
        None => Ok(false),
        Some((first, rest)) => {
            if gives(alloc, number, name, object, first)? {
                Ok(true)
            } else {
                any_gives(alloc, number, name, object, rest)
            }
        }
    }
}

/// Whether the object with this number has a relationship with this name, to parents or to children.
///
/// # Errors
///
/// When out of memory.
pub fn relationship_taken(
    alloc: Global,
    layouts: &[Layout],
    number: u16,
    name: &str,
) -> Result<bool, AllocError>
    ensures { IfOk result (λ b. b ≡ list_any (inner.layout_gives number (chars name.now)) layouts.now) }
{
    match layouts.split_first() {
        None => Ok(false),
        Some((first, rest)) => {
            if any_gives(alloc, number, name, first.object, first.fields.as_slice())? {
                Ok(true)
            } else {
                relationship_taken(alloc, rest, number, name)
            }
        }
    }
}

// The object of the masters that these fields name.
fn master_among(fields: &[FieldPlace]) -> Option<u16>
    ensures { result ≡ inner.master_among fields.now }
{
    match fields.split_first() {
        None => None,
        Some((first, rest)) => {
            if is_master(&first.kind) {
                target_of(&first.kind)
            } else {
                master_among(rest)
            }
        }
    }
}

// The object of the masters of the records of the object with this number.
#[tactic(auto, using(crate::proofs::Layouts::master_first))]
fn master_of(layouts: &[Layout], number: u16) -> Option<u16>
    ensures { result ≡ inner.master_object layouts.now number }
{
    match layouts.split_first() {
        None => None,
        Some((first, rest)) => {
            if first.object == number {
                match master_among(first.fields.as_slice()) {
                    Some(target) => Some(target),
                    None => master_of(rest, number),
                }
            } else {
                master_of(rest, number)
            }
        }
    }
}

// The masters above an object, at most so many.
fn masters_above(layouts: &[Layout], most: u8, number: u16) -> u8
    ensures value { (t : Tenant) → AreLayouts t layouts.now → result ≡ masters_above most t.objects number }
    ensures within { result ≤ most }
{
    if most == 0 {
        return 0;
    }
    match master_of(layouts, number) {
        None => 0,
        Some(target) => 1 + masters_above(layouts, most - 1, target),
    }
}

/// The detail level of the object with this number: 0 without a master.
pub fn detail_level(layouts: &[Layout], number: u16) -> u8
    ensures value { (t : Tenant) → AreLayouts t layouts.now → result ≡ detail_level t.objects number }
    ensures within { result ≤ 4 }
{
    masters_above(layouts, 4, number)
}

//! References that are to lead to something.

ghost use Rattle.std.specs.Prelude.{◌≡◌, ◌+◌, ◌*◌, ◌≤◌, Err, IfErr, bytes_eq, is_some, length};
ghost use Rattle.std.specs.Option.{option_and_then};
ghost use Rattle.std.specs.Str.{chars};
ghost use Rattle.formula.specs.Meaning.{value_at};
ghost use Rattle.store_kv.specs.Draft.{DraftTells, tables_of};
ghost use Rattle.store_rows.specs.declared.fail.StoreFail.TheVariants.{Memory};
ghost use Rattle.model.specs.Edits.{bad_owner, bad_target, same_owner};
ghost use Rattle.model.specs.Relationships.{target_of};
ghost use Rattle.model.specs.World.{user_at, users_in};
ghost use Rattle.record_constraints.specs.Judged.{FindsRule};
ghost use Rattle.record_constraints.specs.References.{named_at};
ghost use Rattle.record_constraints.specs.inner.Targets.{bad_at, bad_from, changed_id, looked_for, refused_unless};
ghost use Rattle.access_traits.specs.Rights.{level_shown};
ghost use Rattle.schema_rules.specs.Objects.{numbered_in};
ghost use Rattle.store_abstraction.specs.Calls.{Calls, ended};
ghost use Rattle.store_abstraction.specs.Layouts.{FindsOf};
ghost use Rattle.store_abstraction.specs.Local.{FindsIn};
ghost use Rattle.base_value.specs.Causes.{GivesOr};
ghost use Rattle.base_value.specs.Values.{ref_of};

use crate::reading::is_readable;
use access_traits::Rights;
use base_value::{FieldType, Id, Text, Value};
use model::{Record, Refusal};
use std::alloc::Global;
use store_abstraction::{FieldPlace, Layout, call_laws, user};
use store_kv::{Draft, Keeper, draft_laws};
use store_rows::StoreFail;

// The object to which a type refers.
fn target_of(kind: &FieldType) -> Option<u16>
    ensures { result ≡ target_of kind.now }
{
    match kind {
        FieldType::Lookup { object, .. } => Some(*object),
        FieldType::Master { object } => Some(*object),
        _ => None,
    }
}

fn id_of(value: &Value) -> Option<Id>
    ensures { result ≡ ref_of value.now }
{
    match value {
        Value::Ref(id) => Some(*id),
        _ => None,
    }
}

// The id to which a record's value at a position refers.
fn id_at(whose: &Record, position: usize) -> Option<Id>
    ensures { result ≡ ref_of (value_at whose.now.values position) }
{
    match whose.values.as_slice().get(position) {
        None => None,
        Some(value) => id_of(value),
    }
}

/// The object and the id to which a record's value at a position refers, by the type of its field.
pub fn named_at(kind: &FieldType, position: usize, whose: &Record) -> Option<(u16, Id)>
    ensures { result ≡ named_at kind.now position whose.now }
{
    let object = target_of(kind)?;
    let id = id_at(whose, position)?;
    Some((object, id))
}

// The id at a position, unless it is the id to which the old record's value refers.
fn changed_id(position: usize, old: &Record, new: &Record) -> Option<Id>
    ensures { result ≡ changed_id position old.now new.now }
{
    let id = id_at(new, position)?;
    if id_at(old, position) == Some(id) {
        None
    } else {
        Some(id)
    }
}

// The object and the id that have to be looked for.
fn looked_for(kind: &FieldType, position: usize, old: &Record, new: &Record) -> Option<(u16, Id)>
    ensures { result ≡ looked_for kind.now position old.now new.now }
{
    let object = target_of(kind)?;
    let id = changed_id(position, old, new)?;
    Some((object, id))
}

// The refusal under this name, unless what was looked for is there.
fn refused_unless(
    alloc: Global,
    name: &str,
    there: Result<bool, StoreFail>,
) -> Result<Option<Refusal>, StoreFail>
    ensures refused { GivesOr Memory (refused_unless (chars name.now) there) result }
    ensures failed { IfErr there (λ e. result ≡ Err e) }
{
    match there {
        Ok(true) => Ok(None),
        Ok(false) => match Text::from_str(alloc, name) {
            Ok(name) => Ok(Some(Refusal::InvalidReference { name })),
            Err(_) => Err(StoreFail::Memory),
        },
        Err(fail) => Err(fail),
    }
}

// The refusal of a field's new value, if it is a reference that changes to what isn't there or can't be read.
fn bad_reference<K: Keeper, R: Rights>(
    alloc: Global,
    draft: &mut Draft<'_, K>,
    rights: &R,
    layout: &Layout,
    field: &FieldPlace,
    position: usize,
    old: &Record,
    new: &Record,
) -> Result<Option<Refusal>, StoreFail>
    ensures finds { DraftTells K.state draft.old draft.new
        → FindsRule layout.now (R.whose rights.now) (bad_at layout.now.object field.now position old.now new.now)
        (tables_of K.state draft.old) result }
    ensures calls { Calls K.state level_shown (ended result) draft.old draft.new }
{
    draft_laws::<K>();
    call_laws::<K>();
    match &looked_for(&field.kind, position, old, new) {
        None => Ok(None),
        Some((object, id)) => {
            let there = is_readable(alloc, draft, rights, layout.org, *object, id);
            refused_unless(alloc, field.name.as_str(), there)
        }
    }
}

// The same of the first of these fields that is one, where the first of them is at this position.
fn bad_references<K: Keeper, R: Rights>(
    alloc: Global,
    draft: &mut Draft<'_, K>,
    rights: &R,
    layout: &Layout,
    fields: &[FieldPlace],
    position: usize,
    old: &Record,
    new: &Record,
) -> Result<Option<Refusal>, StoreFail>
    requires { position + length fields.now ≤ usize.MAX }
    ensures finds { DraftTells K.state draft.old draft.new
        → FindsRule layout.now (R.whose rights.now) (bad_from layout.now.object fields.now position old.now new.now)
        (tables_of K.state draft.old) result }
    ensures calls { Calls K.state (level_shown * length fields.now) (ended result) draft.old draft.new }
{
    draft_laws::<K>();
    call_laws::<K>();
    let Some((field, rest)) = fields.split_first() else {
        return Ok(None);
    };
    match bad_reference(alloc, draft, rights, layout, field, position, old, new) {
        Ok(None) => bad_references(alloc, draft, rights, layout, rest, position + 1, old, new),
        Ok(Some(refusal)) => Ok(Some(refusal)),
        Err(fail) => Err(fail),
    }
}

// Whether the organisation has the user who is to be an owner.
fn has_owner<K: Keeper>(
    alloc: Global,
    draft: &mut Draft<'_, K>,
    org: u32,
    owner: &Option<Id>,
) -> Result<bool, StoreFail>
    ensures finds { DraftTells K.state draft.old draft.new
        → FindsIn org (λ q t. is_some (option_and_then (user_at (users_in t)) owner.now)) (tables_of K.state draft.old) result }
    ensures calls { Calls K.state 0 (ended result) draft.old draft.new }
{
    call_laws::<K>();
    match owner {
        None => Ok(false),
        Some(id) => match user(alloc, draft, org, id) {
            Ok(found) => Ok(found.is_some()),
            Err(fail) => Err(fail),
        },
    }
}

// The refusal of the owner, if it changes to one that isn't there, whoever asks.
fn bad_owner<K: Keeper>(
    alloc: Global,
    draft: &mut Draft<'_, K>,
    layout: &Layout,
    old: &Record,
    new: &Record,
) -> Result<Option<Refusal>, StoreFail>
    ensures finds { DraftTells K.state draft.old draft.new
        → FindsOf layout.now (λ t. bad_owner t old.now new.now) (tables_of K.state draft.old) result }
    ensures calls { Calls K.state 0 (ended result) draft.old draft.new }
{
    call_laws::<K>();
    if old.owner == new.owner {
        return Ok(None);
    }
    let there = has_owner(alloc, draft, layout.org, &new.owner);
    refused_unless(alloc, "OwnerId", there)
}

/// INVALID_CROSS_REFERENCE_KEY: the refusal of a record's owner, or else of the first of its references, in the order of the
/// fields, that changes to what isn't there, or can't be read by whose rights these are, if there is one.
///
/// # Errors
///
/// `Keeper` if the keeper failed, `Memory` if out of memory, `Damaged` never if the organisation's rows stand for a tenant whose
/// layout it is and of whose user the rights are.
pub fn bad_target<K: Keeper, R: Rights>(
    alloc: Global,
    draft: &mut Draft<'_, K>,
    rights: &R,
    layout: &Layout,
    old: &Record,
    new: &Record,
) -> Result<Option<Refusal>, StoreFail>
    ensures finds { DraftTells K.state draft.old draft.new
        → FindsRule layout.now (R.whose rights.now) (λ a. bad_target a (numbered_in layout.now) old.now new.now)
        (tables_of K.state draft.old) result }
    ensures calls { Calls K.state (level_shown * length layout.now.fields) (ended result) draft.old draft.new }
{
    draft_laws::<K>();
    call_laws::<K>();
    match bad_owner(alloc, draft, layout, old, new) {
        Ok(None) => bad_references(
            alloc,
            draft,
            rights,
            layout,
            layout.fields.as_slice(),
            1,
            old,
            new,
        ),
        Ok(Some(refusal)) => Ok(Some(refusal)),
        Err(fail) => Err(fail),
    }
}

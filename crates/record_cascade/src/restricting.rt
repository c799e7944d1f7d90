//! The first reference by which a record that stays holds one that goes.

ghost use Rattle.std.specs.Prelude.{◌≡◌, ◌<◌, IfOk, length};
ghost use Rattle.record_cascade.specs.inner.Holding.{restricted_at, restricted_in, restricted_of};
ghost use Rattle.record_cascade.specs.inner.Masters.{FindsBy};
ghost use Rattle.store_kv.specs.Draft.{DraftTells, tables_of};
ghost use Rattle.model.specs.Deletes.{restricts};
ghost use Rattle.model.specs.declared.refusal.Refusal.TheVariants.{DeleteFailed};
ghost use Rattle.store_abstraction.specs.Calls.{Calls, ended};
ghost use Rattle.store_abstraction.specs.Layouts.{FindsOf};

use crate::holding::is_held;
use base_value::{FieldType, Id, OnDelete};
use model::Refusal;
use std::alloc::{AllocError, Global};
use std::collections::BTreeSet;
use store_abstraction::{FieldPlace, Layout, call_laws};
use store_kv::{Draft, Keeper, draft_laws};
use store_rows::StoreFail;

fn restricts(kind: &FieldType) -> bool
    ensures { result ≡ restricts kind.now }
{
    match kind {
        FieldType::Lookup {
            on_delete: OnDelete::Restrict,
            ..
        } => true,
        _ => false,
    }
}

fn delete_failed(alloc: Global, layout: &Layout, field: &FieldPlace) -> Result<Refusal, AllocError>
    ensures { IfOk result (λ refusal. refusal ≡ DeleteFailed layout.now.name field.now.name) }
{
    let object = layout.name.copy(alloc)?;
    let field = field.name.copy(alloc)?;
    Ok(Refusal::DeleteFailed { object, field })
}

// The refusal of a field with its number, if it restricts and a record that stays holds by it one that goes.
fn restricted_at<K: Keeper>(
    alloc: Global,
    draft: &mut Draft<'_, K>,
    layout: &Layout,
    number: usize,
    field: &FieldPlace,
    gone: &BTreeSet<Id>,
) -> Result<Option<Refusal>, StoreFail>
    requires { number < length layout.now.fields }
    ensures finds { DraftTells K.state draft.old draft.new
        → FindsOf layout.now (restricted_at layout.now number field.now gone.now.keys) (tables_of K.state draft.old) result }
    ensures calls { Calls K.state 0 (ended result) draft.old draft.new }
{
    call_laws::<K>();
    if !restricts(&field.kind) {
        return Ok(None);
    }
    if !is_held(alloc, draft, layout, number, field, gone)? {
        return Ok(None);
    }
    Ok(Some(delete_failed(alloc, layout, field)?))
}

// That of the first of the object's fields.
fn restricted_in<K: Keeper>(
    alloc: Global,
    draft: &mut Draft<'_, K>,
    layout: &Layout,
    gone: &BTreeSet<Id>,
) -> Result<Option<Refusal>, StoreFail>
    ensures finds { DraftTells K.state draft.old draft.new
        → FindsOf layout.now (λ t. restricted_in gone.now.keys t layout.now) (tables_of K.state draft.old) result }
    ensures calls { Calls K.state 0 (ended result) draft.old draft.new }
{
    draft_laws::<K>();
    call_laws::<K>();
    let mut rest = layout.fields.as_slice();
    let mut number: usize = 0;
    'fields: while let Some((field, more)) = rest.split_first() {
        if let Some(refusal) = restricted_at(alloc, draft, layout, number, field, gone)? {
            return Ok(Some(refusal));
        }
        number += 1;
        rest = more;
    }
    Ok(None)
}

/// The refusal of the first reference by which a record that stays holds one that goes: the first of these objects', and of its
/// fields, that restricts.
///
/// # Errors
///
/// `Keeper` if the keeper failed, `Memory` if out of memory, `Damaged` never if the organisation's rows stand for a tenant of whose
/// objects these are layouts.
pub(crate) fn restricted_by<K: Keeper>(
    alloc: Global,
    draft: &mut Draft<'_, K>,
    org: u32,
    layouts: &[Layout],
    gone: &BTreeSet<Id>,
) -> Result<Option<Refusal>, StoreFail>
    ensures finds { DraftTells K.state draft.old draft.new
        → FindsBy org layouts.now (restricted_of layouts.now gone.now.keys) (tables_of K.state draft.old) result }
    ensures calls { Calls K.state 0 (ended result) draft.old draft.new }
{
    draft_laws::<K>();
    call_laws::<K>();
    let mut rest = layouts;
    'layouts: while let Some((layout, more)) = rest.split_first() {
        if let Some(refusal) = restricted_in(alloc, draft, layout, gone)? {
            return Ok(Some(refusal));
        }
        rest = more;
    }
    Ok(None)
}

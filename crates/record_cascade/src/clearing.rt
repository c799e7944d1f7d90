//! The records that lose a lookup to one that goes.

ghost use Rattle.std.specs.Prelude.{◌≡◌, ◌<◌, length};
ghost use Rattle.record_cascade.specs.inner.Holding.{cleared_at, cleared_in, cleared_of};
ghost use Rattle.record_cascade.specs.inner.Masters.{FindsBy};
ghost use Rattle.store_kv.specs.Draft.{DraftTells, tables_of};
ghost use Rattle.model.specs.Deletes.{is_cleared};
ghost use Rattle.store_abstraction.specs.Calls.{Calls, ended};
ghost use Rattle.store_abstraction.specs.Layouts.{FindsOf};

use crate::holding::holders;
use base_value::{FieldType, Id, Items, OnDelete};
use std::alloc::Global;
use std::collections::BTreeSet;
use store_abstraction::{FieldPlace, Layout, call_laws};
use store_kv::{Draft, Keeper, draft_laws};
use store_rows::StoreFail;

/// Whether a reference becomes null when the record that it names goes.
pub fn is_cleared(kind: &FieldType) -> bool
    ensures { result ≡ is_cleared kind.now }
{
    match kind {
        FieldType::Lookup {
            on_delete: OnDelete::Clear,
            ..
        } => true,
        _ => false,
    }
}

// The ids of the object's records that lose a lookup, by a field with its number, if it is one that is cleared.
fn cleared_at<K: Keeper>(
    alloc: Global,
    draft: &mut Draft<'_, K>,
    layout: &Layout,
    number: usize,
    field: &FieldPlace,
    gone: &BTreeSet<Id>,
) -> Result<Items<Id>, StoreFail>
    requires { number < length layout.now.fields }
    ensures finds { DraftTells K.state draft.old draft.new
        → FindsOf layout.now (cleared_at layout.now number field.now gone.now.keys) (tables_of K.state draft.old) result }
    ensures calls { Calls K.state 0 (ended result) draft.old draft.new }
{
    call_laws::<K>();
    if is_cleared(&field.kind) {
        holders(alloc, draft, layout, number, field, gone)
    } else {
        Ok(Items::new(alloc))
    }
}

// The same by all the object's fields.
fn cleared_in<K: Keeper>(
    alloc: Global,
    draft: &mut Draft<'_, K>,
    layout: &Layout,
    gone: &BTreeSet<Id>,
) -> Result<Items<Id>, StoreFail>
    ensures finds { DraftTells K.state draft.old draft.new
        → FindsOf layout.now (λ t. cleared_in gone.now.keys t layout.now) (tables_of K.state draft.old) result }
    ensures calls { Calls K.state 0 (ended result) draft.old draft.new }
{
    draft_laws::<K>();
    call_laws::<K>();
    let mut all = Vec::new(alloc);
    let mut rest = layout.fields.as_slice();
    let mut number: usize = 0;
    'fields: while let Some((field, more)) = rest.split_first() {
        let found = cleared_at(alloc, draft, layout, number, field, gone)?;
        all.extend_from_slice(found.as_slice())?;
        number += 1;
        rest = more;
    }
    Ok(Items::from_vec(all))
}

/// The ids of the records that lose a lookup, of these objects, each as often as it is found.
///
/// # Errors
///
/// `Keeper` if the keeper failed, `Memory` if out of memory, `Damaged` never if the organisation's rows stand for a tenant of whose
/// objects these are layouts.
pub(crate) fn losing_lookups<K: Keeper>(
    alloc: Global,
    draft: &mut Draft<'_, K>,
    org: u32,
    layouts: &[Layout],
    gone: &BTreeSet<Id>,
) -> Result<Items<Id>, StoreFail>
    ensures finds { DraftTells K.state draft.old draft.new
        → FindsBy org layouts.now (cleared_of layouts.now gone.now.keys) (tables_of K.state draft.old) result }
    ensures calls { Calls K.state 0 (ended result) draft.old draft.new }
{
    draft_laws::<K>();
    call_laws::<K>();
    let mut all = Vec::new(alloc);
    let mut rest = layouts;
    'layouts: while let Some((layout, more)) = rest.split_first() {
        let found = cleared_in(alloc, draft, layout, gone)?;
        all.extend_from_slice(found.as_slice())?;
        rest = more;
    }
    Ok(Items::from_vec(all))
}

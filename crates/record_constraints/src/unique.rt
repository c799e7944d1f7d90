//! Records by their values in unique fields.

ghost use Rattle.std.specs.Prelude.{◌≡◌, ◌+◌, ◌<◌, IfOk, length};
ghost use Rattle.std.specs.Option.{option_map};
ghost use Rattle.store_kv.specs.Draft.{DraftTells, tables_of};
ghost use Rattle.store_rows.specs.Keys.{slot_key};
ghost use Rattle.model.specs.Given.{record_by_value};
ghost use Rattle.record_constraints.specs.Uniques.{HasUnique};
ghost use Rattle.record_constraints.specs.inner.Clashes.{id_in_row};
ghost use Rattle.store_codec.specs.Shapes.{FitsIn, Ordered};
ghost use Rattle.store_abstraction.specs.Calls.{Calls, ended};
ghost use Rattle.store_abstraction.specs.Layouts.{FindsOf};
ghost use Rattle.base_value.specs.OrderKeys.{order_key};

use base_value::{Bytes, Id, Value, id_laws, order_key, order_laws, value_laws};
use std::alloc::{AllocError, Global};
use store_abstraction::{Layout, call_laws};
use store_kv::{Draft, Keeper, key_laws};
use store_rows::{StoreFail, UniqueRow, row_at, row_laws, table_laws};

// The key of the row of a value in a slot.
fn key_of(
    alloc: Global,
    org: u32,
    object: u16,
    slot: u8,
    value: &Value,
) -> Result<(u32, (u16, (u8, Bytes))), AllocError>
    ensures is { IfOk result (λ key. key ≡ (org, (object, (slot, order_key value.now)))) }
    ensures fits { IfOk result (FitsIn (slot_key Ordered)) }
{
    let value = order_key(alloc, value)?;
    Ok((org, (object, (slot, value))))
}

// The id in a row, if one was read.
fn id_in_row(row: Result<Option<UniqueRow>, StoreFail>) -> Result<Option<Id>, StoreFail>
    ensures { result ≡ id_in_row row }
{
    match row {
        Ok(Some(row)) => Ok(Some(row.id)),
        Ok(None) => Ok(None),
        Err(fail) => Err(fail),
    }
}

/// The id of the record of an object that has this value in the unique field with this number, if there is one. Null is no
/// record's.
///
/// # Errors
///
/// `Keeper` if the keeper failed, `Memory` if out of memory, `Damaged` never if the organisation's rows stand for a tenant whose
/// layout it is.
pub fn unique_find<K: Keeper>(
    alloc: Global,
    draft: &mut Draft<'_, K>,
    layout: &Layout,
    number: usize,
    value: &Value,
) -> Result<Option<Id>, StoreFail>
    requires field { number < length layout.now.fields }
    requires unique { HasUnique layout.now number value.now }
    ensures finds { DraftTells K.state draft.old draft.new
        → FindsOf layout.now (λ t. option_map (λ r. r.id) (record_by_value t layout.now.object (number + 1) value.now))
        (tables_of K.state draft.old) result }
    ensures calls { Calls K.state 0 (ended result) draft.old draft.new }
{
    key_laws();
    table_laws();
    row_laws::<UniqueRow>();
    id_laws();
    value_laws();
    order_laws();
    call_laws::<K>();
    let fields = layout.fields.as_slice();
    let field = &fields[number];
    let key = key_of(alloc, layout.org, layout.object, field.slot, value)?;
    let row = row_at::<UniqueRow, K>(alloc, draft, &key);
    id_in_row(row)
}

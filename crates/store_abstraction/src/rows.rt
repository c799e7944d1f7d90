//! Rows of metadata, as they are read before they are changed.

ghost use Rattle.std.specs.Prelude.{◌≡◌, IfOk, IfSome};
ghost use Rattle.store_kv.specs.Draft.{DraftTells, tables_of};
ghost use Rattle.store_rows.specs.Forms.{FitsForm};
ghost use Rattle.store_rows.specs.Rows.{object_form, org_form};
ghost use Rattle.store_abstraction.specs.Calls.{Calls, ended};
ghost use Rattle.store_abstraction.specs.Layouts.{own_object_row, own_row, own_rule_row};
ghost use Rattle.store_abstraction.specs.Local.{FindsIn, FindsThere};
ghost use Rattle.base_value.specs.Bytes.{IsBytes};

use base_value::Bytes;
use model::name_laws;
use std::alloc::Global;
use store_kv::{Draft, Keeper, key_laws};
use store_rows::{Mark, ObjectRow, OrgRow, StoreFail, ValidationRow, row_at, row_laws, table_laws};

/// The row of the organisation with this number, if there is one.
///
/// # Errors
///
/// `Keeper` if the keeper failed, `Memory` if out of memory, `Damaged` never if the organisation's rows stand for a tenant or
/// for none.
pub fn org_row<K: Keeper>(
    alloc: Global,
    draft: &mut Draft<'_, K>,
    org: u32,
) -> Result<Option<OrgRow>, StoreFail>
    ensures finds { DraftTells K.state draft.old draft.new
        → FindsIn org (own_row org) (tables_of K.state draft.old) result × IfOk result (λ found. IfSome found (λ row. row.org ≡ org)) }
    ensures fits { IfOk result (λ found. IfSome found (FitsForm org_form)) }
    ensures calls { Calls K.state 0 (ended result) draft.old draft.new }
{
    key_laws();
    table_laws();
    row_laws::<OrgRow>();
    name_laws();
    row_at(alloc, draft, &org)
}

// The row of the object with this number, if there is one.
fn object_row<K: Keeper>(
    alloc: Global,
    draft: &mut Draft<'_, K>,
    org: u32,
    object: u16,
) -> Result<Option<ObjectRow>, StoreFail>
    ensures finds { DraftTells K.state draft.old draft.new
        → FindsIn org (own_object_row org object) (tables_of K.state draft.old) result
        × IfOk result (λ found. IfSome found (λ row. object_form.keyed row ≡ (org, object))) }
    ensures fits { IfOk result (λ found. IfSome found (FitsForm object_form)) }
    ensures calls { Calls K.state 0 (ended result) draft.old draft.new }
{
    key_laws();
    table_laws();
    row_laws::<ObjectRow>();
    row_at(alloc, draft, &(org, object))
}

/// The row of the validation rule of an object that has this name in lower case, if there is one.
///
/// # Errors
///
/// `Keeper` if the keeper failed, `Memory` if out of memory, `Damaged` never if the organisation's rows stand for a tenant or
/// for none.
pub fn rule_row<K: Keeper>(
    alloc: Global,
    draft: &mut Draft<'_, K>,
    org: u32,
    object: u16,
    lower_name: Bytes,
) -> Result<Option<ValidationRow>, StoreFail>
    requires { IsBytes lower_name }
    ensures finds { DraftTells K.state draft.old draft.new
        → FindsIn org (own_rule_row org object lower_name) (tables_of K.state draft.old) result }
    ensures calls { Calls K.state 0 (ended result) draft.old draft.new }
{
    key_laws();
    table_laws();
    row_laws::<ValidationRow>();
    name_laws();
    row_at(alloc, draft, &(org, (Mark::<0>, (object, lower_name))))
}

/// The row of the organisation with this number, which has to be there.
///
/// # Errors
///
/// `Damaged` if there is none, which is never if the organisation's rows stand for a tenant; `Keeper` if the keeper failed,
/// `Memory` if out of memory.
pub fn org_there<K: Keeper>(
    alloc: Global,
    draft: &mut Draft<'_, K>,
    org: u32,
) -> Result<OrgRow, StoreFail>
    ensures finds { DraftTells K.state draft.old draft.new
        → FindsThere org (own_row org) (tables_of K.state draft.old) result × IfOk result (λ row. row.org ≡ org) }
    ensures fits { IfOk result (FitsForm org_form) }
    ensures calls { Calls K.state 0 (ended result) draft.old draft.new }
{
    match org_row(alloc, draft, org) {
        Ok(Some(row)) => Ok(row),
        Ok(None) => Err(StoreFail::Damaged),
        Err(fail) => Err(fail),
    }
}

/// The row of the object with this number, which has to be there.
///
/// # Errors
///
/// `Damaged` if there is none, which is never if the organisation's rows stand for a tenant with that object; `Keeper` if the
/// keeper failed, `Memory` if out of memory.
pub fn object_there<K: Keeper>(
    alloc: Global,
    draft: &mut Draft<'_, K>,
    org: u32,
    object: u16,
) -> Result<ObjectRow, StoreFail>
    ensures finds { DraftTells K.state draft.old draft.new
        → FindsThere org (own_object_row org object) (tables_of K.state draft.old) result
        × IfOk result (λ row. object_form.keyed row ≡ (org, object)) }
    ensures fits { IfOk result (FitsForm object_form) }
    ensures calls { Calls K.state 0 (ended result) draft.old draft.new }
{
    match object_row(alloc, draft, org, object) {
        Ok(Some(row)) => Ok(row),
        Ok(None) => Err(StoreFail::Damaged),
        Err(fail) => Err(fail),
    }
}

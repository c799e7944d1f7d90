//! How far the change of a field's type is.

ghost use Rattle.std.specs.Prelude.{◌≡◌, IfOk, Some};
ghost use Rattle.std.specs.Option.{option_and_then, option_map};
ghost use Rattle.store_kv.specs.Draft.{DraftTells, tables_of};
ghost use Rattle.retype_request.specs.States.{state_in};
ghost use Rattle.retype_request.specs.inner.States.{field_name, name_at, object_name, state_by};
ghost use Rattle.store_abstraction.specs.Calls.{Calls, ended};
ghost use Rattle.store_abstraction.specs.Layouts.{own_layout};
ghost use Rattle.store_abstraction.specs.Local.{FindsIn};

use base_value::{Id, Outcome, Phase, Text};
use std::alloc::{AllocError, Global};
use store_abstraction::{Layout, call_laws, change_row, layout_at};
use store_kv::{Draft, Keeper};
use store_rows::{JobRow, StoreFail};

/// How far the change of a field's type is.
#[derive(Debug, Drop)]
pub struct ChangeState {
    /// The name of the field's object.
    pub object: Text,
    /// The field's name.
    pub field: Text,
    /// How far it is.
    pub phase: Phase,
    /// How it ended.
    pub outcome: Outcome,
    /// The record whose value didn't convert.
    pub failed: Option<Id>,
}

// The name of an object, and none where there is no object.
#[tactic(auto, using(crate::proofs::Texts::empty_text))]
fn object_name(alloc: Global, layout: &Option<Layout>) -> Result<Text, AllocError>
    ensures { IfOk result (λ name. name ≡ object_name layout.now) }
{
    match layout {
        None => Text::from_str(alloc, ""),
        Some(layout) => layout.name.copy(alloc),
    }
}

// The name of an object's field, and none where there is no such field.
#[tactic(auto, using(crate::proofs::Texts::empty_text))]
fn name_at(alloc: Global, layout: &Layout, field: u8) -> Result<Text, AllocError>
    ensures { IfOk result (λ name. name ≡ name_at layout.now field) }
{
    match layout.fields.get(usize::from(field)) {
        None => Text::from_str(alloc, ""),
        Some(field) => field.name.copy(alloc),
    }
}

// The same of an object that may not be there.
#[tactic(auto, using(crate::proofs::Texts::empty_text))]
fn field_name(alloc: Global, layout: &Option<Layout>, field: u8) -> Result<Text, AllocError>
    ensures { IfOk result (λ name. name ≡ field_name layout.now field) }
{
    match layout {
        None => Text::from_str(alloc, ""),
        Some(layout) => name_at(alloc, layout, field),
    }
}

// How far a change is, by its row and the layout of its object.
fn state_of(alloc: Global, row: &JobRow, layout: &Option<Layout>) -> Result<ChangeState, AllocError>
    ensures { IfOk result (λ state. state ≡ state_by row.now layout.now) }
{
    let object = object_name(alloc, layout)?;
    let field = field_name(alloc, layout, row.field)?;
    Ok(ChangeState {
        object,
        field,
        phase: row.phase,
        outcome: row.outcome,
        failed: row.failed,
    })
}

// How far the change with this row is.
fn state_read<K: Keeper>(
    alloc: Global,
    draft: &mut Draft<'_, K>,
    org: u32,
    row: &JobRow,
) -> Result<Option<ChangeState>, StoreFail>
    ensures finds { DraftTells K.state draft.old draft.new
        → FindsIn org (λ q t. Some (state_by row.now (own_layout org row.now.object q t))) (tables_of K.state draft.old) result }
    ensures calls { Calls K.state 0 (ended result) draft.old draft.new }
{
    call_laws::<K>();
    let layout = layout_at(alloc, draft, org, row.object)?;
    Ok(Some(state_of(alloc, row, &layout)?))
}

/// How far the change of a field's type is, if the organisation ever made one.
///
/// # Errors
///
/// `Keeper` if the keeper failed, `Memory` if out of memory, `Damaged` never if the organisation's rows stand for a tenant or
/// for none.
pub fn change_state<K: Keeper>(
    alloc: Global,
    draft: &mut Draft<'_, K>,
    org: u32,
) -> Result<Option<ChangeState>, StoreFail>
    ensures finds { DraftTells K.state draft.old draft.new
        → FindsIn org (λ q t. option_and_then (λ u. option_map (state_in u) u.job) t) (tables_of K.state draft.old) result }
    ensures calls { Calls K.state 0 (ended result) draft.old draft.new }
{
    call_laws::<K>();
    match change_row(alloc, draft, org)? {
        None => Ok(None),
        Some(row) => state_read(alloc, draft, org, &row),
    }
}

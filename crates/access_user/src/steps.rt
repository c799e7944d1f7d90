//! The steps from an object's records to their masters.

ghost use Rattle.std.specs.Prelude.{◌≡◌, ◌≤◌, ◌+◌, ◌∷◌, ℕ, IfOk, None, length};
ghost use Rattle.access_user.specs.inner.Steps.{Leads, LeadsIfAny, TellsWhere, master_from, master_target, most_above, step_to};
ghost use Rattle.store_kv.specs.Draft.{DraftTells, tables_of};
ghost use Rattle.model.specs.Metadata.{masters_above};
ghost use Rattle.store_abstraction.specs.Calls.{Calls, ended};
ghost use Rattle.store_abstraction.specs.Layouts.{IsLayout};

use base_value::FieldType;
use std::alloc::{AllocError, Global};
use store_abstraction::{FieldPlace, Layout, call_laws, layout_at};
use store_kv::{Draft, Keeper, draft_laws};
use store_rows::StoreFail;

/// A Master field.
#[derive(Clone, Copy)]
pub(crate) struct MasterField {
    /// Where a record's value of it is among its values.
    pub(crate) position: usize,
    /// The object to whose records it refers.
    pub(crate) target: u16,
}

/// A step from an object's records to their masters.
#[derive(Drop)]
pub(crate) struct Step {
    /// Where a record names its master among its values.
    pub(crate) position: usize,
    /// The layout of the masters' object.
    pub(crate) layout: Layout,
}

// The object of the masters to which a type refers.
fn master_target(kind: &FieldType) -> Option<u16>
    ensures { result ≡ master_target kind.now }
{
    match kind {
        FieldType::Master { object } => Some(*object),
        _ => None,
    }
}

// The first of these fields that is a Master, where the first of all is at this position.
fn master_from(position: usize, fields: &[FieldPlace]) -> Option<MasterField>
    requires { position + length fields.now ≤ usize.MAX }
    ensures { result ≡ master_from position fields.now }
{
    let Some((field, rest)) = fields.split_first() else {
        return None;
    };
    match master_target(&field.kind) {
        Some(target) => Some(MasterField { position, target }),
        None => master_from(position + 1, rest),
    }
}

// The step for which a layout was read, which has to be there.
fn step_to(
    position: usize,
    layout: Result<Option<Layout>, StoreFail>,
) -> Result<Option<Step>, StoreFail>
    ensures { result ≡ step_to position layout }
{
    match layout {
        Ok(Some(layout)) => Ok(Some(Step { position, layout })),
        Ok(None) => Err(StoreFail::Damaged),
        Err(fail) => Err(fail),
    }
}

// The step from an object's records to their masters, if they have any.
fn step_from<K: Keeper>(
    alloc: Global,
    draft: &mut Draft<'_, K>,
    layout: &Layout,
) -> Result<Option<Step>, StoreFail>
    ensures finds { DraftTells K.state draft.old draft.new
        → TellsWhere layout.now.org (λ q t u. IsLayout q t layout.now) (λ x q t u. LeadsIfAny q t layout.now.org layout.now.object x)
        (tables_of K.state draft.old) result }
    ensures none { master_from 1 layout.now.fields ≡ None → IfOk result (λ step. step ≡ None) }
    ensures calls { Calls K.state 0 (ended result) draft.old draft.new }
{
    call_laws::<K>();
    match master_from(1, layout.fields.as_slice()) {
        Some(master) => step_to(
            master.position,
            layout_at(alloc, draft, layout.org, master.target),
        ),
        None => Ok(None),
    }
}

// A step, and then those.
fn with_first(step: Step, rest: Vec<Step>) -> Result<Vec<Step>, AllocError>
    ensures { IfOk result (λ steps. steps.items ≡ step ∷ rest.items) }
{
    let mut steps = rest;
    steps.insert(0, step)?;
    Ok(steps)
}

/// The steps from an object's records to their topmost masters, at most so many.
///
/// # Errors
///
/// `Keeper` if the keeper failed, `Memory` if out of memory, `Damaged` never if the organisation's rows stand for a tenant whose
/// layout it is and whose records have no more masters above.
pub(crate) fn steps_from<K: Keeper>(
    alloc: Global,
    draft: &mut Draft<'_, K>,
    layout: &Layout,
    most: usize,
) -> Result<Vec<Step>, StoreFail>
    ensures finds { DraftTells K.state draft.old draft.new
        → TellsWhere layout.now.org
        (λ q t u. IsLayout q t layout.now × (masters_above (most + 1) t.objects layout.now.object ≤ most))
        (λ steps q t u. Leads q t layout.now.org layout.now.object steps.items)
        (tables_of K.state draft.old) result }
    ensures few { IfOk result (λ steps. length steps.items ≤ most_above most layout.now) }
    ensures calls { Calls K.state 0 (ended result) draft.old draft.new }
{
    draft_laws::<K>();
    call_laws::<K>();
    match step_from(alloc, draft, layout) {
        Ok(None) => Ok(Vec::new(alloc)),
        Ok(Some(step)) => {
            if most == 0 {
                return Err(StoreFail::Damaged);
            }
            match steps_from(alloc, draft, &step.layout, most - 1) {
                Ok(rest) => Ok(with_first(step, rest)?),
                Err(fail) => Err(fail),
            }
        }
        Err(fail) => Err(fail),
    }
}

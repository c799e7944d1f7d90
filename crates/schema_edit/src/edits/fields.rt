//! New fields.

ghost use Rattle.std.specs.Prelude.{◌<◌, ◌≡◌, ◌≢◌, ℕ, IfErr, IfOk, IfSome, IsTrue, Ok, Option};
ghost use Rattle.store_edit.specs.Rows.{AreSpelled};
ghost use Rattle.store_rows.specs.declared.fail.StoreFail.TheVariants.{Keeper, Memory};
ghost use Rattle.store_rows.specs.Forms.{FitsForm};
ghost use Rattle.store_rows.specs.Rows.{field_form, object_form};
ghost use Rattle.schema_edit.specs.inner.FieldRows.{AreOfOrg, AreRowsFor, FitFieldRows, HasTarget, IsSpelled, changes_of};
ghost use Rattle.schema_edit.specs.inner.Relations.{target_in};
ghost use Rattle.schema_edit.specs.inner.Rows.{field_row};
ghost use Rattle.schema_edit.specs.Slots.{FieldPlanned};
ghost use Rattle.model.specs.NewFields.{add_field, child_of, new_field, type_with};
ghost use Rattle.model.specs.Verdict.{done};
ghost use Rattle.store_codec.specs.Composed.{FitsType};
ghost use Rattle.store_codec.specs.Plain.{FitsText};
ghost use Rattle.model_invariant.specs.Fit.{is_fit_field};
ghost use Rattle.store_abstraction.specs.Fails.{of_store};

use crate::edits::accepting::accepting_layouts;
use crate::edits::copies::{copy_of_text, copy_of_type};
use crate::judging::target_number;
use crate::relations::layout_named;
use crate::slots::free_slot;
use base_value::{FieldType, Text};
use model::{NewField, SpelledType};
use model_invariant::objects_sound;
use std::alloc::Global;
use store_abstraction::{EditFail, Layout, call_laws, metadata_laws, object_there, slot_laws};
use store_edit::{Decided, Edit, put_row};
use store_kv::{Draft, Keeper};
use store_rows::{FieldFlags, FieldRow, ObjectRow, StoreFail};

// The rows that a new field changes.
#[derive(Drop)]
struct NewFieldRows {
    // The object's, with one field more.
    object: ObjectRow,
    field: FieldRow,
}

// The type of a new field. A lookup refers to the object with the number `target`.
fn type_with(alloc: Global, target: Option<u16>, kind: &SpelledType) -> Result<FieldType, StoreFail>
    ensures same { IfOk result (λ made. made ≡ type_with target kind.now) }
    ensures fits { IfOk result FitsType }
    ensures damaged { HasTarget target kind.now → FitsType (type_with target kind.now) → IfErr result (λ e. e ≡ Memory) }
    ensures cause { IfErr result (λ e. e ≢ Keeper) }
{
    match kind {
        SpelledType::Plain(kind) => copy_of_type(alloc, kind),
        SpelledType::LookupTo { on_delete, .. } => {
            let Some(object) = target else {
                // A lookup to no object is refused.
                return Err(StoreFail::Damaged);
            };
            Ok(FieldType::Lookup {
                object,
                on_delete: *on_delete,
            })
        }
    }
}

// The child relationship of a lookup.
fn copy_of_child(alloc: Global, kind: &SpelledType) -> Result<Option<Text>, StoreFail>
    ensures same { IfOk result (λ child. child ≡ child_of kind.now) }
    ensures fits { IfOk result (λ child. IfSome child FitsText) }
    ensures damaged { IfSome (child_of kind.now) FitsText → IfErr result (λ e. e ≡ Memory) }
    ensures cause { IfErr result (λ e. e ≢ Keeper) }
{
    match kind {
        SpelledType::Plain(_) => Ok(None),
        SpelledType::LookupTo { child, .. } => Ok(Some(copy_of_text(alloc, child)?)),
    }
}

// The row of a new field in this slot, which has the next number of the object with this row.
fn field_row(
    alloc: Global,
    object: &ObjectRow,
    slot: u8,
    target: Option<u16>,
    new: &NewField,
) -> Result<FieldRow, StoreFail>
    requires { FitsForm object_form object.now }
    ensures same { IfOk result (λ row. row ≡ field_row object.now.org object.now.object object.now.fields slot (new_field target new.now)) }
    ensures fits { IfOk result (FitsForm field_form) }
    ensures damaged { HasTarget target new.now.kind → IsSpelled (new_field target new.now) → IfErr result (λ e. e ≡ Memory) }
    ensures cause { IfErr result (λ e. e ≢ Keeper) }
{
    let name = copy_of_text(alloc, &new.name)?;
    let kind = type_with(alloc, target, &new.kind)?;
    let child = copy_of_child(alloc, &new.kind)?;
    Ok(FieldRow {
        org: object.org,
        object: object.object,
        field: object.fields,
        name,
        kind,
        flags: FieldFlags {
            required: new.required,
            unique: new.unique,
            indexed: new.indexed,
        },
        slot,
        child,
    })
}

// The rows of a new field in the least slot that is free, by the row of its object, whose layout is given too.
fn rows_of(
    alloc: Global,
    layouts: &[Layout],
    layout: &Layout,
    object: ObjectRow,
    new: &NewField,
) -> Result<NewFieldRows, StoreFail>
    requires { FitsForm object_form object }
    ensures same { (target : Option ℕ) → target_in layouts.now new.now.kind ≡ Ok target
        → IfOk result (AreRowsFor layout.now object (new_field target new.now)) }
    ensures fits { IfOk result FitFieldRows }
    ensures own { IfOk result (AreOfOrg object.org) }
    ensures damaged { (target : Option ℕ) → target_in layouts.now new.now.kind ≡ Ok target → HasTarget target new.now.kind
        → IsSpelled (new_field target new.now) → object.fields < 255 → IfErr result (λ e. e ≡ Memory) }
    ensures cause { IfErr result (λ e. e ≢ Keeper) }
{
    let Ok(target) = target_number(layouts, &new.kind) else {
        // A lookup to no object is refused.
        return Err(StoreFail::Damaged);
    };
    let Some(count) = object.fields.checked_add(1) else {
        // An object has at most 40 fields.
        return Err(StoreFail::Damaged);
    };
    let field = field_row(alloc, &object, free_slot(layout), target, new)?;
    let mut object = object;
    object.fields = count;
    Ok(NewFieldRows { object, field })
}

// The edit, decided: it puts the rows of a new field.
fn decided(alloc: Global, rows: &NewFieldRows) -> Result<Decided<()>, EditFail>
    requires { FitFieldRows rows.now }
    ensures made { IfOk result (λ x. AreSpelled (changes_of rows.now) x.changes.items) }
    ensures cause { IfErr result (λ e. e ≡ of_store Memory) }
{
    let mut changes = Vec::new(alloc);
    put_row(alloc, &mut changes, &rows.object)?;
    put_row(alloc, &mut changes, &rows.field)?;
    Ok(Decided {
        answer: (),
        changes,
    })
}

/// Adds a field to an object, in the least slot that is free: in each of its records it is null, or false.
///
/// It is refused exactly as the verdict of the request says.
#[derive(Drop)]
pub struct AddField<'a> {
    pub new: &'a NewField,
}

impl Edit for AddField<'_> {
    type Answer = ();

    ghost verdict = { λ e a. add_field a.tenant e.new.now };

    ghost answered = { λ _. done };

    ghost planned = { λ e. FieldPlanned e.new.now };

    ghost fits = { λ e a. IsTrue (is_fit_field e.new.now) };

    ghost most = { 2 };

    ghost gone = { 0 };

    ghost shown = { 0 };

    fn judge<K: Keeper>(
        &self,
        alloc: Global,
        draft: &mut Draft<'_, K>,
        org: u32,
    ) -> Result<Decided<()>, EditFail> {
        call_laws::<K>();
        metadata_laws();
        slot_laws();
        objects_sound();
        let all = accepting_layouts(alloc, draft, org, self.new)?;
        let Some(layout) = layout_named(all.as_slice(), self.new.object.as_str()) else {
            // Without an object it is refused.
            return Err(EditFail::Store(StoreFail::Damaged));
        };
        let row = object_there(alloc, draft, org, layout.object)?;
        let rows = rows_of(alloc, all.as_slice(), layout, row, self.new)?;
        decided(alloc, &rows)
    }
}

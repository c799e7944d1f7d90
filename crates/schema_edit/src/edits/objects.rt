//! New objects.

ghost use Rattle.std.specs.Prelude.{◌++◌, ◌≡◌, ◌≢◌, IfErr, IfOk, IfSome, IsTrue, OnOk, length, map};
ghost use Rattle.store_edit.specs.Rows.{AreSpelled, spelled};
ghost use Rattle.store_rows.specs.declared.fail.StoreFail.TheVariants.{Keeper, Memory};
ghost use Rattle.store_rows.specs.Forms.{FitsForm};
ghost use Rattle.store_rows.specs.Rows.{field_form, org_form};
ghost use Rattle.schema_edit.specs.inner.NewRows.{FitRows, IsSpelledMaster, IsSpelledObject, changes_of, field_row_changes, first_field, master_row, rows_by};
ghost use Rattle.model.specs.Metadata.{add_object};
ghost use Rattle.model.specs.Verdict.{done};
ghost use Rattle.store_codec.specs.Plain.{FitsText};
ghost use Rattle.model_invariant.specs.Fit.{is_fit_object};
ghost use Rattle.store_abstraction.specs.Fails.{of_store};
ghost use Rattle.store_abstraction.specs.Records.{with_slot};

use crate::edits::accepting::accepting_layouts;
use crate::edits::access::spelled_access;
use crate::edits::copies::copy_of_text;
use crate::relations;
use base_value::FieldType;
use model::{NewMaster, NewObject};
use model_invariant::objects_sound;
use std::alloc::{AllocError, Global};
use store_abstraction::{EditFail, Layout, call_laws, metadata_laws, org_there, slot_laws};
use store_codec::FieldFlags;
use store_edit::{Decided, Edit, put_row};
use store_kv::{Change, Draft, Keeper};
use store_rows::{FieldRow, ObjectRow, OrgRow, StoreFail};

// The rows that a new object changes.
#[derive(Drop)]
struct NewRows {
    // The organisation's, with one object more.
    org: OrgRow,
    // That of a detail's Master field.
    field: Option<FieldRow>,
    object: ObjectRow,
}

// The row of a new detail's Master field, in slot 0.
fn master_row(
    alloc: Global,
    org: u32,
    object: u16,
    parent: u16,
    master: &NewMaster,
) -> Result<FieldRow, StoreFail>
    ensures same { IfOk result (λ row. row ≡ master_row org object parent master.now) }
    ensures fits { IfOk result (FitsForm field_form) }
    ensures damaged { FitsText master.now.field → FitsText master.now.child → IfErr result (λ e. e ≡ Memory) }
    ensures cause { IfErr result (λ e. e ≢ Keeper) }
{
    Ok(FieldRow {
        org,
        object,
        field: 0,
        name: copy_of_text(alloc, &master.field)?,
        kind: FieldType::Master { object: parent },
        flags: FieldFlags {
            required: true,
            unique: false,
            indexed: false,
        },
        slot: 0,
        child: Some(copy_of_text(alloc, &master.child)?),
    })
}

// The row of the first field of a new object, which has one if it is a detail.
fn first_field(
    alloc: Global,
    layouts: &[Layout],
    org: u32,
    object: u16,
    new: &NewObject,
) -> Result<Option<FieldRow>, StoreFail>
    ensures same { IfOk result (λ row. row ≡ first_field org object layouts.now new.now.master) }
    ensures fits { IfOk result (λ row. IfSome row (FitsForm field_form)) }
    ensures damaged { IfSome new.now.master (IsSpelledMaster layouts.now) → IfErr result (λ e. e ≡ Memory) }
    ensures cause { IfErr result (λ e. e ≢ Keeper) }
{
    let Some(master) = &new.master else {
        return Ok(None);
    };
    let Some(parent) = relations::layout_named(layouts, master.parent.as_str()) else {
        // A detail without a parent is refused.
        return Err(StoreFail::Damaged);
    };
    let row = master_row(alloc, org, object, parent.object, master)?;
    Ok(Some(row))
}

// The rows of a new object, which has the next number, by the row of its organisation.
fn rows_of(
    alloc: Global,
    layouts: &[Layout],
    org: OrgRow,
    new: &NewObject,
) -> Result<NewRows, StoreFail>
    requires { FitsForm org_form org }
    ensures same { IfOk result (λ rows. rows ≡ rows_by layouts.now org new.now) }
    ensures fits { IfOk result FitRows }
    ensures damaged { IsSpelledObject layouts.now new.now → IfErr result (λ e. e ≡ Memory) }
    ensures cause { IfErr result (λ e. e ≢ Keeper) }
{
    let Ok(count) = u16::try_from(layouts.len() + 1) else {
        // An organisation has at most 100 objects.
        return Err(StoreFail::Damaged);
    };
    let number = count - 1;
    let field = first_field(alloc, layouts, org.org, number, new)?;
    let object = ObjectRow {
        org: org.org,
        object: number,
        name: copy_of_text(alloc, &new.name)?,
        access: spelled_access(new.access, new.hierarchy),
        records: 0,
        fields: u8::from(field.is_some()),
        validation_rules: 0,
    };
    let mut org = org;
    org.objects = count;
    Ok(NewRows { org, field, object })
}

// One change more, which puts the row of a field, if there is one.
fn put_field(
    alloc: Global,
    changes: &mut Vec<Change>,
    field: &Option<FieldRow>,
) -> Result<(), AllocError>
    requires { IfSome field.now (FitsForm field_form) }
    ensures { OnOk result (changes.new.items ≡ changes.old.items ++ map spelled (field_row_changes field.now)) }
{
    match field {
        None => Ok(()),
        Some(field) => put_row(alloc, changes, field),
    }
}

// The edit, decided: it puts the rows of a new object.
fn decided(alloc: Global, rows: &NewRows) -> Result<Decided<()>, EditFail>
    requires { FitRows rows.now }
    ensures made { IfOk result (λ x. AreSpelled (changes_of rows.now) x.changes.items) }
    ensures cause { IfErr result (λ e. e ≡ of_store Memory) }
{
    let mut changes = Vec::new(alloc);
    put_row(alloc, &mut changes, &rows.org)?;
    put_field(alloc, &mut changes, &rows.field)?;
    put_row(alloc, &mut changes, &rows.object)?;
    Ok(Decided {
        answer: (),
        changes,
    })
}

/// Adds an object, which has the next number; a detail also has its Master field, in slot 0.
///
/// It is refused with the refusal of the first rule that refuses it, by its names, its parent, and the numbers of objects and
/// of levels of details.
#[derive(Drop)]
pub struct AddObject<'a> {
    pub new: &'a NewObject,
}

impl Edit for AddObject<'_> {
    type Answer = ();

    ghost verdict = { λ e a. add_object a.tenant e.new.now };

    ghost answered = { λ _. done };

    ghost planned = { λ e q t next. next ≡ with_slot (length t.objects) 0 0 q };

    ghost fits = { λ e a. IsTrue (is_fit_object e.new.now) };

    ghost most = { 3 };

    ghost gone = { 0 };

    ghost shown = { 0 };

    fn judge<K: Keeper>(
        &self,
        alloc: Global,
        draft: &mut Draft<'_, K>,
        org: u32,
    ) -> Result<Decided<()>, EditFail> {
        call_laws::<K>();
        metadata_laws();
        slot_laws();
        objects_sound();
        let all = accepting_layouts(alloc, draft, org, self.new)?;
        let row = org_there(alloc, draft, org)?;
        let rows = rows_of(alloc, all.as_slice(), row, self.new)?;
        decided(alloc, &rows)
    }
}

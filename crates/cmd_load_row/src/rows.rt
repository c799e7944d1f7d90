//! Rows, by a plan.

ghost use Rattle.std.specs.Prelude.{◌≡◌, ◌⊎◌, Err, IfOk, IsTrue, map, pos};
ghost use Rattle.std.specs.Option.{option_map};
ghost use Rattle.std.specs.Str.{all_scalars, chars};
ghost use Rattle.cmd_load_plan.specs.Rows.{given_row, row_request, upsert_row};
ghost use Rattle.store_edit.specs.Edits.{DraftsEdit};
ghost use Rattle.store_kv.specs.Draft.{DraftTells, tables_of};
ghost use Rattle.store_rows.specs.declared.fail.StoreFail.TheVariants.{Memory};
ghost use Rattle.cmd_load_row.specs.Loads.{load_shown, row_changes};
ghost use Rattle.cmd_load_row.specs.inner.Edits.{AsksBy, EditsRow, asked_for, text_is_spelled};
ghost use Rattle.cmd_load_row.specs.inner.Told.{JudgesBy, told_row};
ghost use Rattle.store_abstraction.specs.Fails.{is_judged};
ghost use Rattle.store_abstraction.specs.Operations.{Drafts};
ghost use Rattle.base_value.specs.Dates.{is_moment};

use crate::edits::edit_given;
use access_traits::Rights;
use base_value::{Bytes, Text};
use cmd_load_plan::{LoadColumn, LoadPlan, done_line, refused_line, row_values};
use model::Caller;
use record_save::Upserted;
use std::alloc::{AllocError, Global};
use store_abstraction::{EditFail, Judged, call_laws};
use store_kv::{Draft, Keeper};
use store_rows::StoreFail;

// The text of a cell.
fn cell_text(alloc: Global, cell: &str) -> Result<Text, AllocError>
    ensures same { IfOk result (λ text. text ≡ chars cell.now) }
    ensures spelled { IfOk result (λ text. IsTrue (all_scalars text)) }
{
    let text = Text::from_str(alloc, cell)?;
    Ok(text)
}

// Does what cells ask for, by their columns.
fn edit_cells<K: Keeper, R: Rights>(
    alloc: Global,
    draft: &mut Draft<'_, K>,
    rights: &R,
    caller: &Caller,
    now: u64,
    object: &Text,
    key: Option<&Text>,
    text: Option<Text>,
    columns: &[LoadColumn],
    cells: &[&str],
) -> Result<Upserted, EditFail>
    requires moment { IsTrue (is_moment (pos now)) }
    requires text { IsTrue (text_is_spelled text) }
    ensures what { DraftTells K.state draft.old draft.new
        → EditsRow caller.now.org (AsksBy (R.whose rights.now) caller.now now)
        (asked_for object.now (option_map (λ k. k.now) key.entry) text (given_row columns.now (map (λ c. c.now) cells.now)))
        (tables_of K.state draft.old) (tables_of K.state draft.new) result }
    ensures drafts { DraftsEdit K.state row_changes 0 load_shown result draft.old draft.new }
{
    call_laws::<K>();
    let given = row_values(alloc, columns, cells)?;
    edit_given(
        alloc,
        draft,
        rights,
        caller,
        now,
        object,
        key,
        text,
        given.as_slice(),
    )
}

// Does what a row asks for whose first cell is the value of a unique field.
fn edit_by_key<K: Keeper, R: Rights>(
    alloc: Global,
    draft: &mut Draft<'_, K>,
    rights: &R,
    caller: &Caller,
    now: u64,
    object: &Text,
    key: &Text,
    columns: &[LoadColumn],
    cells: &[&str],
) -> Result<Upserted, EditFail>
    requires { IsTrue (is_moment (pos now)) }
    ensures what { DraftTells K.state draft.old draft.new
        → EditsRow caller.now.org (AsksBy (R.whose rights.now) caller.now now)
        (upsert_row object.now key.now columns.now (map (λ c. c.now) cells.now)) (tables_of K.state draft.old)
        (tables_of K.state draft.new) result }
    ensures drafts { DraftsEdit K.state row_changes 0 load_shown result draft.old draft.new }
{
    call_laws::<K>();
    let Some((_, others)) = columns.split_first() else {
        return edit_cells(
            alloc,
            draft,
            rights,
            caller,
            now,
            object,
            Some(key),
            None,
            columns,
            cells,
        );
    };
    let Some((cell, rest)) = cells.split_first() else {
        return edit_cells(
            alloc,
            draft,
            rights,
            caller,
            now,
            object,
            Some(key),
            None,
            columns,
            cells,
        );
    };
    let text = cell_text(alloc, cell)?;
    edit_cells(
        alloc,
        draft,
        rights,
        caller,
        now,
        object,
        Some(key),
        Some(text),
        others,
        rest,
    )
}

// Does what a row asks for.
fn edit_row<K: Keeper, R: Rights>(
    alloc: Global,
    draft: &mut Draft<'_, K>,
    rights: &R,
    caller: &Caller,
    now: u64,
    plan: &LoadPlan,
    cells: &[&str],
) -> Result<Upserted, EditFail>
    requires { IsTrue (is_moment (pos now)) }
    ensures what { DraftTells K.state draft.old draft.new
        → EditsRow caller.now.org (AsksBy (R.whose rights.now) caller.now now) (row_request plan.now (map (λ c. c.now) cells.now))
        (tables_of K.state draft.old) (tables_of K.state draft.new) result }
    ensures drafts { DraftsEdit K.state row_changes 0 load_shown result draft.old draft.new }
{
    match &plan.key {
        None => edit_cells(
            alloc,
            draft,
            rights,
            caller,
            now,
            &plan.object,
            None,
            None,
            plan.columns.as_slice(),
            cells,
        ),
        Some(key) => edit_by_key(
            alloc,
            draft,
            rights,
            caller,
            now,
            &plan.object,
            key,
            plan.columns.as_slice(),
            cells,
        ),
    }
}

// What is told of a row: its line, which goes with a change if the row was done.
fn told_row(
    alloc: Global,
    number: u64,
    edited: Result<Upserted, EditFail>,
) -> Result<Judged<Bytes>, StoreFail>
    ensures { (result ≡ told_row number edited) ⊎ ((result ≡ Err Memory) × IsTrue (is_judged edited)) }
{
    match edited {
        Ok(Upserted { id, created }) => match done_line(alloc, number, &id, created) {
            Ok(line) => Ok(Judged::Changed(line)),
            Err(_) => Err(StoreFail::Memory),
        },
        Err(EditFail::Refused(refusal)) => match refused_line(alloc, number, &refusal) {
            Ok(line) => Ok(Judged::Same(line)),
            Err(_) => Err(StoreFail::Memory),
        },
        Err(EditFail::Store(fail)) => Err(fail),
    }
}

/// Does what a row asks for by these rights, and tells what became of it.
///
/// # Errors
///
/// As `load_row`.
pub(crate) fn row_done<K: Keeper, R: Rights>(
    alloc: Global,
    draft: &mut Draft<'_, K>,
    rights: &R,
    caller: &Caller,
    now: u64,
    plan: &LoadPlan,
    number: u64,
    cells: &[&str],
) -> Result<Judged<Bytes>, StoreFail>
    requires { IsTrue (is_moment (pos now)) }
    ensures what { DraftTells K.state draft.old draft.new
        → JudgesBy (R.whose rights.now) caller.now plan.now number (map (λ c. c.now) cells.now) now (tables_of K.state draft.old)
        (tables_of K.state draft.new) result }
    ensures drafts { Drafts K.state row_changes 0 load_shown result draft.old draft.new }
{
    let edited = edit_row(alloc, draft, rights, caller, now, plan, cells);
    told_row(alloc, number, edited)
}

//! Changes of rows.

ghost use Rattle.std.specs.Prelude.{◌≡◌, ◌<◌, ◌+◌, ◌++◌, ◌∷◌, [], None, OnOk, length, map};
ghost use Rattle.store_kv.specs.Draft.{DraftWorks, count_of, keeper_of, tables_of};
ghost use Rattle.store_kv.specs.Tables.{after};
ghost use Rattle.store_rows.specs.Forms.{FitsForm};
ghost use Rattle.store_codec.specs.Shapes.{FitsIn};
ghost use Rattle.store_edit.specs.Rows.{change_to, gone_of, spelled};

use std::alloc::{AllocError, Global};
use store_codec::{shape_laws, spelling_of};
use store_kv::{Change, Draft, Keeper, draft_laws};
use store_rows::RowForm;

/// One change more: the row of its key.
///
/// # Errors
///
/// If out of memory.
pub fn put_row<R: RowForm>(
    alloc: Global,
    changes: &mut Vec<Change>,
    row: &R,
) -> Result<(), AllocError>
    requires { FitsForm R.form row.now }
    ensures { OnOk result (changes.new.items ≡ changes.old.items ++ spelled (change_to R.form row.now) ∷ []) }
{
    let key = row.key(alloc)?;
    let row = row.write(alloc)?;
    changes.push(Change::Put {
        table: R::table(),
        key,
        row,
    })?;
    Ok(())
}

/// One change more: no row at a key.
///
/// # Errors
///
/// If out of memory.
pub fn remove_row<R: RowForm>(
    alloc: Global,
    changes: &mut Vec<Change>,
    key: &R::Key,
) -> Result<(), AllocError>
    requires { FitsIn R.form.key (R.parts key.now) }
    ensures { OnOk result (changes.new.items ≡ changes.old.items ++ spelled (R.form.named (R.parts key.now), None) ∷ []) }
{
    shape_laws();
    let key = spelling_of(alloc, key)?;
    changes.push(Change::Remove {
        table: R::table(),
        key,
    })?;
    Ok(())
}

// Makes one change.
fn make_change<K: Keeper>(
    alloc: Global,
    draft: &mut Draft<'_, K>,
    change: Change,
) -> Result<(), AllocError>
    ensures keeper { keeper_of draft.new ≡ keeper_of draft.old }
    ensures ok { OnOk result (tables_of K.state draft.new ≡ after (change ∷ []) (tables_of K.state draft.old)) }
    ensures some { OnOk result (0 < count_of draft.new) }
    ensures works { DraftWorks K.state 1 (gone_of (change ∷ [])) 0 draft.old draft.new }
{
    draft_laws::<K>();
    match change {
        Change::Put { table, key, row } => draft.put(alloc, table, key, row),
        Change::Remove { table, key } => draft.remove(alloc, table, key),
    }
}

/// Makes changes in a draft, in their order.
///
/// # Errors
///
/// If out of memory. Some of them may then be made.
pub fn make_changes<K: Keeper>(
    alloc: Global,
    draft: &mut Draft<'_, K>,
    changes: Vec<Change>,
) -> Result<(), AllocError>
    ensures keeper { keeper_of draft.new ≡ keeper_of draft.old }
    ensures ok { OnOk result (tables_of K.state draft.new ≡ after changes.items (tables_of K.state draft.old)) }
    ensures some { OnOk result (0 < length changes.items → 0 < count_of draft.new) }
    ensures works { DraftWorks K.state (length changes.items) (gone_of changes.items) 0 draft.old draft.new }
{
    draft_laws::<K>();
    for change in changes {
        make_change(alloc, draft, change)?;
    }
    Ok(())
}

//! What is done with rows, for all forms.

ghost use Rattle.std.specs.Prelude.{◌≡◌, ◌<◌, ℕ, Some, None, IfOk, IfErr, IfSome, OnOk, IsErrOf, is_ok, take, map as plain_map};
ghost use Rattle.std.specs.FinMap as map;
ghost use Rattle.std.specs.List.{AllByRecursion};
ghost use Rattle.store_kv.specs.Draft.{DraftReads, DraftTells, DraftWorks, count_of, removals_of, rise, state_of, tables_of};
ghost use Rattle.store_kv.specs.State.{KeeperCause, Quiet, StaysAfter, data_rows};
ghost use Rattle.store_rows.specs.declared.fail.StoreFail.TheVariants.{Keeper};
ghost use Rattle.store_rows.specs.Forms.{FitsForm, key_of, row_bytes};
ghost use Rattle.store_rows.specs.Keys.{spell};
ghost use Rattle.store_rows.specs.Reads.{ReadsAs};
ghost use Rattle.store_codec.specs.Shapes.{FitsIn};

use crate::fail::StoreFail;
use crate::form::RowForm;
use std::alloc::{AllocError, Global};
use store_codec::{shape_laws, spelling_of};
use store_kv::{Draft, Keeper};

/// The row of a key, if there is one.
///
/// # Errors
///
/// `Damaged` exactly if the row there isn't one of this form; `Keeper` if the keeper failed, `Memory` if out of memory.
pub fn row_at<R: RowForm + Drop, K: Keeper>(
    alloc: Global,
    draft: &mut Draft<'_, K>,
    key: &R::Key,
) -> Result<Option<R>, StoreFail>
    requires { FitsIn R.form.key (R.parts key.now) }
    ensures row { DraftTells K.state draft.old draft.new
        → ReadsAs R.form (R.parts key.now) (map.get (tables_of K.state draft.old) (spell (R.form.named (R.parts key.now)))) result }
    ensures fits { IfOk result (λ found. IfSome found (FitsForm R.form)) }
    ensures reads { DraftReads K.state (data_rows R.form.table 1) draft.old draft.new }
    ensures stays { StaysAfter (is_ok result) (state_of K.state draft.old) (state_of K.state draft.new) }
    ensures cause { KeeperCause (state_of K.state draft.old) (state_of K.state draft.new) (IsErrOf result Keeper) }
    ensures quiet { Quiet (state_of K.state draft.old) (state_of K.state draft.new) (IsErrOf result Keeper) }
{
    shape_laws();
    let key = spelling_of(alloc, key)?;
    match draft.get(alloc, R::table(), key.as_slice())? {
        None => Ok(None),
        Some(row) => Ok(Some(R::read(alloc, key.as_slice(), row.as_slice())?)),
    }
}

/// Sets the row of its key.
///
/// # Errors
///
/// If out of memory.
pub fn put<R: RowForm, K: Keeper>(
    alloc: Global,
    draft: &mut Draft<'_, K>,
    row: &R,
) -> Result<(), AllocError>
    requires { FitsForm R.form row.now }
    ensures ok { OnOk result (tables_of K.state draft.new
        ≡ map.insert (tables_of K.state draft.old) (spell (key_of R.form row.now)) (row_bytes R.form row.now)) }
    ensures some { OnOk result (0 < count_of draft.new) }
    ensures works { DraftWorks K.state 1 0 0 draft.old draft.new }
    ensures stays { StaysAfter (is_ok result) (state_of K.state draft.old) (state_of K.state draft.new) }
{
    let key = row.key(alloc)?;
    let bytes = row.write(alloc)?;
    draft.put(alloc, R::table(), key, bytes)
}

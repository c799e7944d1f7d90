//! Rows of one form in the order of their keys.

ghost use Rattle.std.specs.Prelude.{◌≡◌, ◌+◌, List, IfSome, IfOk, IsErrOf, is_ok, take, map as plain_map};
ghost use Rattle.std.specs.List.{AllByRecursion};
ghost use Rattle.std.specs.Option.{option_map};
ghost use Rattle.store_kv.specs.Draft.{DraftReads, DraftTells, removals_of, state_of, tables_of};
ghost use Rattle.store_kv.specs.Prefixes.{raised};
ghost use Rattle.store_kv.specs.State.{KeeperCause, Quiet, StaysAfter, data_rows, seen};
ghost use Rattle.store_rows.specs.declared.fail.StoreFail.TheVariants.{Keeper};
ghost use Rattle.store_rows.specs.Forms.{FitsForm, kept_as};
ghost use Rattle.store_rows.specs.Listings.{rows_to, start_of};
ghost use Rattle.store_rows.specs.Reads.{ListsAs};
ghost use Rattle.store_codec.specs.declared.fail.CodecFail.TheVariants.{Damaged};
ghost use Rattle.store_codec.specs.Shapes.{FitsIn, spelled};

use crate::fail::StoreFail;
use crate::form::RowForm;
use base_value::Bytes;
use std::alloc::{AllocError, Global};
use store_codec::{CodecFail, Part, spelling_of};
use store_kv::{Draft, Keeper, KeptRow, next_key, prefix_ends};

// The rows of what is kept.
fn read_rows<R: RowForm + Drop>(alloc: Global, kept: &[KeptRow]) -> Result<Vec<R>, CodecFail>
    ensures found { IfOk result (λ rows. (plain_map (kept_as R.form) rows.items ≡ kept.now) × AllByRecursion (FitsForm R.form) rows.items) }
    ensures damaged { IsErrOf result Damaged → (rows : List R) → AllByRecursion (FitsForm R.form) rows → plain_map (kept_as R.form) rows ≡ kept.now → ⊥ }
{
    let mut rows = Vec::new(alloc);
    for row in kept {
        let read = R::read(alloc, row.key.as_slice(), row.row.as_slice())?;
        rows.push(read)?;
    }
    Ok(rows)
}

// Where a walk under a prefix goes on: at the beginning, or above a key.
fn start<R: RowForm>(
    alloc: Global,
    prefix: Bytes,
    after: Option<&R::Key>,
) -> Result<Bytes, AllocError>
    requires { IfSome after (λ k. FitsIn R.form.key (R.parts k.now)) }
    ensures { IfOk result (λ b. b ≡ start_of prefix (option_map (λ k. spelled R.form.key (R.parts k.now)) after.entry)) }
{
    match after {
        None => Ok(prefix),
        Some(key) => next_key(alloc, spelling_of(alloc, key)?.as_slice()),
    }
}

/// At most `limit` rows whose keys begin with these parts, in the order of their keys: the first, or those after a key.
///
/// # Errors
///
/// `Damaged` exactly if one of them isn't of this form; `Keeper` if the keeper failed, `Memory` if out of memory.
pub fn page_under<R: RowForm + Drop, P: Part, K: Keeper>(
    alloc: Global,
    draft: &mut Draft<'_, K>,
    prefix: &P,
    after: Option<&R::Key>,
    limit: usize,
) -> Result<Vec<R>, StoreFail>
    requires fits { P.Fits prefix.now }
    requires after { IfSome after (λ k. FitsIn R.form.key (R.parts k.now)) }
    ensures rows { DraftTells K.state draft.old draft.new
        → ListsAs R.form (take limit (rows_to (tables_of K.state draft.old) R.form.table
        (start_of (P.spell prefix.now) (option_map (λ k. spelled R.form.key (R.parts k.now)) after.entry)) (raised (P.spell prefix.now)))) result }
    ensures reads { DraftReads K.state (data_rows R.form.table (seen limit result + removals_of K.state R.form.table draft.old)) draft.old draft.new }
    ensures stays { StaysAfter (is_ok result) (state_of K.state draft.old) (state_of K.state draft.new) }
    ensures cause { KeeperCause (state_of K.state draft.old) (state_of K.state draft.new) (IsErrOf result Keeper) }
    ensures quiet { Quiet (state_of K.state draft.old) (state_of K.state draft.new) (IsErrOf result Keeper) }
{
    let prefix = spelling_of(alloc, prefix)?;
    let Some((from, below)) = prefix_ends(alloc, prefix.as_slice())? else {
        return Ok(Vec::new(alloc));
    };
    let from = start::<R>(alloc, from, after)?;
    let kept = draft.scan(alloc, R::table(), from.as_slice(), below.as_slice(), limit)?;
    Ok(read_rows(alloc, kept.as_slice())?)
}

//! A row, loaded.

ghost use Rattle.std.specs.Prelude.{◌≡◌, IsTrue, map, pos};
ghost use Rattle.store_kv.specs.Draft.{DraftTells, tables_of};
ghost use Rattle.cmd_load_row.specs.Loads.{JudgesRow, load_shown, row_changes};
ghost use Rattle.store_abstraction.specs.Operations.{Drafts};
ghost use Rattle.base_value.specs.Dates.{is_moment};

use crate::rows::row_done;
use access_traits::Administrator;
use access_user::user_rights;
use base_value::Bytes;
use cmd_load_plan::LoadPlan;
use model::Caller;
use std::alloc::Global;
use store_abstraction::{Judged, call_laws};
use store_kv::{Draft, Keeper, draft_laws};
use store_rows::StoreFail;

/// Loads the row with this number, whose cells these are, as this caller at this moment, by this plan: the record that it makes or
/// changes, if nothing refuses it, and its line.
///
/// # Errors
///
/// `Keeper` if the keeper failed, `Damaged` never if the rows of the caller's organisation stand for a tenant of which the caller is a
/// user, `Memory` if out of memory; also if the plan finds a record by what is no unique field of a reference's object, or gives such a
/// reference twice, which no plan of a heading does.
pub fn load_row<K: Keeper>(
    alloc: Global,
    draft: &mut Draft<'_, K>,
    caller: &Caller,
    now: u64,
    plan: &LoadPlan,
    number: u64,
    cells: &[&str],
) -> Result<Judged<Bytes>, StoreFail>
    requires { IsTrue (is_moment (pos now)) }
    ensures what { DraftTells K.state draft.old draft.new
        → JudgesRow caller.now plan.now number (map (λ c. c.now) cells.now) now (tables_of K.state draft.old)
        (tables_of K.state draft.new) result }
    ensures drafts { Drafts K.state row_changes 0 load_shown result draft.old draft.new }
{
    draft_laws::<K>();
    call_laws::<K>();
    if caller.admin {
        return row_done(
            alloc,
            draft,
            &Administrator,
            caller,
            now,
            plan,
            number,
            cells,
        );
    }
    match user_rights(alloc, draft, caller.org, &caller.user) {
        Ok(rights) => row_done(alloc, draft, &rights, caller, now, plan, number, cells),
        Err(fail) => Err(fail),
    }
}

//! Queries of callers: what each may see is found first, and the layouts that the query needs.

ghost use Rattle.std.specs.Prelude.{◌≡◌, IfOk, Ok, Some, true};
ghost use Rattle.access_user.specs.Granting.{IsUserRights};
ghost use Rattle.store_kv.specs.Draft.{DraftTells, removals_of, tables_of};
ghost use Rattle.store_kv.specs.State.{data_table};
ghost use Rattle.model.specs.Paths.{Asked};
ghost use Rattle.query_run.specs.Callers.{IsCallerAt, IsObjectOf};
ghost use Rattle.query_run.specs.Forms.{IsAnswer};
ghost use Rattle.store_abstraction.specs.Calls.{Calls, ended};
ghost use Rattle.store_abstraction.specs.Layouts.{own_layouts};
ghost use Rattle.store_abstraction.specs.Local.{StandsIn};
ghost use Rattle.store_abstraction.specs.Plan.{OrgPlan};
ghost use Rattle.model.specs.Flat.{is_flat};
ghost use Rattle.model.specs.Shown.{further_to, shown_beside};

use crate::form::QueryForm;
use access_traits::Administrator;
use access_user::{Everyone, UserRights, all_may_read, sight_of, user_rights};
use model::{Caller, object_laws};
use query_check::is_flat;
use soql::Query;
use std::alloc::Global;
use store_abstraction::{Layout, call_laws, layout_named, layouts};
use store_kv::{Draft, Keeper, draft_laws};
use store_rows::StoreFail;

// Answers a user with these rights who asks for records of an object alone.
fn answer_own_user<K: Keeper, F: QueryForm>(
    alloc: Global,
    draft: &mut Draft<'_, K>,
    form: &F,
    rights: &UserRights,
    layout: &Layout,
    now: i64,
    query: &Query,
) -> Result<F::Answer, StoreFail>
    ensures what { DraftTells K.state draft.old draft.new
        → (p : OrgPlan) (a : Asked) → IsObjectOf layout.now query.now (tables_of K.state draft.old) p a
        → IsUserRights a.tenant a.user rights.now → a.now ≡ now → is_flat query.now ≡ true → IsAnswer (F.answer form.now a query.now) result }
    ensures form { IfOk result (F.formed form.now) }
    ensures calls { Calls K.state (shown_beside (further_to (Ok query.now)) (removals_of K.state data_table draft.old)) (ended result)
        draft.old draft.new }
{
    draft_laws::<K>();
    call_laws::<K>();
    object_laws();
    match sight_of(alloc, draft, rights, layout) {
        Ok(sight) => form.flat(alloc, draft, layout, &sight, now, query),
        Err(fail) => Err(fail),
    }
}

// Answers a caller who asks for records of an object alone, by what the caller sees of them. People and rules are read only where
// they matter.
fn answer_own<K: Keeper, F: QueryForm>(
    alloc: Global,
    draft: &mut Draft<'_, K>,
    form: &F,
    caller: &Caller,
    layout: &Layout,
    now: i64,
    query: &Query,
) -> Result<F::Answer, StoreFail>
    ensures what { DraftTells K.state draft.old draft.new
        → (p : OrgPlan) (a : Asked) → IsObjectOf layout.now query.now (tables_of K.state draft.old) p a
        → IsCallerAt caller.now now a → is_flat query.now ≡ true → IsAnswer (F.answer form.now a query.now) result }
    ensures form { IfOk result (F.formed form.now) }
    ensures calls { Calls K.state (shown_beside (further_to (Ok query.now)) (removals_of K.state data_table draft.old)) (ended result)
        draft.old draft.new }
{
    draft_laws::<K>();
    call_laws::<K>();
    if caller.admin {
        return form.flat(alloc, draft, layout, &Administrator, now, query);
    }
    if all_may_read(layout) {
        return form.flat(alloc, draft, layout, &Everyone, now, query);
    }
    match user_rights(alloc, draft, layout.org, &caller.user) {
        Ok(rights) => answer_own_user(alloc, draft, form, &rights, layout, now, query),
        Err(fail) => Err(fail),
    }
}

// Answers a user with these rights who asks for records of an object, and for those to which they are related.
fn answer_user<K: Keeper, F: QueryForm>(
    alloc: Global,
    draft: &mut Draft<'_, K>,
    form: &F,
    rights: &UserRights,
    layouts: &[Layout],
    layout: &Layout,
    now: i64,
    query: &Query,
) -> Result<F::Answer, StoreFail>
    ensures what { DraftTells K.state draft.old draft.new
        → (p : OrgPlan) (a : Asked) → IsObjectOf layout.now query.now (tables_of K.state draft.old) p a
        → layouts.now ≡ own_layouts layout.now.org p (Some a.tenant)
        → IsUserRights a.tenant a.user rights.now → a.now ≡ now → IsAnswer (F.answer form.now a query.now) result }
    ensures form { IfOk result (F.formed form.now) }
    ensures calls { Calls K.state (shown_beside (further_to (Ok query.now)) (removals_of K.state data_table draft.old)) (ended result)
        draft.old draft.new }
{
    draft_laws::<K>();
    call_laws::<K>();
    object_laws();
    match sight_of(alloc, draft, rights, layout) {
        Ok(sight) => form.related(alloc, draft, layouts, layout, &sight, rights, now, query),
        Err(fail) => Err(fail),
    }
}

// Answers a caller who asks for records of an object, and for those to which they are related, by what the caller sees of them.
fn answer_over<K: Keeper, F: QueryForm>(
    alloc: Global,
    draft: &mut Draft<'_, K>,
    form: &F,
    caller: &Caller,
    layouts: &[Layout],
    layout: &Layout,
    now: i64,
    query: &Query,
) -> Result<F::Answer, StoreFail>
    ensures what { DraftTells K.state draft.old draft.new
        → (p : OrgPlan) (a : Asked) → IsObjectOf layout.now query.now (tables_of K.state draft.old) p a
        → layouts.now ≡ own_layouts layout.now.org p (Some a.tenant)
        → IsCallerAt caller.now now a → IsAnswer (F.answer form.now a query.now) result }
    ensures form { IfOk result (F.formed form.now) }
    ensures calls { Calls K.state (shown_beside (further_to (Ok query.now)) (removals_of K.state data_table draft.old)) (ended result)
        draft.old draft.new }
{
    draft_laws::<K>();
    call_laws::<K>();
    if caller.admin {
        return form.related(
            alloc,
            draft,
            layouts,
            layout,
            &Administrator,
            &Administrator,
            now,
            query,
        );
    }
    match user_rights(alloc, draft, layout.org, &caller.user) {
        Ok(rights) => answer_user(alloc, draft, form, &rights, layouts, layout, now, query),
        Err(fail) => Err(fail),
    }
}

// Answers a caller who asks for records of an object. The layouts of the others are read only where the query goes to them.
fn answer_object<K: Keeper, F: QueryForm>(
    alloc: Global,
    draft: &mut Draft<'_, K>,
    form: &F,
    caller: &Caller,
    layout: &Layout,
    now: i64,
    query: &Query,
) -> Result<F::Answer, StoreFail>
    ensures what { DraftTells K.state draft.old draft.new
        → (p : OrgPlan) (a : Asked) → IsObjectOf layout.now query.now (tables_of K.state draft.old) p a
        → IsCallerAt caller.now now a → IsAnswer (F.answer form.now a query.now) result }
    ensures form { IfOk result (F.formed form.now) }
    ensures calls { Calls K.state (shown_beside (further_to (Ok query.now)) (removals_of K.state data_table draft.old)) (ended result)
        draft.old draft.new }
{
    draft_laws::<K>();
    call_laws::<K>();
    if is_flat(query) {
        return answer_own(alloc, draft, form, caller, layout, now, query);
    }
    match layouts(alloc, draft, layout.org) {
        Ok(layouts) => answer_over(
            alloc,
            draft,
            form,
            caller,
            layouts.as_slice(),
            layout,
            now,
            query,
        ),
        Err(fail) => Err(fail),
    }
}

/// Answers a caller's query at this moment, in seconds from 1970-01-01T00:00:00Z. Nothing is changed.
///
/// # Errors
///
/// `Keeper` if the keeper failed, `Memory` if out of memory, `Damaged` never if the rows of the caller's organisation stand for a
/// tenant.
pub fn answer_named<K: Keeper, F: QueryForm>(
    alloc: Global,
    draft: &mut Draft<'_, K>,
    form: &F,
    caller: &Caller,
    now: i64,
    query: &Query,
) -> Result<F::Answer, StoreFail>
    ensures what { DraftTells K.state draft.old draft.new
        → (p : OrgPlan) (a : Asked) → StandsIn caller.now.org p (tables_of K.state draft.old) (Some a.tenant) → IsCallerAt caller.now now a
        → IsAnswer (F.answer form.now a query.now) result }
    ensures form { IfOk result (F.formed form.now) }
    ensures calls { Calls K.state (shown_beside (further_to (Ok query.now)) (removals_of K.state data_table draft.old)) (ended result)
        draft.old draft.new }
{
    draft_laws::<K>();
    call_laws::<K>();
    object_laws();
    match layout_named(alloc, draft, caller.org, query.tail.from.as_str()) {
        Ok(Some(layout)) => answer_object(alloc, draft, form, caller, &layout, now, query),
        Ok(None) => form.without_object(alloc, query),
        Err(fail) => Err(fail),
    }
}

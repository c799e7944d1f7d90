//! The object into which a text is loaded.

ghost use Rattle.std.specs.Prelude.{◌≡◌, IfOk, Some};
ghost use Rattle.std.specs.Str.{chars};
ghost use Rattle.store_kv.specs.Draft.{DraftTells, tables_of};
ghost use Rattle.model.specs.Callers.{named_by};
ghost use Rattle.model.specs.declared.refusal.Refusal.TheVariants.{InvalidType};
ghost use Rattle.model.specs.Tenant.{Tenant};
ghost use Rattle.store_abstraction.specs.Calls.{Calls, ended};
ghost use Rattle.store_abstraction.specs.Local.{StandsIn};
ghost use Rattle.store_abstraction.specs.Plan.{OrgPlan};
ghost use Rattle.cmd_load.specs.Targets.{FindsTargetFor};
ghost use Rattle.cmd_load.specs.inner.Owned.{FindsBehind, FindsOwned};

use base_value::{Items, Text};
use model::{Refusal, object_laws};
use people_edit::caller_named;
use std::alloc::{AllocError, Global};
use store_abstraction::{Layout, call_laws, layout_named, layouts};
use store_kv::{Draft, Keeper, draft_laws};
use store_rows::StoreFail;

/// The object into which a text is loaded.
#[derive(Debug, Drop)]
pub struct Target {
    /// The layouts of all objects of its organisation.
    pub layouts: Items<Layout>,
    /// Its own.
    pub layout: Layout,
}

// That there is no such object.
fn no_object(alloc: Global, object: &str) -> Result<Refusal, AllocError>
    ensures { IfOk result (λ r. r ≡ InvalidType (chars object.now)) }
{
    let name = Text::from_str(alloc, object)?;
    Ok(Refusal::InvalidType { name })
}

// The object whose layout was found, with those of all objects.
fn target_with<K: Keeper>(
    alloc: Global,
    draft: &mut Draft<'_, K>,
    org: u32,
    layout: Layout,
) -> Result<Result<Target, Refusal>, StoreFail>
    ensures finds { DraftTells K.state draft.old draft.new → FindsBehind org layout (tables_of K.state draft.old) result }
    ensures calls { Calls K.state 0 (ended result) draft.old draft.new }
{
    draft_laws::<K>();
    call_laws::<K>();
    match layouts(alloc, draft, org) {
        Ok(layouts) => Ok(Ok(Target { layouts, layout })),
        Err(fail) => Err(fail),
    }
}

// The object with this name.
fn target_named<K: Keeper>(
    alloc: Global,
    draft: &mut Draft<'_, K>,
    org: u32,
    object: &str,
) -> Result<Result<Target, Refusal>, StoreFail>
    ensures finds { DraftTells K.state draft.old draft.new → (q : OrgPlan) (t : Tenant)
        → StandsIn org q (tables_of K.state draft.old) (Some t) → FindsOwned t object.now result }
    ensures calls { Calls K.state 0 (ended result) draft.old draft.new }
{
    draft_laws::<K>();
    call_laws::<K>();
    object_laws();
    match layout_named(alloc, draft, org, object) {
        Ok(Some(layout)) => target_with(alloc, draft, org, layout),
        Ok(None) => Ok(Err(no_object(alloc, object)?)),
        Err(fail) => Err(fail),
    }
}

/// The object with this name, of the organisation with this id, if the user with this id is one of it whose secret it is.
///
/// # Errors
///
/// `Keeper` if the keeper failed, `Memory` if out of memory, `Damaged` never if the rows of the organisation stand for a tenant or for
/// none.
pub fn find_target<K: Keeper>(
    alloc: Global,
    draft: &mut Draft<'_, K>,
    org: &str,
    user: &str,
    secret: &str,
    object: &str,
) -> Result<Result<Target, Refusal>, StoreFail>
    ensures finds { DraftTells K.state draft.old draft.new
        → FindsTargetFor (named_by org.now user.now secret.now) object.now (tables_of K.state draft.old) result }
    ensures calls { Calls K.state 0 (ended result) draft.old draft.new }
{
    draft_laws::<K>();
    call_laws::<K>();
    match caller_named(alloc, draft, org, user, secret) {
        Ok(Some(caller)) => target_named(alloc, draft, caller.org, object),
        Ok(None) => Ok(Err(Refusal::InvalidSession)),
        Err(fail) => Err(fail),
    }
}

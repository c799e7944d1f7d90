//! Whether there is what a principal names.

ghost use Rattle.std.specs.Prelude.{false};
ghost use Rattle.store_kv.specs.Draft.{DraftTells, tables_of};
ghost use Rattle.model.specs.Cases.{in_case};
ghost use Rattle.model.specs.Principals.{is_there};
ghost use Rattle.store_abstraction.specs.Calls.{Calls, ended};
ghost use Rattle.store_abstraction.specs.Local.{FindsIn};

use base_value::Principal;
use people_rows::{group, role};
use std::alloc::Global;
use store_abstraction::{call_laws, user};
use store_kv::{Draft, Keeper};
use store_rows::StoreFail;

/// Whether a principal names a thing of its kind: a user, a role or a group of the organisation.
///
/// # Errors
///
/// `Keeper` if the keeper failed, `Memory` if out of memory, `Damaged` never if the organisation's rows stand for a tenant or
/// for none.
pub(crate) fn principal_there<K: Keeper>(
    alloc: Global,
    draft: &mut Draft<'_, K>,
    org: u32,
    principal: &Principal,
) -> Result<bool, StoreFail>
    ensures finds { DraftTells K.state draft.old draft.new
        → FindsIn org (λ q t. in_case t false (λ u. is_there u principal.now)) (tables_of K.state draft.old) result }
    ensures calls { Calls K.state 0 (ended result) draft.old draft.new }
{
    call_laws::<K>();
    match principal {
        Principal::User(id) => Ok(user(alloc, draft, org, id)?.is_some()),
        Principal::Role(id) | Principal::Subordinates(id) => {
            Ok(role(alloc, draft, org, id)?.is_some())
        }
        Principal::Group(id) => Ok(group(alloc, draft, org, id)?.is_some()),
    }
}

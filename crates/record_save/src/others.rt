//! The rules of an edit that look for other records, and the object's own.

ghost use Rattle.std.specs.Prelude.{◌≡◌, ◌+◌, ◌*◌, IfOk, IsTrue, length};
ghost use Rattle.std.specs.Option.{option_map};
ghost use Rattle.record_read.specs.Decoding.{has_types, kinds_in};
ghost use Rattle.store_kv.specs.Draft.{DraftTells, tables_of};
ghost use Rattle.model.specs.Rules.{first_refusal};
ghost use Rattle.model.specs.SoundRecords.{all_valid};
ghost use Rattle.record_constraints.specs.Judged.{FindsRule};
ghost use Rattle.record_save.specs.inner.Judged.{master_rules, others_rules, own_rules};
ghost use Rattle.access_traits.specs.Rights.{level_shown};
ghost use Rattle.store_abstraction.specs.Calls.{Calls, ended};

use crate::levels::refused_by_master;
use access_traits::Rights;
use model::{Record, Refusal};
use record_constraints::{bad_target, duplicate};
use schema_rules::failed_rule;
use std::alloc::Global;
use store_abstraction::{Layout, call_laws};
use store_kv::{Draft, Keeper, draft_laws};
use store_rows::StoreFail;

/// The refusal of the first of the object's own rules, which are told what the record was unless it is new, and of those on unique
/// values.
///
/// # Errors
///
/// `Keeper` if the keeper failed, `Memory` if out of memory, `Damaged` never if the organisation's rows stand for a tenant whose
/// layout it is and of whose user the rights are.
pub(crate) fn refused_by_own<K: Keeper, R: Rights>(
    alloc: Global,
    draft: &mut Draft<'_, K>,
    rights: &R,
    layout: &Layout,
    old: Option<&Record>,
    new: &Record,
) -> Result<Option<Refusal>, StoreFail>
    requires types { IsTrue (has_types layout.now) }
    requires values { IsTrue (all_valid (kinds_in layout.now.fields) new.now.values) }
    ensures finds { DraftTells K.state draft.old draft.new
        → FindsRule layout.now (R.whose rights.now)
        (λ a. first_refusal (own_rules layout.now (option_map (λ r. r.now) old.entry) new.now a)) (tables_of K.state draft.old) result }
    ensures calls { Calls K.state level_shown (ended result) draft.old draft.new }
{
    draft_laws::<K>();
    call_laws::<K>();
    match failed_rule(alloc, draft, layout, new, old) {
        Ok(None) => duplicate(alloc, draft, rights, layout, new),
        Ok(Some(refusal)) => Ok(Some(refusal)),
        Err(fail) => Err(fail),
    }
}

// The same of a new record, behind the refusal by its master.
fn refused_by_rights<K: Keeper, R: Rights>(
    alloc: Global,
    draft: &mut Draft<'_, K>,
    rights: &R,
    layout: &Layout,
    new: &Record,
) -> Result<Option<Refusal>, StoreFail>
    requires types { IsTrue (has_types layout.now) }
    requires values { IsTrue (all_valid (kinds_in layout.now.fields) new.now.values) }
    ensures finds { DraftTells K.state draft.old draft.new
        → FindsRule layout.now (R.whose rights.now) (λ a. first_refusal (master_rules layout.now new.now a))
        (tables_of K.state draft.old) result }
    ensures calls { Calls K.state 8 (ended result) draft.old draft.new }
{
    draft_laws::<K>();
    call_laws::<K>();
    match refused_by_master(alloc, draft, rights, layout, new) {
        Ok(None) => refused_by_own(alloc, draft, rights, layout, None, new),
        Ok(Some(refusal)) => Ok(Some(refusal)),
        Err(fail) => Err(fail),
    }
}

/// The refusal of the first of these rules that refuses a new record: that it refers to what isn't there or can't be read, that its
/// master can't be edited, that it fails one of the object's validation rules, that another record has one of its unique values.
///
/// # Errors
///
/// `Keeper` if the keeper failed, `Memory` if out of memory, `Damaged` never if the organisation's rows stand for a tenant whose
/// layout it is and of whose user the rights are.
pub(crate) fn refused_by_others<K: Keeper, R: Rights>(
    alloc: Global,
    draft: &mut Draft<'_, K>,
    rights: &R,
    layout: &Layout,
    old: &Record,
    new: &Record,
) -> Result<Option<Refusal>, StoreFail>
    requires types { IsTrue (has_types layout.now) }
    requires values { IsTrue (all_valid (kinds_in layout.now.fields) new.now.values) }
    ensures finds { DraftTells K.state draft.old draft.new
        → FindsRule layout.now (R.whose rights.now) (λ a. first_refusal (others_rules layout.now old.now new.now a))
        (tables_of K.state draft.old) result }
    ensures calls { Calls K.state (level_shown * length layout.now.fields + 8) (ended result) draft.old draft.new }
{
    draft_laws::<K>();
    call_laws::<K>();
    match bad_target(alloc, draft, rights, layout, old, new) {
        Ok(None) => refused_by_rights(alloc, draft, rights, layout, new),
        Ok(Some(refusal)) => Ok(Some(refusal)),
        Err(fail) => Err(fail),
    }
}

//! The rules of an update that look for other records, at what the record was, and the object's own.

ghost use Rattle.std.specs.Prelude.{◌≡◌, ◌+◌, ◌*◌, IfOk, IsTrue, Some, length};
ghost use Rattle.record_read.specs.Decoding.{has_types, kinds_in};
ghost use Rattle.store_kv.specs.Draft.{DraftTells, tables_of};
ghost use Rattle.model.specs.Rules.{first_refusal};
ghost use Rattle.model.specs.SoundRecords.{all_valid};
ghost use Rattle.record_constraints.specs.Judged.{FindsRule};
ghost use Rattle.record_index.specs.Turned.{converts};
ghost use Rattle.record_save.specs.inner.Altered.{altered_rules, kept_rules};
ghost use Rattle.access_traits.specs.Rights.{level_shown};
ghost use Rattle.store_abstraction.specs.Calls.{Calls, ended};

use crate::others::refused_by_own;
use crate::staying::refused_by_old;
use access_traits::Rights;
use model::{Record, Refusal};
use record_constraints::bad_target;
use std::alloc::Global;
use store_abstraction::{Layout, call_laws};
use store_kv::{Draft, Keeper, draft_laws};
use store_rows::StoreFail;

// The refusal of the first of these rules: on what the record keeps, the object's own, on unique values.
fn refused_by_kept<K: Keeper, R: Rights>(
    alloc: Global,
    draft: &mut Draft<'_, K>,
    rights: &R,
    layout: &Layout,
    old: &Record,
    new: &Record,
) -> Result<Option<Refusal>, StoreFail>
    requires types { IsTrue (has_types layout.now) }
    requires converts { IsTrue (converts layout.now) }
    requires values { IsTrue (all_valid (kinds_in layout.now.fields) new.now.values) }
    ensures finds { DraftTells K.state draft.old draft.new
        → FindsRule layout.now (R.whose rights.now) (λ a. first_refusal (kept_rules layout.now old.now new.now a))
        (tables_of K.state draft.old) result }
    ensures calls { Calls K.state level_shown (ended result) draft.old draft.new }
{
    call_laws::<K>();
    match refused_by_old(alloc, layout, old, new) {
        Ok(None) => refused_by_own(alloc, draft, rights, layout, Some(old), new),
        Ok(Some(refusal)) => Ok(Some(refusal)),
        Err(fail) => Err(fail),
    }
}

/// The refusal of the first of these rules that refuses a record's other values: that it refers to what isn't there or can't be
/// read, that its master changes, that a value doesn't convert though a change of its field's type has come to the record, that it fails one of the object's
/// validation rules, that another record has one of its unique values.
///
/// # Errors
///
/// `Keeper` if the keeper failed, `Memory` if out of memory, `Damaged` never if the organisation's rows stand for a tenant whose
/// layout it is and of whose user the rights are.
pub(crate) fn refused_altered<K: Keeper, R: Rights>(
    alloc: Global,
    draft: &mut Draft<'_, K>,
    rights: &R,
    layout: &Layout,
    old: &Record,
    new: &Record,
) -> Result<Option<Refusal>, StoreFail>
    requires types { IsTrue (has_types layout.now) }
    requires converts { IsTrue (converts layout.now) }
    requires values { IsTrue (all_valid (kinds_in layout.now.fields) new.now.values) }
    ensures finds { DraftTells K.state draft.old draft.new
        → FindsRule layout.now (R.whose rights.now) (λ a. first_refusal (altered_rules layout.now old.now new.now a))
        (tables_of K.state draft.old) result }
    ensures calls { Calls K.state (level_shown * length layout.now.fields + level_shown) (ended result) draft.old draft.new }
{
    draft_laws::<K>();
    call_laws::<K>();
    match bad_target(alloc, draft, rights, layout, old, new) {
        Ok(None) => refused_by_kept(alloc, draft, rights, layout, old, new),
        Ok(Some(refusal)) => Ok(Some(refusal)),
        Err(fail) => Err(fail),
    }
}

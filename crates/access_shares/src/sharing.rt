//! A record is shared with a principal.

ghost use Rattle.std.specs.Prelude.{◌≡◌, IfErr, IfOk, IsTrue, Some};
ghost use Rattle.store_kv.specs.Draft.{DraftTells, tables_of};
ghost use Rattle.model.specs.Paths.{Asked};
ghost use Rattle.model.specs.Shares.{share};
ghost use Rattle.model.specs.SoundSharing.{is_grant};
ghost use Rattle.model.specs.Verdict.{done};
ghost use Rattle.store_codec.specs.Composed.{FitsPrincipal};
ghost use Rattle.access_traits.specs.Rights.{level_shown};
ghost use Rattle.access_shares.specs.inner.Accepting.{AcceptsShare, FitsShareRow};
ghost use Rattle.model_invariant.specs.Fit.{is_fit_share};
ghost use Rattle.store_abstraction.specs.Calls.{Calls, ended_edit};
ghost use Rattle.store_abstraction.specs.Local.{StandsIn};
ghost use Rattle.store_abstraction.specs.Plan.{OrgPlan};
ghost use Rattle.base_value.specs.Id.{is_id};

use crate::among::check_count;
use crate::principals::find_principal;
use crate::shareable::find_shareable;
use crate::texts::{check_texts, item_of};
use access_traits::Rights;
use base_value::{Level, id_laws, principal_laws};
use model::NewShare;
use model_invariant::sharing_sound;
use std::alloc::Global;
use store_abstraction::{EditFail, call_laws};
use store_edit::{Decided, Edit, one_row};
use store_kv::{Draft, Keeper, draft_laws};
use store_rows::{ShareRow, StoreFail};

/// Shares a record with a principal, by these rights of who asks. A share of the record with the principal is replaced.
///
/// It is refused with the refusal of the first rule that refuses it: by the texts of ids, if there is no such record or they can't
/// read it, if it is a detail, by their level on it, if the principal isn't there, and by how many shares the record has.
#[derive(Drop)]
pub struct Share<'a, R> {
    pub rights: &'a R,
    pub new: &'a NewShare,
}

// Whether a share may give this level.
fn is_grant(level: Level) -> bool
    ensures { result ≡ is_grant level }
{
    match level {
        Level::Read | Level::Edit => true,
        Level::Nothing | Level::Full => false,
    }
}

// The row of the share, unless a rule refuses it. Of a level that no share gives there is none.
fn accept_share<K: Keeper, R: Rights>(
    alloc: Global,
    draft: &mut Draft<'_, K>,
    rights: &R,
    org: u32,
    new: &NewShare,
) -> Result<ShareRow, EditFail>
    ensures accepts { DraftTells K.state draft.old draft.new
        → (q : OrgPlan) (a : Asked) → StandsIn org q (tables_of K.state draft.old) (Some a.tenant)
        → R.whose rights.now a.tenant a.user → IsTrue (is_fit_share new.now) → AcceptsShare org a new.now result }
    ensures fits { IfOk result (FitsShareRow org) }
    ensures calls { Calls K.state level_shown (ended_edit result) draft.old draft.new }
{
    draft_laws::<K>();
    call_laws::<K>();
    id_laws();
    if !is_grant(new.level) {
        return Err(EditFail::Store(StoreFail::Damaged));
    }
    check_texts(alloc, new)?;
    let id = item_of(&new.item)?;
    find_shareable(alloc, draft, rights, org, &id)?;
    let to = find_principal(alloc, draft, org, &new.to)?;
    check_count(alloc, draft, org, &id, &to)?;
    Ok(ShareRow {
        org,
        id,
        to,
        level: new.level,
    })
}

impl<R: Rights> Edit for Share<'_, R> {
    type Answer = ();

    ghost verdict = { λ e a. share a e.new.now };

    ghost answered = { λ _. done };

    ghost planned = { λ e q t next. next ≡ q };

    ghost fits = { λ e a. R.whose e.rights.now a.tenant a.user × IsTrue (is_fit_share e.new.now) };

    ghost most = { 1 };

    ghost gone = { 0 };

    ghost shown = { 4 };

    fn judge<K: Keeper>(
        &self,
        alloc: Global,
        draft: &mut Draft<'_, K>,
        org: u32,
    ) -> Result<Decided<()>, EditFail> {
        call_laws::<K>();
        sharing_sound();
        principal_laws();
        let row = accept_share(alloc, draft, self.rights, org, self.new)?;
        one_row(alloc, (), &row)
    }
}

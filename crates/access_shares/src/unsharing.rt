//! A share of a record ends.

ghost use Rattle.std.specs.Prelude.{◌≡◌, ◌∷◌, [], IfErr, IfOk, None, Some};
ghost use Rattle.std.specs.Option.{option_copied};
ghost use Rattle.store_edit.specs.Rows.{AreSpelled};
ghost use Rattle.store_kv.specs.Draft.{DraftTells, tables_of};
ghost use Rattle.store_rows.specs.declared.fail.StoreFail.TheVariants.{Memory};
ghost use Rattle.store_rows.specs.Keys.{Share as ShareKey};
ghost use Rattle.model.specs.Paths.{Asked};
ghost use Rattle.model.specs.Shares.{unshare};
ghost use Rattle.model.specs.Verdict.{done};
ghost use Rattle.access_traits.specs.Rights.{level_shown};
ghost use Rattle.access_shares.specs.inner.Accepting.{AcceptsEnd, FitsNamedShare, NamesShare};
ghost use Rattle.store_abstraction.specs.Calls.{Calls, ended_edit, fell};
ghost use Rattle.store_abstraction.specs.Fails.{of_store};
ghost use Rattle.store_abstraction.specs.Local.{StandsIn};
ghost use Rattle.store_abstraction.specs.Plan.{OrgPlan};

use crate::among::find_share;
use crate::shareable::find_shareable;
use crate::texts::{id_of, principal_of};
use access_traits::Rights;
use base_value::{Id, Principal, Text, principal_laws};
use model::{Refusal, Spelled};
use model_invariant::sharing_sound;
use std::alloc::Global;
use store_abstraction::{EditFail, call_laws};
use store_edit::{Decided, Edit, remove_row};
use store_kv::{Draft, Keeper, draft_laws};
use store_rows::{Mark, ShareRow};

/// Ends the share of a record with a principal, by these rights of who asks.
///
/// It is refused with the refusal of the first rule that refuses it: by the texts of ids, if there is no such record or they can't
/// read it, if it is a detail, by their level on it, and if it isn't shared with the principal.
#[derive(Drop)]
pub struct Unshare<'a, R> {
    pub rights: &'a R,
    /// The text of the record's id.
    pub item: &'a Text,
    /// The part of the path that spells the principal.
    pub part: &'a Text,
    /// The principal that it spells, if it has the form of one.
    pub to: Option<&'a Spelled>,
}

/// A share by its record and its principal.
#[derive(Drop)]
pub(crate) struct NamedShare {
    pub item: Id,
    pub to: Principal,
}

// The share that the parts of a path name.
fn named_share(
    alloc: Global,
    item: &Text,
    part: &Text,
    to: Option<&Spelled>,
) -> Result<NamedShare, EditFail>
    ensures names { NamesShare item.now part.now (option_copied to.entry) result }
    ensures fits { IfOk result FitsNamedShare }
    ensures cause { ended_edit result ≡ fell → ⊥ }
{
    let item = id_of(alloc, item)?;
    match to {
        None => Err(EditFail::Refused(Refusal::MalformedId {
            text: part.copy(alloc)?,
        })),
        Some(to) => Ok(NamedShare {
            item,
            to: principal_of(alloc, to)?,
        }),
    }
}

// The share that is to end, unless a rule refuses.
fn accept_end<K: Keeper, R: Rights>(
    alloc: Global,
    draft: &mut Draft<'_, K>,
    rights: &R,
    org: u32,
    named: &NamedShare,
) -> Result<(), EditFail>
    ensures accepts { DraftTells K.state draft.old draft.new
        → (q : OrgPlan) (a : Asked) → StandsIn org q (tables_of K.state draft.old) (Some a.tenant)
        → R.whose rights.now a.tenant a.user → AcceptsEnd a named.now result }
    ensures calls { Calls K.state level_shown (ended_edit result) draft.old draft.new }
{
    draft_laws::<K>();
    call_laws::<K>();
    find_shareable(alloc, draft, rights, org, &named.item)?;
    find_share(alloc, draft, org, &named.item, &named.to)
}

// The edit, decided: it removes the row of the share.
fn no_row(alloc: Global, org: u32, named: &NamedShare) -> Result<Decided<()>, EditFail>
    requires { FitsNamedShare named.now }
    ensures made { IfOk result (λ x. AreSpelled ((ShareKey org named.now.item named.now.to, None) ∷ []) x.changes.items) }
    ensures cause { IfErr result (λ e. e ≡ of_store Memory) }
{
    let mut changes = Vec::new(alloc);
    remove_row::<ShareRow>(
        alloc,
        &mut changes,
        &(org, (Mark::<0>, (named.item, named.to))),
    )?;
    Ok(Decided {
        answer: (),
        changes,
    })
}

impl<R: Rights> Edit for Unshare<'_, R> {
    type Answer = ();

    ghost verdict = { λ e a. unshare a e.item.now e.part.now (option_copied e.to) };

    ghost answered = { λ _. done };

    ghost planned = { λ e q t next. next ≡ q };

    ghost fits = { λ e a. R.whose e.rights.now a.tenant a.user };

    ghost most = { 1 };

    ghost gone = { 0 };

    ghost shown = { 4 };

    fn judge<K: Keeper>(
        &self,
        alloc: Global,
        draft: &mut Draft<'_, K>,
        org: u32,
    ) -> Result<Decided<()>, EditFail> {
        call_laws::<K>();
        sharing_sound();
        principal_laws();
        let named = named_share(alloc, self.item, self.part, self.to)?;
        accept_end(alloc, draft, self.rights, org, &named)?;
        no_row(alloc, org, &named)
    }
}

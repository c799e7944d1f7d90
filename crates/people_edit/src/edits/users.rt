//! New users, and changes of old ones.

ghost use Rattle.std.specs.Prelude.{◌≡◌, IfOk, IfSome, IsTrue, Some, encode_utf8_all, length};
ghost use Rattle.sha2.specs.Sha256.{sha256};
ghost use Rattle.store_kv.specs.Draft.{DraftTells, tables_of};
ghost use Rattle.store_rows.specs.Forms.{FitsForm};
ghost use Rattle.store_rows.specs.Rows.{user_form};
ghost use Rattle.model.specs.Cases.{in_case};
ghost use Rattle.model.specs.Organisations.{is_secret};
ghost use Rattle.model.specs.People.{add_user, set_user, user_rules};
ghost use Rattle.model.specs.Rules.{first_refusal};
ghost use Rattle.model.specs.Tenant.{Tenant};
ghost use Rattle.model.specs.Verdict.{done, made_new};
ghost use Rattle.people_edit.specs.inner.Changing.{IsChangedUser, user_row_rules, user_row_with};
ghost use Rattle.store_edit.specs.Judging.{Passes};
ghost use Rattle.store_abstraction.specs.Calls.{Calls, ended_edit};
ghost use Rattle.store_abstraction.specs.Local.{StandsIn};
ghost use Rattle.store_abstraction.specs.Plan.{OrgPlan};
ghost use Rattle.base_value.specs.Id.{is_id};

use crate::admission::digest_of;
use crate::edits::administrators::{administers, check_administrators};
use crate::edits::drawing::{draw, two_rows};
use crate::edits::ids::{find_role, id_given, id_if_any, id_of, id_or};
use crate::edits::kind::Kind;
use crate::edits::names::{check_name_if_any, name_or};
use crate::edits::rows::user_there;
use base_value::{Id, Text};
use model::{NewUser, UserChange, name_laws};
use model_invariant::people_sound;
use people_rows::roster_laws;
use std::alloc::{AllocError, Global};
use store_abstraction::{EditFail, call_laws};
use store_edit::{Decided, Edit, one_row};
use store_kv::{Draft, Keeper, draft_laws};
use store_rows::UserRow;

/// Makes a user, who has the role whose id the body spells, if it spells one. It answers the user's id.
///
/// It is refused with the refusal of the first rule that refuses it: by its name, by the text, by the role, by how many users there
/// are, and by how many ids. Its secret is one of 16 to 64 ASCII letters and digits.
#[derive(Drop)]
pub struct AddUser<'a> {
    pub new: &'a NewUser,
}

impl Edit for AddUser<'_> {
    type Answer = Id;

    ghost verdict = { λ e a. add_user a.tenant e.new.now };

    ghost answered = { λ id. made_new id };

    ghost planned = { λ e q t next. next ≡ q };

    ghost fits = { λ e a. IsTrue (is_secret e.new.now.secret) };

    ghost most = { 2 };

    ghost gone = { 0 };

    ghost shown = { 0 };

    fn judge<K: Keeper>(
        &self,
        alloc: Global,
        draft: &mut Draft<'_, K>,
        org: u32,
    ) -> Result<Decided<Id>, EditFail> {
        call_laws::<K>();
        roster_laws();
        people_sound();
        name_laws();
        let new = self.new;
        let drawn = draw(alloc, draft, org, Kind::User, &new.name, new.role.as_ref())?;
        let user = UserRow {
            org,
            id: drawn.id,
            name: new.name.copy(alloc)?,
            digest: digest_of(new.secret.as_str()),
            role: drawn.role,
            admin: new.admin,
            active: true,
        };
        two_rows(alloc, &drawn, &user)
    }
}

// The digest of the secret that is given, or else this one.
fn digest_or(given: &Option<Text>, digest: [u8; 32]) -> [u8; 32]
    ensures value { result ≡ in_case given.now digest (λ s. sha256 (encode_utf8_all s)) }
    ensures size { length result ≡ 32 }
{
    match given {
        None => digest,
        Some(secret) => digest_of(secret.as_str()),
    }
}

// The row of a user with what is said of it. The role, if one is said, is this.
fn changed_row(
    alloc: Global,
    row: UserRow,
    change: &UserChange,
    named: Option<Id>,
) -> Result<UserRow, AllocError>
    ensures made { IfOk result (λ next. next ≡ user_row_with change.now named row) }
    ensures size { IfOk result (λ next. length next.digest ≡ 32) }
{
    Ok(UserRow {
        org: row.org,
        id: row.id,
        name: name_or(alloc, &change.name, row.name)?,
        digest: digest_or(&change.secret, row.digest),
        role: id_or(&change.role, named, row.role),
        admin: change.admin.unwrap_or(row.admin),
        active: change.active.unwrap_or(row.active),
    })
}

// The same, unless a rule refuses: on the name, on the role, or if nobody would administer the organisation.
fn row_to_set<K: Keeper>(
    alloc: Global,
    draft: &mut Draft<'_, K>,
    org: u32,
    row: UserRow,
    change: &UserChange,
    named: Option<Id>,
) -> Result<UserRow, EditFail>
    requires row { FitsForm user_form row }
    requires named { IfSome named (λ i. IsTrue (is_id i)) }
    ensures passes { DraftTells K.state draft.old draft.new
        → (q : OrgPlan) (t : Tenant) → StandsIn org q (tables_of K.state draft.old) (Some t)
        → Passes (first_refusal (user_row_rules org t row change.now named)) (λ x. Unit {0}) result }
    ensures made { IfOk result (λ next. next ≡ user_row_with change.now named row) }
    ensures fits { IfOk result (FitsForm user_form) }
    ensures calls { Calls K.state 0 (ended_edit result) draft.old draft.new }
{
    draft_laws::<K>();
    call_laws::<K>();
    name_laws();
    check_name_if_any(alloc, &change.name)?;
    find_role(alloc, draft, org, "role", &named)?;
    let administered = administers(&row);
    let next = changed_row(alloc, row, change, named)?;
    check_administrators(alloc, draft, org, administered, &next)?;
    Ok(next)
}

// The row of a user as it is to be, unless a rule refuses.
fn user_to_set<K: Keeper>(
    alloc: Global,
    draft: &mut Draft<'_, K>,
    org: u32,
    user: &Text,
    change: &UserChange,
) -> Result<UserRow, EditFail>
    ensures passes { DraftTells K.state draft.old draft.new
        → (q : OrgPlan) (t : Tenant) → StandsIn org q (tables_of K.state draft.old) (Some t)
        → Passes (first_refusal (user_rules t user.now change.now)) (IsChangedUser org t user.now change.now) result }
    ensures own { DraftTells K.state draft.old draft.new → IfOk result (λ row. row.org ≡ org) }
    ensures fits { IfOk result (FitsForm user_form) }
    ensures calls { Calls K.state 0 (ended_edit result) draft.old draft.new }
{
    draft_laws::<K>();
    call_laws::<K>();
    let id = id_of(alloc, user)?;
    let named = id_if_any(alloc, id_given(&change.role))?;
    let row = user_there(alloc, draft, org, &id)?;
    row_to_set(alloc, draft, org, row, change, named)
}

/// Changes the user whose id a text spells, as a body says: its role, its name, its secret, whether it administers the organisation,
/// and whether it is active. What the body doesn't say stays.
///
/// It is refused with the refusal of the first rule that refuses it: by the texts, if there is no such user, by the name, by the
/// role, and if nobody who is active would administer the organisation. Its secret is one of 16 to 64 ASCII letters and digits.
#[derive(Drop)]
pub struct SetUser<'a> {
    pub user: &'a Text,
    pub change: &'a UserChange,
}

impl Edit for SetUser<'_> {
    type Answer = ();

    ghost verdict = { λ e a. set_user a.tenant e.user.now e.change.now };

    ghost answered = { λ _. done };

    ghost planned = { λ e q t next. next ≡ q };

    ghost fits = { λ e a. IfSome e.change.now.secret (λ s. IsTrue (is_secret s)) };

    ghost most = { 1 };

    ghost gone = { 0 };

    ghost shown = { 0 };

    fn judge<K: Keeper>(
        &self,
        alloc: Global,
        draft: &mut Draft<'_, K>,
        org: u32,
    ) -> Result<Decided<()>, EditFail> {
        call_laws::<K>();
        roster_laws();
        people_sound();
        let row = user_to_set(alloc, draft, org, self.user, self.change)?;
        one_row(alloc, (), &row)
    }
}

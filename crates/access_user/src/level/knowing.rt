//! What is known of the levels of a user on all records of an object.

ghost use Rattle.std.specs.Prelude.{◌≡◌, ◌≤◌, ℕ, Bool, IfOk, Some, filter_map, length, map, option_copied};
ghost use Rattle.model.specs.Levels.{acts, by_access};
ghost use Rattle.model.specs.Objects.{object_numbered};
ghost use Rattle.model.specs.Tenant.{Object, Tenant, User};
ghost use Rattle.access_user.specs.level.Own.{IsOwnLevels, IsSharerOf, MembersFor, counts, spelled_criterion, owner_rule};
ghost use Rattle.access_user.specs.level.inner.Parts.{criterion_by_row, owner_by_row};
ghost use Rattle.schema_rules.specs.Objects.{object_of_layout};
ghost use Rattle.store_abstraction.specs.Layouts.{IsLayout};
ghost use Rattle.store_abstraction.specs.Metadata.{sharing_of};
ghost use Rattle.store_abstraction.specs.Plan.{OrgPlan};

use crate::level::reaching::{members_for, reaches};
use access_closure::{Membership, Sharer};
use base_grammar::ParseFail;
use base_value::{Access, Id, Items, Level, Principal, RuleSource, RuleState};
use formula::Formula;
use schema_rules::read_text;
use std::alloc::{AllocError, Global};
use store_abstraction::Layout;
use store_rows::SharingRow;

/// A criteria rule that reaches a user.
#[derive(Drop)]
pub struct Criterion {
    /// The records that it covers: those on which this holds.
    pub formula: Formula,
    /// What it gives.
    pub level: Level,
}

/// An owner rule that reaches a user.
#[derive(Clone, Copy, Debug)]
pub struct OwnerRule {
    /// The records that it covers: those whose owner is a member of this.
    pub from: Principal,
    /// What it gives.
    pub level: Level,
}

/// What a user may do with the records of an object that is no detail.
#[derive(Drop)]
pub struct OwnLevels {
    /// With all of them.
    pub base: Level,
    /// With those that criteria rules cover.
    pub criteria: Items<Criterion>,
    /// With those that owner rules cover.
    pub owners: Items<OwnerRule>,
    /// The principals that the user is a member of, where the role hierarchy doesn't count; members alone are reached then.
    pub members: Option<Membership>,
}

/// What every user has.
pub(crate) fn by_access(access: Access) -> Level
    ensures { result ≡ by_access access }
{
    match access {
        Access::Private | Access::ControlledByParent => Level::Nothing,
        Access::Read => Level::Read,
        Access::ReadWrite => Level::Edit,
    }
}

// Whether a rule acts: unless it is leaving.
fn acts(state: RuleState) -> bool
    ensures { result ≡ acts state }
{
    match state {
        RuleState::Leaving => false,
        _ => true,
    }
}

// Whether a rule counts: whether it acts, is of this object and reaches the user.
fn counts(sharer: &Sharer, members: Option<&Membership>, object: u16, row: &SharingRow) -> bool
    ensures { (hierarchy : Bool) (org : ℕ) (t : Tenant) (u : User) → IsSharerOf org t u sharer.now
        → MembersFor hierarchy sharer.now.people u.id (option_copied members.entry)
        → result ≡ counts hierarchy t u object row.now.state row.now.object row.now.to }
{
    acts(row.state) && row.object == object && reaches(sharer, members, &row.to)
}

// What an owner rule says.
fn owner_rule(row: &SharingRow) -> Option<OwnerRule>
    ensures { result ≡ owner_rule row.now.level row.now.source }
{
    match &row.source {
        RuleSource::Owner(from) => Some(OwnerRule {
            from: *from,
            level: row.level,
        }),
        RuleSource::Criteria(_) => None,
    }
}

// What a criteria rule says, if its text spells a formula.
fn spelled_criterion(
    alloc: Global,
    layout: &Layout,
    row: &SharingRow,
) -> Result<Option<Criterion>, AllocError>
    requires { length layout.now.fields ≤ 40 }
    ensures { IfOk result (λ c. c ≡ spelled_criterion (object_of_layout layout.now) row.now.level row.now.source) }
{
    match &row.source {
        RuleSource::Owner(_) => Ok(None),
        RuleSource::Criteria(text) => match read_text(alloc, layout, true, text.as_str()) {
            Ok(formula) => Ok(Some(Criterion {
                formula,
                level: row.level,
            })),
            Err(ParseFail::Malformed(_)) => Ok(None),
            Err(ParseFail::Memory) => Err(AllocError),
        },
    }
}

// What a rule says as an owner rule, if it is one and counts.
fn owner_of_row(
    sharer: &Sharer,
    members: Option<&Membership>,
    object: u16,
    row: &SharingRow,
) -> Option<OwnerRule>
    ensures { (hierarchy : Bool) (org : ℕ) (t : Tenant) (u : User) → IsSharerOf org t u sharer.now
        → MembersFor hierarchy sharer.now.people u.id (option_copied members.entry)
        → result ≡ owner_by_row hierarchy t u object row.now }
{
    if counts(sharer, members, object, row) {
        owner_rule(row)
    } else {
        None
    }
}

// What a rule says as a criteria rule, if it is one and counts.
fn criterion_of_row(
    alloc: Global,
    sharer: &Sharer,
    members: Option<&Membership>,
    layout: &Layout,
    row: &SharingRow,
) -> Result<Option<Criterion>, AllocError>
    requires { length layout.now.fields ≤ 40 }
    ensures { IfOk result (λ c. (hierarchy : Bool) (org : ℕ) (t : Tenant) (u : User) → IsSharerOf org t u sharer.now
        → MembersFor hierarchy sharer.now.people u.id (option_copied members.entry)
        → c ≡ criterion_by_row hierarchy t u layout.now.object (object_of_layout layout.now) row.now) }
{
    if counts(sharer, members, layout.object, row) {
        spelled_criterion(alloc, layout, row)
    } else {
        Ok(None)
    }
}

// The owner rules that count.
fn owners_in(
    alloc: Global,
    sharer: &Sharer,
    members: Option<&Membership>,
    rules: &[SharingRow],
    object: u16,
) -> Result<Items<OwnerRule>, AllocError>
    ensures { IfOk result (λ found. (hierarchy : Bool) (org : ℕ) (t : Tenant) (u : User) → IsSharerOf org t u sharer.now
        → MembersFor hierarchy sharer.now.people u.id (option_copied members.entry)
        → found ≡ filter_map (owner_by_row hierarchy t u object) rules.now) }
{
    let mut found = Items::new(alloc);
    for row in rules {
        match owner_of_row(sharer, members, object, row) {
            Some(rule) => found.push(rule)?,
            None => {}
        }
    }
    Ok(found)
}

// The criteria rules that count.
fn criteria_in(
    alloc: Global,
    sharer: &Sharer,
    members: Option<&Membership>,
    rules: &[SharingRow],
    layout: &Layout,
) -> Result<Items<Criterion>, AllocError>
    requires { length layout.now.fields ≤ 40 }
    ensures { IfOk result (λ found. (hierarchy : Bool) (org : ℕ) (t : Tenant) (u : User) → IsSharerOf org t u sharer.now
        → MembersFor hierarchy sharer.now.people u.id (option_copied members.entry)
        → found ≡ filter_map (criterion_by_row hierarchy t u layout.now.object (object_of_layout layout.now)) rules.now) }
{
    let mut found = Items::new(alloc);
    for row in rules {
        match criterion_of_row(alloc, sharer, members, layout, row)? {
            Some(rule) => found.push(rule)?,
            None => {}
        }
    }
    Ok(found)
}

/// What a user may do with the records of an object that is no detail, by the user's keyring with the people, the user's id, the
/// rules of the organisation and the object's layout.
///
/// # Errors
///
/// Where memory runs out.
pub fn own_levels(
    alloc: Global,
    sharer: &Sharer,
    user: &Id,
    rules: &[SharingRow],
    layout: &Layout,
) -> Result<OwnLevels, AllocError>
    requires { length layout.now.fields ≤ 40 }
    ensures { IfOk result (λ own. (org : ℕ) (q : OrgPlan) (t : Tenant) (u : User) (o : Object) → IsSharerOf org t u sharer.now
        → user.now ≡ u.id → rules.now ≡ map (sharing_of org) t.sharing_rules → object_numbered t layout.now.object ≡ Some o
        → IsLayout q t layout.now → IsOwnLevels sharer.now.people t u layout.now.object o own) }
{
    let members = members_for(alloc, &sharer.people, user, layout.hierarchy)?;
    let criteria = criteria_in(alloc, sharer, members.as_ref(), rules, layout)?;
    let owners = owners_in(alloc, sharer, members.as_ref(), rules, layout.object)?;
    Ok(OwnLevels {
        base: by_access(layout.access),
        criteria,
        owners,
        members,
    })
}

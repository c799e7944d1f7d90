//! The level on a record.

ghost use Rattle.std.specs.Prelude.{◌≡◌, ℕ, Bool, IfOk, IfSome, Some, map, option_copied, true};
ghost use Rattle.access_closure.specs.Keyrings.{IsMembershipOf, IsUserAmong};
ghost use Rattle.model.specs.Levels.{greatest, has_hierarchy, own_level, owns};
ghost use Rattle.model.specs.Membership.{Has};
ghost use Rattle.model.specs.Objects.{object_number, object_of_record};
ghost use Rattle.model.specs.Shares.{shares_of};
ghost use Rattle.model.specs.Tenant.{Object, Tenant, User};
ghost use Rattle.model.specs.declared.record.Record.{Record};
ghost use Rattle.access_user.specs.level.Own.{IsOwnLevels, IsSharerOf, MembersFor, level_apart};
ghost use Rattle.access_user.specs.level.inner.Parts.{by_criterion, by_owner_rule, by_share, rules_on_owner};
ghost use Rattle.store_abstraction.specs.Metadata.{row_of_share};
ghost use Rattle.base_value.specs.declared.sharing.Level.TheVariants.{Full};

use crate::level::knowing::{Criterion, OwnLevels, OwnerRule};
use crate::level::levels::greater;
use crate::level::reaching::{owns_id, reaches};
use access_closure::{Membership, Sharer};
use base_value::{Id, Level};
use formula::{Record as Values, holds};
use model::Record;
use std::alloc::{AllocError, Global};
use store_rows::ShareRow;

// What a criteria rule gives on a record.
fn by_criterion(criterion: &Criterion, values: &Values) -> Level
    ensures { result ≡ by_criterion values.now.values criterion.now }
{
    if holds(&criterion.formula, values, None) {
        criterion.level
    } else {
        Level::Nothing
    }
}

// The greatest that these criteria rules give on a record.
fn by_each_criterion(criteria: &[Criterion], values: &Values) -> Level
    ensures { result ≡ greatest (map (by_criterion values.now.values) criteria.now) }
{
    match criteria.split_first() {
        Some((first, rest)) => {
            greater(by_criterion(first, values), by_each_criterion(rest, values))
        }
        None => Level::Nothing,
    }
}

// What a share gives the user.
fn by_share(sharer: &Sharer, members: Option<&Membership>, share: &ShareRow) -> Level
    ensures { (hierarchy : Bool) (org : ℕ) (t : Tenant) (u : User) → IsSharerOf org t u sharer.now
        → MembersFor hierarchy sharer.now.people u.id (option_copied members.entry) → result ≡ by_share hierarchy t u share.now }
{
    if reaches(sharer, members, &share.to) {
        share.level
    } else {
        Level::Nothing
    }
}

// The greatest that these shares give the user.
fn by_shares(sharer: &Sharer, members: Option<&Membership>, shares: &[ShareRow]) -> Level
    ensures { (hierarchy : Bool) (org : ℕ) (t : Tenant) (u : User) → IsSharerOf org t u sharer.now
        → MembersFor hierarchy sharer.now.people u.id (option_copied members.entry)
        → result ≡ greatest (map (by_share hierarchy t u) shares.now) }
{
    match shares.split_first() {
        Some((first, rest)) => greater(
            by_share(sharer, members, first),
            by_shares(sharer, members, rest),
        ),
        None => Level::Nothing,
    }
}

// What an owner rule gives on the records of an owner.
fn by_owner_rule(sharer: &Sharer, owner: &Membership, rule: &OwnerRule) -> Level
    ensures { (org : ℕ) (t : Tenant) (x : User) → IsUserAmong org t x sharer.now.people → IsMembershipOf sharer.now.people x.id owner.now
        → result ≡ by_owner_rule t x rule.now }
{
    if owner.is_member(&sharer.people, &rule.from) {
        rule.level
    } else {
        Level::Nothing
    }
}

// The greatest that these owner rules give on them.
fn by_each_owner_rule(sharer: &Sharer, owner: &Membership, rules: &[OwnerRule]) -> Level
    ensures { (org : ℕ) (t : Tenant) (x : User) → IsUserAmong org t x sharer.now.people → IsMembershipOf sharer.now.people x.id owner.now
        → result ≡ greatest (map (by_owner_rule t x) rules.now) }
{
    match rules.split_first() {
        Some((first, rest)) => greater(
            by_owner_rule(sharer, owner, first),
            by_each_owner_rule(sharer, owner, rest),
        ),
        None => Level::Nothing,
    }
}

// The same by the owner's id, whose membership is made only where there are such rules.
fn by_owner_rules(
    alloc: Global,
    sharer: &Sharer,
    rules: &[OwnerRule],
    owner: &Id,
) -> Result<Level, AllocError>
    ensures { IfOk result (λ level. (org : ℕ) (t : Tenant) (x : User) → IsUserAmong org t x sharer.now.people → x.id ≡ owner.now
        → level ≡ greatest (map (by_owner_rule t x) rules.now)) }
{
    if rules.is_empty() {
        return Ok(Level::Nothing);
    }
    let members = Membership::of(alloc, &sharer.people, owner)?;
    Ok(by_each_owner_rule(sharer, &members, rules))
}

// The same by a record, which may have no owner.
fn by_owner(
    alloc: Global,
    sharer: &Sharer,
    rules: &[OwnerRule],
    item: &Record,
) -> Result<Level, AllocError>
    ensures { IfOk result (λ level. (org : ℕ) (t : Tenant) (u : User) → IsSharerOf org t u sharer.now → Has t.records item.now
        → level ≡ rules_on_owner t item.now rules.now) }
{
    match &item.owner {
        Some(owner) => by_owner_rules(alloc, sharer, rules, owner),
        None => Ok(Level::Nothing),
    }
}

/// Whether a record with this owner is the user's, or, where the role hierarchy counts, of a user below. Then the user has it in full.
/// Of the object of a record that has no owner nothing has to be known.
pub fn owns(sharer: &Sharer, members: Option<&Membership>, owner: Option<Id>) -> bool
    ensures value { (org : ℕ) (t : Tenant) (u : User) (r : Record) → IsSharerOf org t u sharer.now → r.owner ≡ owner
        → IfSome owner (λ _. MembersFor (has_hierarchy t r) sharer.now.people u.id (option_copied members.entry)) → result ≡ owns t u r }
    ensures full { (org : ℕ) (t : Tenant) (u : User) (r : Record) → IsSharerOf org t u sharer.now → r.owner ≡ owner
        → IfSome owner (λ _. MembersFor (has_hierarchy t r) sharer.now.people u.id (option_copied members.entry)) → result ≡ true
        → own_level t u r ≡ Full }
{
    match owner {
        Some(owner) => owns_id(sharer, members, &owner),
        None => false,
    }
}

/// The level of the user on a record of the object without its manual shares, by the user's keyring with the people and what is
/// known of the object. The owner is looked at first.
///
/// # Errors
///
/// Where memory runs out.
pub fn level_apart(
    alloc: Global,
    sharer: &Sharer,
    own: &OwnLevels,
    item: Record,
) -> Result<Level, AllocError>
    ensures { IfOk result (λ level. (org : ℕ) (t : Tenant) (u : User) (o : Object) → IsSharerOf org t u sharer.now → Has t.records item
        → object_of_record t item ≡ Some o → IsOwnLevels sharer.now.people t u (object_number item.id) o own.now
        → level ≡ level_apart t u item) }
{
    if owns(sharer, own.members.as_ref(), item.owner) {
        return Ok(Level::Full);
    }
    let by_owner = by_owner(alloc, sharer, own.owners.as_slice(), &item)?;
    let values = Values {
        values: item.values,
    };
    let by_criteria = by_each_criterion(own.criteria.as_slice(), &values);
    Ok(greater(own.base, greater(by_owner, by_criteria)))
}

/// The level of the user on a record of the object, by the user's keyring with the people, what is known of the object, the level
/// without the record's shares, and the rows of these.
pub fn level_with(sharer: &Sharer, own: &OwnLevels, apart: Level, shares: &[ShareRow]) -> Level
    ensures { (org its : ℕ) (t : Tenant) (u : User) (o : Object) (r : Record) → IsSharerOf org t u sharer.now
        → object_of_record t r ≡ Some o → IsOwnLevels sharer.now.people t u (object_number r.id) o own.now → apart ≡ level_apart t u r
        → shares.now ≡ map (row_of_share its) (shares_of r.id t.shares) → result ≡ own_level t u r }
{
    greater(apart, by_shares(sharer, own.members.as_ref(), shares))
}

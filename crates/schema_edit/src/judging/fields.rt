//! New fields.

ghost use Rattle.std.specs.Prelude.{◌≡◌, ◌&&◌, ◌==◌, ℕ, IfOk, MatchOption, MatchResult, Some, None, Ok, Err, map};
ghost use Rattle.std.specs.List.{list_any};
ghost use Rattle.std.specs.Str.{chars};
ghost use Rattle.schema_edit.specs.Judging.{AreLayouts, verdict_refusal};
ghost use Rattle.schema_edit.specs.inner.Fields.{Places};
ghost use Rattle.schema_edit.specs.inner.Relations.{target_in};
ghost use Rattle.model.specs.Cases.{in_case};
ghost use Rattle.model.specs.Fields.{same_name};
ghost use Rattle.model.specs.Names.{bad_name, is_child_name};
ghost use Rattle.model.specs.NewFields.{add_field, child_of, child_taken, field_rules, is_before, name_taken, own_child, own_parent, parent_taken};
ghost use Rattle.model.specs.Objects.{Numbered};
ghost use Rattle.model.specs.Rules.{first_refusal};
ghost use Rattle.model.specs.Tenant.{Tenant};

use crate::members::{RulesByMember, in_body_order, is_member};
use crate::references::parent_name;
use crate::relations::{layout_named, relationship_taken};
use crate::rules::{bad_name, name_taken};
use base_value::Text;
use model::{Limit, NewField, Refusal, SpelledType, is_child_name, is_custom_name, same_name};
use std::alloc::{AllocError, Global};
use store_abstraction::{FieldPlace, Layout};
use store_edit::{invalid_type, over_limit};

// The child relationship of a lookup.
fn child_of(kind: &SpelledType) -> Option<&Text>
    ensures { MatchOption result (child_of kind.now ≡ None) (λ child. child_of kind.now ≡ Some child.now) }
{
    match kind {
        SpelledType::Plain(_) => None,
        SpelledType::LookupTo { child, .. } => Some(child),
    }
}

/// The number of the object of a lookup; other types have none.
///
/// # Errors
///
/// The name of the object, if there is none with it.
pub(crate) fn target_number<'a>(
    layouts: &[Layout],
    kind: &'a SpelledType,
) -> Result<Option<u16>, &'a Text>
    ensures { MatchResult result (λ target. target_in layouts.now kind.now ≡ Ok target)
        (λ name. target_in layouts.now kind.now ≡ Err name.now) }
{
    match kind {
        SpelledType::Plain(_) => Ok(None),
        SpelledType::LookupTo { object, .. } => match layout_named(layouts, object.as_str()) {
            Some(layout) => Ok(Some(layout.object)),
            None => Err(object),
        },
    }
}

// Whether the first of these members is before the second.
fn is_before(members: &[Text], first: &str, second: &str) -> bool
    ensures { result ≡ is_before members.now (chars first.now) (chars second.now) }
{
    match members.split_first() {
        None => false,
        Some((member, rest)) => {
            is_member(member, first) || !is_member(member, second) && is_before(rest, first, second)
        }
    }
}

// The forms of the names of a new field.
#[derive(Drop)]
struct Forms<'a> {
    new: &'a NewField,
}

// The form of the name of a new lookup's child relationship.
fn child_form(alloc: Global, kind: &SpelledType) -> Result<Option<Refusal>, AllocError>
    ensures { IfOk result (λ r. r ≡ in_case (child_of kind.now) None (bad_name is_child_name)) }
{
    match child_of(kind) {
        None => Ok(None),
        Some(child) => {
            let is_good = is_child_name(child.as_str());
            bad_name(alloc, is_good, child)
        }
    }
}

impl RulesByMember for Forms<'_> {
    ghost use Rattle.std.specs.Prelude.{◌≡◌, ◌∷◌, [], None, codes};
    ghost use Rattle.model.specs.Cases.{in_case};
    ghost use Rattle.model.specs.Names.{bad_name, is_child_name, is_custom_name};
    ghost use Rattle.model.specs.NewFields.{child_of};

    ghost are = { λ s rules. rules ≡ (codes "name", bad_name is_custom_name s.new.now.name)
        ∷ (codes "type", in_case (child_of s.new.now.kind) None (bad_name is_child_name)) ∷ [] };

    fn rule_of(&self, alloc: Global, member: &Text) -> Result<Option<Refusal>, AllocError> {
        if is_member(member, "name") {
            let is_good = is_custom_name(self.new.name.as_str());
            return bad_name(alloc, is_good, &self.new.name);
        }
        if is_member(member, "type") {
            return child_form(alloc, &self.new.kind);
        }
        Ok(None)
    }
}

// Which names of a new field are another's: of this object, with the number of a lookup's.
#[derive(Drop)]
struct Names<'a> {
    layouts: &'a [Layout],
    layout: &'a Layout,
    target: Option<u16>,
    new: &'a NewField,
}

// Whether a field has this name.
fn has_name(fields: &[FieldPlace], name: &str) -> bool
    ensures { result ≡ list_any (same_name (chars name.now)) (map (λ f. f.name) fields.now) }
{
    match fields.split_first() {
        None => false,
        Some((first, rest)) => same_name(name, first.name.as_str()) || has_name(rest, name),
    }
}

// Whether the lookup is to its own object, and the first of these members is before the second.
fn comes_first(number: u16, target: u16, new: &NewField, first: &str, second: &str) -> bool
    ensures { result ≡ ((number == target) && is_before new.now.members (chars first.now) (chars second.now)) }
{
    number == target && is_before(new.members.as_slice(), first, second)
}

// Whether the new field's own child relationship, where its member comes first, has this name.
fn is_own_child(number: u16, target: u16, new: &NewField, name: &str) -> bool
    ensures { result ≡ list_any (same_name (chars name.now)) (own_child number target new.now) }
{
    if comes_first(number, target, new, "type", "name") {
        match child_of(&new.kind) {
            None => false,
            Some(child) => same_name(name, child.as_str()),
        }
    } else {
        false
    }
}

// Whether its own parent relationship, where its member comes first, has this name.
fn is_own_parent(
    alloc: Global,
    number: u16,
    target: u16,
    new: &NewField,
    name: &str,
) -> Result<bool, AllocError>
    ensures { IfOk result (λ b. b ≡ list_any (same_name (chars name.now)) (own_parent number target new.now)) }
{
    if comes_first(number, target, new, "name", "type") {
        let parent = parent_name(alloc, new.name.as_str())?;
        Ok(same_name(name, parent.as_str()))
    } else {
        Ok(false)
    }
}

// That the parent relationship of a new lookup is taken.
fn parent_taken(
    alloc: Global,
    layouts: &[Layout],
    number: u16,
    target: u16,
    new: &NewField,
) -> Result<Option<Refusal>, AllocError>
    ensures { (t : Tenant) → AreLayouts t layouts.now → IfOk result (λ r. r ≡ parent_taken t number new.now target) }
{
    let parent = parent_name(alloc, new.name.as_str())?;
    let is_taken = relationship_taken(alloc, layouts, number, parent.as_str())?;
    let is_taken = is_taken || is_own_child(number, target, new, parent.as_str());
    name_taken(alloc, is_taken, &parent)
}

// That its child relationship is taken.
fn child_taken(
    alloc: Global,
    layouts: &[Layout],
    number: u16,
    target: u16,
    new: &NewField,
) -> Result<Option<Refusal>, AllocError>
    ensures { (t : Tenant) → AreLayouts t layouts.now → IfOk result (λ r. r ≡ child_taken t number new.now target) }
{
    let Some(child) = child_of(&new.kind) else {
        return Ok(None);
    };
    let is_taken = relationship_taken(alloc, layouts, target, child.as_str())?;
    let is_own = is_own_parent(alloc, number, target, new, child.as_str())?;
    name_taken(alloc, is_taken || is_own, child)
}

// That its name is taken, or its parent relationship.
fn any_taken(alloc: Global, names: &Names<'_>) -> Result<Option<Refusal>, AllocError>
    ensures { (t : Tenant) (o : Numbered) → Places t o names.now.layouts.now names.now.layout.now
        → IfOk result (λ r. r ≡ name_taken t o names.now.target names.now.new.now) }
{
    let new = names.new;
    let is_taken = has_name(names.layout.fields.as_slice(), new.name.as_str());
    if let Some(refusal) = name_taken(alloc, is_taken, &new.name)? {
        return Ok(Some(refusal));
    }
    match names.target {
        None => Ok(None),
        Some(target) => parent_taken(alloc, names.layouts, names.layout.object, target, new),
    }
}

impl RulesByMember for Names<'_> {
    ghost use Rattle.std.specs.Prelude.{◌≡◌, ◌∷◌, [], None, codes};
    ghost use Rattle.schema_edit.specs.inner.Fields.{Places};
    ghost use Rattle.model.specs.Cases.{in_case};
    ghost use Rattle.model.specs.NewFields.{child_taken, name_taken};
    ghost use Rattle.model.specs.Objects.{Numbered};
    ghost use Rattle.model.specs.Tenant.{Tenant};

    ghost are = { λ s rules. (t : Tenant) × (o : Numbered) × Places t o s.layouts.now s.layout.now
        × (rules ≡ (codes "name", name_taken t o s.target s.new.now)
        ∷ (codes "type", in_case s.target None (child_taken t o.number s.new.now)) ∷ []) };

    fn rule_of(&self, alloc: Global, member: &Text) -> Result<Option<Refusal>, AllocError> {
        if is_member(member, "name") {
            return any_taken(alloc, self);
        }
        match self.target {
            Some(target) if is_member(member, "type") => {
                child_taken(alloc, self.layouts, self.layout.object, target, self.new)
            }
            _ => Ok(None),
        }
    }
}

// Why a new field of this object is refused, if it is.
fn judge_names(alloc: Global, names: &Names<'_>) -> Result<Option<Refusal>, AllocError>
    ensures { (t : Tenant) (o : Numbered) → Places t o names.now.layouts.now names.now.layout.now
        → IfOk result (λ r. r ≡ first_refusal (field_rules t o names.now.target names.now.new.now)) }
{
    let new = names.new;
    let members = new.members.as_slice();
    if let Some(refusal) = in_body_order(alloc, members, &Forms { new })? {
        return Ok(Some(refusal));
    }
    if let Some(refusal) = in_body_order(alloc, members, names)? {
        return Ok(Some(refusal));
    }
    Ok(over_limit(
        Limit::FieldsPerObject,
        names.layout.fields.as_slice().len() as u64 + 1,
    ))
}

/// Why a new field is refused, if it is.
///
/// # Errors
///
/// When out of memory.
pub(crate) fn judge_field(
    alloc: Global,
    layouts: &[Layout],
    new: &NewField,
) -> Result<Option<Refusal>, AllocError>
    ensures { (t : Tenant) → AreLayouts t layouts.now → IfOk result (λ r. r ≡ verdict_refusal (add_field t new.now)) }
{
    let Some(layout) = layout_named(layouts, new.object.as_str()) else {
        return Ok(Some(invalid_type(alloc, &new.object)?));
    };
    match target_number(layouts, &new.kind) {
        Ok(target) => {
            let names = Names {
                layouts,
                layout,
                target,
                new,
            };
            judge_names(alloc, &names)
        }
        Err(name) => Ok(Some(invalid_type(alloc, name)?)),
    }
}

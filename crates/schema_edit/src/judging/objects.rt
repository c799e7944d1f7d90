//! New objects.

ghost use Rattle.std.specs.Prelude.{◌≡◌, ◌+◌, ◌∷◌, [], IfOk, IfSome, MatchOption, Some, None, codes, map, length};
ghost use Rattle.std.specs.List.{list_any};
ghost use Rattle.std.specs.Str.{chars};
ghost use Rattle.schema_edit.specs.Judging.{AreLayouts, verdict_refusal};
ghost use Rattle.model.specs.Cases.{in_case};
ghost use Rattle.model.specs.Fields.{same_name};
ghost use Rattle.model.specs.Metadata.{add_object, child_name_taken, master_names, no_parent, object_rules, too_deep};
ghost use Rattle.model.specs.Names.{bad_name, is_custom_name, taken};
ghost use Rattle.model.specs.declared.limit.Limit.TheVariants as limit;
ghost use Rattle.model.specs.Rules.{first_refusal, over_limit, rule_of};
ghost use Rattle.model.specs.Tenant.{Tenant};

use crate::members::{RulesByMember, in_body_order, is_member};
use crate::relations::{detail_level, layout_named, relationship_taken};
use crate::rules::{bad_name, name_taken};
use base_value::Text;
use model::{Limit, NewMaster, NewObject, Refusal, is_child_name, is_custom_name, same_name};
use std::alloc::{AllocError, Global};
use store_abstraction::Layout;
use store_edit::{invalid_type, over_limit};

// The forms of the names of a new object.
#[derive(Drop)]
struct Forms<'a> {
    new: &'a NewObject,
}

// The form of the name that this member of a master is.
fn master_form(
    alloc: Global,
    master: &NewMaster,
    member: &Text,
) -> Result<Option<Refusal>, AllocError>
    ensures { IfOk result (λ r. r ≡ rule_of (master_names master.now) member.now) }
{
    if is_member(member, "field") {
        let is_good = is_custom_name(master.field.as_str());
        return bad_name(alloc, is_good, &master.field);
    }
    if is_member(member, "child") {
        let is_good = is_child_name(master.child.as_str());
        return bad_name(alloc, is_good, &master.child);
    }
    Ok(None)
}

impl RulesByMember for Forms<'_> {
    ghost use Rattle.std.specs.Prelude.{◌≡◌, ◌∷◌, [], codes};
    ghost use Rattle.model.specs.Cases.{in_case};
    ghost use Rattle.model.specs.Metadata.{master_names};
    ghost use Rattle.model.specs.Names.{bad_name, is_custom_name};

    ghost are = { λ s rules. rules ≡ (codes "name", bad_name is_custom_name s.new.now.name) ∷ in_case s.new.now.master [] master_names };

    fn rule_of(&self, alloc: Global, member: &Text) -> Result<Option<Refusal>, AllocError> {
        if is_member(member, "name") {
            let is_good = is_custom_name(self.new.name.as_str());
            return bad_name(alloc, is_good, &self.new.name);
        }
        match &self.new.master {
            None => Ok(None),
            Some(master) => master_form(alloc, master, member),
        }
    }
}

// Which names of a new object are another's.
#[derive(Drop)]
struct Names<'a> {
    layouts: &'a [Layout],
    new: &'a NewObject,
}

// Whether an object has this name.
fn has_name(layouts: &[Layout], name: &str) -> bool
    ensures { result ≡ list_any (same_name (chars name.now)) (map (λ l. l.name) layouts.now) }
{
    match layouts.split_first() {
        None => false,
        Some((first, rest)) => same_name(name, first.name.as_str()) || has_name(rest, name),
    }
}

// Whether the child relationship of a new detail is taken on its parent.
fn child_name_taken(
    alloc: Global,
    layouts: &[Layout],
    master: &NewMaster,
) -> Result<Option<Refusal>, AllocError>
    ensures { (t : Tenant) → AreLayouts t layouts.now → IfOk result (λ r. r ≡ child_name_taken t master.now) }
{
    let Some(parent) = layout_named(layouts, master.parent.as_str()) else {
        return Ok(None);
    };
    let is_taken = relationship_taken(alloc, layouts, parent.object, master.child.as_str())?;
    name_taken(alloc, is_taken, &master.child)
}

impl RulesByMember for Names<'_> {
    ghost use Rattle.std.specs.Prelude.{◌≡◌, ◌∷◌, [], None, codes, map};
    ghost use Rattle.schema_edit.specs.Judging.{AreLayouts};
    ghost use Rattle.model.specs.Cases.{in_case};
    ghost use Rattle.model.specs.Metadata.{child_name_taken};
    ghost use Rattle.model.specs.Names.{taken};
    ghost use Rattle.model.specs.Tenant.{Tenant};

    ghost are = { λ s rules. (t : Tenant) × AreLayouts t s.layouts.now × (rules ≡ (codes "name", taken (map (λ o. o.name) t.objects) s.new.now.name)
        ∷ (codes "child", in_case s.new.now.master None (child_name_taken t)) ∷ []) };

    fn rule_of(&self, alloc: Global, member: &Text) -> Result<Option<Refusal>, AllocError> {
        if is_member(member, "name") {
            let is_taken = has_name(self.layouts, self.new.name.as_str());
            return name_taken(alloc, is_taken, &self.new.name);
        }
        match &self.new.master {
            Some(master) if is_member(member, "child") => child_name_taken(
                alloc,
                self.layouts,
                master,
            ),
            _ => Ok(None),
        }
    }
}

// That a new detail's parent isn't there.
fn no_parent(
    alloc: Global,
    layouts: &[Layout],
    master: &NewMaster,
) -> Result<Option<Refusal>, AllocError>
    ensures { (t : Tenant) → AreLayouts t layouts.now → IfOk result (λ r. r ≡ no_parent t master.now) }
{
    match layout_named(layouts, master.parent.as_str()) {
        Some(_) => Ok(None),
        None => Ok(Some(invalid_type(alloc, &master.parent)?)),
    }
}

// That a new detail would be too far below the first of its masters.
fn too_deep(layouts: &[Layout], master: &NewMaster) -> Option<Refusal>
    ensures { (t : Tenant) → AreLayouts t layouts.now → result ≡ too_deep t master.now }
{
    match layout_named(layouts, master.parent.as_str()) {
        Some(parent) => {
            let level = detail_level(layouts, parent.object);
            over_limit(Limit::DetailLevels, u64::from(level) + 1)
        }
        None => None,
    }
}

// The refusals that the places of a new object among the others give.
fn bad_place(
    alloc: Global,
    layouts: &[Layout],
    new: &NewObject,
) -> Result<Option<Refusal>, AllocError>
    ensures { (t : Tenant) → AreLayouts t layouts.now → IfOk result (λ r. r ≡ first_refusal (in_case new.now.master None (no_parent t)
        ∷ over_limit ((limit.Objects, length t.objects + 1) ∷ []) ∷ in_case new.now.master None (too_deep t) ∷ [])) }
{
    if let Some(master) = &new.master {
        if let Some(refusal) = no_parent(alloc, layouts, master)? {
            return Ok(Some(refusal));
        }
    }
    if let Some(refusal) = over_limit(Limit::Objects, layouts.len() as u64 + 1) {
        return Ok(Some(refusal));
    }
    match &new.master {
        Some(master) => Ok(too_deep(layouts, master)),
        None => Ok(None),
    }
}

/// Which name of a new object isn't of its form, if one isn't: the first thing that is judged.
///
/// # Errors
///
/// When out of memory.
pub fn bad_form(alloc: Global, new: &NewObject) -> Result<Option<Refusal>, AllocError>
    ensures { (t : Tenant) → IfOk result (λ r. IfSome r (λ why. Some why ≡ verdict_refusal (add_object t new.now))) }
{
    in_body_order(alloc, new.members.as_slice(), &Forms { new })
}

/// Why a new object is refused, if it is.
///
/// # Errors
///
/// When out of memory.
pub(crate) fn judge_object(
    alloc: Global,
    layouts: &[Layout],
    new: &NewObject,
) -> Result<Option<Refusal>, AllocError>
    ensures { (t : Tenant) → AreLayouts t layouts.now → IfOk result (λ r. r ≡ first_refusal (object_rules t new.now)) }
{
    let members = new.members.as_slice();
    if let Some(refusal) = in_body_order(alloc, members, &Forms { new })? {
        return Ok(Some(refusal));
    }
    if let Some(refusal) = in_body_order(alloc, members, &Names { layouts, new })? {
        return Ok(Some(refusal));
    }
    bad_place(alloc, layouts, new)
}

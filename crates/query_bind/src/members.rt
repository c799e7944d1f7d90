//! What is shown of records by paths: fields, and parents with what is shown of them.

ghost use Rattle.std.specs.Prelude.{◌≡◌, ◌∷◌, [], ℕ, List, Some, IfOk, is_some, map, filter_map, option_map};
ghost use Rattle.std.specs.List.{list_any};
ghost use Rattle.std.specs.Str.{chars};
ghost use Rattle.model.specs.Relationships.{parent_name};
ghost use Rattle.model.specs.RowsJson.{behind_relationship};
ghost use Rattle.soql.specs.declared.query.Item.TheVariants as item;
ghost use Rattle.query_plan.specs.paths.Branches.{AddsBranches, AreBranches, IsAmong};
ghost use Rattle.query_check.specs.Columns.{custom_name};
ghost use Rattle.query_bind.specs.Names.{relationship_name};
ghost use Rattle.query_bind.specs.inner.Members as spec;

use base_grammar::characters;
use base_value::{Items, Text};
use model::same_name;
use query_check::{column_in, name_at};
use query_plan::{Branch, Member, Place, Site, Spot, parent_in, step_from};
use soql::Path;
use std::alloc::{AllocError, Global};
use store_abstraction::{FieldPlace, Layout};

// ---- names as they are declared

// The name of the parent relationship of a field: `X__r` of `X__c`.
fn parent_name(alloc: Global, field: &str) -> Result<Text, AllocError>
    ensures { IfOk result (λ name. name ≡ parent_name (chars field.now)) }
{
    let all = characters(alloc, field)?;
    let kept = &all[..all.len().saturating_sub(3)];
    let mut name = String::new(alloc);
    for c in kept {
        name.push(*c)?;
    }
    name.push_str("__r")?;
    Ok(Text::from_string(name))
}

// The name of the custom field whose value is at this position.
fn field_name(fields: &[FieldPlace], position: usize) -> &str
    ensures { chars result.now ≡ custom_name fields.now position }
{
    match fields.get(position.saturating_sub(1)) {
        Some(field) => field.name.as_str(),
        None => "",
    }
}

/// The name of a parent relationship of a layout's object, as it is declared; one that isn't there stays as it is.
///
/// # Errors
///
/// When out of memory.
pub fn relationship_name(alloc: Global, layout: &Layout, name: &str) -> Result<Text, AllocError>
    ensures { IfOk result (λ text. text ≡ relationship_name layout.now (chars name.now)) }
{
    match parent_in(layout, name) {
        Some(step) => parent_name(alloc, field_name(layout.fields.as_slice(), step.position)),
        None => Text::from_str(alloc, name),
    }
}

// ---- paths that go on behind a relationship

// Whether a path does.
fn goes_behind(path: &Path, name: &str) -> bool
    ensures { result ≡ is_some (behind_relationship (chars name.now) (item.Path path.now)) }
{
    match path.names.as_slice() {
        [first, _, ..] => same_name(name, first.as_str()),
        _ => false,
    }
}

// Whether one of these paths does.
fn some_goes_behind(paths: &[Path], name: &str) -> bool
    ensures { result ≡ list_any (spec.goes_behind (chars name.now)) paths.now }
{
    paths.iter().any(|path| goes_behind(path, name))
}

/// The same names.
///
/// # Errors
///
/// When out of memory.
pub(crate) fn copy_names(alloc: Global, names: &[Text]) -> Result<Items<Text>, AllocError>
    ensures { IfOk result (λ copied. copied ≡ names.now) }
{
    let mut copied = Vec::new(alloc);
    for name in names {
        copied.push(name.copy(alloc)?)?;
    }
    Ok(Items::from_vec(copied))
}

// What a path goes on with, if it does.
fn path_behind(alloc: Global, path: &Path, name: &str) -> Result<Option<Path>, AllocError>
    ensures { IfOk result (λ behind. option_map item.Path behind ≡ behind_relationship (chars name.now) (item.Path path.now)) }
{
    if !goes_behind(path, name) {
        return Ok(None);
    }
    match path.names.as_slice() {
        [_, rest @ ..] => Ok(Some(Path {
            names: copy_names(alloc, rest)?,
        })),
        [] => Ok(None),
    }
}

fn paths_behind(alloc: Global, paths: &[Path], name: &str) -> Result<Items<Path>, AllocError>
    ensures { IfOk result (λ behind. map item.Path behind
        ≡ filter_map (behind_relationship (chars name.now)) (map item.Path paths.now)) }
{
    let mut behind = Vec::new(alloc);
    for path in paths {
        if let Some(rest) = path_behind(alloc, path, name)? {
            behind.push(rest)?;
        }
    }
    Ok(Items::from_vec(behind))
}

// ---- members

// A field of the record of a branch, or of the row's own; where there is none, the id.
fn field_member(
    alloc: Global,
    layout: &Layout,
    branch: Option<usize>,
    name: &Text,
) -> Result<Member, AllocError>
    ensures { IfOk result (λ m. m ≡ spec.field_member layout.now branch name.now) }
{
    match column_in(layout, name.as_str()) {
        Some(column) => {
            let site = column.site;
            let name = Text::from_str(alloc, name_at(layout, site))?;
            Ok(Member::Field {
                name,
                spot: Spot { branch, site },
            })
        }
        None => Ok(Member::Field {
            name: name.copy(alloc)?,
            spot: Spot {
                branch,
                site: Site::Id,
            },
        }),
    }
}

// The parent by a relationship, with what all paths that go on behind it show of it.
#[cycle(members)]
fn bind_parent(
    alloc: Global,
    layouts: &[Layout],
    from: Place<'_>,
    depth: usize,
    name: &str,
    all: &[Path],
    branches: &mut Vec<Branch>,
) -> Result<Option<Member>, AllocError>
    requires order { AreBranches branches.old.items }
    requires above { IsAmong branches.old.items from.branch }
    ensures shows { IfOk result (λ m. spec.ShowsParent layouts.now from.entry depth (chars name.now) all.now branches.new.items m) }
    ensures grows { AddsBranches branches.old.items branches.new.items }
{
    let declared = relationship_name(alloc, from.layout, name)?;
    let Some(place) = step_from(layouts, from, name, branches)? else {
        return Ok(None);
    };
    let branch = place.branch.unwrap_or(0);
    if depth == 0 {
        return Ok(Some(Member::End {
            name: declared,
            branch,
        }));
    }
    let behind = paths_behind(alloc, all, name)?;
    let object = place.layout.name.copy(alloc)?;
    let members = bind_members(
        alloc,
        layouts,
        place,
        depth - 1,
        behind.as_slice(),
        branches,
    )?;
    Ok(Some(Member::Parent {
        name: declared,
        branch,
        object,
        members,
    }))
}

/// What is shown of the records of a place by one of some paths: nothing if one before it begins with the same relationship.
///
/// # Errors
///
/// When out of memory. The branches that were added until then stay.
#[cycle(members)]
pub(crate) fn bind_member(
    alloc: Global,
    layouts: &[Layout],
    from: Place<'_>,
    depth: usize,
    path: &Path,
    before: &[Path],
    all: &[Path],
    branches: &mut Vec<Branch>,
) -> Result<Option<Member>, AllocError>
    requires order { AreBranches branches.old.items }
    requires above { IsAmong branches.old.items from.branch }
    ensures shows { IfOk result (λ m. spec.ShowsPath layouts.now from.entry depth path.now before.now all.now branches.new.items m) }
    ensures own { IfOk result (λ m. (name : List ℕ) → path.now.names ≡ name ∷ []
        → m ≡ Some (spec.field_member from.entry.layout.now from.entry.branch name)) }
    ensures grows { AddsBranches branches.old.items branches.new.items }
{
    match path.names.as_slice() {
        [] => Ok(None),
        [name] => Ok(Some(field_member(alloc, from.layout, from.branch, name)?)),
        [name, ..] => {
            if some_goes_behind(before, name.as_str()) {
                return Ok(None);
            }
            bind_parent(alloc, layouts, from, depth, name.as_str(), all, branches)
        }
    }
}

/// What is shown of the records of a place by paths, through at most so many relationships.
///
/// # Errors
///
/// When out of memory. The branches that were added until then stay.
#[cycle(members)]
pub(crate) fn bind_members(
    alloc: Global,
    layouts: &[Layout],
    from: Place<'_>,
    depth: usize,
    paths: &[Path],
    branches: &mut Vec<Branch>,
) -> Result<Items<Member>, AllocError>
    requires order { AreBranches branches.old.items }
    requires above { IsAmong branches.old.items from.branch }
    ensures shows { IfOk result (λ ms. spec.ShowsPaths layouts.now from.entry depth paths.now branches.new.items ms) }
    ensures grows { AddsBranches branches.old.items branches.new.items }
{
    let mut members = Vec::new(alloc);
    for (number, path) in paths.iter().enumerate() {
        let before = &paths[..number];
        if let Some(member) = bind_member(
            alloc, layouts, from, depth, path, before, paths, branches,
        )? {
            members.push(member)?;
        }
    }
    Ok(Items::from_vec(members))
}

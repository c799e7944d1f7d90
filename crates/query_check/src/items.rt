//! Names that are selected: those that aren't there, and those that were selected before.

ghost use Rattle.std.specs.Prelude.{◌≡◌, [], IfOk};
ghost use Rattle.std.specs.List.{list_any};
ghost use Rattle.std.specs.Str.{chars};
ghost use Rattle.model.specs.Asking.{item_name};
ghost use Rattle.model.specs.Fields.{same_name};
ghost use Rattle.query_check.specs.Rules as spec;

use crate::paths::{child_layout, spelled};
use crate::rules::no_field;
use crate::tails::tail_refusal;
use base_value::Text;
use model::{Refusal, same_name};
use soql::{Item, Path, Tail};
use std::alloc::{AllocError, Global};
use store_abstraction::Layout;

// ---- what was selected before

fn is_mentioned(before: &[Text], name: &str) -> bool
    ensures { result ≡ list_any (λ x. same_name x (chars name.now)) before.now }
{
    before.iter().any(|other| same_name(other.as_str(), name))
}

// INVALID_FIELD: this was selected before.
fn mentioned(before: &[Text], name: Text) -> Option<Refusal>
    ensures { result ≡ spec.mentioned_in before.now name }
{
    if is_mentioned(before, name.as_str()) {
        Some(Refusal::InvalidField { name })
    } else {
        None
    }
}

// What is selected, as it is spelled.
fn item_name(alloc: Global, item: &Item) -> Result<Text, AllocError>
    ensures { IfOk result (λ name. name ≡ item_name item.now) }
{
    match item {
        Item::Path(path) => spelled(alloc, path.names.as_slice()),
        Item::Child { paths: _, tail } => tail.from.copy(alloc),
    }
}

// ---- paths

fn path_refusal(
    alloc: Global,
    layouts: &[Layout],
    layout: &Layout,
    before: &[Text],
    path: &Path,
) -> Result<Option<Refusal>, AllocError>
    ensures { IfOk result (λ r. r ≡ spec.path_rule layouts.now layout.now before.now path.now) }
{
    if let Some(refusal) = no_field(alloc, layouts, layout, path)? {
        return Ok(Some(refusal));
    }
    Ok(mentioned(before, spelled(alloc, path.names.as_slice())?))
}

// The first refusal of the paths that a child subquery selects.
fn paths_refusal(
    alloc: Global,
    layouts: &[Layout],
    layout: &Layout,
    paths: &[Path],
) -> Result<Option<Refusal>, AllocError>
    ensures { IfOk result (λ r. r ≡ spec.paths_rule layouts.now layout.now [] paths.now) }
{
    let mut before = Vec::new(alloc);
    for path in paths {
        if let Some(refusal) = path_refusal(alloc, layouts, layout, before.as_slice(), path)? {
            return Ok(Some(refusal));
        }
        before.push(spelled(alloc, path.names.as_slice())?)?;
    }
    Ok(None)
}

// ---- items

// Of a child subquery, by the layout of its object: its paths come before its name in the text.
fn child_refusal(
    alloc: Global,
    layouts: &[Layout],
    layout: &Layout,
    before: &[Text],
    paths: &[Path],
    tail: &Tail,
) -> Result<Option<Refusal>, AllocError>
    ensures { IfOk result (λ r. r ≡ spec.child_rule layouts.now layout.now before.now paths.now tail.now) }
{
    if let Some(refusal) = paths_refusal(alloc, layouts, layout, paths)? {
        return Ok(Some(refusal));
    }
    if let Some(refusal) = mentioned(before, tail.from.copy(alloc)?) {
        return Ok(Some(refusal));
    }
    tail_refusal(alloc, layouts, layout, tail)
}

// Of a child relationship that isn't there nothing else is judged.
fn item_refusal(
    alloc: Global,
    layouts: &[Layout],
    layout: &Layout,
    before: &[Text],
    item: &Item,
) -> Result<Option<Refusal>, AllocError>
    ensures { IfOk result (λ r. r ≡ spec.item_rule layouts.now layout.now before.now item.now) }
{
    match item {
        Item::Path(path) => path_refusal(alloc, layouts, layout, before, path),
        Item::Child { paths, tail } => match child_layout(layouts, layout, tail.from.as_str()) {
            Some(child) => child_refusal(alloc, layouts, child, before, paths.as_slice(), tail),
            None => Ok(Some(Refusal::InvalidField {
                name: tail.from.copy(alloc)?,
            })),
        },
    }
}

/// The first refusal of what is selected.
///
/// # Errors
///
/// When out of memory.
pub(crate) fn items_refusal(
    alloc: Global,
    layouts: &[Layout],
    layout: &Layout,
    items: &[Item],
) -> Result<Option<Refusal>, AllocError>
    ensures { IfOk result (λ r. r ≡ spec.items_rule layouts.now layout.now [] items.now) }
{
    let mut before = Vec::new(alloc);
    for item in items {
        if let Some(refusal) = item_refusal(alloc, layouts, layout, before.as_slice(), item)? {
            return Ok(Some(refusal));
        }
        before.push(item_name(alloc, item)?)?;
    }
    Ok(None)
}

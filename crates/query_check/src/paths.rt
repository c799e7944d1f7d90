//! Where paths and child relationships lead, by the layouts of all objects, and how paths are spelled.

ghost use Rattle.std.specs.Prelude.{◌≡◌, ◌++◌, IfOk, codes};
ghost use Rattle.std.specs.Option.{option_copied};
ghost use Rattle.std.specs.Str.{chars};
ghost use Rattle.model.specs.Asking.{spelled_path};
ghost use Rattle.query_check.specs.Ways as spec;

use crate::columns::{Column, column_in};
use base_value::Text;
use query_plan::{child_in, layout_in, parent_in};
use std::alloc::{AllocError, Global};
use store_abstraction::Layout;

// The layout of the object to which the parent relationship with this name leads.
#[tactic(auto, unfolding(crate::specs::Ways::parent_layout))]
fn parent_layout<'a>(layouts: &'a [Layout], layout: &Layout, name: &str) -> Option<&'a Layout>
    ensures { option_copied result ≡ spec.parent_layout layouts.now layout.now (chars name.now) }
{
    let step = parent_in(layout, name)?;
    layout_in(layouts, step.target)
}

/// The layout of the object whose records the child relationship with this name has.
#[tactic(auto, unfolding(crate::specs::Ways::child_layout))]
pub(crate) fn child_layout<'a>(
    layouts: &'a [Layout],
    layout: &Layout,
    name: &str,
) -> Option<&'a Layout>
    ensures { option_copied result ≡ spec.child_layout layouts.now layout.now (chars name.now) }
{
    let step = child_in(layouts, layout.object, name)?;
    layout_in(layouts, step.object)
}

/// The field to which the names of a path lead.
pub(crate) fn path_column(layouts: &[Layout], layout: &Layout, names: &[Text]) -> Option<Column>
    ensures { result ≡ spec.path_column_in layouts.now layout.now names.now }
{
    match names {
        [] => None,
        [name] => column_in(layout, name.as_str()),
        [name, rest @ ..] => {
            let parent = parent_layout(layouts, layout, name.as_str())?;
            path_column(layouts, parent, rest)
        }
    }
}

/// The names of a path as they are spelled.
///
/// # Errors
///
/// When out of memory.
pub(crate) fn spelled(alloc: Global, names: &[Text]) -> Result<Text, AllocError>
    ensures { IfOk result (λ text. text ≡ spelled_path names.now) }
{
    match names {
        [] => Text::from_str(alloc, ""),
        [name] => name.copy(alloc),
        [name, rest @ ..] => {
            let more = spelled(alloc, rest)?;
            joined(alloc, name, &more)
        }
    }
}

// A name, a dot and the names behind it.
fn joined(alloc: Global, name: &Text, more: &Text) -> Result<Text, AllocError>
    ensures { IfOk result (λ text. text ≡ name.now ++ codes "." ++ more.now) }
{
    let mut text = String::from_str(alloc, name.as_str())?;
    text.push_str(".")?;
    text.push_str(more.as_str())?;
    Ok(Text::from_string(text))
}

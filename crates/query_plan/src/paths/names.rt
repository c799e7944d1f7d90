//! The names of relationships.

ghost use Rattle.std.specs.Prelude.{◌≡◌, false};
ghost use Rattle.std.specs.Str.{chars};
ghost use Rattle.model.specs.Cases.{in_case};
ghost use Rattle.model.specs.Fields.{same_name};
ghost use Rattle.model.specs.Relationships.{parent_name};

use base_value::{Text, character_count};
use model::same_name;

/// Whether a field with this name has a parent relationship with that name, whatever the case of its ASCII letters: `X__c` has
/// `X__r`.
pub(crate) fn is_parent_name(field: &str, name: &str) -> bool
    ensures { result ≡ same_name (parent_name (chars field.now)) (chars name.now) }
{
    let kept = character_count(field).saturating_sub(3);
    let parent = field.chars().take(kept).chain("__r".chars());
    parent
        .map(|c| c.to_ascii_lowercase())
        .eq(name.chars().map(|c| c.to_ascii_lowercase()))
}

/// Whether this is the name of a child relationship, whatever the case of its ASCII letters.
pub(crate) fn is_child_name(child: &Option<Text>, name: &str) -> bool
    ensures { result ≡ in_case child.now false (same_name (chars name.now)) }
{
    match child {
        Some(child) => same_name(name, child.as_str()),
        None => false,
    }
}

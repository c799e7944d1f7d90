//! What the type of a field refers to, and what its name gives.

ghost use Rattle.std.specs.Prelude.{◌≡◌, IfOk};
ghost use Rattle.std.specs.Str.{chars};
ghost use Rattle.model.specs.Fields.{is_master};
ghost use Rattle.model.specs.Relationships.{parent_name, target_of};

use base_grammar::characters;
use base_value::{FieldType, Text};
use std::alloc::{AllocError, Global};

/// The number of the object to which a type refers.
pub fn target_of(kind: &FieldType) -> Option<u16>
    ensures { result ≡ target_of kind.now }
{
    match kind {
        FieldType::Lookup { object, .. } => Some(*object),
        FieldType::Master { object } => Some(*object),
        _ => None,
    }
}

/// Whether it is the type of a detail's reference to its master.
pub fn is_master(kind: &FieldType) -> bool
    ensures { result ≡ is_master kind.now }
{
    matches!(kind, FieldType::Master { .. })
}

/// The name of a field's parent relationship: `X__r` of `X__c`.
///
/// # Errors
///
/// When out of memory.
pub fn parent_name(alloc: Global, field: &str) -> Result<Text, AllocError>
    ensures { IfOk result (λ name. name ≡ parent_name (chars field.now)) }
{
    let all = characters(alloc, field)?;
    let kept = &all[..all.len().saturating_sub(3)];
    let mut name = String::new(alloc);
    for c in kept {
        name.push(*c)?;
    }
    name.push_str("__r")?;
    Ok(Text::from_string(name))
}

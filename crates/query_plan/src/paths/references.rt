//! What the type of a field refers to.

ghost use Rattle.std.specs.Prelude.{◌≡◌};
ghost use Rattle.model.specs.Relationships.{target_of};

use base_value::FieldType;

/// The number of the object to which a type refers.
pub(crate) fn target_of(kind: &FieldType) -> Option<u16>
    ensures { result ≡ target_of kind.now }
{
    match kind {
        FieldType::Lookup { object, .. } => Some(*object),
        FieldType::Master { object } => Some(*object),
        _ => None,
    }
}

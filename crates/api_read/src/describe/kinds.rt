//! What is said of types of fields.

ghost use Rattle.std.specs.Prelude.{◌≡◌, ◌||◌, false};
ghost use Rattle.std.specs.Str.{chars};
ghost use Rattle.model.specs.Fields.{is_master};
ghost use Rattle.model.specs.Relationships.{target_of};
ghost use Rattle.model_reads.specs.DescribeJson.{characters_of, decimals_of, digits_of, is_restricted, is_truth, type_word};

use base_value::{FieldType, OnDelete};

/// The word for a type.
pub(crate) fn type_word(kind: &FieldType) -> &'static str
    ensures { chars result.now ≡ type_word kind.now }
{
    match kind {
        FieldType::Text(_) => "string",
        FieldType::Number { .. } => "double",
        FieldType::Checkbox => "boolean",
        FieldType::Day => "date",
        FieldType::Moment => "datetime",
        FieldType::Picklist(_) => "picklist",
        FieldType::Lookup { .. } => "reference",
        FieldType::Master { .. } => "reference",
    }
}

/// The most characters of a text or an id.
pub(crate) fn characters_of(kind: &FieldType) -> u8
    ensures { result ≡ characters_of kind.now }
{
    match kind {
        FieldType::Text(most) => *most,
        FieldType::Lookup { .. } => 18,
        FieldType::Master { .. } => 18,
        _ => 0,
    }
}

/// The digits of a number.
pub(crate) fn digits_of(kind: &FieldType) -> u8
    ensures { result ≡ digits_of kind.now }
{
    match kind {
        FieldType::Number { digits, .. } => *digits,
        _ => 0,
    }
}

/// Those of them that are after the point.
pub(crate) fn decimals_of(kind: &FieldType) -> u8
    ensures { result ≡ decimals_of kind.now }
{
    match kind {
        FieldType::Number { decimals, .. } => *decimals,
        _ => 0,
    }
}

/// Whether it is the type of a detail's reference to its master.
pub(crate) fn is_master(kind: &FieldType) -> bool
    ensures { result ≡ is_master kind.now }
{
    matches!(kind, FieldType::Master { .. })
}

/// Whether there is a value in each record, whatever is required.
pub(crate) fn is_filled(kind: &FieldType) -> bool
    ensures { result ≡ (is_master kind.now || is_truth kind.now) }
{
    matches!(kind, FieldType::Master { .. } | FieldType::Checkbox)
}

/// Whether a record isn't deleted while a reference of this type names it.
pub(crate) fn is_restricted(kind: &FieldType) -> bool
    ensures { result ≡ is_restricted kind.now }
{
    match kind {
        FieldType::Lookup { on_delete, .. } => matches!(on_delete, OnDelete::Restrict),
        _ => false,
    }
}

/// The number of the object to which a type refers.
pub(crate) fn target_of(kind: &FieldType) -> Option<u16>
    ensures { result ≡ target_of kind.now }
{
    match kind {
        FieldType::Lookup { object, .. } => Some(*object),
        FieldType::Master { object } => Some(*object),
        _ => None,
    }
}

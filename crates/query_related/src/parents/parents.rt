//! The ids to which values refer.

ghost use Rattle.std.specs.Prelude.{◌≡◌};
ghost use Rattle.formula.specs.Meaning.{value_at};
ghost use Rattle.base_value.specs.Values.{ref_of};

use base_value::{Id, Value};
use model::Record;

/// The id to which a value refers.
pub(crate) fn id_of(value: &Value) -> Option<Id>
    ensures { result ≡ ref_of value.now }
{
    match value {
        Value::Ref(id) => Some(*id),
        _ => None,
    }
}

/// The id to which a record's value at a position refers.
pub(crate) fn id_at(item: &Record, position: usize) -> Option<Id>
    ensures { result ≡ ref_of (value_at item.now.values position) }
{
    match item.values.as_slice().get(position) {
        None => None,
        Some(value) => id_of(value),
    }
}

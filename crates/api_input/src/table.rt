//! Tables of names.

ghost use Rattle.std.specs.Prelude.{◌≡◌};
ghost use Rattle.model.specs.Members.{entry_named};
ghost use Rattle.api_input.specs.inner.Spelled.{table_of};

use base_value::{Text, is_text};

/// What a table has first under a name.
pub(crate) fn entry_named<T: Copy>(table: &[(&str, T)], name: &Text) -> Option<T>
    ensures { result ≡ entry_named (table_of table.now) name.now }
{
    match table.split_first() {
        Some((row, more)) => {
            if is_text(name, row.0) {
                Some(row.1)
            } else {
                entry_named(more, name)
            }
        }
        None => None,
    }
}

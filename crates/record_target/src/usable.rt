//! Layouts by which records can be read and changed.

ghost use Rattle.std.specs.Prelude.{◌≡◌, ◌&&◌, nat_le, length};
ghost use Rattle.record_read.specs.Decoding.{has_types};
ghost use Rattle.record_index.specs.Turned.{converts};

use record_index::converts;
use record_read::has_types;
use store_abstraction::Layout;

// The most custom fields of an object.
const MOST_FIELDS: usize = 40;

// Whether a layout has as few fields as an object may have, of types within their bounds.
fn is_usable(layout: &Layout) -> bool
    ensures { result ≡ (nat_le (length layout.now.fields) 40 && has_types layout.now) }
{
    layout.fields.as_slice().len() <= MOST_FIELDS && has_types(layout)
}

/// Whether a layout can be used, and converts what a change of a field's type copies.
pub fn is_ready(layout: &Layout) -> bool
    ensures { result ≡ ((nat_le (length layout.now.fields) 40 && has_types layout.now) && converts layout.now) }
{
    is_usable(layout) && converts(layout)
}

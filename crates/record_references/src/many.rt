//! Whether some record refers to one of many: the rows of references of one field are gone through once.

ghost use Rattle.std.specs.Prelude.{◌≡◌, ◌<◌, IfSome, None, length, take};
ghost use Rattle.std.specs.List.{list_any};
ghost use Rattle.std.specs.Option.{option_map};
ghost use Rattle.store_kv.specs.Draft.{DraftTells, tables_of};
ghost use Rattle.store_rows.specs.Reads.{ListsAs};
ghost use Rattle.store_rows.specs.Rows.{relation_form};
ghost use Rattle.record_references.specs.Referring.{any_referring};
ghost use Rattle.record_references.specs.inner.Many.{FitsParts, FitsPlace, Scans, is_sought, kept_after, parts_bytes};
ghost use Rattle.store_abstraction.specs.Calls.{Calls, ended};
ghost use Rattle.store_abstraction.specs.Layouts.{FindsOf};

use crate::relations::{front_of, key_of};
use base_value::{Id, id_laws};
use std::alloc::Global;
use std::collections::BTreeSet;
use store_abstraction::{Layout, call_laws, local_laws};
use store_codec::shape_laws;
use store_kv::{Draft, Keeper, draft_laws, walk_laws};
use store_rows::{RelationRow, StoreFail, page_under, table_laws};

// How many rows are read at once.
const PAGE: usize = 200;

// What the keys of the rows of references in a slot of an object begin with.
fn place_of(org: u32, object: u16, slot: u8) -> (u32, (u16, u8))
    ensures is { result ≡ (org, (object, slot)) }
    ensures fits { FitsPlace (org, (object, slot)) }
{
    (org, (object, slot))
}

// A page of the rows of references in a slot, in the order of their keys: the first, or those after a key.
fn page_after<K: Keeper>(
    alloc: Global,
    draft: &mut Draft<'_, K>,
    place: &(u32, (u16, u8)),
    after: Option<&(u32, (u16, (u8, (Id, Id))))>,
) -> Result<Vec<RelationRow>, StoreFail>
    requires place { FitsPlace place.now }
    requires after { IfSome after (λ key. FitsParts key.now) }
    ensures rows { DraftTells K.state draft.old draft.new
        → ListsAs relation_form (take 200 (kept_after (tables_of K.state draft.old) place.now
        (option_map (λ key. parts_bytes key.now) after.entry))) result }
    ensures calls { Calls K.state 0 (ended result) draft.old draft.new }
{
    page_under(alloc, draft, place, after, PAGE)
}

// Whether one of these rows refers to one of the targets and is of a record that isn't left out.
fn is_one_sought(rows: &[RelationRow], targets: &BTreeSet<Id>, without: &BTreeSet<Id>) -> bool
    ensures { result ≡ list_any (is_sought targets.now.keys without.now.keys) rows.now }
{
    rows.iter().any(|row| targets.contains(&row.target) && !without.contains(&row.id))
}

// The same of all rows of references in a slot.
fn is_any_sought<K: Keeper>(
    alloc: Global,
    draft: &mut Draft<'_, K>,
    place: &(u32, (u16, u8)),
    targets: &BTreeSet<Id>,
    without: &BTreeSet<Id>,
) -> Result<bool, StoreFail>
    requires { FitsPlace place.now }
    ensures scans { DraftTells K.state draft.old draft.new
        → Scans (kept_after (tables_of K.state draft.old) place.now None) targets.now.keys without.now.keys result }
    ensures calls { Calls K.state 0 (ended result) draft.old draft.new }
{
    draft_laws::<K>();
    call_laws::<K>();
    table_laws();
    walk_laws();
    let mut last: Option<(u32, (u16, (u8, (Id, Id))))> = None;
    'pages: for _ in 0..u64::MAX {
        let rows = page_after(alloc, draft, place, last.as_ref())?;
        let Some(row) = rows.last() else {
            return Ok(false);
        };
        if is_one_sought(rows.as_slice(), targets, without) {
            return Ok(true);
        }
        let front = front_of(row.org, row.object, row.slot, &row.target);
        last = Some(key_of(&front, &row.id));
    }
    // Not reached: there are fewer rows.
    Err(StoreFail::Memory)
}

/// Whether some record of the layout's object, other than those with the ids that are left out, refers by the field with this
/// number to one of the targets. The rows of the field's references are gone through once, however many the targets are.
///
/// # Errors
///
/// As `referring`.
pub fn any_referring<K: Keeper>(
    alloc: Global,
    draft: &mut Draft<'_, K>,
    layout: &Layout,
    number: usize,
    targets: &BTreeSet<Id>,
    without: &BTreeSet<Id>,
) -> Result<bool, StoreFail>
    requires field { number < length layout.now.fields }
    ensures finds { DraftTells K.state draft.old draft.new
        → FindsOf layout.now (any_referring layout.now.object number targets.now.keys without.now.keys)
        (tables_of K.state draft.old) result }
    ensures calls { Calls K.state 0 (ended result) draft.old draft.new }
{
    table_laws();
    shape_laws();
    walk_laws();
    id_laws();
    local_laws();
    let fields = layout.fields.as_slice();
    let field = &fields[number];
    let place = place_of(layout.org, layout.object, field.slot);
    is_any_sought(alloc, draft, &place, targets, without)
}

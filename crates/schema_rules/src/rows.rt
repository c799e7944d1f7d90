//! The rows of validation rules.

ghost use Rattle.std.specs.Prelude.{◌≡◌, ◌++◌, take};
ghost use Rattle.store_kv.specs.Draft.{DraftTells, tables_of};
ghost use Rattle.store_kv.specs.Prefixes.{raised};
ghost use Rattle.store_rows.specs.Listings.{rows_to};
ghost use Rattle.store_rows.specs.Reads.{ListsAs};
ghost use Rattle.store_rows.specs.Rows.{validation_form};
ghost use Rattle.store_codec.specs.Plain.{number16, number32, number8};
ghost use Rattle.store_codec.specs.Shapes.{Both, FitsIn, Number16, Number32};
ghost use Rattle.schema_rules.specs.Rows.{rule_rows};
ghost use Rattle.schema_rules.specs.inner.Pages.{at_most};
ghost use Rattle.store_abstraction.specs.Calls.{Calls, ended};
ghost use Rattle.store_abstraction.specs.Layouts.{FindsOf};

use base_value::Items;
use std::alloc::Global;
use store_abstraction::{Layout, call_laws, local_laws, metadata_laws};
use store_codec::{Mark, shape_laws};
use store_kv::{Draft, Keeper};
use store_rows::{StoreFail, ValidationRow, listing_laws, page_under, table_laws};

// The most validation rules of an object.
const MOST_RULES: usize = 50;

// The rows that were read, unless they are more than an object may have.
fn at_most_all(
    rows: Result<Vec<ValidationRow>, StoreFail>,
) -> Result<Items<ValidationRow>, StoreFail>
    ensures { result ≡ at_most 50 rows }
{
    match rows {
        Ok(rows) => {
            if rows.len() <= MOST_RULES {
                Ok(Items::from_vec(rows))
            } else {
                Err(StoreFail::Damaged)
            }
        }
        Err(fail) => Err(fail),
    }
}

// The rows of an object's rules, in the order of their keys, and one more than it may have.
fn page_of<K: Keeper>(
    alloc: Global,
    draft: &mut Draft<'_, K>,
    org: u32,
    object: u16,
) -> Result<Vec<ValidationRow>, StoreFail>
    ensures rows { DraftTells K.state draft.old draft.new
        → ListsAs validation_form (take 51 (rows_to (tables_of K.state draft.old) 6
        (number32 org ++ (number8 0 ++ number16 object)) (raised (number32 org ++ (number8 0 ++ number16 object))))) result }
    ensures fits { FitsIn (Both Number32 Number16) (org, object) }
    ensures calls { Calls K.state 0 (ended result) draft.old draft.new }
{
    page_under(
        alloc,
        draft,
        &(org, (Mark::<0>, object)),
        None,
        MOST_RULES + 1,
    )
}

/// The rows of an object's validation rules, in the order of their lower-case names.
///
/// # Errors
///
/// `Keeper` if the keeper failed, `Memory` if out of memory, `Damaged` never if the organisation's rows stand for a tenant whose
/// layout it is.
pub fn rules_of<K: Keeper>(
    alloc: Global,
    draft: &mut Draft<'_, K>,
    layout: &Layout,
) -> Result<Items<ValidationRow>, StoreFail>
    ensures finds { DraftTells K.state draft.old draft.new
        → FindsOf layout.now (rule_rows layout.now.org layout.now.object) (tables_of K.state draft.old) result }
    ensures calls { Calls K.state 0 (ended result) draft.old draft.new }
{
    listing_laws::<ValidationRow>();
    table_laws();
    shape_laws();
    local_laws();
    metadata_laws();
    call_laws::<K>();
    at_most_all(page_of(alloc, draft, layout.org, layout.object))
}

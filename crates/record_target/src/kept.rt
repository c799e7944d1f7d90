//! A record, and the row that it has.

ghost use Rattle.std.specs.Prelude.{◌≡◌, Err, IfErr, IfOk, IfSome, Some};
ghost use Rattle.store_kv.specs.Draft.{DraftTells, tables_of};
ghost use Rattle.store_rows.specs.declared.fail.StoreFail.TheVariants.{Memory};
ghost use Rattle.store_rows.specs.Forms.{FitsForm};
ghost use Rattle.store_rows.specs.Keys.{record_key};
ghost use Rattle.store_rows.specs.Rows.{data_form};
ghost use Rattle.model.specs.Tenant.{Tenant};
ghost use Rattle.record_target.specs.Kept.{FitsKept, Keeps, kept_from};
ghost use Rattle.store_codec.specs.Shapes.{FitsIn};
ghost use Rattle.store_abstraction.specs.Calls.{Calls, ended};
ghost use Rattle.store_abstraction.specs.Layouts.{IsLayout};
ghost use Rattle.store_abstraction.specs.Local.{StandsIn};
ghost use Rattle.store_abstraction.specs.Plan.{OrgPlan};
ghost use Rattle.base_value.specs.Causes.{GivesOr};

use base_value::Id;
use model::Record;
use record_read::{data_laws, record_of};
use std::alloc::Global;
use store_abstraction::{Layout, local_laws};
use store_kv::{Draft, Keeper, key_laws};
use store_rows::{DataRow, StoreFail, row_at, row_laws};

/// A record, and its row.
#[derive(Drop)]
pub struct KeptRecord {
    pub row: DataRow,
    pub item: Record,
}

// The key of a record's row.
fn key_of(org: u32, object: u16, id: &Id) -> (u32, (u16, Id))
    ensures is { result ≡ (org, (object, id.now)) }
    ensures fits { FitsIn record_key (org, (object, id.now)) }
{
    // That these are an id's characters.
    let _ = id.as_bytes();
    (org, (object, *id))
}

// The record of a row that was read, if there is one, and the row.
fn record_with_row(
    alloc: Global,
    layout: &Layout,
    row: Result<Option<DataRow>, StoreFail>,
) -> Result<Option<KeptRecord>, StoreFail>
    requires { IfOk row (λ found. IfSome found (FitsForm data_form)) }
    ensures kept { GivesOr Memory (kept_from layout.now row) result }
    ensures form { IfOk result (λ found. IfSome found (FitsKept layout.now)) }
    ensures failed { IfErr row (λ e. result ≡ Err e) }
{
    match row {
        Ok(None) => Ok(None),
        Ok(Some(row)) => match record_of(alloc, layout, &row) {
            Ok(item) => Ok(Some(KeptRecord { row, item })),
            Err(fail) => Err(StoreFail::from(fail)),
        },
        Err(fail) => Err(fail),
    }
}

/// The record of an object that has this id, if there is one, and its row.
///
/// # Errors
///
/// `Keeper` if the keeper failed, `Memory` if out of memory, `Damaged` never if the organisation's rows stand for a tenant whose
/// layout it is.
pub fn kept_record<K: Keeper>(
    alloc: Global,
    draft: &mut Draft<'_, K>,
    layout: &Layout,
    id: &Id,
) -> Result<Option<KeptRecord>, StoreFail>
    ensures keeps { DraftTells K.state draft.old draft.new
        → (q : OrgPlan) (t : Tenant) → StandsIn layout.now.org q (tables_of K.state draft.old) (Some t) → IsLayout q t layout.now
        → Keeps q t layout.now id.now result }
    ensures form { IfOk result (λ found. IfSome found (FitsKept layout.now)) }
    ensures calls { Calls K.state 1 (ended result) draft.old draft.new }
{
    key_laws();
    row_laws::<DataRow>();
    local_laws();
    data_laws();
    let key = key_of(layout.org, layout.object, id);
    let row = row_at::<DataRow, K>(alloc, draft, &key);
    record_with_row(alloc, layout, row)
}

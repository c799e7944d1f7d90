//! The values of a row, one by one: of its own record, and of those of branches.

ghost use Rattle.std.specs.Prelude.{◌≡◌, IfOk, Option, Some};
ghost use Rattle.model.specs.Fields.{value_in};
ghost use Rattle.query_plan.specs.Checks.{site_of, spot_value};
ghost use Rattle.query_plan.specs.inner.Values.{far_value};
ghost use Rattle.query_plan.specs.Given.{GivesJust};
ghost use Rattle.model.specs.declared.record.Record.{Record};

use crate::check::{Site, Spot};
use base_value::Value;
use model::Record;
use std::alloc::{AllocError, Global};
use store_codec::CodecFail;

/// What has the values of a record. A value is made when it is asked for.
pub trait HasValues {
    // The record, unless it is damaged.
    ghost its_record: { Self → Option Record };

    /// The value that the record has at a site.
    ///
    /// # Errors
    ///
    /// `Memory` if out of memory, `Damaged` never if there is a record.
    fn value_at(&self, alloc: Global, site: Site) -> Result<Value, CodecFail>
        ensures { (r : Record) → its_record self.now ≡ Some r → GivesJust (value_in (site_of site) r) result };
}

// A copy of the value that a record has at a site.
fn value_of(alloc: Global, whose: &Record, site: Site) -> Result<Value, AllocError>
    ensures { IfOk result (λ v. v ≡ value_in (site_of site) whose.now) }
{
    match site {
        Site::Id => Ok(Value::Ref(whose.id)),
        Site::Owner => match whose.owner {
            Some(id) => Ok(Value::Ref(id)),
            None => Ok(Value::Null),
        },
        Site::Created => Ok(Value::Moment(whose.created)),
        Site::Modified => Ok(Value::Moment(whose.modified)),
        Site::Value(position) => match whose.values.as_slice().get(usize::from(position)) {
            Some(value) => value.copy(alloc),
            None => Ok(Value::Null),
        },
    }
}

impl HasValues for Record {
    ghost its_record = { λ r. Some r };

    fn value_at(&self, alloc: Global, site: Site) -> Result<Value, CodecFail> {
        Ok(value_of(alloc, self, site)?)
    }
}

// The same of one of these records; null where there is none.
fn far_value(
    alloc: Global,
    far: &[Option<Record>],
    number: usize,
    site: Site,
) -> Result<Value, AllocError>
    ensures { IfOk result (λ v. v ≡ far_value far.now number site) }
{
    match far.get(number) {
        Some(Some(whose)) => value_of(alloc, whose, site),
        _ => Ok(Value::Null),
    }
}

/// The value that a row has at a spot, by its own record and those of the plan's branches; null where a branch has no record.
///
/// # Errors
///
/// `Memory` if out of memory, `Damaged` never if the row has a record.
pub fn spot_value<V: HasValues>(
    alloc: Global,
    item: &V,
    far: &[Option<Record>],
    spot: Spot,
) -> Result<Value, CodecFail>
    ensures { (r : Record) → V.its_record item.now ≡ Some r → GivesJust (spot_value far.now r spot) result }
{
    match spot.branch {
        None => item.value_at(alloc, spot.site),
        Some(number) => Ok(far_value(alloc, far, number, spot.site)?),
    }
}

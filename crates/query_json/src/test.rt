//! Which records are rows.

ghost use Rattle.query_plan.specs.Checks.{takes};

use model::Record;
use query_exec::{Keeps, SeenRecord};
use query_plan::{Check, check_holds};
use std::alloc::Global;
use store_codec::CodecFail;

/// Records on which a condition holds, if there is one.
#[derive(Drop)]
pub(crate) struct Holding<'a> {
    pub check: &'a Option<Check>,
}

impl Keeps for Holding<'_> {
    ghost keep = { λ h parents r. takes h.check.now parents r };

    fn keeps(
        &self,
        alloc: Global,
        item: &SeenRecord<'_>,
        parents: &[Option<Record>],
    ) -> Result<bool, CodecFail> {
        check_holds(alloc, self.check, item, parents)
    }
}

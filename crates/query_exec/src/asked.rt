//! Which records are rows, and how a row is written.

ghost use Rattle.std.specs.Prelude.{◌≡◌, Bool, List, Option, Some, ℕ};
ghost use Rattle.query_plan.specs.Given.{GivesJust};
ghost use Rattle.query_plan.specs.declared.plan.Child.{Child};
ghost use Rattle.query_exec.specs.Seen.{seen_record};
ghost use Rattle.query_exec.specs.Written.{Puts};
ghost use Rattle.model.specs.declared.record.Record.{Record};

use crate::seen::SeenRecord;
use base_value::Items;
use model::Record;
use query_plan::Child;
use std::alloc::Global;
use store_codec::CodecFail;

/// A test of records.
pub trait Keeps {
    // Whether a record is a row, by the records of its parents and by itself.
    ghost keep: { Self → List (Option Record) → Record → Bool };

    /// Whether a record is a row.
    ///
    /// # Errors
    ///
    /// `Memory` if out of memory, `Damaged` never if the row spells a record.
    fn keeps(
        &self,
        alloc: Global,
        item: &SeenRecord<'_>,
        parents: &[Option<Record>],
    ) -> Result<bool, CodecFail>
        ensures { (r : Record) → seen_record item.now ≡ Some r → GivesJust (keep self.now parents.now r) result };
}

/// A form of rows.
pub trait RowForm {
    // The bytes of a record's row, by the records of its parents, its children and itself.
    ghost written: { Self → List (Option Record) → List (List Child) → Record → List ℕ };

    /// Appends the bytes of a record's row.
    ///
    /// # Errors
    ///
    /// `Memory` if out of memory, `Damaged` never if the row spells a record.
    fn write(
        &self,
        alloc: Global,
        item: &SeenRecord<'_>,
        parents: &[Option<Record>],
        children: &[Items<Child>],
        out: &mut Vec<u8>,
    ) -> Result<(), CodecFail>
        ensures { (r : Record) → seen_record item.now ≡ Some r
            → Puts (written self.now parents.now children.now r) out.old.items out.new.items result };
}

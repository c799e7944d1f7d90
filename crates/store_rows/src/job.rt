ghost use Rattle.std.specs.Prelude.{refl};
ghost use Rattle.store_rows.specs.Rows.{job_form};

use crate::form::RowForm;
use base_value::{FieldType, Id, Outcome, Phase};
use std::alloc::{AllocError, Global};
use store_codec::{CodecFail, Part, both_of};

/// A row of table 4: the change of a field's type that is under way in an organisation.
#[derive(Debug, Drop)]
pub struct JobRow {
    /// The organisation's number.
    pub org: u32,
    /// The number of the field's object.
    pub object: u16,
    /// The field's number.
    pub field: u8,
    /// The new type.
    pub kind: FieldType,
    /// The slot that is filled; while values are cleared, the one that is left.
    pub twin: u8,
    /// How far it is.
    pub phase: Phase,
    /// How it ended.
    pub outcome: Outcome,
    /// The last record that it was at.
    pub cursor: Option<Id>,
    /// The record whose value doesn't convert.
    pub failed: Option<Id>,
}

impl RowForm for JobRow {
    type Key = u32;

    ghost form = { job_form };

    ghost parts = { λ k. k };

    fn table() -> u8 {
        4
    }

    fn put_key(&self, out: &mut Vec<u8>) -> Result<(), AllocError> {
        self.org.put(out)
    }

    fn put_rest(&self, out: &mut Vec<u8>) -> Result<(), AllocError> {
        (self.object, self.field).put(out)?;
        self.kind.put(out)?;
        self.twin.put(out)?;
        (self.phase, self.outcome).put(out)?;
        (self.cursor, self.failed).put(out)
    }

    fn of_parts(alloc: Global, key: &[u8], row: &[u8]) -> Result<JobRow, CodecFail> {
        let (org, rest) = both_of::<
            Self::Key,
            (
                u16,
                (
                    u8,
                    (
                        FieldType,
                        (u8, (Phase, (Outcome, (Option<Id>, Option<Id>)))),
                    ),
                ),
            ),
        >(alloc, key, row)?;
        let (object, (field, (kind, (twin, (phase, (outcome, (cursor, failed))))))) = rest;
        Ok(JobRow {
            org,
            object,
            field,
            kind,
            twin,
            phase,
            outcome,
            cursor,
            failed,
        })
    }

    ghost key_spelled = { λ k. refl };

    ghost key_fits = { λ k f. f };
}

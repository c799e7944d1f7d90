//! Rows that are judged.

use base_value::Items;
use model::Record;
use store_kv::KeptRow;

/// A row with the records of its parents.
#[derive(Drop)]
pub(crate) struct Candidate {
    /// The row.
    pub kept: KeptRow,
    /// The records of its record's parents.
    pub parents: Items<Option<Record>>,
}

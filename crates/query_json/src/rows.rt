//! Rows in JSON.

ghost use Rattle.std.specs.Prelude.{◌∷◌};
ghost use Rattle.std.specs.Str.{encode_utf8_all};
ghost use Rattle.query_plan.specs.Shown.{row_text};
ghost use Rattle.query_json.specs.row.Shows.{shows};

use crate::row::write_row;
use api_output::RowFront;
use base_value::Items;
use model::Record;
use query_exec::{RowForm, SeenRecord};
use query_plan::{Child, Shown};
use std::alloc::Global;
use store_codec::CodecFail;

/// Rows as objects in JSON, each behind a comma.
#[derive(Drop)]
pub(crate) struct JsonRows<'a> {
    /// How each begins.
    pub front: &'a RowFront,
    /// What each shows.
    pub shown: &'a [Shown],
}

impl RowForm for JsonRows<'_> {
    ghost written = { λ f parents children r. encode_utf8_all (44 ∷ row_text shows f.front.now f.shown.now parents children r) };

    fn write(
        &self,
        alloc: Global,
        item: &SeenRecord<'_>,
        parents: &[Option<Record>],
        children: &[Items<Child>],
        out: &mut Vec<u8>,
    ) -> Result<(), CodecFail> {
        write_row(
            alloc,
            self.front,
            self.shown,
            &item.id(),
            item,
            parents,
            children,
            out,
        )
    }
}

//! Records, seen in their rows.

ghost use Rattle.std.specs.Prelude.{◌≡◌, [], IsTrue, Some, option_map, unwrap_or};
ghost use Rattle.std.specs.Str.{chars};
ghost use Rattle.query_plan.specs.Given.{GivesJust};
ghost use Rattle.record_read.specs.Decoding.{has_types, read_slot};
ghost use Rattle.formula.specs.Meaning.{value_at as value_of};
ghost use Rattle.model.specs.Fields.{as_ref};
ghost use Rattle.model.specs.declared.record.Record.{Record};
ghost use Rattle.store_codec.specs.Gives.{Gives};
ghost use Rattle.base_value.specs.Types.{is_type};

use base_value::{FieldType, Id, Value, ValueFail, read_value};
use query_plan::{HasValues, Site};
use std::alloc::Global;
use store_abstraction::Layout;
use store_codec::CodecFail;
use store_kv::KeptRow;
use store_view::RowView;

/// A record, seen in its row: a value is decoded when it is asked for.
#[derive(Drop)]
pub struct SeenRecord<'a> {
    layout: &'a Layout,
    row: RowView<'a>,
    ghost typed: { IsTrue (has_types layout.now) },
}

// A reference, or null.
fn as_ref(id: Option<Id>) -> Value
    ensures { result ≡ as_ref id }
{
    match id {
        Some(id) => Value::Ref(id),
        None => Value::Null,
    }
}

// The text in a slot: the empty one, if there is none.
fn text_of(text: Option<&str>) -> &str
    ensures { chars result.now ≡ unwrap_or (option_map (λ t. chars t.now) text.entry) [] }
{
    match text {
        Some(text) => text,
        None => "",
    }
}

// The value that the text in a slot reads as; no text reads as the empty one does.
fn read_text(alloc: Global, kind: &FieldType, text: Option<&str>) -> Result<Value, CodecFail>
    requires { IsTrue (is_type kind.now) }
    ensures { Gives result (read_slot kind.now (option_map (λ t. chars t.now) text.entry)) }
{
    match read_value(alloc, kind, text_of(text)) {
        Ok(value) => Ok(value),
        Err(ValueFail::Memory) => Err(CodecFail::Memory),
        Err(_) => Err(CodecFail::Damaged),
    }
}

impl<'a> SeenRecord<'a> {
    ghost use Rattle.query_exec.specs.Seen.{Sees, seen_record};
    ghost use Rattle.access_traits.specs.Rights.{kept_record};

    /// The record of a row that is kept, by the layout of its object, whose types are within their bounds. The row is read to its
    /// end; no value of it is.
    ///
    /// # Errors
    ///
    /// `Damaged` never if the row spells a record.
    pub(crate) fn of(layout: &'a Layout, kept: &'a KeptRow) -> Result<SeenRecord<'a>, CodecFail>
        requires { IsTrue (has_types layout.now) }
        ensures { (r : Record) → kept_record layout.now kept.now ≡ Some r → Sees r result }
    {
        match RowView::of(kept.key.as_slice(), kept.row.as_slice()) {
            Some(row) => Ok(SeenRecord { layout, row }),
            None => Err(CodecFail::Damaged),
        }
    }

    /// The record's id.
    pub fn id(&self) -> Id
        ensures { (r : Record) → seen_record self.now ≡ Some r → result ≡ r.id }
    {
        self.row.id()
    }

    // The value at a position: the name's is at 0, and those of the custom fields follow.
    fn decoded(&self, alloc: Global, position: usize) -> Result<Value, CodecFail>
        ensures { (r : Record) → seen_record self.now ≡ Some r → GivesJust (value_of r.values position) result }
    {
        if position == 0 {
            return read_text(alloc, &FieldType::Text(80), self.row.name());
        }
        match self.layout.fields.as_slice().get(position - 1) {
            Some(field) => {
                let text = self.row.slot(usize::from(field.slot));
                read_text(alloc, &field.kind, text)
            }
            None => Ok(Value::Null),
        }
    }
}

impl HasValues for SeenRecord<'_> {
    ghost use Rattle.query_exec.specs.Seen.{seen_record};

    ghost its_record = { seen_record };

    fn value_at(&self, alloc: Global, site: Site) -> Result<Value, CodecFail> {
        match site {
            Site::Id => Ok(Value::Ref(self.row.id())),
            Site::Owner => Ok(as_ref(self.row.owner())),
            Site::Created => Ok(Value::Moment(self.row.created())),
            Site::Modified => Ok(Value::Moment(self.row.modified())),
            Site::Value(position) => self.decoded(alloc, usize::from(position)),
        }
    }
}

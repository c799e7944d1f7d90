//! Rows.

ghost use Rattle.std.specs.Prelude.{◌≡◌, ◌∷◌, Some, map};
ghost use Rattle.std.specs.Str.{encode_utf8_all};
ghost use Rattle.query_plan.specs.Shown.{row_text, shown_text};
ghost use Rattle.model.specs.declared.record.Record.{Record};
ghost use Rattle.api_output.specs.Rows.{behind_commas};
ghost use Rattle.query_json.specs.row.Shows.{shows};
ghost use Rattle.query_json.specs.row.Written.{Puts};

use crate::row::children::{children_at, write_children};
use crate::row::members::write_member;
use api_output::{RowFront, write_member_start, write_row_end};
use base_json::Writer;
use base_value::{Id, Items};
use model::Record;
use query_plan::{Child, HasValues, Shown};
use std::alloc::Global;
use store_codec::CodecFail;

// One of what a row shows, behind a comma.
fn write_part<V: HasValues>(
    alloc: Global,
    writer: &mut Writer,
    part: &Shown,
    item: &V,
    parents: &[Option<Record>],
    children: &[Items<Child>],
) -> Result<(), CodecFail>
    ensures { (r : Record) → V.its_record item.now ≡ Some r
        → Puts (encode_utf8_all (44 ∷ shown_text shows parents.now children.now r part.now)) writer.old writer.new result }
{
    match part {
        Shown::Member(member) => write_member(alloc, writer, member, item, parents),
        Shown::Children {
            name,
            number,
            object,
            members,
        } => {
            let found = children_at(children, *number);
            write_member_start(alloc, writer, name.as_str())?;
            write_children(alloc, writer, object.as_str(), members.as_slice(), found)
        }
    }
}

// All that a row shows, each behind a comma.
fn write_parts<V: HasValues>(
    alloc: Global,
    writer: &mut Writer,
    shown: &[Shown],
    item: &V,
    parents: &[Option<Record>],
    children: &[Items<Child>],
) -> Result<(), CodecFail>
    ensures { (r : Record) → V.its_record item.now ≡ Some r
        → Puts (encode_utf8_all (behind_commas (map (shown_text shows parents.now children.now r) shown.now)))
        writer.old writer.new result }
{
    'shown: for part in shown {
        write_part(alloc, writer, part, item, parents, children)?;
    }
    Ok(())
}

/// Appends a row, behind a comma: its type and its address, from the front of its object's rows, and what the plan shows of it.
///
/// # Errors
///
/// `Memory` if out of memory, `Damaged` never if the row has a record.
pub fn write_row<V: HasValues>(
    alloc: Global,
    front: &RowFront,
    shown: &[Shown],
    id: &Id,
    item: &V,
    parents: &[Option<Record>],
    children: &[Items<Child>],
    out: &mut Vec<u8>,
) -> Result<(), CodecFail>
    ensures { (r : Record) → V.its_record item.now ≡ Some r → id.now ≡ r.id
        → Puts (encode_utf8_all (44 ∷ row_text shows front.now shown.now parents.now children.now r))
        out.old.items out.new.items result }
{
    front.put(id, out)?;
    let mut writer = Writer::new(alloc);
    write_parts(alloc, &mut writer, shown, item, parents, children)?;
    write_row_end(alloc, &mut writer)?;
    out.extend_from_slice(writer.finish().as_slice())?;
    Ok(())
}

//! The members of a row: values, and parents with members of their own.

ghost use Rattle.std.specs.Prelude.{◌≡◌, ◌∷◌, Some, map};
ghost use Rattle.std.specs.Option.{option_copied};
ghost use Rattle.std.specs.Str.{chars, encode_utf8_all};
ghost use Rattle.query_plan.specs.Shown.{member_text};
ghost use Rattle.model.specs.RowsJson.{member_json};
ghost use Rattle.model.specs.declared.record.Record.{Record};
ghost use Rattle.api_output.specs.Rows.{behind_commas};
ghost use Rattle.api_output.specs.Written.{Wrote};
ghost use Rattle.query_json.specs.row.Shows.{shows};
ghost use Rattle.query_json.specs.row.Written.{Puts};
ghost use Rattle.query_json.specs.row.inner.Members.{end_text, record_at};

use crate::row::values::write_field;
use api_output::{write_member_start, write_null, write_record_start, write_row_end};
use base_json::Writer;
use model::Record;
use query_plan::{HasValues, Member};
use std::alloc::{AllocError, Global};
use store_codec::CodecFail;

// The record of a branch, if there is one.
fn record_at(parents: &[Option<Record>], branch: usize) -> Option<&Record>
    ensures { option_copied result ≡ record_at parents.now branch }
{
    match parents.get(branch) {
        Some(Some(record)) => Some(record),
        _ => None,
    }
}

// A parent of which nothing is shown, behind a comma: null where there is none.
fn write_end(
    alloc: Global,
    writer: &mut Writer,
    name: &str,
    branch: usize,
    parents: &[Option<Record>],
) -> Result<(), AllocError>
    ensures { Wrote result writer.old writer.new (44 ∷ member_json (chars name.now) (end_text parents.now branch)) }
{
    write_member_start(alloc, writer, name)?;
    match record_at(parents, branch) {
        Some(_) => Ok(()),
        None => write_null(alloc, writer),
    }
}

/// A member of a row, behind a comma. Parents within it are the row's too.
#[cycle(members)]
pub(crate) fn write_member<V: HasValues>(
    alloc: Global,
    writer: &mut Writer,
    member: &Member,
    item: &V,
    parents: &[Option<Record>],
) -> Result<(), CodecFail>
    ensures { (r : Record) → V.its_record item.now ≡ Some r
        → Puts (encode_utf8_all (44 ∷ member_text shows parents.now r member.now)) writer.old writer.new result }
{
    match member {
        Member::Field { name, spot } => {
            write_field(alloc, writer, name.as_str(), *spot, item, parents)
        }
        Member::Parent {
            name,
            branch,
            object,
            members,
        } => {
            write_member_start(alloc, writer, name.as_str())?;
            let Some(parent) = record_at(parents, *branch) else {
                write_null(alloc, writer)?;
                return Ok(());
            };
            write_record_start(alloc, writer, object.as_str(), &parent.id)?;
            write_members(alloc, writer, members.as_slice(), item, parents)?;
            write_row_end(alloc, writer)?;
            Ok(())
        }
        Member::End { name, branch } => {
            write_end(alloc, writer, name.as_str(), *branch, parents)?;
            Ok(())
        }
    }
}

/// Members of a row, each behind a comma.
#[cycle(members)]
pub(crate) fn write_members<V: HasValues>(
    alloc: Global,
    writer: &mut Writer,
    members: &[Member],
    item: &V,
    parents: &[Option<Record>],
) -> Result<(), CodecFail>
    ensures { (r : Record) → V.its_record item.now ≡ Some r
        → Puts (encode_utf8_all (behind_commas (map (member_text shows parents.now r) members.now))) writer.old writer.new result }
{
    'members: for member in members {
        write_member(alloc, writer, member, item, parents)?;
    }
    Ok(())
}

//! Bodies of replies that say what was made.

ghost use Rattle.std.specs.Prelude.{◌≡◌, [], IfOk, Ok, codes, if◌then◌else◌};
ghost use Rattle.base_json.specs.Whole.{joined};
ghost use Rattle.model.specs.Paths.{Asked};
ghost use Rattle.model.specs.Replies.{made_members, reply_of};
ghost use Rattle.model.specs.RowsJson.{list_json, member_json, object_json};
ghost use Rattle.model.specs.Verdict.{made_new, upserted};
ghost use Rattle.api_output.specs.inner.Parts.{Wrote, upserted_members};

use crate::parts::{id_text, write_mark, write_name, write_text_member, write_truth_member};
use base_json::{Mark, Writer};
use base_value::{Bytes, Id};
use std::alloc::{AllocError, Global};

// The member that has no errors.
fn write_no_errors(alloc: Global, writer: &mut Writer) -> Result<(), AllocError>
    ensures { Wrote result writer.old writer.new (member_json (codes "errors") (list_json [])) }
{
    write_name(alloc, writer, "errors")?;
    write_mark(alloc, writer, Mark::OpenList)?;
    write_mark(alloc, writer, Mark::CloseList)
}

// The members of what was made, without the braces around them.
fn write_members(alloc: Global, writer: &mut Writer, id: &Id) -> Result<(), AllocError>
    ensures { Wrote result writer.old writer.new (joined (made_members id.now)) }
{
    let id = id_text(alloc, id)?;
    write_text_member(alloc, writer, "id", id.as_str())?;
    write_mark(alloc, writer, Mark::Comma)?;
    write_truth_member(alloc, writer, "success", true)?;
    write_mark(alloc, writer, Mark::Comma)?;
    write_no_errors(alloc, writer)
}

// The object of what was made.
fn write_made(alloc: Global, writer: &mut Writer, id: &Id) -> Result<(), AllocError>
    ensures { Wrote result writer.old writer.new (object_json (made_members id.now)) }
{
    write_mark(alloc, writer, Mark::OpenObject)?;
    write_members(alloc, writer, id)?;
    write_mark(alloc, writer, Mark::CloseObject)
}

// The same, and whether it is new.
fn write_upserted(
    alloc: Global,
    writer: &mut Writer,
    id: &Id,
    created: bool,
) -> Result<(), AllocError>
    ensures { Wrote result writer.old writer.new (object_json (upserted_members id.now created)) }
{
    write_mark(alloc, writer, Mark::OpenObject)?;
    write_members(alloc, writer, id)?;
    write_mark(alloc, writer, Mark::Comma)?;
    write_truth_member(alloc, writer, "created", created)?;
    write_mark(alloc, writer, Mark::CloseObject)
}

/// The body of the reply 201 to what made a record, a user, a role or a group with this id: the id with its 18 characters, and that
/// all is well.
///
/// # Errors
///
/// When out of memory.
pub fn made_body(alloc: Global, id: &Id) -> Result<Bytes, AllocError>
    ensures { IfOk result (λ body. (a : Asked) → reply_of a (Ok (made_new id.now)) ≡ record { status = 201; body = body }) }
{
    let mut writer = Writer::new(alloc);
    write_made(alloc, &mut writer, id)?;
    Ok(writer.finish())
}

/// The body of the reply to an upsert of the record with this id: 201 where it made the record, and else 200. It has the members of
/// [`made_body`], and whether the record was created.
///
/// # Errors
///
/// When out of memory.
pub fn upserted_body(alloc: Global, id: &Id, created: bool) -> Result<Bytes, AllocError>
    ensures { IfOk result (λ body. (a : Asked) → reply_of a (Ok (upserted id.now created))
        ≡ record { status = if created then 201 else 200; body = body }) }
{
    let mut writer = Writer::new(alloc);
    write_upserted(alloc, &mut writer, id, created)?;
    Ok(writer.finish())
}

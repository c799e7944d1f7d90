//! The lines that tell what became of rows.

ghost use Rattle.std.specs.Prelude.{◌≡◌, IfOk, map};
ghost use Rattle.cmd_load_plan.specs.Rows.{done_line, heading_line, line, refused_line, truth};

use base_csv::record_text;
use base_value::{Bytes, Id};
use model::Refusal;
use std::alloc::{AllocError, Global};

// The line of these cells.
fn line_of(alloc: Global, cells: &[&[u8]]) -> Result<Bytes, AllocError>
    ensures { IfOk result (λ text. text ≡ line (map (λ c. c.now) cells.now)) }
{
    let text = record_text(alloc, cells)?;
    Ok(Bytes::from_vec(text))
}

// A truth in words.
fn truth(holds: bool) -> &'static str
    ensures { result.now ≡ truth holds }
{
    if holds { "true" } else { "false" }
}

/// The first line.
///
/// # Errors
///
/// When out of memory.
pub fn heading_line(alloc: Global) -> Result<Bytes, AllocError>
    ensures { IfOk result (λ text. text ≡ heading_line) }
{
    let cells = [
        b"Row".as_slice(),
        b"Id".as_slice(),
        b"Created".as_slice(),
        b"Error".as_slice(),
    ];
    line_of(alloc, &cells)
}

/// The line of the row with this number, which made a record or changed one.
///
/// # Errors
///
/// When out of memory.
pub fn done_line(alloc: Global, number: u64, id: &Id, created: bool) -> Result<Bytes, AllocError>
    ensures { IfOk result (λ text. text ≡ done_line number id.now created) }
{
    let number = format!(in alloc; "{number}")?;
    let id = id.print18();
    let created = truth(created);
    line_of(
        alloc,
        &[
            number.as_bytes(),
            id.as_slice(),
            created.as_bytes(),
            b"".as_slice(),
        ],
    )
}

/// The line of the row with this number, which was refused.
///
/// # Errors
///
/// When out of memory.
pub fn refused_line(alloc: Global, number: u64, refusal: &Refusal) -> Result<Bytes, AllocError>
    ensures { IfOk result (λ text. text ≡ refused_line number refusal.now) }
{
    let number = format!(in alloc; "{number}")?;
    let code = refusal.code();
    line_of(
        alloc,
        &[
            number.as_bytes(),
            b"".as_slice(),
            b"".as_slice(),
            code.as_bytes(),
        ],
    )
}

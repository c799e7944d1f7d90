//! What the cells of a row give.

ghost use Rattle.std.specs.Prelude.{◌≡◌, IfOk, IsTrue, map};
ghost use Rattle.std.specs.List.{list_all};
ghost use Rattle.cmd_load_plan.specs.Rows.{given_in, given_row, has_characters};

use crate::plan::LoadColumn;
use base_json::Json;
use base_value::Text;
use model::{Assignment, Given};
use std::alloc::{AllocError, Global};

// What a cell gives.
fn given_in(alloc: Global, column: &LoadColumn, cell: &str) -> Result<Given, AllocError>
    ensures same { IfOk result (λ given. given ≡ given_in column.now cell.now) }
    ensures spelled { IfOk result (λ given. IsTrue (has_characters given)) }
{
    let text = Text::from_str(alloc, cell)?;
    match column.find {
        None => Ok(Given::Json(Json::Text(text))),
        Some(field) => Ok(Given::Find { field, text }),
    }
}

// The same, with its field.
fn assignment(alloc: Global, column: &LoadColumn, cell: &str) -> Result<Assignment, AllocError>
    ensures same { IfOk result (λ x. x ≡ record { field = column.now.field; given = given_in column.now cell.now }) }
    ensures spelled { IfOk result (λ x. IsTrue (has_characters x.given)) }
{
    let field = column.field.copy(alloc)?;
    let given = given_in(alloc, column, cell)?;
    Ok(Assignment { field, given })
}

/// What cells give, each to the field of its column. Every text among it is one of characters.
///
/// # Errors
///
/// When out of memory.
pub fn row_values(
    alloc: Global,
    columns: &[LoadColumn],
    cells: &[&str],
) -> Result<Vec<Assignment>, AllocError>
    ensures same { IfOk result (λ given. given.items ≡ given_row columns.now (map (λ c. c.now) cells.now)) }
    ensures spelled { IfOk result (λ given. IsTrue (list_all (λ x. has_characters x.given) given.items)) }
{
    let mut given = Vec::new(alloc);
    for (column, cell) in columns.iter().zip(cells) {
        given.push(assignment(alloc, column, cell)?)?;
    }
    Ok(given)
}

//! What a row gives to its record.

ghost use Rattle.std.specs.Prelude.{◌≡◌, IfOk, IsTrue};
ghost use Rattle.std.specs.List.{list_all};
ghost use Rattle.csv.specs.Records.{fields_of};
ghost use Rattle.cmd_csvq.specs.Organisation.{assignment, given_of};
ghost use Rattle.model_invariant.specs.Fit.{is_spelled};

use base_json::Json;
use base_value::Text;
use csv::StringRecord;
use model::{Assignment, Given};
use std::alloc::{AllocError, Global};

// A cell, given to the column of this name.
fn assignment(alloc: Global, name: &str, cell: &str) -> Result<Assignment, AllocError>
    ensures same { IfOk result (λ given. given ≡ assignment name.now cell.now) }
    ensures spelled { IfOk result (λ given. IsTrue (is_spelled given.given)) }
{
    let field = Text::from_str(alloc, name)?;
    let text = Text::from_str(alloc, cell)?;
    Ok(Assignment {
        field,
        given: Given::Json(Json::Text(text)),
    })
}

/// What a row gives, which has as many cells as the heading.
///
/// # Errors
///
/// If out of memory.
pub(crate) fn given_of(
    alloc: Global,
    heading: &StringRecord,
    row: &StringRecord,
) -> Result<Vec<Assignment>, AllocError>
    ensures same { IfOk result (λ given. given.items ≡ given_of (fields_of heading.now) (fields_of row.now)) }
    ensures spelled { IfOk result (λ given. IsTrue (list_all (λ x. is_spelled x.given) given.items)) }
{
    let mut given = Vec::new(alloc);
    for place in 0..heading.len() {
        let Some(name) = heading.get(place) else {
            return Ok(given);
        };
        let Some(cell) = row.get(place) else {
            return Ok(given);
        };
        given.push(assignment(alloc, name, cell)?)?;
    }
    Ok(given)
}

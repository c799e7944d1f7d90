//! What bodies say of the fields of records.

ghost use Rattle.std.specs.Prelude.{◌≡◌, IfOk, List};
ghost use Rattle.std.specs.Option.{option_map};
ghost use Rattle.model.specs.declared.record_bodies.Assignment.{Assignment};
ghost use Rattle.model.specs.Members.{assignments};
ghost use Rattle.model_requests.specs.Requests.{Request};
ghost use Rattle.api_input.specs.Bodies.{request_in, values_request};
ghost use Rattle.api_input.specs.inner.Given.{given_by, values_in};
ghost use Rattle.api_input.specs.inner.Outcomes.{Gives};
ghost use Rattle.api_input.specs.inner.Spelled.{body_of};

use crate::body::members_in;
use crate::fail::{BodyFail, or_none};
use crate::members::differ_in_any_case;
use base_json::Member;
use base_value::{Items, is_text};
use model::{Assignment, Given};
use std::alloc::{AllocError, Global};

// What members give to fields, in their order; `attributes` is passed over.
fn values_of(alloc: Global, members: Items<Member>) -> Result<Items<Assignment>, AllocError>
    ensures { IfOk result (λ values. values ≡ given_by (body_of members)) }
{
    let mut rest = members;
    let mut values = Vec::new(alloc);
    'members: while let Some(member) = rest.pop() {
        let Member { name, value } = member;
        if !is_text(&name, "attributes") {
            values.push(Assignment {
                field: name,
                given: Given::Json(value),
            })?;
        }
    }
    values.reverse();
    Ok(Items::from_vec(values))
}

#[tactic(auto, unfolding(model::specs::Members::assignments))]
fn read_values(alloc: Global, members: Items<Member>) -> Result<Items<Assignment>, BodyFail>
    ensures { Gives (λ values. values) result (assignments (body_of members)) }
{
    if differ_in_any_case(alloc, members.as_slice())? {
        Ok(values_of(alloc, members)?)
    } else {
        Err(BodyFail::Form)
    }
}

fn values_in_bytes(alloc: Global, body: &[u8]) -> Result<Items<Assignment>, BodyFail>
    ensures { Gives (λ values. values) result (values_in body.now) }
{
    read_values(alloc, members_in(alloc, body)?)
}

/// The values that the body of a create, an update or an upsert gives to the fields of a record; none if it isn't of that form.
///
/// # Errors
///
/// When out of memory.
pub fn field_values(alloc: Global, body: &[u8]) -> Result<Option<Items<Assignment>>, AllocError>
    ensures { IfOk result (λ values. (make : List Assignment → Request)
        → option_map make values ≡ request_in (values_request make) body.now) }
{
    or_none(values_in_bytes(alloc, body))
}

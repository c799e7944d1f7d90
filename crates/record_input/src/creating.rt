//! New records to which nothing is given.

ghost use Rattle.std.specs.Prelude.{◌≡◌, ◌∷◌, if◌then◌else◌, IfOk, IsTrue, Some, None, map};
ghost use Rattle.schema_rules.specs.Objects.{field_of_place, numbered_in, object_of_layout};
ghost use Rattle.model.specs.Creates.{empty_record};
ghost use Rattle.record_input.specs.inner.Fields.{new_record};
ghost use Rattle.model.specs.Fields.{is_detail};
ghost use Rattle.model.specs.Objects.{record_prefix};
ghost use Rattle.model.specs.Paths.{Asked};
ghost use Rattle.model.specs.SoundRecords.{all_valid, kinds_of};
ghost use Rattle.base_value.specs.Id.{made};
ghost use Rattle.base_value.specs.Reading.{empty_value};
ghost use Rattle.base_value.specs.declared.value.Value.TheVariants.{Null};

use crate::columns::is_detail;
use base_value::{Id, Items, Value, empty_value};
use model::Record;
use std::alloc::{AllocError, Global};
use store_abstraction::{FieldPlace, Layout};

// Null for the name, and null or false for each of these fields.
#[tactic(auto, using(crate::proofs::Judging::no_more))]
fn empty_values(alloc: Global, fields: &[FieldPlace]) -> Result<Vec<Value>, AllocError>
    ensures { IfOk result (λ vs. vs.items ≡ Null ∷ map (λ f. empty_value f.kind) (map field_of_place fields.now)) }
{
    let mut values = Vec::new(alloc);
    values.push(Value::Null)?;
    let mut rest = fields;
    'fields: while let Some((field, more)) = rest.split_first() {
        values.push(empty_value(&field.kind))?;
        rest = more;
    }
    Ok(values)
}

// The owner of a new record, which a detail doesn't have.
fn new_owner(layout: &Layout, user: Id) -> Option<Id>
    ensures { result ≡ (if is_detail (object_of_layout layout.now) then None else Some user) }
{
    if is_detail(layout) { None } else { Some(user) }
}

// A record that was made at this moment.
fn new_record(id: Id, owner: Option<Id>, now: i64, values: Vec<Value>) -> Record
    ensures { result ≡ new_record id owner now values.items }
{
    Record {
        id,
        owner,
        created: now,
        modified: now,
        values: Items::from_vec(values),
    }
}

/// A new record of an object to which nothing is given: with this id, owned by the user unless it is a detail, null or false in
/// every field, and made now.
///
/// # Errors
///
/// When out of memory.
pub fn empty_record(
    alloc: Global,
    layout: &Layout,
    id: Id,
    user: Id,
    now: i64,
) -> Result<Record, AllocError>
    ensures same { IfOk result (λ r. (a : Asked) → a.user.id ≡ user → a.now ≡ now
        → id ≡ made (record_prefix layout.now.object) a.tenant.counter
        → r ≡ empty_record a (numbered_in layout.now)) }
    ensures valid { IfOk result (λ r. IsTrue (all_valid (kinds_of (object_of_layout layout.now)) r.values)) }
{
    let values = empty_values(alloc, layout.fields.as_slice())?;
    Ok(new_record(id, new_owner(layout, user), now, values))
}

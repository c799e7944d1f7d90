//! What is given to a record, judged: to a new one, to which nothing was given, or to one that has values.

ghost use Rattle.std.specs.Prelude.{◌≡◌, ◌≢◌, IfErr, IfOk, IsTrue, map};
ghost use Rattle.std.specs.List.{list_all};
ghost use Rattle.record_read.specs.Decoding.{has_types, kinds_in};
ghost use Rattle.record_input.specs.Given.{FindsAll, IsPlain, all_given, key_of};
ghost use Rattle.store_rows.specs.declared.fail.StoreFail.TheVariants.{Keeper};
ghost use Rattle.model.specs.Paths.{Asked};
ghost use Rattle.model.specs.SoundRecords.{all_valid};
ghost use Rattle.record_target.specs.Usable.{IsUsable};
ghost use Rattle.record_save.specs.inner.Giving.{Alters, Gives, Lacks};
ghost use Rattle.schema_rules.specs.Objects.{object_of_layout};
ghost use Rattle.model_invariant.specs.Fit.{ReadsWell};
ghost use Rattle.store_abstraction.specs.Fails.{of_store};
ghost use Rattle.base_value.specs.Types.{is_type};

use base_value::{FieldType, Value, check_value};
use model::Record;
use record_input::{AllGiven, bad_fields, read_given, required_missing, with_given};
use std::alloc::Global;
use store_abstraction::{EditFail, FieldPlace, Layout};
use store_rows::StoreFail;

// The most characters of a record's name.
const MOST_IN_NAME: u8 = 80;

// Whether there is one valid value for each of these fields.
fn are_valid(fields: &[FieldPlace], values: &[Value]) -> bool
    requires { IsTrue (list_all (λ f. is_type f.kind) fields.now) }
    ensures { result ≡ all_valid (map (λ f. f.kind) fields.now) values.now }
{
    match (fields.split_first(), values.split_first()) {
        (None, None) => true,
        (Some((field, fields)), Some((value, values))) => {
            check_value(&field.kind, value).is_ok() && are_valid(fields, values)
        }
        _ => false,
    }
}

// Whether a record has a valid name, and one valid value for each of the fields.
fn has_valid_values(layout: &Layout, item: &Record) -> bool
    requires { IsTrue (has_types layout.now) }
    ensures { result ≡ all_valid (kinds_in layout.now.fields) item.now.values }
{
    match item.values.as_slice().split_first() {
        None => false,
        Some((name, values)) => {
            check_value(&FieldType::Text(MOST_IN_NAME), name).is_ok()
                && are_valid(layout.fields.as_slice(), values)
        }
    }
}

/// The record, unless a required field is null; or `Damaged` if a value isn't valid for its field's type.
pub(crate) fn unless_missing(
    alloc: Global,
    layout: &Layout,
    new: Record,
) -> Result<Record, EditFail>
    requires { IsTrue (has_types layout.now) }
    ensures lacks { IsTrue (all_valid (kinds_in layout.now.fields) new.values) → Lacks (object_of_layout layout.now) new result }
    ensures valid { IfOk result (λ r. IsTrue (all_valid (kinds_in layout.now.fields) r.values)) }
    ensures cause { IfErr result (λ e. e ≢ of_store Keeper) }
{
    match required_missing(alloc, layout, &new)? {
        None if has_valid_values(layout, &new) => Ok(new),
        None => Err(EditFail::Store(StoreFail::Damaged)),
        Some(refusal) => Err(EditFail::Refused(refusal)),
    }
}

/// The record with what is given in place of what it had, unless a name or a value that is given is refused.
///
/// # Errors
///
/// `Refused` by the first rule on names and values that refuses it. `Store` with `Memory` if out of memory.
pub(crate) fn given_record(
    alloc: Global,
    layout: &Layout,
    old: Record,
    now: i64,
    given: &AllGiven<'_>,
) -> Result<Record, EditFail>
    requires usable { IsUsable layout.now }
    requires plain { IsPlain given.now }
    ensures gives { (a : Asked) → a.now ≡ now → FindsAll a.tenant (object_of_layout layout.now) given.now
        → Gives a (object_of_layout layout.now) (key_of given.now) given.now.body.now old result }
    ensures cause { IfErr result (λ e. e ≢ of_store Keeper) }
{
    if let Some(refusal) = bad_fields(alloc, layout, given)? {
        return Err(EditFail::Refused(refusal));
    }
    match read_given(alloc, layout, given, &old)? {
        Ok(values) => Ok(with_given(old, values, now)),
        Err(refusal) => Err(EditFail::Refused(refusal)),
    }
}

/// The same, unless a required field is null then.
///
/// # Errors
///
/// `Refused` by the first rule on names, values and required fields that refuses it. `Store` with `Memory` if out of memory, with
/// `Damaged` never if valid values stay valid with what is given.
pub(crate) fn altered_record(
    alloc: Global,
    layout: &Layout,
    old: Record,
    now: i64,
    given: &AllGiven<'_>,
) -> Result<Record, EditFail>
    requires usable { IsUsable layout.now }
    requires plain { IsPlain given.now }
    requires values { IsTrue (all_valid (kinds_in layout.now.fields) old.values) }
    ensures alters { (a : Asked) → a.now ≡ now → ReadsWell a (object_of_layout layout.now) (all_given given.now)
        → FindsAll a.tenant (object_of_layout layout.now) given.now
        → Alters a (object_of_layout layout.now) (key_of given.now) given.now.body.now old result }
    ensures valid { IfOk result (λ r. IsTrue (all_valid (kinds_in layout.now.fields) r.values)) }
    ensures cause { IfErr result (λ e. e ≢ of_store Keeper) }
{
    let new = given_record(alloc, layout, old, now, given)?;
    unless_missing(alloc, layout, new)
}

//! Types as bodies spell them.

ghost use Rattle.std.specs.Prelude.{◌≡◌, ◌<◌, MatchResult, codes};
ghost use Rattle.model.specs.TypeForms as model;
ghost use Rattle.api_input.specs.declared.fail.BodyFail.TheVariants.{Form};
ghost use Rattle.api_input.specs.inner.Outcomes.{Gives};
ghost use Rattle.api_input.specs.inner.Kinds.{form_of};
ghost use Rattle.api_input.specs.inner.Names.{name_of};
ghost use Rattle.api_input.specs.inner.Said.{said};
ghost use Rattle.api_input.specs.inner.Spelled.{choice_member};

use crate::body::Body;
use crate::fail::BodyFail;
use crate::name::Name;
use base_value::{FieldType, OnDelete, is_type};
use model::SpelledType;
use std::alloc::Global;

/// Which members a type has.
#[derive(Clone, Copy, Debug)]
pub(crate) enum TypeForm {
    Text,
    Number,
    Checkbox,
    Day,
    Moment,
    Picklist,
    Lookup,
}

// A type that is no lookup, if it is within its bounds.
fn in_bounds(kind: FieldType) -> Result<SpelledType, BodyFail>
    ensures { Gives (λ t. t) result (model.in_bounds_type kind) }
{
    if is_type(&kind) {
        Ok(SpelledType::Plain(kind))
    } else {
        Err(BodyFail::Form)
    }
}

// A number that fits a byte, as all bounds of types do.
fn small(number: u128) -> Result<u8, BodyFail>
    ensures { MatchResult result (λ n. n ≡ number) (λ why. (why ≡ Form) × (255 < number)) }
{
    if number <= 255 {
        Ok(number as u8)
    } else {
        Err(BodyFail::Form)
    }
}

// `length`
fn text_type(body: &Body) -> Result<SpelledType, BodyFail>
    ensures { Gives (λ t. t) result (model.text_type (said body.now)) }
{
    body.check_form(&[Name::Kind, Name::Length], &[])?;
    let length = body.whole(Name::Length)?;
    in_bounds(FieldType::Text(small(length)?))
}

// `digits` and `decimals`
fn number_type(body: &Body) -> Result<SpelledType, BodyFail>
    ensures { Gives (λ t. t) result (model.number_type (said body.now)) }
{
    body.check_form(&[Name::Kind, Name::Digits, Name::Decimals], &[])?;
    let digits = body.whole(Name::Digits)?;
    let decimals = body.whole(Name::Decimals)?;
    in_bounds(FieldType::Number {
        digits: small(digits)?,
        decimals: small(decimals)?,
    })
}

// nothing more
fn simple_type(kind: FieldType, body: &Body) -> Result<SpelledType, BodyFail>
    ensures { Gives (λ t. t) result (model.simple_type kind (said body.now)) }
{
    body.check_form(&[Name::Kind], &[])?;
    in_bounds(kind)
}

// `values`
fn picklist_type(alloc: Global, body: &Body) -> Result<SpelledType, BodyFail>
    ensures { Gives (λ t. t) result (model.picklist_type (said body.now)) }
{
    body.check_form(&[Name::Kind, Name::Values], &[])?;
    let values = body.texts(alloc, Name::Values)?;
    in_bounds(FieldType::Picklist(values))
}

// What becomes of a lookup when its record is deleted.
fn on_delete_in(body: &Body) -> Result<OnDelete, BodyFail>
    ensures { Gives (λ o. o) result (choice_member (said body.now) (codes "onDelete") model.deletions) }
{
    body.table_entry(
        Name::OnDelete,
        &[("Clear", OnDelete::Clear), ("Restrict", OnDelete::Restrict)],
    )
}

// `object`, `onDelete` and `child`
fn lookup_type(alloc: Global, body: &Body) -> Result<SpelledType, BodyFail>
    ensures { Gives (λ t. t) result (model.lookup_type (said body.now)) }
{
    body.check_form(
        &[Name::Kind, Name::Object, Name::OnDelete, Name::Child],
        &[],
    )?;
    let object = body.text(Name::Object)?;
    let on_delete = on_delete_in(body)?;
    let child = body.text(Name::Child)?;
    Ok(SpelledType::LookupTo {
        object: object.copy(alloc)?,
        on_delete,
        child: child.copy(alloc)?,
    })
}

// The type that a body of this form spells.
fn type_by(alloc: Global, form: TypeForm, body: &Body) -> Result<SpelledType, BodyFail>
    ensures { Gives (λ t. t) result (form_of form (said body.now)) }
{
    match form {
        TypeForm::Text => text_type(body),
        TypeForm::Number => number_type(body),
        TypeForm::Checkbox => simple_type(FieldType::Checkbox, body),
        TypeForm::Day => simple_type(FieldType::Day, body),
        TypeForm::Moment => simple_type(FieldType::Moment, body),
        TypeForm::Picklist => picklist_type(alloc, body),
        TypeForm::Lookup => lookup_type(alloc, body),
    }
}

/// The form that a body's `kind` names.
fn type_form(body: &Body) -> Result<TypeForm, BodyFail>
    ensures { Gives form_of result (choice_member (said body.now) (codes "kind") model.type_forms) }
{
    body.table_entry(
        Name::Kind,
        &[
            ("Text", TypeForm::Text),
            ("Number", TypeForm::Number),
            ("Checkbox", TypeForm::Checkbox),
            ("Day", TypeForm::Day),
            ("Moment", TypeForm::Moment),
            ("Picklist", TypeForm::Picklist),
            ("Lookup", TypeForm::Lookup),
        ],
    )
}

// The type that a body spells.
fn type_of(alloc: Global, body: &Body) -> Result<SpelledType, BodyFail>
    ensures { Gives (λ t. t) result (model.type_of (said body.now)) }
{
    type_by(alloc, type_form(body)?, body)
}

/// A member that is a type.
pub(crate) fn type_in(alloc: Global, body: &Body, name: Name) -> Result<SpelledType, BodyFail>
    ensures { Gives (λ t. t) result (model.type_member (said body.now) (name_of name)) }
{
    type_of(alloc, &body.object(name)?)
}

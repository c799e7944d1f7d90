//! The formulas of validation rules and of criteria rules, read by the layouts of their objects.

ghost use Rattle.std.specs.Prelude.{◌+◌, ◌≡◌, ◌≤◌, IfOk, Ok, length, map, nat_lt};
ghost use Rattle.std.specs.Str.{chars};
ghost use Rattle.base_grammar.specs.Place.{UnlessMemory};
ghost use Rattle.model.specs.FormulaTexts.{as_named, formula_fields, name_field, reads_text};
ghost use Rattle.model.specs.Limits.{formula_limit};
ghost use Rattle.model.specs.RuleFormulas.{formula_of, names_field};
ghost use Rattle.schema_rules.specs.Objects.{field_of_place, object_of_layout};

use base_grammar::ParseFail;
use base_value::{FieldType, Items, Text, character_count};
use formula::{Fields, Formula, NamedField, names};
use formula_parser::parse;
use model::FORMULA_LIMIT;
use std::alloc::{AllocError, Global};
use store_abstraction::{FieldPlace, Layout};

// The name of a record, as formulas see it.
fn name_field(alloc: Global) -> Result<NamedField, AllocError>
    ensures { IfOk result (λ f. f ≡ name_field) }
{
    Ok(NamedField {
        name: Text::from_str(alloc, "Name")?,
        kind: FieldType::Text(80),
    })
}

// A custom field, as formulas see it.
fn named_field(alloc: Global, field: &FieldPlace) -> Result<NamedField, AllocError>
    ensures { IfOk result (λ f. f ≡ as_named (field_of_place field.now)) }
{
    Ok(NamedField {
        name: field.name.copy(alloc)?,
        kind: field.kind.copy(alloc)?,
    })
}

// The fields that a formula over an object with these custom fields may name.
fn formula_fields(alloc: Global, fields: &[FieldPlace]) -> Result<Fields, AllocError>
    ensures { IfOk result (λ f. f.items ≡ formula_fields (map field_of_place fields.now)) }
{
    let mut items = Items::new(alloc);
    items.push(name_field(alloc)?)?;
    for field in fields {
        items.push(named_field(alloc, field)?)?;
    }
    Ok(Fields { items })
}

// Whether the text of a formula has too many characters.
fn is_too_long(text: &str) -> bool
    ensures { result ≡ nat_lt formula_limit (length (chars text.now)) }
{
    character_count(text) > FORMULA_LIMIT
}

/// The formula that a text spells over the fields of an object, whatever its length: in a criteria rule, or else in a validation
/// rule, which may also ask what the record was.
///
/// # Errors
///
/// `Malformed` with its place if the text spells none; `Memory` if out of memory.
pub fn read_text(
    alloc: Global,
    layout: &Layout,
    criteria: bool,
    text: &str,
) -> Result<Formula, ParseFail>
    requires { length layout.now.fields ≤ 40 }
    ensures { UnlessMemory result (λ read. reads_text (object_of_layout layout.now) criteria (chars text.now) ≡ read) }
{
    match formula_fields(alloc, layout.fields.as_slice()) {
        Ok(fields) => parse(alloc, text, &fields, criteria),
        Err(_) => Err(ParseFail::Memory),
    }
}

/// The formula that the text of a criteria rule, or else of a validation rule, spells over the fields of its object.
///
/// # Errors
///
/// `Malformed` with its place if the text spells none, or 0 if it has too many characters; `Memory` if out of memory.
pub fn read_formula(
    alloc: Global,
    layout: &Layout,
    criteria: bool,
    text: &str,
) -> Result<Formula, ParseFail>
    requires { length layout.now.fields ≤ 40 }
    ensures { UnlessMemory result (λ read. formula_of (object_of_layout layout.now) criteria (chars text.now) ≡ read) }
{
    if is_too_long(text) {
        Err(ParseFail::Malformed(0))
    } else {
        read_text(alloc, layout, criteria, text)
    }
}

/// Whether a formula names the custom field with this number.
///
/// # Errors
///
/// When out of memory.
pub fn names_field(alloc: Global, formula: &Formula, field: u8) -> Result<bool, AllocError>
    ensures { IfOk result (λ b. b ≡ names_field (field + 1) (Ok formula.now)) }
{
    let positions = names(alloc, formula)?;
    Ok(
        positions
            .iter()
            .any(|position| u16::from(*position) == u16::from(field) + 1),
    )
}

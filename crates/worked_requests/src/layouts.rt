//! Layouts of objects.

use crate::line::{first_of, org};
use base_value::{Access, FieldType, Id, OnDelete, Phase};
use std::alloc::{AllocError, Global};
use store_abstraction::{FieldPlace, JobPlace, Layout, layout_at, layout_named, layouts};
use store_kv::{Draft, MemoryKeeper};
use store_rows::StoreFail;

fn access_name(access: Access) -> &'static str {
    match access {
        Access::Private => "Private",
        Access::Read => "Read",
        Access::ReadWrite => "ReadWrite",
        Access::ControlledByParent => "ControlledByParent",
    }
}

fn on_delete_name(on_delete: OnDelete) -> &'static str {
    match on_delete {
        OnDelete::Clear => "Clear",
        OnDelete::Restrict => "Restrict",
    }
}

fn phase_name(phase: Phase) -> &'static str {
    match phase {
        Phase::Copy => "Copy",
        Phase::Clear => "Clear",
        Phase::Done => "Done",
    }
}

fn shown_lookup(alloc: Global, object: u16, on_delete: OnDelete) -> Result<String, AllocError> {
    let on_delete = on_delete_name(on_delete);
    format!(in alloc; "Lookup {object} {on_delete}")
}

fn shown_type(alloc: Global, kind: &FieldType) -> Result<String, AllocError> {
    match kind {
        FieldType::Text(most) => format!(in alloc; "Text {most}"),
        FieldType::Number { digits, decimals } => format!(in alloc; "Number {digits} {decimals}"),
        FieldType::Checkbox => String::from_str(alloc, "Checkbox"),
        FieldType::Day => String::from_str(alloc, "Day"),
        FieldType::Moment => String::from_str(alloc, "Moment"),
        FieldType::Picklist(_) => String::from_str(alloc, "Picklist"),
        FieldType::Lookup { object, on_delete } => shown_lookup(alloc, *object, *on_delete),
        FieldType::Master { object } => format!(in alloc; "Master {object}"),
    }
}

// A word if a flag is set.
fn flag(is_set: bool, word: &'static str) -> &'static str {
    if is_set { word } else { "" }
}

fn shown_flags(alloc: Global, field: &FieldPlace) -> Result<String, AllocError> {
    let required = flag(field.required, " required");
    let unique = flag(field.unique, " unique");
    let indexed = flag(field.indexed, " indexed");
    format!(in alloc; "{required}{unique}{indexed}")
}

// `; `, and the field's name, type and flags, its slot, and what is called by its relationship.
fn shown_field(alloc: Global, field: &FieldPlace) -> Result<String, AllocError> {
    let name = field.name.as_str();
    let kind = shown_type(alloc, &field.kind)?;
    let flags = shown_flags(alloc, field)?;
    let slot = field.slot;
    let child = match &field.child {
        Some(child) => child.as_str(),
        None => "",
    };
    format!(in alloc; "; {slot} {name} {kind}{flags} {child}")
}

fn id_text(id: Option<&Id>) -> &str {
    match id {
        Some(id) => str::from_utf8(id.as_bytes()).unwrap_or("?"),
        None => "none",
    }
}

// `; `, and the field whose type is changed, the type, the slot, how far it is, and the record that it was at.
fn shown_job(alloc: Global, job: &JobPlace) -> Result<String, AllocError> {
    let field = job.field;
    let kind = shown_type(alloc, &job.kind)?;
    let twin = job.twin;
    let phase = phase_name(job.phase);
    let cursor = id_text(job.cursor.as_ref());
    format!(in alloc; "; field {field} to {kind} in {twin}: {phase} at {cursor}")
}

// The organisation, the object, its name and its access.
fn shown_object(alloc: Global, layout: &Layout) -> Result<String, AllocError> {
    let org = layout.org;
    let object = layout.object;
    let name = layout.name.as_str();
    let access = access_name(layout.access);
    format!(in alloc; "{org} {object} {name} {access}")
}

fn shown(alloc: Global, layout: &Layout) -> Result<String, AllocError> {
    let mut all = shown_object(alloc, layout)?;
    for field in layout.fields.as_slice() {
        let shown = shown_field(alloc, field)?;
        all.push_str(shown.as_str().trim_end())?;
    }
    if let Some(job) = &layout.job {
        all.push_str(shown_job(alloc, job)?.as_str())?;
    }
    Ok(all)
}

fn shown_or_none(alloc: Global, found: Option<Layout>) -> Result<String, AllocError> {
    match found {
        Some(layout) => shown(alloc, &layout),
        None => String::from_str(alloc, "none"),
    }
}

/// The layout of an object: the organisation and the object's number.
pub(crate) fn at(
    alloc: Global,
    keeper: &mut MemoryKeeper,
    arguments: &str,
) -> Result<String, StoreFail> {
    let (digits, object) = first_of(arguments);
    let object = object.parse::<u16>().unwrap_or(0);
    let mut draft = Draft::new(alloc, keeper);
    let found = layout_at(alloc, &mut draft, org(digits), object)?;
    Ok(shown_or_none(alloc, found)?)
}

/// The layout of an object: the organisation and the object's name.
pub(crate) fn named(
    alloc: Global,
    keeper: &mut MemoryKeeper,
    arguments: &str,
) -> Result<String, StoreFail> {
    let (digits, name) = first_of(arguments);
    let mut draft = Draft::new(alloc, keeper);
    let found = layout_named(alloc, &mut draft, org(digits), name)?;
    Ok(shown_or_none(alloc, found)?)
}

fn joined(alloc: Global, layouts: &[Layout]) -> Result<String, AllocError> {
    let mut all = String::new(alloc);
    for layout in layouts {
        if !all.is_empty() {
            all.push_str(" | ")?;
        }
        all.push_str(shown(alloc, layout)?.as_str())?;
    }
    Ok(all)
}

/// The layouts of an organisation's objects.
pub(crate) fn all(
    alloc: Global,
    keeper: &mut MemoryKeeper,
    digits: &str,
) -> Result<String, StoreFail> {
    let mut draft = Draft::new(alloc, keeper);
    let found = layouts(alloc, &mut draft, org(digits))?;
    Ok(joined(alloc, found.as_slice())?)
}

//! Bodies of requests, and what each says; `none` if it isn't of its form.

use api_input::{new_field, new_object};
use base_value::{Access, FieldType, OnDelete, Text};
use model::{NewField, NewMaster, NewObject, SpelledType};
use std::alloc::{AllocError, Global};

fn join(alloc: Global, texts: &[Text], between: &str) -> Result<String, AllocError> {
    let mut all = String::new(alloc);
    for text in texts {
        if !all.is_empty() {
            all.push_str(between)?;
        }
        all.push_str(text.as_str())?;
    }
    Ok(all)
}

/// How an access is written.
pub(crate) fn access_name(access: Access) -> &'static str {
    match access {
        Access::Private => "Private",
        Access::Read => "Read",
        Access::ReadWrite => "ReadWrite",
        Access::ControlledByParent => "ControlledByParent",
    }
}

fn shown_master(alloc: Global, master: &NewMaster) -> Result<String, AllocError> {
    let field = master.field.as_str();
    let parent = master.parent.as_str();
    let child = master.child.as_str();
    format!(in alloc; " {field} {parent} {child}")
}

fn shown_object(alloc: Global, new: &NewObject) -> Result<String, AllocError> {
    let members = join(alloc, new.members.as_slice(), " ")?;
    let name = new.name.as_str();
    let access = access_name(new.access);
    let hierarchy = if new.hierarchy {
        ""
    } else {
        " without hierarchy"
    };
    let master = match &new.master {
        Some(master) => shown_master(alloc, master)?,
        None => String::new(alloc),
    };
    format!(in alloc; "{name} {access}{hierarchy} [{members}]{master}")
}

fn shown_picklist(alloc: Global, values: &[Text]) -> Result<String, AllocError> {
    let values = join(alloc, values, ",")?;
    format!(in alloc; "Picklist {values}")
}

fn shown_type(alloc: Global, kind: &FieldType) -> Result<String, AllocError> {
    match kind {
        FieldType::Text(most) => format!(in alloc; "Text {most}"),
        FieldType::Number { digits, decimals } => format!(in alloc; "Number {digits} {decimals}"),
        FieldType::Picklist(values) => shown_picklist(alloc, values.as_slice()),
        FieldType::Checkbox => String::from_str(alloc, "Checkbox"),
        FieldType::Day => String::from_str(alloc, "Day"),
        FieldType::Moment => String::from_str(alloc, "Moment"),
        FieldType::Lookup { .. } | FieldType::Master { .. } => String::from_str(alloc, "Reference"),
    }
}

fn on_delete_name(on_delete: OnDelete) -> &'static str {
    match on_delete {
        OnDelete::Clear => "Clear",
        OnDelete::Restrict => "Restrict",
    }
}

/// A type as it is spelled: its kind, and what else it has.
pub(crate) fn shown_kind(alloc: Global, kind: &SpelledType) -> Result<String, AllocError> {
    match kind {
        SpelledType::Plain(kind) => shown_type(alloc, kind),
        SpelledType::LookupTo {
            object,
            on_delete,
            child,
        } => {
            let object = object.as_str();
            let on_delete = on_delete_name(*on_delete);
            let child = child.as_str();
            format!(in alloc; "Lookup {object} {on_delete} {child}")
        }
    }
}

// A word if a flag is set.
fn flag(is_set: bool, word: &'static str) -> &'static str {
    if is_set { word } else { "" }
}

fn shown_flags(alloc: Global, new: &NewField) -> Result<String, AllocError> {
    let required = flag(new.required, " required");
    let unique = flag(new.unique, " unique");
    let indexed = flag(new.indexed, " indexed");
    format!(in alloc; "{required}{unique}{indexed}")
}

fn shown_field(alloc: Global, new: &NewField) -> Result<String, AllocError> {
    let object = new.object.as_str();
    let name = new.name.as_str();
    let kind = shown_kind(alloc, &new.kind)?;
    let flags = shown_flags(alloc, new)?;
    let members = join(alloc, new.members.as_slice(), " ")?;
    format!(in alloc; "{object} {name} {kind}{flags} [{members}]")
}

/// A new object: its name, its access, that its records aren't for those above in the hierarchy, the names of all members, and
/// of a detail the field, the parent and the child.
pub(crate) fn object(alloc: Global, body: &[u8]) -> Result<String, AllocError> {
    match new_object(alloc, body)? {
        Some(new) => shown_object(alloc, &new),
        None => String::from_str(alloc, "none"),
    }
}

/// A new field: the object, the name, the type, the flags that are set, and the names of the members.
pub(crate) fn field(alloc: Global, body: &[u8]) -> Result<String, AllocError> {
    match new_field(alloc, body)? {
        Some(new) => shown_field(alloc, &new),
        None => String::from_str(alloc, "none"),
    }
}

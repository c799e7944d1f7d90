//! The fields of the object over which formulas are read.

use base_value::{FieldType, Items, OnDelete, Text};
use formula::{Fields, NamedField};
use std::alloc::{AllocError, Global};

/// A text, a picklist, a number, a truth value, a day, a moment, a reference and another text.
pub(crate) const NAMES: &str =
    "Name Stage__c Amount__c Closed__c Day__c Begins__c Account__c Street__c";

fn stages(alloc: Global) -> Result<FieldType, AllocError> {
    let mut texts = Items::new(alloc);
    for stage in "Open Won".split(' ') {
        texts.push(Text::from_str(alloc, stage)?)?;
    }
    Ok(FieldType::Picklist(texts))
}

/// The type of the field of this name.
pub(crate) fn kind_of(alloc: Global, name: &str) -> Result<FieldType, AllocError> {
    match name {
        "Name" => Ok(FieldType::Text(80)),
        "Stage__c" => stages(alloc),
        "Amount__c" => Ok(FieldType::Number {
            digits: 18,
            decimals: 8,
        }),
        "Closed__c" => Ok(FieldType::Checkbox),
        "Day__c" => Ok(FieldType::Day),
        "Begins__c" => Ok(FieldType::Moment),
        "Account__c" => Ok(FieldType::Lookup {
            object: 1,
            on_delete: OnDelete::Clear,
        }),
        _ => Ok(FieldType::Text(40)),
    }
}

fn field(alloc: Global, name: &str) -> Result<NamedField, AllocError> {
    let kind = kind_of(alloc, name)?;
    let name = Text::from_str(alloc, name)?;
    Ok(NamedField { name, kind })
}

/// The fields.
pub(crate) fn fields(alloc: Global) -> Result<Fields, AllocError> {
    let mut items = Items::new(alloc);
    for name in NAMES.split(' ') {
        items.push(field(alloc, name)?)?;
    }
    Ok(Fields { items })
}

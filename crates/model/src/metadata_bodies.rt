//! What bodies say of new objects, fields and validation rules. That members of a new object or field are judged in the body's
//! order is why their names are held too.

use base_value::{Access, FieldType, Items, OnDelete, Text};

/// What a body says of a new object.
#[derive(Debug, Drop)]
pub struct NewObject {
    /// The names of the body's members in their order; those of `master` are in its place.
    pub members: Items<Text>,
    /// Its name.
    pub name: Text,
    /// What every user may do with its records.
    pub access: Access,
    /// Whether who is above others in the role hierarchy gets what they have.
    pub hierarchy: bool,
    /// Its master, where it is a detail.
    pub master: Option<NewMaster>,
}

/// What a body says of an object that is to be changed: at least one of these, and what it doesn't say stays.
#[derive(Clone, Copy, Debug, PartialEq, Eq)]
pub struct ObjectChange {
    /// What every user may do with its records.
    pub access: Option<Access>,
    /// Whether who is above others in the role hierarchy gets what they have.
    pub hierarchy: Option<bool>,
}

/// What a body says of the master of a new detail.
#[derive(Debug, Drop)]
pub struct NewMaster {
    /// The name of the detail's Master field.
    pub field: Text,
    /// The name of the object of its masters.
    pub parent: Text,
    /// What details are called there.
    pub child: Text,
}

/// What a body says of a new field.
#[derive(Debug, Drop)]
pub struct NewField {
    /// The names of the body's members in their order.
    pub members: Items<Text>,
    /// The name of its object.
    pub object: Text,
    /// Its name.
    pub name: Text,
    /// Its type.
    pub kind: SpelledType,
    /// Whether a record must have a value.
    pub required: bool,
    /// Whether no two records may have equal values.
    pub unique: bool,
    /// Whether its values are indexed.
    pub indexed: bool,
}

/// A type as a body spells it.
#[derive(Debug, Drop)]
pub enum SpelledType {
    /// One that refers to no object.
    Plain(FieldType),
    /// A reference to the object with this name.
    LookupTo {
        /// The object's name.
        object: Text,
        /// What becomes of the reference when its record is deleted.
        on_delete: OnDelete,
        /// What the records with the reference are called there.
        child: Text,
    },
}

/// What a body says of a new validation rule.
#[derive(Debug, Drop)]
pub struct NewValidationRule {
    /// The name of its object.
    pub object: Text,
    /// Its name.
    pub name: Text,
    /// The text of its formula, which holds on what is refused.
    pub formula: Text,
    /// What is said of what is refused.
    pub message: Text,
}

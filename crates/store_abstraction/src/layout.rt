//! Layouts: what is known of an object when its records are read and written.

use base_value::{Access, FieldType, Id, Items, Phase, Text};

/// An object, its fields with their slots, and the change of a field's type that is made on it.
#[derive(Debug, Drop)]
pub struct Layout {
    /// The organisation's number.
    pub org: u32,
    /// The object's number.
    pub object: u16,
    /// Its name.
    pub name: Text,
    /// What every user may do with its records.
    pub access: Access,
    /// Whether who is above others in the role hierarchy gets what they have.
    pub hierarchy: bool,
    /// Its custom fields, in their order.
    pub fields: Items<FieldPlace>,
    /// The change of a type of one of its fields, if the organisation's last is of this object.
    pub job: Option<JobPlace>,
}

/// A field, and the slot that holds its values.
#[derive(Debug, Drop)]
pub struct FieldPlace {
    /// Its name.
    pub name: Text,
    /// Its type.
    pub kind: FieldType,
    /// Whether a record must have a value.
    pub required: bool,
    /// Whether no two records may have equal values.
    pub unique: bool,
    /// Whether its values are indexed.
    pub indexed: bool,
    /// The slot, below 48.
    pub slot: u8,
    /// The name of the relationship from a reference's target to its records.
    pub child: Option<Text>,
}

/// A change of a field's type, and the slot that it fills or clears.
#[derive(Debug, Drop)]
pub struct JobPlace {
    /// The field's number among the custom fields, from 0.
    pub field: u8,
    /// The type of what is in its slot: the new type, or after a switch the type that the field had.
    pub kind: FieldType,
    /// The slot that is filled; once nothing more is copied, the one that is cleared.
    pub twin: u8,
    /// How far it is.
    pub phase: Phase,
    /// The last record that it was at.
    pub cursor: Option<Id>,
}

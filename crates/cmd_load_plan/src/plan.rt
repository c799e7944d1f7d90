//! How a CSV text is loaded: what the cells of each row give.

use base_value::{Items, Text};

/// A column: the field to which its cells give values.
#[derive(Debug, Drop)]
pub struct LoadColumn {
    /// The field's name, as it is declared.
    pub field: Text,
    /// If the field is a reference whose records are found by a unique field of their object: the place of that field among the
    /// custom fields of its object, from 0.
    pub find: Option<u8>,
}

/// How a CSV text is loaded into an object.
#[derive(Debug, Drop)]
pub struct LoadPlan {
    /// The object's name, as it is declared.
    pub object: Text,
    /// If each row is an upsert: the name of the unique field whose value the first cell has.
    pub key: Option<Text>,
    /// The columns, in the order of the heading.
    pub columns: Items<LoadColumn>,
}

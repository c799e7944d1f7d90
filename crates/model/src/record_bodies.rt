//! What edits say of the fields of records.

use base_json::Json;
use base_value::{Text, Value};

/// What is given to a field.
#[derive(Debug, Drop)]
pub enum Given {
    /// A value, which was read already.
    Read(Value),
    /// A value in JSON.
    Json(Json),
    /// To a reference: the record of its target whose unique field has the value of the text.
    Find {
        /// The place of the unique field among the custom fields of the target, from 0.
        field: u8,
        /// The text.
        text: Text,
    },
}

/// A field, and what is given to it.
#[derive(Debug, Drop)]
pub struct Assignment {
    /// The field's name.
    pub field: Text,
    /// What is given to it.
    pub given: Given,
}

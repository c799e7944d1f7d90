//! What a body, and the key of an upsert, give to the fields of a record, judged by the layout of the record's object.
//!
//! It depends on `store_abstraction` for layouts and on `model` for the definitions; it reads no table. Its contract: what it refuses,
//! and the values and the records that it returns, are those of the definitions of edits, for the object that the layout spells.
#![tactic(auto)]

mod columns;
mod creating;
mod found;
mod given;
mod json;
mod key;
mod laws;
mod members;
mod numbering;
mod reading;
mod required;
mod texts;
mod unread;

pub use crate::columns::{Column, column_named};
pub use crate::creating::empty_record;
pub use crate::found::Found;
pub use crate::given::{GivenValues, read_given, with_given};
pub use crate::key::{AllGiven, UpsertKey, declared_name, key_value, unique_named};
pub use crate::laws::given_laws;
pub use crate::members::bad_fields;
pub use crate::numbering::numbered_id;
pub use crate::required::required_missing;

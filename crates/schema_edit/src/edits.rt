//! An administrator's edits of metadata.

mod accepting;
mod access;
mod copies;
mod fields;
mod objects;
mod reading;
mod removing;
mod validation;

pub use self::access::SetObject;
pub use self::fields::AddField;
pub use self::objects::AddObject;
pub use self::removing::RemoveValidationRule;
pub use self::validation::AddValidationRule;

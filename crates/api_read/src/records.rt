//! Reads of records: by id, by a unique value, and of their manual shares.

mod by_id;
mod by_value;
mod columns;
mod fields;
mod finding;
mod parts;
mod shares;

pub(crate) use self::by_id::RecordById;
pub(crate) use self::by_value::RecordByValue;
pub(crate) use self::shares::SharesOf;

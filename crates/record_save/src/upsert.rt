//! Upserts of records: the one that has a value in a unique field gets other values, or one is made with it.
//!
//! It depends on `record_target` for the layout of the object and for the record that is found, on `record_input` for the unique field and its
//! value, on `record_constraints` for the record that has the value, on `record_save` for what is made of it, and on `model_invariant` for the tenant
//! that an upsert leaves. Its contract is that of `Edit`: an upsert is judged by its verdict, and its changes take the organisation's
//! rows to those of what the verdict leaves.

mod finding;
mod upsert;
mod upserting;

pub use self::finding::{FoundKey, found_key, found_record};
pub use self::upsert::{Upsert, Upserted};

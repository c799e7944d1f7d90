//! An organisation of a command's own: in tables in memory, with an administrator who asks for everything.
//!
//! It depends on `people_edit`, `schema_edit`, `record_save`, `retype_request` and `retype_step` for what is made in it, and on `query_csv` for
//! what a query finds in it. Its contract: after each call the organisation stands for what the verdict of the model leaves, and a query comes
//! to what the model says of it.
#![tactic(auto)]

mod answering;
mod organisation;
mod query;
mod records;
mod requests;
mod stepping;

pub use crate::answering::answer;
pub use crate::organisation::{make_org, only_name};
pub use crate::query::query_of;
pub use crate::records::{make_record, make_record_of, ready_object};
pub use crate::requests::{begin_change, make_field, make_object};
pub use crate::stepping::{change, make_step};

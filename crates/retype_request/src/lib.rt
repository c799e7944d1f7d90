//! The change of a field's type: how it begins, how it is called off, and how far it is.
//!
//! It depends on `store_abstraction` and `store_edit` for rows, on `schema_rules` and `people_rows` for the rules whose formulas may name the field,
//! and on `retype_cutover` for which rows differ. Its contract: each edit is that of `Edit`, by its verdict; and where an organisation's
//! rows stand for a tenant, what is told of its change is what the tenant has.
#![tactic(auto)]

mod beginning;
mod cancelling;
mod columns;
mod judging;
mod rows;
mod rules;
mod state;

pub use crate::beginning::BeginRetype;
pub use crate::cancelling::CancelRetype;
pub use crate::state::{ChangeState, change_state};

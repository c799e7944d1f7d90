//! Edits of records: new ones, other values for one, and upserts; and the laws of the rows of a record that comes or changes.
//!
//! It depends on `access_traits` for what who asks may do, on `record_target` for the record that is named, on `record_input`, `schema_rules` and
//! `record_constraints` for the rules, on `record_index` for the rows of a record and for those that differ, and on `model_invariant` for the tenant that an edit leaves. Its contract
//! is that of `Edit`: a create or an update is judged by its verdict, and its changes take the organisation's rows to those of what
//! the verdict leaves. `decide_create` and `decide_update` are the same for an object, and a record, that were read before, also with the
//! key of an upsert.
#![tactic(auto)]

mod altering;
mod create;
mod creating;
mod giving;
mod laws;
mod levels;
mod object;
mod others;
mod shares;
mod staying;
mod update;
mod updating;
mod upsert;

pub use crate::create::Create;
pub use crate::creating::decide_create;
pub use crate::laws::{create_laws, update_laws};
pub use crate::update::Update;
pub use crate::updating::decide_update;
pub use crate::upsert::{FoundKey, Upsert, Upserted, found_key, found_record};

//! The model: what an organisation is, who calls it, who may do what with a record, what a query finds, what a request asks
//! for and what it is answered, as plain types and definitions.
//!
//! It depends on `base_value`, on `base_json` for the bodies of refusals, on `sha2` for the digest of a secret, on `soql` for
//! queries, on `form_urlencoded` for their text in a target, and on `formula` for the formulas of criteria. Its contract:
//! a refusal's code, status, message and body are those of the definitions, and so are the ids of organisations and of their
//! first users; the step of the world is a function of the organisation that the message's key names; members and their like
//! are least relations, and rows have one order.
#![tactic(auto)]

mod access;
mod body;
mod caller;
mod ids;
mod laws;
mod level_rows;
mod limit;
mod message;
mod metadata_bodies;
mod name_forms;
mod people_bodies;
mod premises;
mod query_rows;
mod reading;
mod record;
mod record_bodies;
mod refusal;
mod reply;
mod sharing_bodies;
mod steps;

pub use crate::access::{access_laws, condition_laws, sorting_laws};
pub use crate::body::damaged_body;
pub use crate::caller::Caller;
pub use crate::ids::{first_user_id, org_id, org_number};
pub use crate::laws::{model_rows, name_laws};
pub use crate::level_rows::{hierarchy_rows, rule_rows, share_rows};
pub use crate::limit::{
    BODY_LIMIT, DELETION_LIMIT, FORMULA_LIMIT, INPUT_LIMIT, Limit, NAME_LIMIT, REPLY_LIMIT,
    SECRET_LEAST, SECRET_MOST, STEM_LIMIT,
};
pub use crate::metadata_bodies::{
    NewField, NewMaster, NewObject, NewValidationRule, ObjectChange, SpelledType,
};
pub use crate::name_forms::{is_child_name, is_custom_name, is_name, is_stem, same_name};
pub use crate::people_bodies::{
    GroupChange, NewUser, PrincipalKind, RoleChange, Spelled, UserChange,
};
pub use crate::premises::law_rows;
pub use crate::query_rows::{condition_rows, path_rows, sorted_rows};
pub use crate::reading::{administrator_laws, object_laws, organisation_laws, record_laws};
pub use crate::record::Record;
pub use crate::record_bodies::{Assignment, Given};
pub use crate::refusal::Refusal;
pub use crate::reply::Reply;
pub use crate::sharing_bodies::{NewShare, NewSharingRule, SpelledSource};
pub use crate::steps::{answering_laws, change_laws, step_rows, tenant_laws};

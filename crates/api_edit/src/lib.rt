//! Requests for edits, of objects, fields and their types, rules, records, shares and people, from the route and the body to the reply.
//!
//! It depends on `api_input` for what bodies say, on `access_traits` for what who asks may do, on `schema_edit`, `record_save`,
//! `record_delete`, `access_rules`, `access_shares`, `people_edit` and `retype_request` for the edits, and on `api_output` for what was made or
//! upserted. Its contract: over tables in which the organisation's rows stand for a tenant of whose user, the caller, these are the
//! rights, the reply is that of the request's verdict, and its rows then stand for what the verdict leaves.
#![tactic(auto)]

mod answer;
mod bodies;
mod edits;
mod people;
mod records;
mod removals;
mod replies;
mod requests;
mod retyping;
mod rules;
mod sharing;

pub use crate::records::moment;
pub use crate::requests::administer;

//! Requests: what a method, a target and a body ask for, what each request comes to, and the step of the world by all of them.
//!
//! It depends on `model`, which has the verdict of each request but the end of a role and of a group, and on `model_invariant`, whose
//! laws say of each of those that changes anything that a sound organisation stays sound; the verdicts and the law of these two are
//! here. A further route is a line of `Routing`, a case of `Request` and of `verdict_on`, and a form of its body, and nothing below
//! changes for it. Its contract: the step is a function of the organisation that the message's key names, no other organisation
//! changes, and sound organisations stay sound.
#![tactic(auto)]

mod answers;
mod body_rows;
mod fits;
mod job_rows;
mod laws;
mod reading;
mod record_rows;
mod refusal_rows;
mod removals;
mod request_rows;
mod route;
mod routed;
mod routing_rows;
mod verdicts;

pub use crate::answers::{answers_sound, world_sound};
pub use crate::body_rows::{form_rows, spelling_rows};
pub use crate::fits::requests_fit;
pub use crate::job_rows::{limit_rows, retype_rows, stuck_retype_rows};
pub use crate::laws::{query_rows, step_laws, step_rows};
pub use crate::reading::refusal_laws;
pub use crate::record_rows::{delete_rows, found_rows, number_rows, upsert_rows, validation_rows};
pub use crate::refusal_rows::{
    detail_refusal_rows, edit_refusal_rows, people_refusal_rows, query_refusal_rows, removal_rows,
    retype_refusal_rows,
};
pub use crate::removals::removals_sound;
pub use crate::request_rows::{
    criteria_request_rows, object_request_rows, path_request_rows, people_request_rows,
    share_request_rows,
};
pub use crate::route::Route;
pub use crate::routed::Routed;
pub use crate::routing_rows::{refused_rows, route_rows};
pub use crate::verdicts::verdicts_sound;

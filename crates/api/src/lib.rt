//! From a caller's request, its method, target and body, to its reply, over a draft.
//!
//! It depends on the definitions of routes and of the step in `model`, on `soql_parser` for queries,
//! on `store_abstraction`, `record_read` and `api_output` for an object's records and their rows, on `api_edit` for administration, on
//! `retype_request` for how far the change of a field's type is, on `matchit` for routes with the laws in `router`, and on
//! `form_urlencoded` for query strings. Its contract: over tables in which the organisation's rows stand for a tenant,
//! `respond` returns the reply of the definition `verdict_at`, and in the draft's tables they then stand for what the verdict leaves. `Routes::route` returns what the definition `routed` gives for
//! the method and the characters of the target, and `query_text` the text that the definition of that name finds in a query
//! string, or they are out of memory.
#![tactic(auto)]

mod asking;
mod kind;
mod methods;
mod place;
mod query;
mod read_kind;
mod replies;
mod requests;
mod retyping;
mod route_kind;
mod router;
mod routes;
mod routing;
mod table;
mod target;
mod version;

pub use crate::query::query_text;
pub use crate::requests::respond;
pub use crate::router::{route_laws, way_laws};
pub use crate::routes::Routes;

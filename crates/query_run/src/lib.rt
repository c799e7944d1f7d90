//! Queries of callers, in any form: who asks is an administrator or has the rights of a user, and the query needs one layout or all.
//!
//! It depends on `access_user` for what users may see, and on `query_check` for which queries are over one object alone. In which
//! form a query is answered comes from a trait. Its contract: over tables in which the organisation's rows stand for a tenant, the
//! answer is that of the form, for the user who asks.
#![tactic(auto)]

mod asking;
mod form;

pub use crate::asking::answer_named;
pub use crate::form::QueryForm;

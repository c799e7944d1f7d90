//! Reads over the tables: what is told to who asks, and the reply that tells it.
//!
//! It depends on the definitions of reads in `model_reads`, on `base_json_tree` for values of JSON, on `people_rows`, `schema_rules`,
//! `record_read`, `record_target` and `access_shares` for rows, and on `access_traits` and `access_user` for what who asks may see. Its
//! contract: over tables in which the organisation's rows stand for a tenant, `answer_read` returns the reply of the definition
//! `read_verdict`, changes nothing, and is shown no data row but a record's own and those that decide the user's level on it.
#![tactic(auto)]

mod caller;
mod describe;
mod objects;
mod people;
mod reading;
mod records;
mod replies;
mod rights;
mod sharing_rules;

pub use crate::reading::answer_read;

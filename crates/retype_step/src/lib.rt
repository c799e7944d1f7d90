//! The step of the change of a field's type that is made in an organisation before a caller's request.
//!
//! It depends on `retype_cutover` for which rows differ where a change ends or a field is switched, and on `record_index` for those
//! of a record; `backfill` has those of a page of records. Its contract: over tables in which an organisation's rows stand for a tenant these stand for `job_step` of it
//! afterwards, or nothing was to be done; and whatever the tables have, no row of another organisation changes, and few do.
#![tactic(auto)]

mod backfill;
mod deciding;
mod making;
mod reading;
mod rows;

pub use crate::backfill::progress_laws;
pub use crate::making::step;

//! The bodies of replies in JSON: of rows of a query, of what was made, and of how far the change of a field's type is.
//!
//! It depends on `base_json`, which writes JSON, and on the definitions of `model`. Its contract: a front and what is written of a
//! row, piece by piece, have the bytes of the model's row, and `rows_body` is the JSON of rows. `made_body` and `upserted_body` return
//! the body of the reply that `reply_of` gives, and `state_body` the bytes of `job_json`.
#![tactic(auto)]

mod fronts;
mod made;
mod parts;
mod rows;
mod states;

pub use crate::fronts::RowFront;
pub use crate::made::{made_body, upserted_body};
pub use crate::rows::{
    rows_body, write_comma, write_member_start, write_null, write_record_start, write_row_end,
    write_rows_end, write_rows_start, write_shown,
};
pub use crate::states::state_body;

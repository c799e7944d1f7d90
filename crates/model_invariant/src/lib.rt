//! That an organisation stays sound: what each verdict leaves of a sound one is sound again.
//!
//! It depends on `model`, whose definitions these laws are about, and on `base_value` for the laws of ids and values. Its
//! contract: for each request, from a sound organisation its verdict makes a sound one, whatever it answers. `rule_text` has the laws of
//! the texts of rules, and `progress` says when the change of a field's type is done.
#![tactic(auto)]

mod deletes;
mod fits;
mod jobs;
mod numbers;
mod objects;
mod people;
mod progress;
mod records;
mod rows;
mod rule_text;
mod sharing;

pub use crate::deletes::deletes_sound;
pub use crate::fits::fit_laws;
pub use crate::jobs::jobs_sound;
pub use crate::numbers::number_laws;
pub use crate::objects::objects_sound;
pub use crate::people::people_sound;
pub use crate::progress::course_laws;
pub use crate::records::records_sound;
pub use crate::rows::sound_rows;
pub use crate::rule_text::{text_laws, text_rows};
pub use crate::sharing::sharing_sound;

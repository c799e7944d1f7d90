//! Case files: texts that say who asks, what is asked and what must come, and what they come to.

mod comparing;
mod messages;
mod player;
mod quoted;
mod stop;
mod topics;
mod trial;
mod wanted;

pub(crate) use crate::cases::topics::run_cases;

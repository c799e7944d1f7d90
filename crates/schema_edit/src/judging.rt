//! Whether an edit of metadata is refused, by the layouts of an organisation's objects.

mod access;
mod addition;
mod fields;
mod objects;
mod validation;

pub(crate) use self::access::judge_change;
pub use self::addition::Addition;
pub(crate) use self::fields::target_number;
pub(crate) use self::validation::judge_rule;

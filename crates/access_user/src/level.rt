//! The level of a user on a record of an object that is no detail, from rows that were read.
//!
//! It depends on `access_closure` for whom principals reach, on `store_rows` for rows, on `store_abstraction` for which rows are whose, on
//! `schema_rules` for the texts of criteria rules and on `model` for what a level is. Its contract: what is known of an object's
//! rules is so for each user of a sound organisation whose rules and layout these are, and the level by it on a record is that
//! of the definition. Nothing is read.

mod judging;
mod knowing;
mod levels;
mod reaching;

pub use self::judging::{level_apart, level_with, owns};
pub use self::knowing::{Criterion, OwnLevels, OwnerRule, own_levels};
pub use self::levels::{is_open, is_readable_by_all, is_settled};

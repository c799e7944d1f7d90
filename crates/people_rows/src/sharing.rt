//! The rows of an organisation's sharing rules.
//!
//! It depends on `store_abstraction`. Its contract: where an organisation's rows stand for a tenant, it reads the sharing rules that the
//! tenant has, in the order of their lower-case names.

mod rules;

pub use self::rules::sharing_rules_of;

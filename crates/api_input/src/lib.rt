//! What the bodies of requests say, from their bytes.
//!
//! It depends on `base_json` for JSON, and on the definitions of the forms in `model`. Its contract: what is returned is what the
//! form's definition gives for the members that `body_in` finds in the bytes, and none where it gives none; or it is out of memory.
#![tactic(auto)]

mod body;
mod copies;
mod fail;
mod fields;
mod groups;
mod members;
mod name;
mod objects;
mod people;
mod principals;
mod records;
mod retyping;
mod rules;
mod sharing;
mod table;
mod types;
mod values;

pub use crate::fields::new_field;
pub use crate::groups::{group_change, new_group};
pub use crate::objects::{new_object, object_change};
pub use crate::people::{NewRole, new_role, new_user, organisation_name, role_change, user_change};
pub use crate::principals::spelled_principal;
pub use crate::records::field_values;
pub use crate::retyping::{NewRetype, new_retype};
pub use crate::rules::new_validation_rule;
pub use crate::sharing::{new_share, new_sharing_rule};

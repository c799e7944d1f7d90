//! The course of a change of a field's type: at which step the field has its new type.
//!
//! It depends on `model` and has no code: its one function is a law. Its contract: a change that copies n records, of which all
//! convert, leaves the field its old type for as many steps as there are hundreds of records, begun ones too, and the next step
//! gives it the new one, if meanwhile nothing else is done.

mod laws;

pub use self::laws::course_laws;

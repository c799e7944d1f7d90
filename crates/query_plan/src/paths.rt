//! Where the relationships of paths and of child subqueries lead, by layouts alone.
//!
//! It depends on `store_abstraction` for layouts, and on `model` for what they are of. Its contract: by the layouts of an
//! organisation's objects it finds the steps that names of relationships spell, as the model has them, and what a path's field
//! and a path's value are by its steps; and the branches by which the parents that paths need are read, each once a row. It
//! reads nothing.

mod branches;
mod children;
mod laws;
mod names;
mod parents;
mod references;
mod ways;

pub use self::branches::{Branch, Place, branch_laws, place_in, step_from};
pub use self::children::{ChildStep, child_in};
pub use self::laws::way_laws;
pub use self::parents::{ParentStep, parent_in};
pub use self::ways::layout_in;

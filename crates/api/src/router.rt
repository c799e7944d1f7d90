//! How `matchit` routes where each piece of a pattern, between slashes, is a text or a parameter.
//!
//! It depends on the toolchain's `matchit` alone. It has no code: its functions are laws, which do nothing when called. Its
//! contract: where no two patterns meet a segment as a text and as a parameter, a router's walk finds the first pattern of the
//! table that a path has, its parameters took the segments there, and a table of methods and patterns answers by that pattern.

mod laws;

pub use self::laws::{route_laws, way_laws};

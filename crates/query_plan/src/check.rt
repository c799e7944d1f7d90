//! Conditions whose names are places.

use base_value::{Boxed, Items, Value};
use soql::{LikePattern, Op};

/// Where a record has a value.
#[derive(Clone, Copy, Debug)]
pub enum Site {
    /// Its id.
    Id,
    /// Its owner.
    Owner,
    /// When it was made.
    Created,
    /// When it was changed last.
    Modified,
    /// At a position among its values: the name's is at 0, and those of the custom fields follow.
    Value(u8),
}

/// Where a row has a value.
#[derive(Clone, Copy, Debug)]
pub struct Spot {
    /// The number of the plan's branch whose record has the value; if there is none, the row's record has it.
    pub branch: Option<usize>,
    /// Where that record has it.
    pub site: Site,
}

/// What a value is compared with.
#[derive(Drop)]
pub enum Operand {
    /// A value.
    Plain(Value),
    /// A day by the clock, beside which a moment counts as its day in UTC.
    Clock(i128),
}

/// A condition whose names are places.
#[derive(Drop)]
pub enum Check {
    /// A comparison.
    Test {
        /// Where the value is.
        spot: Spot,
        /// How it is compared.
        op: Op,
        /// With what.
        with: Operand,
    },
    /// A text like a pattern.
    Like {
        /// Where the text is.
        spot: Spot,
        /// The pattern.
        pattern: LikePattern,
    },
    /// One of some values, or none of them.
    In {
        /// Where the value is.
        spot: Spot,
        /// Whether it is to be none of them.
        negated: bool,
        /// The values.
        with: Items<Operand>,
    },
    /// The condition doesn't hold.
    Not(Boxed<Check>),
    /// All of them hold.
    And(Items<Check>),
    /// Some of them hold.
    Or(Items<Check>),
}

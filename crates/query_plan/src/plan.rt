//! Queries whose names are places.

use crate::check::{Check, Spot};
use crate::paths::{Branch, ChildStep};
use base_value::{Items, Text};
use model::Record;

/// A member of a record that is shown.
#[derive(Drop)]
pub enum Member {
    /// The value of a field.
    Field {
        /// The field's name, as it is declared.
        name: Text,
        /// Where a row has its value.
        spot: Spot,
    },
    /// A parent: null where there is none, or who asks may not read it.
    Parent {
        /// The name of the relationship, as it is declared.
        name: Text,
        /// The number of the branch whose record it is.
        branch: usize,
        /// The name of its object.
        object: Text,
        /// What is shown of it.
        members: Items<Member>,
    },
    /// A parent behind as many relationships as a reply goes through: nothing is shown of it.
    End {
        /// The name of the relationship, as it is declared.
        name: Text,
        /// The number of the branch whose record it is.
        branch: usize,
    },
}

/// What a row shows.
#[derive(Drop)]
pub enum Shown {
    /// A value of its record, or a parent.
    Member(Member),
    /// The children that a subquery finds: null where there are none.
    Children {
        /// The name of the relationship, as it is declared.
        name: Text,
        /// The number of the subquery among those of the plan.
        number: usize,
        /// The name of their object.
        object: Text,
        /// What is shown of each.
        members: Items<Member>,
    },
}

/// A value by which rows are ordered.
#[derive(Clone, Copy, Debug)]
pub struct SortKey {
    /// Where a row has it.
    pub spot: Spot,
    /// Whether greater values come first.
    pub descending: bool,
    /// Whether nulls come last and not first.
    pub nulls_last: bool,
}

/// Which records of an object are rows, and in which order.
#[derive(Drop)]
pub struct Choice {
    /// The parents that a row needs, for its condition, for its order, and for what is shown of it.
    pub branches: Items<Branch>,
    /// The rows that are taken, or all.
    pub check: Option<Check>,
    /// Their order, by the first key that decides, and at last by their ids.
    pub order: Items<SortKey>,
    /// How many rows are left out first.
    pub skip: usize,
    /// How many rows are taken at most.
    pub most: Option<usize>,
}

/// A child subquery.
#[derive(Drop)]
pub struct ChildPlan {
    /// The relationship.
    pub step: ChildStep,
    /// Which of the records that refer to the row's record it takes.
    pub choice: Choice,
}

/// A record that a child subquery finds.
#[derive(Drop)]
pub struct Child {
    /// The record.
    pub record: Record,
    /// The records of the branches of the subquery.
    pub parents: Items<Option<Record>>,
}

/// A query of one object.
#[derive(Drop)]
pub struct Plan {
    /// What each row shows.
    pub shown: Items<Shown>,
    /// Which records are rows.
    pub choice: Choice,
    /// Its child subqueries.
    pub children: Items<ChildPlan>,
}

//! What a JSON text stands for.

use base_value::{Items, Text};

/// A number of a text.
#[derive(Clone, Copy, Debug, PartialEq, Eq)]
pub enum Num {
    /// So many times 10^-8, fewer than 10^26.
    Exact(i128),
    /// Any other number.
    Beyond,
}

/// A JSON value.
#[cycle(tree)]
#[derive(Debug, Drop)]
pub enum Json {
    Null,
    Bool(bool),
    Number(Num),
    Text(Text),
    List(Items<Json>),
    /// The members in their order, also where two have one name.
    Object(Items<Member>),
}

/// A member of an object.
#[cycle(tree)]
#[derive(Debug, Drop)]
pub struct Member {
    pub name: Text,
    pub value: Json,
}

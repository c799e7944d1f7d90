//! What bodies say of new sharing rules and of shares. That members are judged in the body's order is why their names are held
//! too.

use crate::people_bodies::Spelled;
use base_value::{Items, Level, Text};

/// The records that a new sharing rule covers.
#[derive(Debug, Drop)]
pub enum SpelledSource {
    /// Those whose owners are members of the principal.
    Owner(Spelled),
    /// Those on which the formula that the text spells holds.
    Criteria(Text),
}

/// What a body says of a new sharing rule.
#[derive(Debug, Drop)]
pub struct NewSharingRule {
    /// The names of the body's members in their order.
    pub members: Items<Text>,
    /// The name of its object.
    pub object: Text,
    /// Its name.
    pub name: Text,
    /// The records that it covers.
    pub source: SpelledSource,
    /// Whom it shares them with.
    pub to: Spelled,
    /// At which level.
    pub level: Level,
}

/// What a body says of a manual share.
#[derive(Debug, Drop)]
pub struct NewShare {
    /// The names of the body's members in their order.
    pub members: Items<Text>,
    /// The text of the record's id.
    pub item: Text,
    /// Whom the record is shared with.
    pub to: Spelled,
    /// At which level.
    pub level: Level,
}

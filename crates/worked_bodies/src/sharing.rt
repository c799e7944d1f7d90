//! Bodies of manual shares and of sharing rules, and what each says; `none` if it isn't of its form.

use crate::people::spelled;
use api_input::{new_share, new_sharing_rule, spelled_principal};
use base_value::{Level, Text};
use model::{NewShare, NewSharingRule, SpelledSource};
use std::alloc::{AllocError, Global};

fn level_word(level: Level) -> &'static str {
    match level {
        Level::Nothing => "nothing",
        Level::Read => "read",
        Level::Edit => "edit",
        Level::Full => "full",
    }
}

fn shown_share(alloc: Global, new: &NewShare) -> Result<String, AllocError> {
    let item = new.item.as_str();
    let to = spelled(alloc, &new.to)?;
    let level = level_word(new.level);
    format!(in alloc; "{item} to {to} {level}")
}

/// A manual share: the text of the record's id, whom it is shared with, and the level.
pub(crate) fn share(alloc: Global, body: &[u8]) -> Result<String, AllocError> {
    match new_share(alloc, body)? {
        Some(new) => shown_share(alloc, &new),
        None => String::from_str(alloc, "none"),
    }
}

fn shown_source(alloc: Global, source: &SpelledSource) -> Result<String, AllocError> {
    match source {
        SpelledSource::Owner(principal) => {
            let of = spelled(alloc, principal)?;
            format!(in alloc; "of {of}")
        }
        SpelledSource::Criteria(text) => {
            let text = text.as_str();
            format!(in alloc; "where {text}")
        }
    }
}

fn shown_rule(alloc: Global, new: &NewSharingRule) -> Result<String, AllocError> {
    let object = new.object.as_str();
    let name = new.name.as_str();
    let source = shown_source(alloc, &new.source)?;
    let to = spelled(alloc, &new.to)?;
    let level = level_word(new.level);
    format!(in alloc; "{object} {name} {source} to {to} {level}")
}

/// A sharing rule: the object, the name, which records it covers, whom it shares them with, and the level.
pub(crate) fn sharing_rule(alloc: Global, body: &[u8]) -> Result<String, AllocError> {
    match new_sharing_rule(alloc, body)? {
        Some(new) => shown_rule(alloc, &new),
        None => String::from_str(alloc, "none"),
    }
}

/// The principal that a part of a path spells.
pub(crate) fn principal(alloc: Global, part: &str) -> Result<String, AllocError> {
    match spelled_principal(alloc, &Text::from_str(alloc, part)?)? {
        Some(to) => spelled(alloc, &to),
        None => String::from_str(alloc, "none"),
    }
}

//! Principals in bodies.

ghost use Rattle.std.specs.Prelude.{◌≡◌, ◌++◌, IfOk, List, MatchOption, OnOk, encode_utf8_all, false, map, string_bytes, true, ℕ};
ghost use Rattle.std.specs.Option.{unwrap_or};
ghost use Rattle.std.specs.List.{after_first, before_first, list_any};
ghost use Rattle.std.specs.Str.{chars};
ghost use Rattle.base_value.specs.Id.{id_in};
ghost use Rattle.base_value.specs.Principals.{kind_number};
ghost use Rattle.base_value.specs.Texts.{texts_differ};
ghost use Rattle.model.specs.Members.{all_there, entry_named, is_colon, kinds, principal_in};
ghost use Rattle.model_requests.specs.PeopleForms.{as_principals, identity_of};
ghost use Rattle.model.specs.Principals.{kind_of};
ghost use Rattle.api_input.specs.inner.Outcomes.{Gives};
ghost use Rattle.api_input.specs.inner.Spelled.{as_principal};

use crate::fail::{BodyFail, or_none};
use crate::table::entry_named;
use crate::values::{as_list, as_text};
use base_json::Json;
use base_value::{Items, Text, id_in};
use model::{PrincipalKind, Spelled};
use std::alloc::{AllocError, Global};
use std::collections::BTreeSet;

// ---- one principal

// What is before the first `:`, and what is behind it.
fn cut_at_colon(text: &Text) -> Option<(&str, &str)>
    ensures { MatchOption result (list_any is_colon text.now ≡ false) (λ parts. (list_any is_colon text.now ≡ true)
        × (chars parts.0.now ≡ before_first is_colon text.now) × (chars parts.1.now ≡ after_first is_colon text.now)) }
{
    text.as_str().split_once(':')
}

// The kind of principals with this name.
fn kind_named(name: &Text) -> Option<PrincipalKind>
    ensures { result ≡ entry_named kinds name.now }
{
    entry_named(
        &[
            ("user", PrincipalKind::User),
            ("role", PrincipalKind::Role),
            ("subordinates", PrincipalKind::Subordinates),
            ("group", PrincipalKind::Group),
        ],
        name,
    )
}

/// The principal that a text spells.
#[tactic(auto, unfolding(model::specs::Members::principal_in))]
pub(crate) fn principal_in(alloc: Global, text: &Text) -> Result<Spelled, BodyFail>
    ensures { Gives (λ principal. principal) result (principal_in text.now) }
{
    let (kind, id) = cut_at_colon(text).ok_or(BodyFail::Form)?;
    let kind = kind_named(&Text::from_str(alloc, kind)?).ok_or(BodyFail::Form)?;
    Ok(Spelled {
        kind,
        text: Text::from_str(alloc, id)?,
    })
}

/// The principal that a text spells, as `user:ID`; none if it has another form. Whether ID is an id isn't asked.
///
/// # Errors
///
/// When out of memory.
pub fn spelled_principal(alloc: Global, text: &Text) -> Result<Option<Spelled>, AllocError>
    ensures { IfOk result (λ principal. principal ≡ principal_in text.now) }
{
    or_none(principal_in(alloc, text))
}

/// The principal that a value spells.
pub(crate) fn as_principal(alloc: Global, json: &Json) -> Result<Spelled, BodyFail>
    ensures { Gives (λ principal. principal) result (as_principal json.now) }
{
    principal_in(alloc, as_text(json).ok_or(BodyFail::Form)?)
}

// The principals of values that all spell one.
fn all_principals(alloc: Global, items: &[Json]) -> Result<Items<Spelled>, BodyFail>
    ensures { Gives (λ principals. principals) result (all_there (map as_principal items.now)) }
{
    let mut principals = Items::new(alloc);
    let mut rest = items;
    'items: while let Some((item, more)) = rest.split_first() {
        principals.push(as_principal(alloc, item)?)?;
        rest = more;
    }
    Ok(principals)
}

// ---- that they differ

// The character by which the kinds of principals are told apart.
fn kind_mark(kind: PrincipalKind) -> char
    ensures { (id : List ℕ) → result ≡ kind_number (kind_of kind id) }
{
    match kind {
        PrincipalKind::User => '\0',
        PrincipalKind::Role => '\u{1}',
        PrincipalKind::Subordinates => '\u{2}',
        PrincipalKind::Group => '\u{3}',
    }
}

// Appends characters below 256.
fn append_characters(string: &mut String, characters: &[u8]) -> Result<(), AllocError>
    ensures { OnOk result (string_bytes string.new ≡ string_bytes string.old ++ encode_utf8_all characters.now) }
{
    for character in characters {
        string.push(char::from(*character))?;
    }
    Ok(())
}

// Appends the id that a text spells, or the text where it spells none.
fn append_id_or_text(string: &mut String, text: &Text) -> Result<(), AllocError>
    ensures { OnOk result (string_bytes string.new ≡ string_bytes string.old ++ encode_utf8_all (unwrap_or (id_in text.now) text.now)) }
{
    match id_in(text.as_str()) {
        Some(id) => append_characters(string, id.as_bytes()),
        None => string.push_str(text.as_str()),
    }
}

// What tells a principal apart: the kind, and the id or, where the text is none, the text.
fn identity(alloc: Global, principal: &Spelled) -> Result<String, AllocError>
    ensures { IfOk result (λ string. string_bytes string ≡ encode_utf8_all (identity_of principal.now)) }
{
    let mut string = String::new(alloc);
    string.push(kind_mark(principal.kind))?;
    append_id_or_text(&mut string, &principal.text)?;
    Ok(string)
}

// Whether no two are the same. It takes time n log n, and memory as the texts.
fn all_differ(alloc: Global, principals: &[Spelled]) -> Result<bool, AllocError>
    ensures { IfOk result (λ differ. differ ≡ texts_differ (map identity_of principals.now)) }
{
    let mut seen = BTreeSet::new(alloc);
    let mut rest = principals;
    'principals: while let Some((principal, more)) = rest.split_first() {
        if !seen.insert(identity(alloc, principal)?)? {
            return Ok(false);
        }
        rest = more;
    }
    Ok(true)
}

// ---- a list of them

/// The principals of a list, all different.
pub(crate) fn as_principals(alloc: Global, json: &Json) -> Result<Items<Spelled>, BodyFail>
    ensures { Gives (λ principals. principals) result (as_principals json.now) }
{
    let principals = all_principals(alloc, as_list(json).ok_or(BodyFail::Form)?)?;
    if all_differ(alloc, principals.as_slice())? {
        Ok(principals)
    } else {
        Err(BodyFail::Form)
    }
}

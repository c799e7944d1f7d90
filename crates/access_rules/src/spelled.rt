//! What a body says of a new rule, as rows have it. What no row can spell is `Damaged`: no rule that isn't refused says such.

ghost use Rattle.std.specs.Prelude.{◌≡◌, ◌≢◌, ◌↔◌, IfErr, IfOk, IfSome, IsTrue};
ghost use Rattle.std.specs.Option.{option_map};
ghost use Rattle.store_rows.specs.declared.fail.StoreFail.TheVariants.{Keeper, Memory};
ghost use Rattle.model.specs.Principals.{kind_of};
ghost use Rattle.model.specs.SharingRules.{source_of};
ghost use Rattle.model.specs.SoundSharing.{is_grant};
ghost use Rattle.store_codec.specs.Composed.{FitsPrincipal, FitsSource};
ghost use Rattle.store_codec.specs.Plain.{FitsText};
ghost use Rattle.access_rules.specs.inner.Adding.{IsSpelledSource};
ghost use Rattle.store_abstraction.specs.Metadata.{source_part};
ghost use Rattle.base_value.specs.Id.{id_in};

use base_value::{Id, Level, Principal, RuleSource, Text, id_in};
use model::{PrincipalKind, Spelled, SpelledSource};
use std::alloc::Global;
use store_rows::StoreFail;

// The principal of a kind that has this id.
fn principal_with(kind: PrincipalKind, id: Id) -> Principal
    ensures { result ≡ kind_of kind id }
{
    match kind {
        PrincipalKind::User => Principal::User(id),
        PrincipalKind::Role => Principal::Role(id),
        PrincipalKind::Subordinates => Principal::Subordinates(id),
        PrincipalKind::Group => Principal::Group(id),
    }
}

/// The principal that is spelled, if the text is an id's.
pub(crate) fn principal_in(spelled: &Spelled) -> Option<Principal>
    ensures same { result ≡ option_map (kind_of spelled.now.kind) (id_in spelled.now.text) }
    ensures fits { IfSome result FitsPrincipal }
{
    match id_in(spelled.text.as_str()) {
        None => None,
        Some(id) => {
            // That these are an id's characters.
            let _ = id.as_bytes();
            Some(principal_with(spelled.kind, id))
        }
    }
}

// Whether a row can have this text: the number of its bytes has 32 bits.
fn is_spelled(text: &Text) -> bool
    ensures { IsTrue result ↔ FitsText text.now }
{
    text.as_str().len() <= u32::MAX as usize
}

/// A copy of a text.
///
/// # Errors
///
/// `Damaged` if no row can have it, `Memory` if out of memory.
pub(crate) fn copy_of_text(alloc: Global, text: &Text) -> Result<Text, StoreFail>
    ensures same { IfOk result (λ copy. copy ≡ text.now) }
    ensures fits { IfOk result FitsText }
    ensures damaged { FitsText text.now → IfErr result (λ e. e ≡ Memory) }
    ensures cause { IfErr result (λ e. e ≢ Keeper) }
{
    if !is_spelled(text) {
        return Err(StoreFail::Damaged);
    }
    Ok(text.copy(alloc)?)
}

/// The source that is spelled.
///
/// # Errors
///
/// `Damaged` if no row can have it, `Memory` if out of memory.
pub(crate) fn source_in(alloc: Global, spelled: &SpelledSource) -> Result<RuleSource, StoreFail>
    ensures same { IfOk result (λ source. source ≡ source_part (source_of spelled.now)) }
    ensures fits { IfOk result FitsSource }
    ensures damaged { IsSpelledSource spelled.now → IfErr result (λ e. e ≡ Memory) }
    ensures cause { IfErr result (λ e. e ≢ Keeper) }
{
    match spelled {
        SpelledSource::Owner(owner) => match principal_in(owner) {
            Some(owner) => Ok(RuleSource::Owner(owner)),
            None => Err(StoreFail::Damaged),
        },
        SpelledSource::Criteria(text) => Ok(RuleSource::Criteria(copy_of_text(alloc, text)?)),
    }
}

/// Whether a rule may give this level: to read, or to edit.
pub(crate) fn is_grant(level: Level) -> bool
    ensures { result ≡ is_grant level }
{
    matches!(level, Level::Read | Level::Edit)
}

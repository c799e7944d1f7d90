//! Copies for rows of what a body says. What no row can spell is `Damaged`: no name, and no type within its bounds, is.

ghost use Rattle.std.specs.Prelude.{◌≡◌, ◌≢◌, ◌↔◌, IfErr, IfOk, IsTrue};
ghost use Rattle.std.specs.List.{All};
ghost use Rattle.store_rows.specs.declared.fail.StoreFail.TheVariants.{Keeper, Memory};
ghost use Rattle.store_codec.specs.Composed.{FitsType};
ghost use Rattle.store_codec.specs.Plain.{FitsText};

use base_value::{FieldType, Text};
use std::alloc::Global;
use store_rows::StoreFail;

// Whether a row can have this text: the number of its bytes has 32 bits.
fn is_spelled(text: &Text) -> bool
    ensures { IsTrue result ↔ FitsText text.now }
{
    text.as_str().len() <= u32::MAX as usize
}

fn are_spelled(texts: &[Text]) -> bool
    ensures { IsTrue result ↔ All FitsText texts.now }
{
    texts.iter().all(|text| is_spelled(text))
}

/// A copy of a text.
///
/// # Errors
///
/// `Damaged` if no row can have it, `Memory` if out of memory.
pub fn copy_of_text(alloc: Global, text: &Text) -> Result<Text, StoreFail>
    ensures same { IfOk result (λ copy. copy ≡ text.now) }
    ensures fits { IfOk result FitsText }
    ensures damaged { FitsText text.now → IfErr result (λ e. e ≡ Memory) }
    ensures cause { IfErr result (λ e. e ≢ Keeper) }
{
    if !is_spelled(text) {
        return Err(StoreFail::Damaged);
    }
    Ok(text.copy(alloc)?)
}

// Whether a row can have this type. Its numbers have the widths of a row's.
fn is_spelled_type(kind: &FieldType) -> bool
    ensures { IsTrue result ↔ FitsType kind.now }
{
    match kind {
        FieldType::Picklist(values) => {
            let texts = values.as_slice();
            texts.len() <= u32::MAX as usize && are_spelled(texts)
        }
        FieldType::Text(most) => {
            let _most = *most;
            true
        }
        FieldType::Number { digits, decimals } => {
            let _numbers = (*digits, *decimals);
            true
        }
        FieldType::Lookup { object, .. } | FieldType::Master { object } => {
            let _object = *object;
            true
        }
        FieldType::Checkbox | FieldType::Day | FieldType::Moment => true,
    }
}

/// A copy of a type.
///
/// # Errors
///
/// `Damaged` if no row can have it, `Memory` if out of memory.
pub fn copy_of_type(alloc: Global, kind: &FieldType) -> Result<FieldType, StoreFail>
    ensures same { IfOk result (λ copy. copy ≡ kind.now) }
    ensures fits { IfOk result FitsType }
    ensures damaged { FitsType kind.now → IfErr result (λ e. e ≡ Memory) }
    ensures cause { IfErr result (λ e. e ≢ Keeper) }
{
    if !is_spelled_type(kind) {
        return Err(StoreFail::Damaged);
    }
    Ok(kind.copy(alloc)?)
}

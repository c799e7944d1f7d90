//! The rows of sharing rules at their keys.

ghost use Rattle.std.specs.Prelude.{◌≡◌, IfOk, OnOk};
ghost use Rattle.std.specs.Str.{IsUtf8, chars};
ghost use Rattle.store_kv.specs.Draft.{DraftTells, tables_of};
ghost use Rattle.store_rows.specs.Rows.{sharing_form};
ghost use Rattle.store_codec.specs.Shapes.{FitsIn};
ghost use Rattle.access_rules.specs.inner.Rows.{key_of_name, own_sharing_row};
ghost use Rattle.store_abstraction.specs.Calls.{Calls, ended};
ghost use Rattle.store_abstraction.specs.Local.{FindsIn};
ghost use Rattle.store_abstraction.specs.Metadata.{lower_bytes};
ghost use Rattle.base_value.specs.Bytes.{IsBytes};

use base_grammar::characters;
use base_value::{Bytes, Text, id_laws};
use model::name_laws;
use std::alloc::{AllocError, Global};
use store_kv::{Draft, Keeper, key_laws};
use store_rows::{Mark, SharingRow, StoreFail, row_at, row_laws, table_laws};

/// A key of the row of a sharing rule: the organisation's number, and the rule's name in lower case.
pub(crate) type RuleKey = (u32, (Mark<1>, Bytes));

// The bytes of a text.
fn bytes_of(alloc: Global, text: &str) -> Result<Bytes, AllocError>
    ensures same { IfOk result (λ bytes. bytes ≡ text.now) }
    ensures bytes { IfOk result IsBytes }
{
    Bytes::from_slice(alloc, text.as_bytes())
}

// A name with its ASCII letters in lower case, in UTF-8.
fn lower_bytes(alloc: Global, name: &str) -> Result<Bytes, AllocError>
    ensures same { IfOk result (λ lower. lower ≡ lower_bytes (chars name.now)) }
    ensures bytes { IfOk result IsBytes }
    ensures utf8 { OnOk result (IsUtf8 (lower_bytes (chars name.now))) }
{
    let all = characters(alloc, name)?;
    let mut lower = String::new(alloc);
    for c in all.as_slice() {
        lower.push(c.to_ascii_lowercase())?;
    }
    bytes_of(alloc, lower.as_str())
}

/// The key of the row of the rule with this name, whatever the case of its letters.
///
/// # Errors
///
/// When out of memory.
pub(crate) fn key_of(alloc: Global, org: u32, name: &Text) -> Result<RuleKey, AllocError>
    ensures same { IfOk result (λ key. key ≡ key_of_name org name.now) }
    ensures fits { IfOk result (FitsIn sharing_form.key) }
    ensures utf8 { OnOk result (IsUtf8 (lower_bytes name.now)) }
{
    let lower_name = lower_bytes(alloc, name.as_str())?;
    Ok((org, (Mark::<1>, lower_name)))
}

/// The row of the rule at a key, if there is one.
///
/// # Errors
///
/// `Keeper` if the keeper failed, `Memory` if out of memory, `Damaged` never if the organisation's rows stand for a tenant or
/// for none.
pub(crate) fn rule_at<K: Keeper>(
    alloc: Global,
    draft: &mut Draft<'_, K>,
    key: &RuleKey,
) -> Result<Option<SharingRow>, StoreFail>
    requires { FitsIn sharing_form.key key.now }
    ensures finds { DraftTells K.state draft.old draft.new
        → FindsIn key.now.0 (own_sharing_row key.now.0 key.now.1.1) (tables_of K.state draft.old) result }
    ensures calls { Calls K.state 0 (ended result) draft.old draft.new }
{
    key_laws();
    table_laws();
    row_laws::<SharingRow>();
    id_laws();
    name_laws();
    row_at(alloc, draft, key)
}

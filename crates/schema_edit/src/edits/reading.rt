//! What an edit of an object's validation rules is judged by: the object, and whether one of its rules has the name.

ghost use Rattle.std.specs.Prelude.{◌≡◌, IfOk};
ghost use Rattle.std.specs.Str.{IsUtf8, chars};
ghost use Rattle.store_kv.specs.Draft.{DraftTells, tables_of};
ghost use Rattle.store_rows.specs.Forms.{FitsForm};
ghost use Rattle.store_rows.specs.Rows.{object_form};
ghost use Rattle.schema_edit.specs.inner.RuleReads.{ReadsFor};
ghost use Rattle.model.specs.Tenant.{Tenant};
ghost use Rattle.store_codec.specs.PartLaws.{IsBytes};
ghost use Rattle.store_abstraction.specs.Calls.{Calls, ended_edit};
ghost use Rattle.store_abstraction.specs.Local.{StandsIn};
ghost use Rattle.store_abstraction.specs.Metadata.{lower_bytes};
ghost use Rattle.store_abstraction.specs.Plan.{OrgPlan};

use base_grammar::characters;
use base_value::{Bytes, Text};
use std::alloc::{AllocError, Global};
use store_abstraction::{EditFail, Layout, call_laws, object_there, rule_row};
use store_edit::layout_there;
use store_kv::{Draft, Keeper};
use store_rows::ObjectRow;

/// The object of an edit of validation rules, as it was read.
#[derive(Drop)]
pub(crate) struct ReadObject {
    pub layout: Layout,
    /// Whether one of its rules has the name.
    pub has_rule: bool,
    pub row: ObjectRow,
}

// The bytes of a text.
fn bytes_of(alloc: Global, text: &str) -> Result<Bytes, AllocError>
    ensures same { IfOk result (λ bytes. bytes ≡ text.now) }
    ensures bytes { IfOk result IsBytes }
{
    Bytes::from_slice(alloc, text.as_bytes())
}

/// A name with its ASCII letters in lower case, in UTF-8.
///
/// # Errors
///
/// When out of memory.
pub(crate) fn lower_bytes(alloc: Global, name: &str) -> Result<Bytes, AllocError>
    ensures same { IfOk result (λ lower. lower ≡ lower_bytes (chars name.now)) }
    ensures bytes { IfOk result IsBytes }
    ensures utf8 { IfOk result IsUtf8 }
{
    let all = characters(alloc, name)?;
    let mut lower = String::new(alloc);
    for c in all.as_slice() {
        lower.push(c.to_ascii_lowercase())?;
    }
    bytes_of(alloc, lower.as_str())
}

/// The object with the first name, and whether one of its rules has the second, whatever the case of their letters.
///
/// # Errors
///
/// `Refused` with `InvalidType` if there is no such object. `Store` with `Keeper` if the keeper failed, `Memory` if out of memory,
/// `Damaged` never if the organisation's rows stand for a tenant.
pub(crate) fn read_object<K: Keeper>(
    alloc: Global,
    draft: &mut Draft<'_, K>,
    org: u32,
    object: &Text,
    name: &Text,
) -> Result<ReadObject, EditFail>
    ensures reads { DraftTells K.state draft.old draft.new
        → (q : OrgPlan) (t : Tenant) → StandsIn org q (tables_of K.state draft.old) (Some t) → ReadsFor org t object.now name.now result }
    ensures own { DraftTells K.state draft.old draft.new → IfOk result (λ read. read.row.org ≡ org) }
    ensures fits { IfOk result (λ read. FitsForm object_form read.row) }
    ensures calls { Calls K.state 0 (ended_edit result) draft.old draft.new }
{
    call_laws::<K>();
    let layout = layout_there(alloc, draft, org, object)?;
    let lower_name = lower_bytes(alloc, name.as_str())?;
    let has_rule = rule_row(alloc, draft, org, layout.object, lower_name)?.is_some();
    let row = object_there(alloc, draft, org, layout.object)?;
    Ok(ReadObject {
        layout,
        has_rule,
        row,
    })
}

//! Objects in short.

ghost use Rattle.std.specs.Prelude.{◌≡◌, ◌++◌, [], ◌∷◌, IfOk, OnOk, codes};
ghost use Rattle.std.specs.Str.{chars};
ghost use Rattle.api_read.specs.inner.DescribedLayouts.{addresses, rights_members, summary_by};
ghost use Rattle.base_json_tree.specs.Words.{member, text};
ghost use Rattle.model.specs.Objects.{record_prefix};
ghost use Rattle.model_reads.specs.DescribeJson.{urls_json};

use crate::describe::texts::{joined, object_url, record_prefix};
use base_json::Json;
use base_json_tree::Members;
use std::alloc::{AllocError, Global};
use store_abstraction::Layout;

// Three addresses: of an object, of its description and of its records.
fn addresses(alloc: Global, object: &str, describe: &str, row: &str) -> Result<Json, AllocError>
    ensures { IfOk result (λ v. v ≡ addresses (chars object.now) (chars describe.now) (chars row.now)) }
{
    let mut members = Members::new(alloc);
    members.text(alloc, "sobject", object)?;
    members.text(alloc, "describe", describe)?;
    members.text(alloc, "rowTemplate", row)?;
    Ok(members.finish())
}

// Those of the object with this name.
fn urls(alloc: Global, name: &str) -> Result<Json, AllocError>
    ensures { IfOk result (λ v. v ≡ urls_json (chars name.now)) }
{
    let url = object_url(alloc, name)?;
    let describe = joined(alloc, url.as_str(), "/describe")?;
    let row = joined(alloc, url.as_str(), "/{ID}")?;
    addresses(alloc, url.as_str(), describe.as_str(), row.as_str())
}

// The members that name an object.
fn named(alloc: Global, layout: &Layout) -> Result<Members, AllocError>
    ensures { IfOk result (λ members. members
        ≡ member (codes "name") (text layout.now.name)
        ∷ member (codes "label") (text layout.now.name)
        ∷ member (codes "keyPrefix") (text (record_prefix layout.now.object))
        ∷ []) }
{
    let prefix = record_prefix(alloc, layout.object)?;
    let name = layout.name.as_str();
    let mut members = Members::new(alloc);
    members.text(alloc, "name", name)?;
    members.text(alloc, "label", name)?;
    members.text(alloc, "keyPrefix", prefix.as_str())?;
    Ok(members)
}

// Those that say what may be done with its records.
fn put_rights(alloc: Global, members: &mut Members) -> Result<(), AllocError>
    ensures { OnOk result (members.new ≡ members.old ++ rights_members) }
{
    members.truth(alloc, "custom", true)?;
    members.truth(alloc, "queryable", true)?;
    members.truth(alloc, "createable", true)?;
    members.truth(alloc, "updateable", true)?;
    members.truth(alloc, "deletable", true)?;
    Ok(())
}

/// The members of an object in short.
pub(crate) fn summary(alloc: Global, layout: &Layout) -> Result<Members, AllocError>
    ensures { IfOk result (λ members. members ≡ summary_by layout.now) }
{
    let mut members = named(alloc, layout)?;
    put_rights(alloc, &mut members)?;
    members.put(alloc, "urls", urls(alloc, layout.name.as_str())?)?;
    Ok(members)
}

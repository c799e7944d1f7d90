ghost use Rattle.std.specs.Prelude.{◌≡◌, [], IfOk, OnOk, map};
ghost use Rattle.api.specs.router.Pick.{router_rows};
ghost use Rattle.api.specs.inner.Places.{added, pattern_of, patterns, table};

use crate::place::Place;
use matchit::{InsertError, Router};
use std::alloc::Global;

// The pattern of each place. What is in braces is a part of the path, which isn't empty; all else is itself.
fn patterns() -> [(&'static str, Place); 31]
    ensures { map pattern_of result ≡ patterns }
{
    [
        ("/services/data/v59.0/query", Place::Query),
        ("/services/data/v59.0/queryAll", Place::QueryAll),
        ("/services/data/v59.0/sobjects/{a}", Place::Object),
        ("/services/data/v59.0/sobjects/{a}/{b}", Place::Record),
        ("/services/data/v59.0/sobjects/{a}/{b}/{c}", Place::External),
        ("/services/data/v59.0/shares", Place::Shares),
        ("/services/data/v59.0/shares/{a}/{b}", Place::Share),
        ("/admin/objects", Place::Objects),
        ("/admin/objects/{a}", Place::ObjectNamed),
        ("/admin/fields", Place::Fields),
        ("/admin/validation-rules", Place::ValidationRules),
        ("/admin/validation-rules/{a}/{b}", Place::ValidationRule),
        ("/admin/sharing-rules", Place::SharingRules),
        ("/admin/sharing-rules/{a}", Place::SharingRule),
        ("/admin/users", Place::Users),
        ("/admin/users/{a}", Place::User),
        ("/admin/roles", Place::Roles),
        ("/admin/roles/{a}", Place::Role),
        ("/admin/groups", Place::Groups),
        ("/admin/groups/{a}", Place::Group),
        ("/admin/organisation", Place::Organisation),
        ("/admin/retype", Place::Retype),
        ("/services/oauth2/userinfo", Place::UserInfo),
        ("/id/{a}/{b}", Place::Identity),
        ("/services/data", Place::Versions),
        ("/services/data/v59.0", Place::Version),
        ("/services/data/v59.0/limits", Place::Limits),
        ("/services/data/v59.0/people", Place::People),
        ("/services/data/v59.0/sobjects", Place::DescribedObjects),
        ("/services/data/v59.0/shares/{a}", Place::RecordShares),
        ("/admin/validation-rules/{a}", Place::ObjectRules),
    ]
}

// Adds each pattern.
fn add(router: &mut Router<Place>, table: &[(&'static str, Place)]) -> Result<(), InsertError>
    ensures { OnOk result (router.new ≡ added router.old (map pattern_of table.now)) }
{
    for (text, place) in table {
        router.insert(text, *place)?;
    }
    Ok(())
}

/// The router of the table.
///
/// # Errors
///
/// When out of memory.
pub fn router(alloc: Global) -> Result<Router<Place>, InsertError>
    ensures { IfOk result (λ r. r ≡ router_rows table) }
{
    let mut router = Router::new(alloc);
    add(&mut router, &patterns())?;
    Ok(router)
}

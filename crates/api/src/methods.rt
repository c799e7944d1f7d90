ghost use Rattle.std.specs.Prelude.{◌≡◌, Some, bytes_eq, codes, cond, None};
ghost use Rattle.api.specs.declared.kind.Kind.TheVariants.{Reads, To};
ghost use Rattle.api.specs.inner.Kinds.{kind_in, kind_lines};

use crate::kind::Kind;
use crate::place::Place;
use crate::read_kind::ReadKind;
use crate::route_kind::RouteKind;
use http::Method;

// The kind where the method has this name, or else the other.
fn way(method: &Method, name: &str, kind: RouteKind, other: Option<Kind>) -> Option<Kind>
    ensures { result ≡ cond (bytes_eq method.now name.now) (Some (To kind)) other }
{
    if method.as_str() == name {
        Some(Kind::To(kind))
    } else {
        other
    }
}

// The read where the method is GET.
fn get(method: &Method, kind: ReadKind) -> Option<Kind>
    ensures { result ≡ cond (bytes_eq method.now (codes "GET")) (Some (Reads kind)) None }
{
    if method.as_str() == "GET" {
        Some(Kind::Reads(kind))
    } else {
        None
    }
}

/// The kind of a place's line with the method.
#[tactic(auto, unfolding(crate::specs::inner::Kinds::kind_lines))]
pub fn kind_at(place: Place, method: &Method) -> Option<Kind>
    ensures { result ≡ kind_in method.now place kind_lines }
{
    match place {
        Place::Query | Place::QueryAll => way(method, "GET", RouteKind::Query, None),
        Place::Object => way(
            method,
            "POST",
            RouteKind::Create,
            get(method, ReadKind::Object),
        ),
        Place::Record => way(
            method,
            "PATCH",
            RouteKind::Update,
            way(
                method,
                "DELETE",
                RouteKind::Delete,
                get(method, ReadKind::Record),
            ),
        ),
        Place::External => way(
            method,
            "PATCH",
            RouteKind::Upsert,
            get(method, ReadKind::RecordBy),
        ),
        Place::Shares => way(method, "POST", RouteKind::Share, None),
        Place::Share => way(method, "DELETE", RouteKind::Unshare, None),
        Place::Objects => way(
            method,
            "POST",
            RouteKind::AddObject,
            get(method, ReadKind::ObjectSettings),
        ),
        Place::ObjectNamed => way(method, "PATCH", RouteKind::SetObject, None),
        Place::Fields => way(method, "POST", RouteKind::AddField, None),
        Place::ValidationRules => way(method, "POST", RouteKind::AddValidationRule, None),
        Place::ValidationRule => way(method, "DELETE", RouteKind::RemoveValidationRule, None),
        Place::SharingRules => way(
            method,
            "POST",
            RouteKind::AddSharingRule,
            get(method, ReadKind::SharingRules),
        ),
        Place::SharingRule => way(method, "DELETE", RouteKind::RemoveSharingRule, None),
        Place::Users => way(
            method,
            "POST",
            RouteKind::AddUser,
            get(method, ReadKind::Users),
        ),
        Place::User => way(method, "PATCH", RouteKind::SetUser, None),
        Place::Roles => way(
            method,
            "POST",
            RouteKind::AddRole,
            get(method, ReadKind::Roles),
        ),
        Place::Role => way(
            method,
            "PATCH",
            RouteKind::SetRole,
            way(method, "DELETE", RouteKind::RemoveRole, None),
        ),
        Place::Groups => way(
            method,
            "POST",
            RouteKind::AddGroup,
            get(method, ReadKind::Groups),
        ),
        Place::Group => way(
            method,
            "PATCH",
            RouteKind::SetGroup,
            way(method, "DELETE", RouteKind::RemoveGroup, None),
        ),
        Place::Organisation => way(method, "PATCH", RouteKind::SetOrganisation, None),
        Place::Retype => way(
            method,
            "POST",
            RouteKind::BeginRetype,
            way(
                method,
                "GET",
                RouteKind::GetRetype,
                way(method, "DELETE", RouteKind::CancelRetype, None),
            ),
        ),
        Place::UserInfo | Place::Identity => get(method, ReadKind::Caller),
        Place::Versions => get(method, ReadKind::Versions),
        Place::Version => get(method, ReadKind::Resources),
        Place::Limits => get(method, ReadKind::Limits),
        Place::People => get(method, ReadKind::People),
        Place::DescribedObjects => get(method, ReadKind::Objects),
        Place::RecordShares => get(method, ReadKind::Shares),
        Place::ObjectRules => get(method, ReadKind::ValidationRules),
    }
}

ghost use Rattle.std.specs.Prelude.{◌≡◌};
ghost use Rattle.api.specs.inner.Kinds.{made_route};

use base_value::Text;
use model_requests::Route;

/// Which request that isn't a read a line of the table asks for: a [`Route`] without its texts.
#[derive(Debug, Clone, Copy)]
pub enum RouteKind {
    Query,
    Create,
    Update,
    Delete,
    Upsert,
    Share,
    Unshare,
    AddObject,
    SetObject,
    AddField,
    AddValidationRule,
    RemoveValidationRule,
    AddSharingRule,
    RemoveSharingRule,
    AddUser,
    SetUser,
    AddRole,
    SetRole,
    AddGroup,
    SetGroup,
    RemoveRole,
    RemoveGroup,
    SetOrganisation,
    BeginRetype,
    GetRetype,
    CancelRetype,
}

impl RouteKind {
    /// The request, with the query string of the target and the parts of its path, as many as it takes.
    pub fn route(self, pairs: Text, first: Text, second: Text, third: Text) -> Route
        ensures { result ≡ made_route self pairs first second third }
    {
        match self {
            RouteKind::Query => Route::Query { pairs },
            RouteKind::Create => Route::Create { object: first },
            RouteKind::Update => Route::Update {
                object: first,
                key: second,
            },
            RouteKind::Delete => Route::Delete {
                object: first,
                key: second,
            },
            RouteKind::Upsert => Route::Upsert {
                object: first,
                key: second,
                value: third,
            },
            RouteKind::Share => Route::Share,
            RouteKind::Unshare => Route::Unshare {
                item: first,
                to: second,
            },
            RouteKind::AddObject => Route::AddObject,
            RouteKind::SetObject => Route::SetObject { object: first },
            RouteKind::AddField => Route::AddField,
            RouteKind::AddValidationRule => Route::AddValidationRule,
            RouteKind::RemoveValidationRule => Route::RemoveValidationRule {
                object: first,
                name: second,
            },
            RouteKind::AddSharingRule => Route::AddSharingRule,
            RouteKind::RemoveSharingRule => Route::RemoveSharingRule { name: first },
            RouteKind::AddUser => Route::AddUser,
            RouteKind::SetUser => Route::SetUser { id: first },
            RouteKind::AddRole => Route::AddRole,
            RouteKind::SetRole => Route::SetRole { id: first },
            RouteKind::AddGroup => Route::AddGroup,
            RouteKind::SetGroup => Route::SetGroup { id: first },
            RouteKind::RemoveRole => Route::RemoveRole { id: first },
            RouteKind::RemoveGroup => Route::RemoveGroup { id: first },
            RouteKind::SetOrganisation => Route::SetOrganisation,
            RouteKind::BeginRetype => Route::BeginRetype,
            RouteKind::GetRetype => Route::GetRetype,
            RouteKind::CancelRetype => Route::CancelRetype,
        }
    }
}

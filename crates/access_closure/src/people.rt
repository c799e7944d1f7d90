ghost use Rattle.std.specs.Prelude.{◌≡◌, T};
ghost use Rattle.model.specs.SoundPeople.{ids_rise};
ghost use Rattle.access_closure.specs.Places.{group_row_id, place_of_id, role_row_id, user_row_id};
ghost use Rattle.access_closure.specs.inner.Order.{AreInOrder, role_place_by_id, role_place_of};

use base_value::Id;
use store_rows::{GroupRow, RoleRow, UserRow};

/// The rows of an organisation's people, each list in the order of ids.
#[derive(Drop)]
pub struct People {
    /// Its users.
    pub users: Vec<UserRow>,
    /// Its roles.
    pub roles: Vec<RoleRow>,
    /// Its groups.
    pub groups: Vec<GroupRow>,
}

/// The place of the user with this id.
pub(crate) fn user_place(users: &[UserRow], id: &Id) -> Option<usize>
    ensures { T (ids_rise user_row_id users.now) → result ≡ place_of_id user_row_id users.now id.now }
{
    users.binary_search_by(|row| row.id.cmp(id)).ok()
}

/// The place of the role with this id.
pub(crate) fn role_place(roles: &[RoleRow], id: &Id) -> Option<usize>
    ensures { T (ids_rise role_row_id roles.now) → result ≡ place_of_id role_row_id roles.now id.now }
{
    roles.binary_search_by(|row| row.id.cmp(id)).ok()
}

/// The place of the group with this id.
pub(crate) fn group_place(groups: &[GroupRow], id: &Id) -> Option<usize>
    ensures { T (ids_rise group_row_id groups.now) → result ≡ place_of_id group_row_id groups.now id.now }
{
    groups.binary_search_by(|row| row.id.cmp(id)).ok()
}

/// The place of a user's role.
pub(crate) fn place_of_role(roles: &[RoleRow], row: &UserRow) -> Option<usize>
    ensures { T (ids_rise role_row_id roles.now) → result ≡ role_place_of roles.now row.now }
{
    match &row.role {
        Some(role) => role_place(roles, role),
        None => None,
    }
}

/// The place of the role of the user with this id.
pub(crate) fn role_of(people: &People, id: &Id) -> Option<usize>
    ensures { AreInOrder people.now → result ≡ role_place_by_id people.now id.now }
{
    let place = user_place(people.users.as_slice(), id)?;
    match people.users.get(place) {
        Some(row) => place_of_role(people.roles.as_slice(), row),
        None => None,
    }
}

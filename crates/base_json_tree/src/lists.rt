//! Lists of what is told in JSON.

ghost use Rattle.std.specs.Prelude.{◌≡◌, [], ◌∷◌, IfOk, map};
ghost use Rattle.std.specs.Str.{chars};
ghost use Rattle.base_json_tree.specs.Words.{list, member, object};

use crate::members::Members;
use base_json::Json;
use base_value::Items;
use std::alloc::{AllocError, Global};

/// A thing that is told in JSON.
pub trait Told {
    ghost use Rattle.base_json.specs.declared.tree.Json.{Json};

    /// The value that tells it.
    ghost json: { Self → Json };

    /// The value that tells it.
    ///
    /// # Errors
    ///
    /// When out of memory.
    fn tell(&self, alloc: Global) -> Result<Json, AllocError>
        ensures { IfOk result (λ v. v ≡ json self.now) };
}

/// The values of things, in their order.
///
/// # Errors
///
/// When out of memory.
pub fn list_of<T: Told>(alloc: Global, items: &[T]) -> Result<Json, AllocError>
    ensures { IfOk result (λ v. v ≡ list (map T.json items.now)) }
{
    let mut told = Items::new(alloc);
    for item in items {
        told.push(item.tell(alloc)?)?;
    }
    Ok(Json::List(told))
}

/// An object whose one member is the list of them.
///
/// # Errors
///
/// When out of memory.
pub fn named_list<T: Told>(alloc: Global, name: &str, items: &[T]) -> Result<Json, AllocError>
    ensures { IfOk result (λ v. v ≡ object (member (chars name.now) (list (map T.json items.now)) ∷ [])) }
{
    let list = list_of(alloc, items)?;
    let mut members = Members::new(alloc);
    members.put(alloc, name, list)?;
    Ok(members.finish())
}

//! The names that a request gives.

ghost use Rattle.std.specs.Prelude.{◌≡◌, IfOk, IfSome, IsTrue, unwrap_or};
ghost use Rattle.model.specs.Names.{bad_name};
ghost use Rattle.model.specs.People.{bad_name_if_any};
ghost use Rattle.model.specs.Sound.{is_name};
ghost use Rattle.store_edit.specs.Judging.{Passes};
ghost use Rattle.store_abstraction.specs.Calls.{ended_edit, fell};

use base_value::Text;
use model::{Refusal, is_name};
use std::alloc::{AllocError, Global};
use store_abstraction::EditFail;

/// Refuses a name that isn't of its form.
///
/// # Errors
///
/// `Refused` with `InvalidName`, `Store` with `Memory` if out of memory.
pub(crate) fn check_name(alloc: Global, name: &Text) -> Result<(), EditFail>
    ensures passes { Passes (bad_name is_name name.now) (λ x. IsTrue (is_name name.now)) result }
    ensures cause { ended_edit result ≡ fell → ⊥ }
{
    if is_name(name.as_str()) {
        Ok(())
    } else {
        Err(EditFail::Refused(Refusal::InvalidName {
            name: name.copy(alloc)?,
        }))
    }
}

/// The same of a name that may be missing.
///
/// # Errors
///
/// As of one that isn't.
pub(crate) fn check_name_if_any(alloc: Global, name: &Option<Text>) -> Result<(), EditFail>
    ensures passes { Passes (bad_name_if_any name.now) (λ x. IfSome name.now (λ n. IsTrue (is_name n))) result }
    ensures cause { ended_edit result ≡ fell → ⊥ }
{
    match name {
        None => Ok(()),
        Some(name) => check_name(alloc, name),
    }
}

/// The name that is given, or else this one.
///
/// # Errors
///
/// If out of memory.
pub(crate) fn name_or(alloc: Global, given: &Option<Text>, name: Text) -> Result<Text, AllocError>
    ensures { IfOk result (λ x. x ≡ unwrap_or given.now name) }
{
    match given {
        None => Ok(name),
        Some(given) => given.copy(alloc),
    }
}

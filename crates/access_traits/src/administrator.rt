//! The rights of an administrator.

ghost use Rattle.std.specs.Prelude.{◌≡◌, true};
ghost use Rattle.access_traits.specs.inner.Administering.{level_if};

use crate::rights::{Rights, Sight};
use base_value::{Id, Level};
use model::administrator_laws;
use record_read::has_record;
use std::alloc::Global;
use store_abstraction::{Layout, call_laws};
use store_kv::{Draft, Keeper, KeptRow};
use store_rows::StoreFail;

/// An administrator, who has all levels on every record.
#[derive(Clone, Copy)]
pub struct Administrator;

// Every level, if there is a record.
fn level_if(there: Result<bool, StoreFail>) -> Result<Level, StoreFail>
    ensures { result ≡ level_if there }
{
    match there {
        Ok(true) => Ok(Level::Full),
        Ok(false) => Ok(Level::Nothing),
        Err(fail) => Err(fail),
    }
}

impl Rights for Administrator {
    ghost whose = { λ s t u. u.admin ≡ true };

    fn level_at<K: Keeper>(
        &self,
        alloc: Global,
        draft: &mut Draft<'_, K>,
        org: u32,
        object: u16,
        id: &Id,
    ) -> Result<Level, StoreFail> {
        administrator_laws();
        call_laws::<K>();
        level_if(has_record(alloc, draft, org, object, id))
    }
}

impl Sight for Administrator {
    ghost sees = { λ s l t u. u.admin ≡ true };

    ghost shown = { 0 };

    fn may_read<K: Keeper>(
        &self,
        _alloc: Global,
        _draft: &mut Draft<'_, K>,
        _layout: &Layout,
        _row: &KeptRow,
    ) -> Result<bool, StoreFail> {
        administrator_laws();
        call_laws::<K>();
        Ok(true)
    }
}

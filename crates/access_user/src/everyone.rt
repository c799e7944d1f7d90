//! What every user sees of the records of an object that all may read.

ghost use Rattle.std.specs.Prelude.{◌≡◌, true};
ghost use Rattle.access_user.specs.level.Own.{is_open};

use crate::level::is_open;
use access_traits::Sight;
use std::alloc::Global;
use store_abstraction::{Layout, call_laws};
use store_kv::{Draft, Keeper, KeptRow};
use store_rows::StoreFail;

/// Every user, on an object whose default access lets all users read its records. No people and no rules are read for it.
#[derive(Clone, Copy)]
pub struct Everyone;

/// Whether every user may read the records of the object with this layout.
pub fn all_may_read(layout: &Layout) -> bool
    ensures { result ≡ is_open layout.now.access }
{
    is_open(layout.access)
}

impl Sight for Everyone {
    ghost sees = { λ s l t u. is_open l.access ≡ true };

    ghost shown = { 0 };

    fn may_read<K: Keeper>(
        &self,
        _alloc: Global,
        _draft: &mut Draft<'_, K>,
        layout: &Layout,
        _row: &KeptRow,
    ) -> Result<bool, StoreFail> {
        call_laws::<K>();
        Ok(is_open(layout.access))
    }
}

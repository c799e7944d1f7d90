ghost use Rattle.std.specs.Prelude.{◌≡◌, IfOk, None, length};
ghost use Rattle.std.specs.FinMap as map;
ghost use Rattle.store_kv.specs.Draft.{DraftTells, tables_of};
ghost use Rattle.store_kv.specs.State.{KeeperCause, LeavesNoMore, Shows, TrustedAfter, Steps, Tells};
ghost use Rattle.store_rows.specs.Keys.{Version, spell};
ghost use Rattle.model.specs.World.{World};
ghost use Rattle.store_abstraction.specs.Calls.{Calls, ended_opening};
ghost use Rattle.store_abstraction.specs.Fails.{KeeperFailsOpening, sees_version};
ghost use Rattle.store_abstraction.specs.Opening.{OpensAs};
ghost use Rattle.store_abstraction.specs.Stands.{Stands};

use crate::calls::call_laws;
use crate::fail::OpenFail;
use std::alloc::Global;
use store_kv::{Draft, Keeper, draft_laws};
use store_rows::{OrgRow, StoreFail, VersionRow, row_at, row_laws};

/// The version of the forms that are written here.
pub const KNOWN_VERSION: u32 = 1;

// Tables without a row of the version have no organisations. If the row of the first is there, the version's is lost.
fn count_none<K: Keeper>(alloc: Global, draft: &mut Draft<'_, K>) -> Result<u32, OpenFail>
    ensures opens { DraftTells K.state draft.old draft.new
        → map.get (tables_of K.state draft.old) (spell Version) ≡ None → OpensAs (tables_of K.state draft.old) result }
    ensures counts { IfOk result (λ n. n ≡ 0) }
    ensures calls { Calls K.state 0 (ended_opening result) draft.old draft.new }
{
    match row_at::<OrgRow, K>(alloc, draft, &1) {
        Ok(None) => Ok(0),
        Ok(Some(_first)) => Err(OpenFail::Store(StoreFail::Damaged)),
        Err(fail) => Err(OpenFail::Store(fail)),
    }
}

// How many organisations there are, if the version is known.
fn count_organisations<K: Keeper>(alloc: Global, draft: &mut Draft<'_, K>) -> Result<u32, OpenFail>
    ensures opens { DraftTells K.state draft.old draft.new → OpensAs (tables_of K.state draft.old) result }
    ensures counts { DraftTells K.state draft.old draft.new
        → (w : World) → Stands (tables_of K.state draft.old) w → IfOk result (λ n. n ≡ length w) }
    ensures calls { Calls K.state 0 (ended_opening result) draft.old draft.new }
{
    row_laws::<VersionRow>();
    draft_laws::<K>();
    call_laws::<K>();
    match row_at::<VersionRow, K>(alloc, draft, &()) {
        Ok(None) => count_none(alloc, draft),
        Ok(Some(row)) => {
            if row.version == KNOWN_VERSION {
                Ok(row.organisations)
            } else {
                Err(OpenFail::UnknownVersion)
            }
        }
        Err(fail) => Err(OpenFail::Store(fail)),
    }
}

/// Makes the keeper ready, sees that its tables are of a known version, and returns how many organisations there are. Tables
/// with neither a row of the version nor one of the first organisation are of the known version, and have none.
///
/// # Errors
///
/// `UnknownVersion` exactly if the row of the version has another number than 1, and `Store` with `Damaged` exactly if there
/// is a row at its key that is none of a version, or none there and one at the key of the first organisation, unless opening
/// or reading fails; `Store` with `Keeper` if the keeper failed, with `Memory` if out of memory.
pub fn open_tables<K: Keeper>(alloc: Global, keeper: &mut K) -> Result<u32, OpenFail>
    ensures opens { Tells (K.state keeper.old) (K.state keeper.new) → OpensAs (K.state keeper.old).tables result }
    ensures counts { Tells (K.state keeper.old) (K.state keeper.new)
        → (w : World) → Stands (K.state keeper.old).tables w → IfOk result (λ n. n ≡ length w) }
    ensures same { Tells (K.state keeper.old) (K.state keeper.new) → Shows (K.state keeper.new) (K.state keeper.old).tables }
    ensures crash { (K.state keeper.old).tells → LeavesNoMore (K.state keeper.old) (K.state keeper.new) }
    ensures steps { Steps (K.state keeper.old) (K.state keeper.new) }
    ensures written { (K.state keeper.new).written ≡ (K.state keeper.old).written }
    ensures trusted { TrustedAfter (sees_version result) (K.state keeper.new) }
    ensures cause { KeeperCause (K.state keeper.old) (K.state keeper.new) (KeeperFailsOpening result) }
{
    keeper.open(alloc)?;
    let mut draft = Draft::new(alloc, keeper);
    count_organisations(alloc, &mut draft)
}

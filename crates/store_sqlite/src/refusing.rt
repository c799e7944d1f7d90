//! What a call is refused with that an error of its connection ended.

ghost use Rattle.std.specs.Prelude.{◌≡◌, ◌⊎◌, ◌≤◌, IsTrue};
ghost use Rattle.sqlite.specs.State.{HasCleanDisk, Survives};
ghost use Rattle.sqlite.specs.Held.{state};
ghost use Rattle.sqlite.specs.declared.error.Error.TheVariants.{SqliteFailure};
ghost use Rattle.sqlite.specs.declared.error.ErrorCode.TheVariants.{OutOfMemory};
ghost use Rattle.base_value.specs.Causes.{Rose};
ghost use Rattle.store_sqlite.specs.inner.Steps.{Keeps, Stays, WasOpen};

use crate::fault::{Refusals, fault_of, is_out_of_memory};
use crate::statements::check_open;
use sqlite::{Alter, Connection, Error};
use store_kv::KeepFail;

/// Counts a call that an error of the connection ended.
///
/// It is `Memory`, and isn't counted, only if the connection is seen to be open: a call that ran out of memory may have
/// been ended by a fault of the files too.
pub(crate) fn refuse_call<S: Alter>(
    conn: &mut Connection<S>,
    refusals: &mut Refusals,
    error: Error,
) -> KeepFail
    ensures stays { HasCleanDisk (state S.Store conn.new)
        → Stays (state S.Store conn.old) (state S.Store conn.new) }
    ensures was_open { HasCleanDisk (state S.Store conn.new)
        → WasOpen (state S.Store conn.old) (state S.Store conn.new) }
    ensures keeps { Keeps (state S.Store conn.old) (state S.Store conn.new) }
    ensures survives { Survives (state S.Store conn.old) (state S.Store conn.new) (λ _. ⊥) }
    ensures counts { refusals.old.count ≤ refusals.new.count }
    ensures cause { result ≡ KeepFail.Failed → Rose refusals.old.count refusals.new.count }
    ensures quiet { (result ≡ KeepFail.Failed → ⊥) → refusals.new.count ≡ refusals.old.count }
    ensures memory { result ≡ KeepFail.Memory → error ≡ SqliteFailure OutOfMemory }
    ensures same { result ≡ KeepFail.Memory → refusals.new.last ≡ refusals.old.last }
    ensures seen { HasCleanDisk (state S.Store conn.new)
        → IsTrue (state S.Store conn.new).is_open ⊎ Rose refusals.old.count refusals.new.count }
{
    if !is_out_of_memory(&error) {
        refusals.add(fault_of(error));
        return KeepFail::Failed;
    }
    match check_open(conn) {
        Ok(_) => KeepFail::Memory,
        Err(error) => {
            refusals.add(fault_of(error));
            KeepFail::Failed
        }
    }
}

//! Rows, done over one draft.

ghost use Rattle.std.specs.Prelude.{◌≡◌, ◌*◌, ◌++◌, ◌||◌, IfOk, OnOk, length, map};
ghost use Rattle.cmd_auth.specs.Judging.{JudgesFor};
ghost use Rattle.cmd_load.specs.Batches.{JudgesRowsFor, changes_of_row, row_asked, shown_of_row};
ghost use Rattle.cmd_load.specs.inner.Joining.{is_changed, judged_so, line_in};
ghost use Rattle.cmd_load_plan.specs.Rows.{refused_line};
ghost use Rattle.store_kv.specs.Draft.{DraftTells, removals_of, tables_of};
ghost use Rattle.store_kv.specs.State.{data_table};
ghost use Rattle.cmd_load_row.specs.Loads.{load_shown, row_changes};
ghost use Rattle.model.specs.Callers.{named_by};
ghost use Rattle.model.specs.declared.refusal.Refusal.TheVariants.{InvalidSession};
ghost use Rattle.store_abstraction.specs.Operations.{Drafts};

use crate::cells::cells_of;
use crate::rows::Row;
use base_value::Bytes;
use cmd_auth::{Ask, answer_asked};
use cmd_load_plan::{LoadPlan, refused_line};
use cmd_load_row::load_row;
use model::{Caller, Refusal};
use std::alloc::{AllocError, Global};
use store_abstraction::{Judged, call_laws};
use store_kv::{Draft, Keeper, draft_laws};
use store_rows::StoreFail;

/// How rows are loaded: by the user with this id of the organisation with this id, if the secret is the user's, by a plan.
#[derive(Drop)]
pub struct Loading<'a> {
    /// The organisation's id.
    pub org: &'a str,
    /// The user's.
    pub user: &'a str,
    /// The secret.
    pub secret: &'a str,
    /// What the cells of each row give.
    pub plan: &'a LoadPlan,
}

// The cells of a row, as a request.
#[derive(Drop)]
struct RowRequest<'a> {
    plan: &'a LoadPlan,
    number: u64,
    cells: &'a [&'a str],
}

impl Ask for RowRequest<'_> {
    type Answer = Bytes;

    ghost does = { λ r. row_asked r.plan.now r.number (map (λ c. c.now) r.cells.now) };

    ghost refused = { λ r. refused_line r.number InvalidSession };

    ghost most = { row_changes };

    ghost shown = { λ r. load_shown };

    fn judge<K: Keeper>(
        &self,
        alloc: Global,
        draft: &mut Draft<'_, K>,
        caller: &Caller,
        now: u64,
    ) -> Result<Judged<Bytes>, StoreFail> {
        draft_laws::<K>();
        call_laws::<K>();
        load_row(
            alloc,
            draft,
            caller,
            now,
            self.plan,
            self.number,
            self.cells,
        )
    }

    fn refuse(&self, alloc: Global) -> Result<Bytes, AllocError> {
        refused_line(alloc, self.number, &Refusal::InvalidSession)
    }
}

// One row.
fn load_one<K: Keeper>(
    alloc: Global,
    draft: &mut Draft<'_, K>,
    loading: &Loading<'_>,
    row: &Row,
) -> Result<Judged<Bytes>, StoreFail>
    ensures what { DraftTells K.state draft.old draft.new
        → JudgesFor (row_asked loading.now.plan.now row.now.number row.now.cells) (refused_line row.now.number InvalidSession) row.now.moment
        (named_by loading.now.org.now loading.now.user.now loading.now.secret.now) (tables_of K.state draft.old)
        (tables_of K.state draft.new) result }
    ensures drafts { Drafts K.state changes_of_row 0 (shown_of_row (removals_of K.state data_table draft.old)) result draft.old draft.new }
{
    draft_laws::<K>();
    call_laws::<K>();
    let cells = cells_of(alloc, row.cells())?;
    let request = RowRequest {
        plan: loading.plan,
        number: row.number(),
        cells: cells.as_slice(),
    };
    answer_asked(
        alloc,
        draft,
        &request,
        loading.org,
        loading.user,
        loading.secret,
        row.moment(),
    )
}

// Adds the line of a row, and tells whether this or one before changed anything.
fn add_line(lines: &mut Vec<u8>, changed: bool, judged: Judged<Bytes>) -> Result<bool, AllocError>
    ensures changed { IfOk result (λ b. b ≡ changed || is_changed judged) }
    ensures lines { OnOk result (lines.new.items ≡ lines.old.items ++ line_in judged) }
{
    match judged {
        Judged::Same(line) => {
            lines.extend_from_slice(line.as_slice())?;
            Ok(changed)
        }
        Judged::Changed(line) => {
            lines.extend_from_slice(line.as_slice())?;
            Ok(true)
        }
    }
}

// The lines of rows, some of which changed something, or none.
fn judged_so(changed: bool, lines: Bytes) -> Judged<Bytes>
    ensures { result ≡ judged_so changed lines }
{
    if changed {
        Judged::Changed(lines)
    } else {
        Judged::Same(lines)
    }
}

/// Does rows in turn, each as a request of its own at its own moment, and returns their lines. A step of the change of a field's type is
/// made before each, if one is under way.
///
/// # Errors
///
/// `Keeper` if the keeper failed, `Memory` if out of memory, `Damaged` never if the rows of the organisation stand for a tenant or for
/// none.
pub fn load_batch<K: Keeper>(
    alloc: Global,
    draft: &mut Draft<'_, K>,
    loading: &Loading<'_>,
    rows: &[Row],
) -> Result<Judged<Bytes>, StoreFail>
    ensures what { DraftTells K.state draft.old draft.new
        → JudgesRowsFor (named_by loading.now.org.now loading.now.user.now loading.now.secret.now) loading.now.plan.now rows.now
        (tables_of K.state draft.old) (tables_of K.state draft.new) result }
    ensures drafts { Drafts K.state (length rows.now * changes_of_row) 0
        (length rows.now * shown_of_row (removals_of K.state data_table draft.old)) result draft.old draft.new }
{
    draft_laws::<K>();
    call_laws::<K>();
    let mut lines = Vec::new(alloc);
    let mut changed = false;
    for row in rows {
        match load_one(alloc, draft, loading, row) {
            Ok(judged) => changed = add_line(&mut lines, changed, judged)?,
            Err(fail) => return Err(fail),
        }
    }
    Ok(judged_so(changed, Bytes::from_vec(lines)))
}

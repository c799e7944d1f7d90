//! The command `export`.

ghost use Rattle.std.specs.Prelude.{◌≡◌, IfOk, IsTrue, false, pos};
ghost use Rattle.commands.specs.Export.{IsPrintoutOf, export_does, lines_printout};
ghost use Rattle.cmd_auth.specs.Judging.{changes_behind, shown_behind};
ghost use Rattle.cmd_export.specs.Exports.{export_shown};
ghost use Rattle.base_value.specs.Dates.{is_moment};

use crate::printout::{Printout, printout_of_refusal};
use crate::tables::TableWork;
use base_value::Bytes;
use cmd_auth::{answer_asked, asking_laws};
use cmd_export::Export;
use model::Refusal;
use std::alloc::{AllocError, Global};
use store_abstraction::Judged;
use store_kv::{Draft, Keeper};
use store_rows::StoreFail;

/// The export of a query, asked at this moment by the user with this id, if the secret is the user's.
#[derive(Drop)]
pub struct Exporting<'a> {
    /// The organisation's id.
    pub org: &'a str,
    /// The user's id.
    pub user: &'a str,
    /// The user's secret.
    pub secret: &'a str,
    /// The query's text.
    pub query: &'a str,
    /// When it is asked, in seconds from 1970-01-01T00:00:00Z.
    pub now: u64,
    pub ghost calendar: { IsTrue (is_moment (pos now)) },
}

// The printout of lines, or of a refusal.
fn lines_printout(alloc: Global, answer: Result<Bytes, Refusal>) -> Result<Printout, AllocError>
    ensures { IfOk result (λ p. p ≡ lines_printout answer) }
{
    match answer {
        Ok(text) => Ok(Printout::done(text.into_vec())),
        Err(refusal) => printout_of_refusal(alloc, &refusal),
    }
}

// The printout of what is judged.
fn printout_judged(
    alloc: Global,
    judged: Result<Judged<Result<Bytes, Refusal>>, StoreFail>,
) -> Result<Judged<Printout>, StoreFail>
    ensures { IsPrintoutOf judged result }
{
    match judged {
        Ok(Judged::Same(answer)) => Ok(Judged::Same(lines_printout(alloc, answer)?)),
        Ok(Judged::Changed(answer)) => Ok(Judged::Changed(lines_printout(alloc, answer)?)),
        Err(fail) => Err(fail),
    }
}

impl TableWork for Exporting<'_> {
    ghost does = { λ x w. export_does x.org.now x.user.now x.secret.now x.query.now x.now w };

    ghost keeps = { false };

    ghost most = { λ x. changes_behind 0 };

    ghost shown = { λ x removed. shown_behind (export_shown x.query.now) removed };

    fn judge<K: Keeper>(
        &self,
        alloc: Global,
        draft: &mut Draft<'_, K>,
        _organisations: u32,
    ) -> Result<Judged<Printout>, StoreFail> {
        asking_laws::<Result<Bytes, Refusal>>();
        let asked = Export { query: self.query };
        let judged = answer_asked(
            alloc,
            draft,
            &asked,
            self.org,
            self.user,
            self.secret,
            self.now,
        );
        printout_judged(alloc, judged)
    }
}

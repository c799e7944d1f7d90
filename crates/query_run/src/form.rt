//! In which form queries are answered.

ghost use Rattle.std.specs.Prelude.{◌≡◌, ◌+◌, Err, IfOk, None, true};
ghost use Rattle.query_json.specs.Answers.{IsAskedOf, IsAskedOver};
ghost use Rattle.query_exec.specs.Written.{most_shown};
ghost use Rattle.store_kv.specs.Draft.{DraftTells, removals_of, tables_of};
ghost use Rattle.store_rows.specs.declared.fail.StoreFail.{StoreFail};
ghost use Rattle.store_rows.specs.declared.fail.StoreFail.TheVariants.{Memory};
ghost use Rattle.model.specs.Objects.{object_named};
ghost use Rattle.model.specs.Paths.{Asked};
ghost use Rattle.query_run.specs.Forms.{IsAnswer};
ghost use Rattle.soql.specs.declared.query.Query.{Query};
ghost use Rattle.store_abstraction.specs.Calls.{Calls, ended};
ghost use Rattle.store_abstraction.specs.Plan.{OrgPlan};
ghost use Rattle.model.specs.Flat.{is_flat};
ghost use Rattle.model.specs.Shown.{row_shown};

use access_traits::{Rights, Sight};
use soql::Query;
use std::alloc::Global;
use store_abstraction::Layout;
use store_kv::{Draft, Keeper};
use store_rows::StoreFail;

/// A form in which queries are answered.
pub trait QueryForm {
    /// What is answered.
    type Answer: Drop;

    // The answer to a query, of one who asks.
    ghost answer: { Self → Asked → Query → Self.Answer };

    // The form that every answer has.
    ghost formed: { Self → Self.Answer → Type 0 };

    /// The answer to a query over the layout's object alone, of a user with this sight who asks at this moment.
    ///
    /// # Errors
    ///
    /// `Keeper` if the keeper failed, `Memory` if out of memory, `Damaged` never if the organisation's rows stand for a tenant whose
    /// layout it is and of whose user this is the sight.
    fn flat<K: Keeper, S: Sight>(
        &self,
        alloc: Global,
        draft: &mut Draft<'_, K>,
        layout: &Layout,
        sight: &S,
        now: i64,
        query: &Query,
    ) -> Result<Self::Answer, StoreFail>
        ensures what { DraftTells K.state draft.old draft.new
            → (p : OrgPlan) (a : Asked) → IsAskedOf layout.now (S.sees sight.now layout.now) now query.now (tables_of K.state draft.old) p a
            → is_flat query.now ≡ true → IsAnswer (answer self.now a query.now) result }
        ensures form { IfOk result (formed self.now) }
        ensures calls { Calls K.state (most_shown (S.shown + row_shown query.now) (removals_of K.state 7 draft.old)) (ended result)
            draft.old draft.new };

    /// The answer to any query of the layout's object, of a user with this sight and these rights. The layouts are those of all
    /// objects.
    ///
    /// # Errors
    ///
    /// As `flat`.
    fn related<K: Keeper, S: Sight, R: Rights>(
        &self,
        alloc: Global,
        draft: &mut Draft<'_, K>,
        layouts: &[Layout],
        layout: &Layout,
        sight: &S,
        rights: &R,
        now: i64,
        query: &Query,
    ) -> Result<Self::Answer, StoreFail>
        ensures what { DraftTells K.state draft.old draft.new
            → (p : OrgPlan) (a : Asked)
            → IsAskedOver layouts.now layout.now (S.sees sight.now layout.now) (R.whose rights.now) now query.now (tables_of K.state draft.old) p a
            → IsAnswer (answer self.now a query.now) result }
        ensures form { IfOk result (formed self.now) }
        ensures calls { Calls K.state (most_shown (S.shown + row_shown query.now) (removals_of K.state 7 draft.old)) (ended result)
            draft.old draft.new };

    /// The answer to a query of an object that isn't there.
    ///
    /// # Errors
    ///
    /// `Memory` if out of memory.
    fn without_object(&self, alloc: Global, query: &Query) -> Result<Self::Answer, StoreFail>
        ensures what { (a : Asked) → object_named a.tenant query.now.tail.from ≡ None → IsAnswer (answer self.now a query.now) result }
        ensures form { IfOk result (formed self.now) }
        ensures memory { (e : StoreFail) → result ≡ Err e → e ≡ Memory };
}

//! Records with what they are ordered by.

ghost use Rattle.std.specs.Cmp.{eq_by_cmp_equiv, partial_equiv_from_equiv, partial_order_from_agreeing_total};
ghost use Rattle.std.specs.Ordering.{eq_by_cmp};
ghost use Rattle.std.specs.Prelude.{◌≡◌, List, Option, Some, refl};
ghost use Rattle.query_plan.specs.Given.{GivesJust};
ghost use Rattle.query_exec.specs.Ranks.{ranked_cmp, ranked_total};
ghost use Rattle.query_exec.specs.Seen.{seen_record};
ghost use Rattle.query_exec.specs.inner.Judging.{unranked};
ghost use Rattle.model.specs.declared.record.Record.{Record};

use crate::seen::SeenRecord;
use base_value::Id;
use model::Record;
use std::alloc::Global;
use std::cmp::Ordering;
use store_codec::CodecFail;

/// By what rows are ordered. Records with ranks that tie are in the order of their ids.
pub trait Ranks {
    /// What is compared of records.
    type Rank: Ord + Drop;

    // The rank of a record, by the records of its parents and by itself.
    ghost ranked: { Self → List (Option Record) → Record → Self.Rank };

    /// The rank of a record.
    ///
    /// # Errors
    ///
    /// `Memory` if out of memory, `Damaged` never if the row spells a record.
    fn rank_of(
        &self,
        alloc: Global,
        item: &SeenRecord<'_>,
        parents: &[Option<Record>],
    ) -> Result<Self::Rank, CodecFail>
        ensures { (r : Record) → seen_record item.now ≡ Some r → GivesJust (ranked self.now parents.now r) result };
}

/// What is kept of a record, with its rank.
#[derive(Drop)]
pub struct Ranked<R, X> {
    /// By this it is ordered.
    pub rank: R,
    /// And then by its id.
    pub id: Id,
    /// What is kept of it.
    pub kept: X,
}

/// No ranks: rows stay as they come.
pub(crate) struct Unranked;

impl Ranks for Unranked {
    type Rank = ();

    ghost ranked = { λ s. unranked };

    fn rank_of(
        &self,
        _alloc: Global,
        _item: &SeenRecord<'_>,
        _parents: &[Option<Record>],
    ) -> Result<(), CodecFail> {
        Ok(())
    }
}

impl<R: Ord, X> PartialEq for Ranked<R, X> {
    ghost eq = { eq_by_cmp (ranked_cmp R.cmp) };

    ghost laws = { partial_equiv_from_equiv (eq_by_cmp_equiv (ranked_total R.total)) };

    fn eq(&self, other: &Ranked<R, X>) -> bool {
        self.cmp(other).is_eq()
    }
}

impl<R: Ord, X> Eq for Ranked<R, X> {
    ghost laws = { eq_by_cmp_equiv (ranked_total R.total) };
}

impl<R: Ord, X> PartialOrd for Ranked<R, X> {
    ghost partial_cmp = { λ x y. Some (ranked_cmp R.cmp x y) };

    ghost laws = { partial_order_from_agreeing_total (ranked_cmp R.cmp) (ranked_total R.total) (λ x y. refl) (λ x y. refl) };

    fn partial_cmp(&self, other: &Ranked<R, X>) -> Option<Ordering> {
        Some(self.cmp(other))
    }
}

impl<R: Ord, X> Ord for Ranked<R, X> {
    ghost cmp = { ranked_cmp R.cmp };

    ghost total = { ranked_total R.total };

    ghost matches_partial_cmp = { λ x y. refl };

    ghost matches_eq = { λ x y. refl };

    fn cmp(&self, other: &Ranked<R, X>) -> Ordering {
        self.rank
            .cmp(&other.rank)
            .then(self.id.as_bytes().cmp(other.id.as_bytes()))
    }
}

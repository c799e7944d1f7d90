//! By what rows are ordered.

ghost use Rattle.query_plan.specs.order.Ranks.{rank_by};

use model::Record;
use query_exec::{Ranks, SeenRecord};
use query_plan::{Rank, SortKey, rank_of};
use std::alloc::Global;
use store_codec::CodecFail;

/// By the keys of a plan.
#[derive(Drop)]
pub(crate) struct ByKeys<'a> {
    pub keys: &'a [SortKey],
}

impl Ranks for ByKeys<'_> {
    type Rank = Rank;

    ghost ranked = { λ by parents r. rank_by by.keys.now parents r };

    fn rank_of(
        &self,
        alloc: Global,
        item: &SeenRecord<'_>,
        parents: &[Option<Record>],
    ) -> Result<Rank, CodecFail> {
        rank_of(alloc, self.keys, item, parents)
    }
}

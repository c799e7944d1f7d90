//! The order of ranks.

ghost use Rattle.std.specs.Ordering.{ordering_then};
ghost use Rattle.std.specs.Prelude.{◌≡◌, List};
ghost use Rattle.query_plan.specs.Plans.{Far, by_keys};
ghost use Rattle.query_plan.specs.declared.plan.SortKey.{SortKey};
ghost use Rattle.model.specs.Ordered.{by_id};
ghost use Rattle.model.specs.declared.record.Record.{Record};
ghost use Rattle.query_plan.specs.order.Ranks.{rank_by, rank_cmp};

/// The order of ranks, and of ids where they tie, is that of the keys. The call does nothing.
pub fn rank_laws()
    ensures order { (ks : List SortKey) (far : Far) (r s : Record)
        → ordering_then (rank_cmp (rank_by ks (far r) r) (rank_by ks (far s) s)) (by_id r s) ≡ by_keys ks far r s }
{}

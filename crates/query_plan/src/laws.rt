//! What holds of a plan that means a query.

ghost use Rattle.std.specs.Prelude.{◌≡◌, Some};
ghost use Rattle.soql.specs.declared.query.Query.{Query};
ghost use Rattle.model.specs.Objects.{Numbered, object_named};
ghost use Rattle.model.specs.Paths.{Asked};
ghost use Rattle.model.specs.Rows.{found, readable_of};
ghost use Rattle.query_plan.specs.declared.plan.Plan.{Plan};
ghost use Rattle.query_plan.specs.Plans.{Means, chosen_by};

/// What a query finds is what its plan takes of the records that the user may read. The call does nothing.
pub fn plan_laws()
    ensures found { (a : Asked) (q : Query) (o : Numbered) (p : Plan) → object_named a.tenant q.tail.from ≡ Some o → Means a o.number q p
        → chosen_by a p.choice (readable_of a o.number) ≡ found a q }
{}

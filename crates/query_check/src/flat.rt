//! Which queries ask for one object alone.

ghost use Rattle.std.specs.Prelude.{◌≡◌};
ghost use Rattle.std.specs.List.{flat_map, list_all};
ghost use Rattle.model.specs.Tests.{tests, tests_of};
ghost use Rattle.model.specs.Flat as spec;

use soql::{Cond, Item, OrderKey, Path, Query};

fn has_one_name(path: &Path) -> bool
    ensures { result ≡ spec.has_one_name path.now.names }
{
    path.names.as_slice().len() == 1
}

fn is_flat_item(item: &Item) -> bool
    ensures { result ≡ spec.is_flat_item item.now }
{
    match item {
        Item::Path(path) => has_one_name(path),
        Item::Child { .. } => false,
    }
}

fn are_flat_items(items: &[Item]) -> bool
    ensures { result ≡ list_all spec.is_flat_item items.now }
{
    items.iter().all(|item| is_flat_item(item))
}

fn are_flat_keys(keys: &[OrderKey]) -> bool
    ensures { result ≡ list_all (λ k. spec.has_one_name k.path.names) keys.now }
{
    keys.iter().all(|key| has_one_name(&key.path))
}

// Whether each path that a condition tests has one name.
#[cycle(flatness)]
fn is_flat_condition(cond: &Cond) -> bool
    ensures { result ≡ list_all spec.is_flat_test (tests_of cond.now) }
{
    match cond {
        Cond::Test { path, .. } | Cond::Like { path, .. } | Cond::In { path, .. } => has_one_name(
            path,
        ),
        Cond::Not(part) => is_flat_condition(part.get()),
        Cond::And(parts) => are_flat_conditions(parts.as_slice()),
        Cond::Or(parts) => are_flat_conditions(parts.as_slice()),
    }
}

#[cycle(flatness)]
fn are_flat_conditions(conds: &[Cond]) -> bool
    ensures { result ≡ list_all spec.is_flat_test (flat_map tests_of conds.now) }
{
    for cond in conds {
        if !is_flat_condition(cond) {
            return false;
        }
    }
    true
}

fn is_flat_where(cond: &Option<Cond>) -> bool
    ensures { result ≡ list_all spec.is_flat_test (tests cond.now) }
{
    match cond {
        Some(cond) => is_flat_condition(cond),
        None => true,
    }
}

/// Whether each path of a query that is selected, tested or ordered by has one name, and nothing selected is a child subquery.
pub fn is_flat(query: &Query) -> bool
    ensures { result ≡ spec.is_flat query.now }
{
    are_flat_items(query.select.as_slice())
        && is_flat_where(&query.tail.condition)
        && are_flat_keys(query.tail.order.as_slice())
}

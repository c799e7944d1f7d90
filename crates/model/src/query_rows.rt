//! What small queries find, worked by hand.

ghost use Rattle.std.specs.Prelude.{◌≡◌, ◌∷◌, [], codes, false, map, negsuc, None, pos, Some, true};
ghost use Rattle.base_value.specs.declared.value.Value.TheVariants as value;
ghost use Rattle.soql.specs.declared.query.Cond.TheVariants as cond;
ghost use Rattle.soql.specs.declared.query.LikePart.TheVariants as part;
ghost use Rattle.soql.specs.declared.query.Literal.TheVariants as literal;
ghost use Rattle.soql.specs.declared.query.Op.TheVariants as op;
ghost use Rattle.soql.specs.Worked.{street};
ghost use Rattle.model.specs.Conditions.{holds, is_like, passes};
ghost use Rattle.model.specs.Paths.{path_value};
ghost use Rattle.model.specs.Rows.{found_children, listed, rows, shown};
ghost use Rattle.model.specs.WorkedAccess.{admin, cea, d1, otto, private, ron};
ghost use Rattle.model.specs.WorkedQueries.{account, account_name, asked_by, both, contact, contacts, contacts_where, either, ids_of, last_note, moment, name_among, named_x, no_name, not_x, note, opposite, order_by, path, row_ids, sorted};

/// Rows, paths through records that the user may not read, and children. The call does nothing.
pub fn path_rows()
    ensures deals { rows (asked_by cea private) (ids_of (codes "deal__C"))
        ≡ record { id = d1.id; cells = shown (value.Ref (codes "a00000000000008")) ∷ [] } ∷ [] }
    ensures no_deals { rows (asked_by otto private) (ids_of (codes "Deal__c")) ≡ [] }
    ensures reference { path_value (asked_by otto (contacts [])) contact (codes "Account__c" ∷ []) ≡ value.Ref (codes "a00000000000003") }
    ensures hidden_parent { path_value (asked_by otto (contacts [])) contact account_name ≡ value.Null }
    ensures parent { path_value (asked_by admin (contacts [])) contact account_name ≡ value.Text (codes "secret") }
    ensures two_steps_up { path_value (asked_by admin (contacts [])) (note 5 ron) (codes "Contact__r" ∷ account_name)
        ≡ value.Text (codes "secret") }
    ensures hidden_on_the_way { path_value (asked_by otto (contacts [])) (note 5 ron) (codes "Contact__r" ∷ account_name)
        ≡ value.Null }
    ensures owner { path_value (asked_by otto (contacts [])) contact (codes "ownerid" ∷ []) ≡ value.Ref ron.id }
    ensures row { rows (asked_by otto (contacts [])) (contacts_where None)
        ≡ record { id = contact.id; cells = shown (value.Ref account.id) ∷ shown value.Null ∷ listed [] ∷ [] } ∷ [] }
    ensures null_parent { holds (asked_by otto (contacts [])) contact (cond.Test (path account_name) op.Equal literal.Null) ≡ true }
    ensures not_the_parent { holds (asked_by otto (contacts [])) contact not_x ≡ true }
    ensures found_by_parent { map (λ r. r.id) (rows (asked_by otto (contacts [])) (contacts_where (Some not_x)))
        ≡ contact.id ∷ [] }

    // Of two notes only Otto's is shown to Otto.
    ensures children { rows (asked_by otto (contacts (note 5 ron ∷ note 6 otto ∷ []))) (contacts_where None)
        ≡ record {
          id = contact.id;
          cells = shown (value.Ref account.id) ∷ shown value.Null
              ∷ listed (record { id = codes "a02000000000006"; cells = value.Ref (codes "a02000000000006") ∷ [] } ∷ []) ∷ [];
        } ∷ [] }
    ensures last_child { map (λ r. r.id) (found_children (asked_by otto (contacts (note 5 otto ∷ note 6 otto ∷ []))) contact last_note)
        ≡ codes "a02000000000006" ∷ [] }
{}

/// Tests with null, folded texts, days by the clock, and conditions of conditions. The call does nothing.
pub fn condition_rows()
    ensures null { passes moment op.Equal value.Null literal.Null ≡ true }
    ensures not_equal_null { passes moment op.NotEqual value.Null (literal.Text (codes "x")) ≡ true }
    ensures not_null { passes moment op.NotEqual value.Null literal.Null ≡ false }
    ensures less_than_null { passes moment op.Less (value.Text (codes "x")) literal.Null ≡ false }
    ensures null_at_least_null { passes moment op.GreaterEqual value.Null literal.Null ≡ false }
    ensures empty_is_null { passes moment op.Equal value.Null (literal.Text []) ≡ true }
    ensures folded { passes moment op.Equal (value.Text street) (literal.Text (codes "STRASSE")) ≡ true }
    ensures id { passes moment op.Equal (value.Ref (codes "a0000000000000A")) (literal.Text (codes "a0000000000000AAAQ")) ≡ true }
    ensures another_case { passes moment op.Equal (value.Ref (codes "a0000000000000A")) (literal.Text (codes "a0000000000000a")) ≡ false }
    ensures number { passes moment op.Greater (value.Num (pos 150000000)) (literal.Num (pos 100000000)) ≡ true }
    ensures today { passes moment op.Equal (value.Moment (pos 1699920000)) literal.Today ≡ true }
    ensures yesterday { passes moment op.Equal (value.Moment (pos 1699919999)) literal.Yesterday ≡ true }
    ensures tomorrow { passes moment op.Equal (value.Day (pos 19676)) literal.Tomorrow ≡ true }
    ensures before_1970 { passes (pos 0) op.Equal (value.Moment (negsuc 0)) literal.Yesterday ≡ true }
    ensures like { is_like (part.Many ∷ part.Exact 83 ∷ []) (value.Text (codes "as")) ≡ true }
    ensures null_is_like_nothing { is_like (part.Many ∷ []) value.Null ≡ false }

    // On the contact, whose name is null.
    ensures among { holds (asked_by otto (contacts [])) contact (name_among false (literal.Text (codes "x") ∷ literal.Null ∷ [])) ≡ true }
    ensures not_among { holds (asked_by otto (contacts [])) contact (name_among true (literal.Text (codes "x") ∷ [])) ≡ true }
    ensures all { holds (asked_by otto (contacts [])) contact (both no_name named_x) ≡ false }
    ensures some { holds (asked_by otto (contacts [])) contact (either named_x no_name) ≡ true }
    ensures not { holds (asked_by otto (contacts [])) contact (both no_name (opposite named_x)) ≡ true }
{}

/// The order of rows, OFFSET and LIMIT. The call does nothing.
pub fn sorted_rows()
    ensures by_id { sorted [] None None ≡ row_ids (1 ∷ 2 ∷ 3 ∷ 4 ∷ []) }
    ensures nulls_first { sorted (order_by (codes "Name") false false ∷ []) None None ≡ row_ids (3 ∷ 1 ∷ 2 ∷ 4 ∷ []) }
    ensures nulls_last { sorted (order_by (codes "Name") false true ∷ []) None None ≡ row_ids (1 ∷ 2 ∷ 4 ∷ 3 ∷ []) }
    ensures descending { sorted (order_by (codes "Name") true false ∷ []) None None ≡ row_ids (3 ∷ 4 ∷ 1 ∷ 2 ∷ []) }
    ensures descending_nulls_last { sorted (order_by (codes "Name") true true ∷ []) None None ≡ row_ids (4 ∷ 1 ∷ 2 ∷ 3 ∷ []) }
    ensures two_keys { sorted (order_by (codes "Amount__c") true false ∷ order_by (codes "Name") false false ∷ []) None None
        ≡ row_ids (2 ∷ 4 ∷ 3 ∷ 1 ∷ []) }
    ensures offset_then_limit { sorted (order_by (codes "Name") false false ∷ []) (Some 2) (Some 1) ≡ row_ids (1 ∷ 2 ∷ []) }
    ensures past_the_end { sorted [] (Some 9) (Some 4) ≡ [] }
    ensures no_rows { sorted [] (Some 0) None ≡ [] }
{}

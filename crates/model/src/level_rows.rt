//! Who may do what with the records of a small organisation, worked by hand.

ghost use Rattle.std.specs.Prelude.{◌≡◌, ◌∷◌, [], codes, false, map, true};
ghost use Rattle.base_value.specs.declared.job.RuleState.TheVariants as state;
ghost use Rattle.base_value.specs.declared.sharing.Access.TheVariants as access;
ghost use Rattle.base_value.specs.declared.sharing.Level.TheVariants.{Edit, Full, Nothing, Read};
ghost use Rattle.base_value.specs.declared.sharing.Principal.TheVariants as to;
ghost use Rattle.model.specs.Levels.{level, level_at, readable};
ghost use Rattle.model.specs.Membership.{is_below, is_member, reaches};
ghost use Rattle.model.specs.Objects.{object_number, record_prefix};
ghost use Rattle.model.specs.Tenant.{owned};
ghost use Rattle.model.specs.WorkedAccess.{admin, apart, by_default, cea, ceo, d1, deal, g1, g2, id_of, is_open, line, other, otto, part, private, rep, ron, ruled, shared, shared_with, staged, to_otto, vp};

/// Roles below one another, and what owners and users above them may do. The call does nothing.
pub fn hierarchy_rows()
    ensures ids { id_of 0 10 ≡ codes "a0000000000000A" }
    ensures number { object_number (codes "a1000000000000A") ≡ 62 }
    ensures two_steps { is_below private rep ceo ≡ true }
    ensures beside { is_below private rep other ≡ false }
    ensures itself { is_below private rep rep ≡ false }
    ensures upwards { is_below private ceo rep ≡ false }

    // An administrator, the owner, a user two roles above the owner, and a user beside.
    ensures administrator { level private admin d1 ≡ Full }
    ensures owner { level private ron d1 ≡ Full }
    ensures above { level private cea d1 ≡ Full }
    ensures other { level private otto d1 ≡ Nothing }
    ensures below { level (shared cea []) ron (deal 8 cea (codes "Shut")) ≡ Nothing }
    ensures seen_above { readable private cea 0 ≡ d1 ∷ [] }
    ensures unseen { readable private otto 0 ≡ [] }

    // Where the role hierarchy doesn't count, the owner alone has the record, and who administers.
    ensures apart_owner { level (apart []) ron d1 ≡ Full }
    ensures apart_above { level (apart []) cea d1 ≡ Nothing }
    ensures apart_administrator { level (apart []) admin d1 ≡ Full }
    ensures apart_detail { level (apart []) cea part ≡ Nothing }

    // And members alone are reached.
    ensures above_members { level (apart (shared_with (to.Role rep))) cea d1 ≡ Nothing }
    ensures one_member { level (apart (shared_with (to.Subordinates ceo))) cea d1 ≡ Read }
    ensures inner_member { level (apart (shared_with (to.Group g2))) otto part ≡ Read }

    // The default access.
    ensures read_by_all { level (by_default access.Read) otto d1 ≡ Read }
    ensures edited_by_all { level (by_default access.ReadWrite) otto d1 ≡ Edit }
    ensures not_there { level_at (by_default access.ReadWrite) cea (id_of 0 9) ≡ Nothing }
{}

/// Sharing rules, and groups within each other. The call does nothing.
pub fn rule_rows()
    ensures in_inner_group { is_member private otto (to.Group g2) ≡ true }
    ensures in_no_group { is_member private ron (to.Group g2) ≡ false }
    ensures in_role { is_member private ron (to.Role rep) ≡ true }
    ensures not_in_upper_role { is_member private ron (to.Role vp) ≡ false }
    ensures in_subordinates { is_member private ron (to.Subordinates ceo) ≡ true }
    ensures at_subordinates { is_member private ron (to.Subordinates rep) ≡ true }
    ensures reached_above { reaches private (to.Group g2) cea ≡ true }
    ensures not_reached { reaches private (to.Group g2) ron ≡ false }

    // A criteria rule shares open deals with the outer group, for reading.
    ensures open_deal { level (staged is_open state.Whole (codes "Open")) otto (deal 10 ron (codes "Open")) ≡ Read }
    ensures shut_deal { level (staged is_open state.Whole (codes "Shut")) otto (deal 10 ron (codes "Shut")) ≡ Nothing }
    ensures building { level (staged is_open state.Building (codes "Open")) otto (deal 10 ron (codes "Open")) ≡ Read }
    ensures leaving { level (staged is_open state.Leaving (codes "Open")) otto (deal 10 ron (codes "Open")) ≡ Nothing }
    ensures no_formula { level (staged (codes "Stage__c =") state.Whole (codes "Open")) otto (deal 10 ron (codes "Open")) ≡ Nothing }

    // Owner rules share what those below the CEO own, or what Otto owns, with the inner group.
    ensures owned_below { level (ruled (owned (to.Subordinates ceo)) (to.Group g1) state.Whole (d1 ∷ [])) otto d1 ≡ Read }
    ensures owned_by_others { level (ruled (owned (to.User otto.id)) (to.Group g1) state.Whole (d1 ∷ [])) otto d1 ≡ Nothing }
{}

/// Manual shares, a new owner, and details. The call does nothing.
pub fn share_rows()
    ensures edit { level (shared ron (to_otto Edit)) otto d1 ≡ Edit }
    ensures above_a_member { level (shared admin (to_otto Edit)) cea (deal 8 admin (codes "Shut")) ≡ Edit }
    ensures below_no_member { level (shared admin (to_otto Edit)) ron (deal 8 admin (codes "Shut")) ≡ Nothing }
    ensures of_one_record { level (shared ron (to_otto Edit)) otto (deal 9 ron (codes "Shut")) ≡ Nothing }
    ensures given_away { map (λ u. readable (shared cea []) u 0) (otto ∷ ron ∷ []) ≡ [] ∷ [] ∷ [] }

    // A detail has its master's level, and in full where the master may be edited.
    ensures detail_edited { level (shared ron (to_otto Edit)) otto line ≡ Full }
    ensures detail_of_detail { level (shared ron (to_otto Edit)) otto part ≡ Full }
    ensures detail_read { level (shared ron (to_otto Read)) otto part ≡ Read }
    ensures detail_unseen { readable (shared ron []) otto 2 ≡ [] }
    ensures detail_owned { readable (shared ron []) ron 1 ≡ line ∷ [] }
{}

//! Rules that are judged in the order in which a body has its members.

ghost use Rattle.std.specs.Prelude.{◌≡◌, IfOk, List, ℕ, bytes_eq};
ghost use Rattle.std.specs.Str.{chars};
ghost use Rattle.model.specs.Rules.{MemberRules, in_body_order, rule_of};

use base_value::Text;
use model::Refusal;
use std::alloc::{AllocError, Global};

/// Rules, each of which is about the member of a body with some name.
pub trait RulesByMember {
    ghost use Rattle.model.specs.Rules.{MemberRules, rule_of};
    ghost use Rattle.std.specs.Prelude.{◌≡◌, IfOk};

    /// That they are these.
    ghost are: { Self → MemberRules → Type 0 };

    /// The refusal of the rule about this member.
    fn rule_of(&self, alloc: Global, member: &Text) -> Result<Option<Refusal>, AllocError>
        ensures { (rules : MemberRules) → are self.now rules → IfOk result (λ r. r ≡ rule_of rules member.now) };
}

/// The first refusal in the order of a body's members.
///
/// # Errors
///
/// When out of memory.
pub fn in_body_order<R: RulesByMember>(
    alloc: Global,
    members: &[Text],
    rules: &R,
) -> Result<Option<Refusal>, AllocError>
    ensures { (given : MemberRules) → R.are rules.now given → IfOk result (λ r. r ≡ in_body_order members.now given) }
{
    match members.split_first() {
        None => Ok(None),
        Some((first, rest)) => match rules.rule_of(alloc, first)? {
            Some(refusal) => Ok(Some(refusal)),
            None => in_body_order(alloc, rest, rules),
        },
    }
}

/// Whether a member has this name.
pub fn is_member(member: &Text, name: &str) -> bool
    ensures { result ≡ bytes_eq (chars name.now) member.now }
{
    member.as_str() == name
}

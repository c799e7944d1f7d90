//! The exact values of number literals.

ghost use Rattle.std.specs.Prelude.{◌≡◌, ◌<◌, IfSome};
ghost use Rattle.base_value.specs.Numerals.{exact_bound};
ghost use Rattle.base_json.specs.Reading as spec;
ghost use Rattle.base_json.specs.Literals.{parts_of};

use crate::numeral::Literal;
use crate::tree::Num;
use base_value::exact_size;

fn num_of(minus: bool, size: Option<u128>) -> Num
    requires { IfSome size (λ n. n < exact_bound) }
    ensures { result ≡ spec.num_of minus size }
{
    match size {
        Some(n) => {
            if minus {
                Num::Exact(-(n as i128))
            } else {
                Num::Exact(n as i128)
            }
        }
        None => Num::Beyond,
    }
}

/// The value of a literal.
#[tactic(auto, unfolding(crate::specs::Reading::amount))]
pub fn amount(literal: &Literal) -> Num
    ensures { result ≡ spec.amount (parts_of literal.now) }
{
    let size = exact_size(
        literal.whole.as_slice(),
        literal.fraction.as_slice(),
        literal.down,
        literal.power.as_slice(),
    );
    num_of(literal.minus, size)
}

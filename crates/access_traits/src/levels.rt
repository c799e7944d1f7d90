//! Levels in their order, and the refusal of who has too low a one.

ghost use Rattle.std.specs.Prelude.{◌≡◌, not};
ghost use Rattle.model.specs.Levels.{at_least, rank};
ghost use Rattle.model.specs.Rules.{refuse_if};
ghost use Rattle.model.specs.declared.refusal.Refusal.TheVariants.{InsufficientAccess};

use base_value::Level;
use model::Refusal;

fn rank(level: Level) -> u8
    ensures { result ≡ rank level }
{
    match level {
        Level::Nothing => 0,
        Level::Read => 1,
        Level::Edit => 2,
        Level::Full => 3,
    }
}

/// Whether the second level includes the first.
pub fn at_least(least: Level, level: Level) -> bool
    ensures { result ≡ at_least least level }
{
    rank(least) <= rank(level)
}

/// INSUFFICIENT_ACCESS_OR_READONLY: the second level doesn't include the first.
pub fn below(least: Level, level: Level) -> Option<Refusal>
    ensures { result ≡ refuse_if (not (at_least least level)) InsufficientAccess }
{
    if at_least(least, level) {
        None
    } else {
        Some(Refusal::InsufficientAccess)
    }
}

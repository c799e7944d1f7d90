//! Names of one byte, and the flags of a field.

ghost use Rattle.std.specs.Prelude.{IsTrue};
ghost use Rattle.store_codec.specs.Choices.{Accesses, Standings, Levels, Phases, Outcomes, States, Deletes, choice, choice_at, is_spelled, flags, flags_at};

use crate::fail::CodecFail;
use crate::part::Part;
use base_value::{Access, Level, OnDelete, Outcome, Phase, RuleState};
use std::alloc::{AllocError, Global};

/// What every user may do with an object's records, and whether those above in the hierarchy of roles may do what those
/// below may.
#[derive(Clone, Copy, Debug, PartialEq, Eq)]
pub struct ObjectAccess {
    /// What every user may do.
    pub access: Access,
    /// Whether the hierarchy of roles counts. It does wherever the access is the parent's.
    pub hierarchy: bool,
}

impl Part for ObjectAccess {
    ghost spell = { choice Accesses };

    ghost Fits = { λ x. IsTrue (is_spelled Accesses x) };

    ghost reads = { choice_at Accesses };

    fn put(&self, out: &mut Vec<u8>) -> Result<(), AllocError> {
        let byte = match self.access {
            Access::Private => 0,
            Access::Read => 1,
            Access::ReadWrite => 2,
            Access::ControlledByParent => 3,
        };
        out.push(if self.hierarchy { byte } else { byte + 4 })?;
        Ok(())
    }

    #[tactic(auto, unfolding(crate::specs::Choices::choice_at))]
    fn take(_: Global, bytes: &[u8]) -> Result<(ObjectAccess, &[u8]), CodecFail> {
        let (access, hierarchy, rest) = match bytes {
            [0, rest @ ..] => (Access::Private, true, rest),
            [1, rest @ ..] => (Access::Read, true, rest),
            [2, rest @ ..] => (Access::ReadWrite, true, rest),
            [3, rest @ ..] => (Access::ControlledByParent, true, rest),
            [4, rest @ ..] => (Access::Private, false, rest),
            [5, rest @ ..] => (Access::Read, false, rest),
            [6, rest @ ..] => (Access::ReadWrite, false, rest),
            _ => return Err(CodecFail::Damaged),
        };
        Ok((ObjectAccess { access, hierarchy }, rest))
    }
}

/// Whether a user administers the organisation, and whether the user is active.
#[derive(Clone, Copy, Debug, PartialEq, Eq)]
pub struct UserStanding {
    /// Whether the user administers the organisation.
    pub admin: bool,
    /// Whether the user is active.
    pub active: bool,
}

impl Part for UserStanding {
    ghost spell = { choice Standings };

    ghost Fits = { λ x. IsTrue (is_spelled Standings x) };

    ghost reads = { choice_at Standings };

    fn put(&self, out: &mut Vec<u8>) -> Result<(), AllocError> {
        let admin = u8::from(self.admin);
        out.push(if self.active { admin } else { admin + 2 })?;
        Ok(())
    }

    #[tactic(auto, unfolding(crate::specs::Choices::choice_at))]
    fn take(_: Global, bytes: &[u8]) -> Result<(UserStanding, &[u8]), CodecFail> {
        let (admin, active, rest) = match bytes {
            [0, rest @ ..] => (false, true, rest),
            [1, rest @ ..] => (true, true, rest),
            [2, rest @ ..] => (false, false, rest),
            [3, rest @ ..] => (true, false, rest),
            _ => return Err(CodecFail::Damaged),
        };
        Ok((UserStanding { admin, active }, rest))
    }
}

impl Part for Level {
    ghost spell = { choice Levels };

    ghost Fits = { λ x. IsTrue (is_spelled Levels x) };

    ghost reads = { choice_at Levels };

    fn put(&self, out: &mut Vec<u8>) -> Result<(), AllocError> {
        out.push(match self {
            Level::Nothing => 0,
            Level::Read => 1,
            Level::Edit => 2,
            Level::Full => 3,
        })?;
        Ok(())
    }

    #[tactic(auto, unfolding(crate::specs::Choices::choice_at))]
    fn take(_: Global, bytes: &[u8]) -> Result<(Level, &[u8]), CodecFail> {
        match bytes {
            [1, rest @ ..] => Ok((Level::Read, rest)),
            [2, rest @ ..] => Ok((Level::Edit, rest)),
            _ => Err(CodecFail::Damaged),
        }
    }
}

impl Part for Phase {
    ghost spell = { choice Phases };

    ghost Fits = { λ x. IsTrue (is_spelled Phases x) };

    ghost reads = { choice_at Phases };

    fn put(&self, out: &mut Vec<u8>) -> Result<(), AllocError> {
        out.push(match self {
            Phase::Copy => 0,
            Phase::Clear => 1,
            Phase::Done => 2,
        })?;
        Ok(())
    }

    #[tactic(auto, unfolding(crate::specs::Choices::choice_at))]
    fn take(_: Global, bytes: &[u8]) -> Result<(Phase, &[u8]), CodecFail> {
        match bytes {
            [0, rest @ ..] => Ok((Phase::Copy, rest)),
            [1, rest @ ..] => Ok((Phase::Clear, rest)),
            [2, rest @ ..] => Ok((Phase::Done, rest)),
            _ => Err(CodecFail::Damaged),
        }
    }
}

impl Part for Outcome {
    ghost spell = { choice Outcomes };

    ghost Fits = { λ x. IsTrue (is_spelled Outcomes x) };

    ghost reads = { choice_at Outcomes };

    fn put(&self, out: &mut Vec<u8>) -> Result<(), AllocError> {
        out.push(match self {
            Outcome::Open => 0,
            Outcome::Switched => 1,
            Outcome::Failed => 2,
            Outcome::Cancelled => 3,
        })?;
        Ok(())
    }

    #[tactic(auto, unfolding(crate::specs::Choices::choice_at))]
    fn take(_: Global, bytes: &[u8]) -> Result<(Outcome, &[u8]), CodecFail> {
        match bytes {
            [0, rest @ ..] => Ok((Outcome::Open, rest)),
            [1, rest @ ..] => Ok((Outcome::Switched, rest)),
            [2, rest @ ..] => Ok((Outcome::Failed, rest)),
            [3, rest @ ..] => Ok((Outcome::Cancelled, rest)),
            _ => Err(CodecFail::Damaged),
        }
    }
}

impl Part for RuleState {
    ghost spell = { choice States };

    ghost Fits = { λ x. IsTrue (is_spelled States x) };

    ghost reads = { choice_at States };

    fn put(&self, out: &mut Vec<u8>) -> Result<(), AllocError> {
        out.push(match self {
            RuleState::Whole => 0,
            RuleState::Building => 1,
            RuleState::Leaving => 2,
        })?;
        Ok(())
    }

    #[tactic(auto, unfolding(crate::specs::Choices::choice_at))]
    fn take(_: Global, bytes: &[u8]) -> Result<(RuleState, &[u8]), CodecFail> {
        match bytes {
            [0, rest @ ..] => Ok((RuleState::Whole, rest)),
            [1, rest @ ..] => Ok((RuleState::Building, rest)),
            [2, rest @ ..] => Ok((RuleState::Leaving, rest)),
            _ => Err(CodecFail::Damaged),
        }
    }
}

impl Part for OnDelete {
    ghost spell = { choice Deletes };

    ghost Fits = { λ x. IsTrue (is_spelled Deletes x) };

    ghost reads = { choice_at Deletes };

    fn put(&self, out: &mut Vec<u8>) -> Result<(), AllocError> {
        out.push(match self {
            OnDelete::Clear => 0,
            OnDelete::Restrict => 1,
        })?;
        Ok(())
    }

    #[tactic(auto, unfolding(crate::specs::Choices::choice_at))]
    fn take(_: Global, bytes: &[u8]) -> Result<(OnDelete, &[u8]), CodecFail> {
        match bytes {
            [0, rest @ ..] => Ok((OnDelete::Clear, rest)),
            [1, rest @ ..] => Ok((OnDelete::Restrict, rest)),
            _ => Err(CodecFail::Damaged),
        }
    }
}

/// The flags of a field.
#[derive(Clone, Copy, Debug, PartialEq, Eq)]
pub struct FieldFlags {
    /// Whether a record must have a value.
    pub required: bool,
    /// Whether no two records may have one value.
    pub unique: bool,
    /// Whether records are found by its values.
    pub indexed: bool,
}

impl Part for FieldFlags {
    ghost spell = { flags };

    ghost Fits = { λ _. Unit {0} };

    ghost reads = { flags_at };

    fn put(&self, out: &mut Vec<u8>) -> Result<(), AllocError> {
        let required = u8::from(self.required);
        let unique = 2 * u8::from(self.unique);
        let indexed = 4 * u8::from(self.indexed);
        out.push(required + unique + indexed)?;
        Ok(())
    }

    #[tactic(auto, unfolding(crate::specs::Choices::flags_at))]
    fn take(_: Global, bytes: &[u8]) -> Result<(FieldFlags, &[u8]), CodecFail> {
        let (byte, rest) = match bytes {
            [] => return Err(CodecFail::Damaged),
            [byte, rest @ ..] => (*byte, rest),
        };
        if byte >= 8 {
            return Err(CodecFail::Damaged);
        }
        let flags = FieldFlags {
            required: byte % 2 == 1,
            unique: byte / 2 % 2 == 1,
            indexed: byte / 4 % 2 == 1,
        };
        Ok((flags, rest))
    }
}

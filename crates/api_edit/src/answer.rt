//! What edits answer.

ghost use Rattle.std.specs.Prelude.{◌≡◌};
ghost use Rattle.api_edit.specs.inner.Edits.{as_upserted, seen};

use base_value::Id;
use record_save::Upserted;
use store_abstraction::EditFail;

/// What an edit answers once it is made.
#[derive(Drop)]
pub(crate) enum Answer {
    /// That it is done.
    Done,
    /// The id of what is new.
    Made(Id),
    /// What has the given values now.
    Upserted {
        /// Its id.
        id: Id,
        /// Whether it is new.
        created: bool,
    },
}

/// What is answered to an edit that makes nothing with an id.
pub(crate) fn done(edit: Result<(), EditFail>) -> Result<Answer, EditFail>
    ensures { result ≡ seen (λ _. Answer.Done) edit }
{
    edit?;
    Ok(Answer::Done)
}

/// What is answered to an edit that makes something with an id.
pub(crate) fn made(edit: Result<Id, EditFail>) -> Result<Answer, EditFail>
    ensures { result ≡ seen (λ id. Answer.Made id) edit }
{
    Ok(Answer::Made(edit?))
}

/// What is answered to an edit that makes something or finds it.
pub(crate) fn upserted(edit: Result<Upserted, EditFail>) -> Result<Answer, EditFail>
    ensures { result ≡ seen as_upserted edit }
{
    let Upserted { id, created } = edit?;
    Ok(Answer::Upserted { id, created })
}

//! Replies that go with no change.

ghost use Rattle.std.specs.Prelude.{◌≡◌};
ghost use Rattle.api.specs.inner.Answers.{unchanged};

use model::Reply;
use store_abstraction::Judged;
use store_rows::StoreFail;

/// A reply, as one that goes with no change.
pub(crate) fn unchanged(read: Result<Reply, StoreFail>) -> Result<Judged<Reply>, StoreFail>
    ensures { result ≡ unchanged read }
{
    match read {
        Ok(reply) => Ok(Judged::Same(reply)),
        Err(fail) => Err(fail),
    }
}

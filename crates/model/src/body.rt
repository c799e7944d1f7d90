//! The bodies of replies that refuse.

ghost use Rattle.std.specs.Prelude.{◌≡◌, ◌++◌, IfOk, IsTrue, OnOk, codes};
ghost use Rattle.model.specs.Bodies.{body_of, damaged_body, quoted, refusal_body};
ghost use Rattle.model.specs.Refusals.{is_refusal_status};
ghost use Rattle.model.specs.Step.{refusal_reply};

use crate::refusal::Refusal;
use crate::reply::Reply;
use base_json::{Mark, Writer};
use base_value::Bytes;
use std::alloc::{AllocError, Global};

// A member that has a text.
fn write_member(
    alloc: Global,
    writer: &mut Writer,
    name: &str,
    text: &str,
) -> Result<(), AllocError>
    ensures { OnOk result (writer.new ≡ writer.old ++ (quoted name.now ++ (codes ":" ++ quoted text.now))) }
{
    writer.text(alloc, name)?;
    writer.mark(alloc, Mark::Colon)?;
    writer.text(alloc, text)
}

fn body_of(alloc: Global, message: &str, code: &str) -> Result<Bytes, AllocError>
    ensures { IfOk result (λ b. b ≡ body_of message.now code.now) }
{
    let mut writer = Writer::new(alloc);
    writer.mark(alloc, Mark::OpenList)?;
    writer.mark(alloc, Mark::OpenObject)?;
    write_member(alloc, &mut writer, "message", message)?;
    writer.mark(alloc, Mark::Comma)?;
    write_member(alloc, &mut writer, "errorCode", code)?;
    writer.mark(alloc, Mark::CloseObject)?;
    writer.mark(alloc, Mark::CloseList)?;
    Ok(writer.finish())
}

/// The body of a reply 500, which says that the store is damaged.
///
/// # Errors
///
/// When out of memory.
pub fn damaged_body(alloc: Global) -> Result<Bytes, AllocError>
    ensures { IfOk result (λ b. b ≡ damaged_body) }
{
    body_of(alloc, "the store is damaged", "STORE_DAMAGED")
}

impl Refusal {
    /// The body of a reply that refuses so.
    ///
    /// # Errors
    ///
    /// When out of memory.
    pub fn body(&self, alloc: Global) -> Result<Bytes, AllocError>
        ensures { IfOk result (λ b. b ≡ refusal_body self.now) }
    {
        let message = self.message(alloc)?;
        body_of(alloc, message.as_str(), self.code())
    }

    /// The reply that refuses so.
    ///
    /// # Errors
    ///
    /// When out of memory.
    pub fn reply(&self, alloc: Global) -> Result<Reply, AllocError>
        ensures value { IfOk result (λ r. r ≡ refusal_reply self.now) }
        ensures known { IfOk result (λ r. IsTrue (is_refusal_status r.status)) }
    {
        Ok(Reply {
            status: self.status(),
            body: self.body(alloc)?,
        })
    }
}

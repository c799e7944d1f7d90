ghost use Rattle.std.specs.Prelude.{◌≡◌, ◌<◌, ◌⊎◌, [], List, ℕ, length, IfOk, IsErrOf};
ghost use Rattle.std.specs.Io.KnownBytes.{Keeps, prepend_known};
ghost use Rattle.base_value.specs.Causes.{Cause};
ghost use Rattle.server_http.specs.Answer.{Answered, Between};
ghost use Rattle.server_http.specs.Item.{IsItem, IsOpenTarget, refused, whole};
ghost use Rattle.server_http.specs.Reads.{AnswersAtHand, IsUnfinished, Reads, ReadsToAnswer, read_limit};
ghost use Rattle.server_http.specs.Steps.{NextHead};
ghost use Rattle.server_http.specs.declared.fail.HttpFail.{HttpFail};
ghost use Rattle.server_http.specs.declared.message.HttpMessage.{HttpMessage};
ghost use Rattle.server_http.specs.declared.message.Next.TheVariants.{Message};
ghost use Rattle.server_http.specs.declared.fail.HttpFail.TheVariants.{Failed};

use crate::fail::HttpFail;
use crate::head::{HEAD_LIMIT, read_head};
use crate::input::fill;
use crate::message::{HttpMessage, Next};
use crate::parts::{Head, parts};
use base_io::Source;
use base_value::Bytes;
use httparse::spans::{EMPTY_HEADER_SPAN, HeaderSpan};
use std::alloc::{AllocError, Global};
use std::marker::Model;

// Reads until a whole head is at hand, and takes its parts.
fn next_head<S: Source>(
    alloc: Global,
    source: &mut S,
    bytes: &mut Vec<u8>,
    lines: &mut [HeaderSpan],
) -> Result<Option<Head>, HttpFail>
    requires { length lines.old ≡ HEAD_LIMIT }
    ensures kept { Keeps (prepend_known bytes.old.items (S.left source.old)) (prepend_known bytes.new.items (S.left source.new)) }
    ensures answer { NextHead bytes.new.items (S.left source.new) result }
    ensures reads { Reads S.left IsUnfinished bytes.old.items source.old bytes.new.items source.new }
    ensures stays { S.stays source.old source.new }
    ensures cause { Cause (S.faults source.old) (S.faults source.new) (IsErrOf result Failed) }
{
    let Some(spans) = read_head(source, bytes, lines)? else {
        return Ok(None);
    };
    let hand = bytes.len().min(HEAD_LIMIT);
    Ok(Some(parts(alloc, &bytes[..hand], lines, &spans)?))
}

// Takes the next message from the front of the input.
fn take<S: Source>(
    alloc: Global,
    source: &mut S,
    bytes: &mut Vec<u8>,
    lines: &mut [HeaderSpan],
) -> Result<Next, HttpFail>
    requires { length lines.old ≡ HEAD_LIMIT }
    ensures answer { Between (prepend_known bytes.old.items (S.left source.old)) (prepend_known bytes.new.items (S.left source.new)) (λ input rest. Answered input result rest) }
    ensures reads { ReadsToAnswer S.left bytes.old.items source.old source.new result bytes.new.items }
    ensures stays { S.stays source.old source.new }
    ensures cause { Cause (S.faults source.old) (S.faults source.new) (IsErrOf result Failed) }
{
    let Some(head) = next_head(alloc, source, bytes, lines)? else {
        return Ok(if bytes.is_empty() {
            Next::End
        } else {
            Next::Cut
        });
    };
    let end = head.len + head.size;
    if !fill(source, bytes, end)? {
        return Ok(Next::Cut);
    }
    let body = Bytes::from_slice(alloc, &bytes[head.len..end])?;
    let rest = Vec::from_slice(alloc, &bytes[end..])?;
    *bytes = rest;
    Ok(Next::Message(HttpMessage {
        method: head.method,
        target: head.target,
        bearer: head.bearer,
        body,
        close: head.close,
    }))
}

/// What has been read of a connection and not yet taken, which contracts see as its bytes.
#[derive(Drop)]
pub struct Buffer {
    bytes: Vec<u8>,
    lines: Vec<HeaderSpan>,
}

impl Model for Buffer {
    ghost use Rattle.std.specs.Prelude.{ℕ, List, ◌≡◌, length};

    ghost Value = { List ℕ };

    ghost view = { λ b. b.bytes.items };

    ghost invariant = { λ b. length b.lines.items ≡ 16384 };
}

impl Buffer {
    /// An empty buffer.
    ///
    /// # Errors
    ///
    /// When out of memory.
    pub fn new(alloc: Global) -> Result<Self, AllocError>
        ensures { IfOk result (λ buffer. buffer ≡ []) }
    {
        let mut lines = Vec::new(alloc);
        lines.resize(HEAD_LIMIT, EMPTY_HEADER_SPAN)?;
        Ok(Buffer {
            bytes: Vec::new(alloc),
            lines,
        })
    }
}

/// The next message of a connection, whose bytes are those of the buffer and those left in the source.
///
/// # Errors
///
/// The first refusal of what came, `Failed` where the source fails, `Memory` when out of memory. Nothing of the input
/// is lost then.
pub fn next_message<S: Source>(
    alloc: Global,
    source: &mut S,
    buffer: &mut Buffer,
) -> Result<Next, HttpFail>
    // The item at the front of the input, and what is left behind it, however reads cut the bytes.
    ensures answer { Between (prepend_known buffer.old (S.left source.old)) (prepend_known buffer.new (S.left source.new)) (λ input rest. Answered input result rest) }
    // A whole message in the buffer is the answer without a read.
    ensures at_hand { (m : HttpMessage) (rest : List ℕ) → IsItem buffer.old (whole m) rest
        → AnswersAtHand buffer.old source.old source.new result buffer.new }
    // So is a refusal, but for the exception.
    ensures refused_at_hand { (e : HttpFail) → IsItem buffer.old (refused e) buffer.old
        → IsOpenTarget buffer.old ⊎ AnswersAtHand buffer.old source.old source.new result buffer.new }
    // Each read is made where what has come ends between messages or within one, and all that has come gives the
    // answer. A source doesn't count its reads: several pass for one if they give no more bytes than one may.
    ensures reads { ReadsToAnswer S.left buffer.old source.old source.new result buffer.new }
    // Behind a message for which it read, less stays in the buffer than one read may give.
    ensures read_ahead { (m : HttpMessage) → result ≡ Ok (Message m)
        → (source.new ≡ source.old) ⊎ (length buffer.new < read_limit) }
    ensures stays { S.stays source.old source.new }
    ensures cause { Cause (S.faults source.old) (S.faults source.new) (IsErrOf result Failed) }
{
    take(alloc, source, &mut buffer.bytes, &mut buffer.lines)
}

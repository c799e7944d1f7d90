//! One connection, served to its end.

ghost use Rattle.std.specs.Prelude.{◌≡◌, ◌⊎◌, ◌<◌, ◌≤◌, ◌==◌, [], false, is_ok, length, IfOk, IsErrOf, IsTrue, ℕ, List, Ok, Some, true};
ghost use Rattle.std.specs.Io.KnownBytes.{Keeps, prepend_known};
ghost use Rattle.base_value.specs.Causes.{Cause};
ghost use Rattle.server_http.specs.Item.{IsItem, whole};
ghost use Rattle.server_http.specs.Reads.{read_limit};
ghost use Rattle.server_http.specs.declared.message.HttpMessage.{HttpMessage};
ghost use Rattle.store_kv.specs.State.{Steps, Tells, TrustedAfter};
ghost use Rattle.model.specs.World.{World};
ghost use Rattle.store_abstraction.specs.Stands.{Stands};
ghost use Rattle.server.specs.Answers.{bytes_in};
ghost use Rattle.server.specs.Connections.{Place, last_message};
ghost use Rattle.server.specs.Falls.{Falls, FallsIn, FallsOn, Fell, WritesUndone};
ghost use Rattle.server.specs.Leads.{LeadsFrom};
ghost use Rattle.server.specs.Senses.{Sense, StandsAs};
ghost use Rattle.server.specs.Turning.{IsHere, RefusesWith, RepliesTo, Serves, Turns, Wrote, over_if_written};
ghost use Rattle.server.specs.declared.wire.LineFail.TheVariants.{Read, Write};

use crate::replies::last_reply;
use crate::request::{Answer, answer_message};
use crate::wire::{LineFail, Wire};
use api::Routes;
use base_io::Clock;
use http::Method;
use server_http::{
    Buffer, HttpFail, HttpMessage, Next, out_of_memory, out_of_memory_to, unavailable_to,
};
use std::alloc::{AllocError, Global};
use store_kv::Keeper;

// Writes one text.
fn write_text<W: Wire>(wire: &mut W, text: &[u8]) -> Result<(), LineFail>
    ensures wrote { Wrote (W.output wire.old) (W.output wire.new) text.now result }
    ensures unread { Keeps (W.input wire.old) (W.input wire.new) }
    ensures stays { W.stays wire.old wire.new }
    ensures reads { Cause (W.read_faults wire.old) (W.read_faults wire.new) (IsErrOf result Read) }
    ensures writes { Cause (W.write_faults wire.old) (W.write_faults wire.new) (IsErrOf result Write) }
{
    match wire.write(text) {
        Ok(()) => Ok(()),
        Err(_) => Err(LineFail::Write),
    }
}

// Writes what answers a message with this method.
fn write_answer<W: Wire>(wire: &mut W, method: &Method, answer: &Answer) -> Result<(), LineFail>
    ensures wrote { Wrote (W.output wire.old) (W.output wire.new) (bytes_in method.now answer.now) result }
    ensures unread { Keeps (W.input wire.old) (W.input wire.new) }
    ensures stays { W.stays wire.old wire.new }
    ensures reads { Cause (W.read_faults wire.old) (W.read_faults wire.new) (IsErrOf result Read) }
    ensures writes { Cause (W.write_faults wire.old) (W.write_faults wire.new) (IsErrOf result Write) }
{
    match answer {
        Answer::Made(bytes) => write_text(wire, bytes.as_slice()),
        Answer::Damaged(bytes) => write_text(wire, bytes.as_slice()),
        Answer::Unavailable { close } => write_text(wire, unavailable_to(method, *close)),
        Answer::OutOfMemory { close } => write_text(wire, out_of_memory_to(method, *close)),
    }
}

// Ends a connection at bytes that are no message.
fn refuse<W: Wire>(alloc: Global, wire: &mut W, fail: HttpFail) -> Result<(), LineFail>
    ensures refuses { RefusesWith fail (W.output wire.old) (W.output wire.new) result }
    ensures unread { Keeps (W.input wire.old) (W.input wire.new) }
    ensures stays { W.stays wire.old wire.new }
    ensures reads { Cause (W.read_faults wire.old) (W.read_faults wire.new) (IsErrOf result Read) }
    ensures writes { Cause (W.write_faults wire.old) (W.write_faults wire.new) (IsErrOf result Write) }
{
    match last_reply(alloc, fail) {
        Ok(bytes) => write_text(wire, bytes.as_slice()),
        Err(_) => write_text(wire, out_of_memory(true)),
    }
}

// Answers a message, and writes the reply. It tells whether the keeper is known to be trusted.
#[tactic(auto, using(crate::proofs::Moments::is_clocked))]
fn reply<K: Keeper, W: Wire, C: Clock>(
    alloc: Global,
    routes: &Routes,
    keeper: &mut K,
    wire: &mut W,
    clock: &mut C,
    message: &HttpMessage,
    is_sure: &mut bool,
) -> Result<(), LineFail>
    requires { IsTrue is_sure.now → TrustedAfter true (K.state keeper.now) }
    ensures sure { IsTrue is_sure.new → TrustedAfter true (K.state keeper.new) }
    ensures replies { Tells (K.state keeper.old) (K.state keeper.new)
        → (sense : Sense) (w : World) (moments : List ℕ) → StandsAs sense (K.state keeper.old).tables w
        → C.coming clock.old ≡ Some moments
        → RepliesTo sense w message.now moments (K.state keeper.old) (K.state keeper.new) (C.coming clock.new)
        (W.output wire.old) (W.output wire.new) result }
    ensures falls { Fell (K.state keeper.old) (K.state keeper.new)
        → (w : World) (moments : List ℕ) → Stands (K.state keeper.old).tables w → C.coming clock.old ≡ Some moments
        → FallsOn w message.now moments (K.state keeper.new) (W.output wire.old) (W.output wire.new) result }
    // Of a keeper that fell before.
    ensures undone { (K.state keeper.old).trusted ≡ false → IsTrue (K.state keeper.new).is_clean
        → WritesUndone (is_ok result) (W.output wire.old) (W.output wire.new) }
    ensures leads { LeadsFrom (K.state keeper.old) (K.state keeper.new) }
    ensures steps { Steps (K.state keeper.old) (K.state keeper.new) }
    ensures unread { Keeps (W.input wire.old) (W.input wire.new) }
    ensures stays { W.stays wire.old wire.new }
    ensures reads { Cause (W.read_faults wire.old) (W.read_faults wire.new) (IsErrOf result Read) }
    ensures writes { Cause (W.write_faults wire.old) (W.write_faults wire.new) (IsErrOf result Write) }
{
    let now = clock.now();
    let answer = answer_message(alloc, routes, keeper, message, now, *is_sure);
    *is_sure = answer.is_made();
    write_answer(wire, &message.method, &answer)
}

// Whether the connection is over, if no write failed.
fn over_if_written(written: Result<(), LineFail>, over: bool) -> Result<bool, LineFail>
    ensures { result ≡ over_if_written over written }
{
    match written {
        Ok(()) => Ok(over),
        Err(fail) => Err(fail),
    }
}

// Answers the next item of a connection, and returns whether the connection is over.
fn turn<K: Keeper, W: Wire, C: Clock>(
    alloc: Global,
    routes: &Routes,
    keeper: &mut K,
    wire: &mut W,
    clock: &mut C,
    buffer: &mut Buffer,
    is_sure: &mut bool,
    last: bool,
) -> Result<bool, LineFail>
    requires { IsTrue is_sure.now → TrustedAfter true (K.state keeper.now) }
    ensures sure { IsTrue is_sure.new → TrustedAfter true (K.state keeper.new) }
    ensures turns { Tells (K.state keeper.old) (K.state keeper.new)
        → (sense : Sense) (p : Place) → StandsAs sense (K.state keeper.old).tables p.world
        → IsHere p (C.coming clock.old) (prepend_known buffer.old (W.input wire.old))
        → p.closed ≡ false → (p.count == last_message) ≡ last
        → Turns sense p (K.state keeper.old) (K.state keeper.new) (C.coming clock.new)
        (prepend_known buffer.new (W.input wire.new)) (W.output wire.old) (W.output wire.new) result }
    ensures falls { Fell (K.state keeper.old) (K.state keeper.new)
        → (p : Place) → Stands (K.state keeper.old).tables p.world
        → IsHere p (C.coming clock.old) (prepend_known buffer.old (W.input wire.old))
        → p.closed ≡ false → (p.count == last_message) ≡ last
        → FallsIn p (K.state keeper.new) (W.output wire.old) (W.output wire.new) result }
    // With a whole message at hand nothing is read before its reply is written; behind one for which it read, less stays at
    // hand than one read may give.
    ensures at_hand { (m : HttpMessage) (rest : List ℕ) → IsItem buffer.old (whole m) rest
        → Keeps (W.input wire.old) (W.input wire.new) }
    ensures read_ahead { result ≡ Ok false
        → Keeps (W.input wire.old) (W.input wire.new) ⊎ (length buffer.new < read_limit) }
    // Of a keeper that fell before.
    ensures undone { (K.state keeper.old).trusted ≡ false → IsTrue (K.state keeper.new).is_clean
        → WritesUndone (is_ok result) (W.output wire.old) (W.output wire.new) }
    ensures leads { LeadsFrom (K.state keeper.old) (K.state keeper.new) }
    ensures steps { Steps (K.state keeper.old) (K.state keeper.new) }
    ensures stays { W.stays wire.old wire.new }
    ensures reads { Cause (W.read_faults wire.old) (W.read_faults wire.new) (IsErrOf result Read) }
    ensures writes { Cause (W.write_faults wire.old) (W.write_faults wire.new) (IsErrOf result Write) }
{
    match wire.next(alloc, buffer) {
        Ok(Next::Message(message)) => {
            let close = message.close || last;
            let message = HttpMessage { close, ..message };
            over_if_written(
                reply(alloc, routes, keeper, wire, clock, &message, is_sure),
                close,
            )
        }
        Ok(Next::End) => Ok(true),
        Ok(Next::Cut) => Ok(true),
        Err(HttpFail::Failed) => Err(LineFail::Read),
        Err(HttpFail::Memory) => over_if_written(write_text(wire, out_of_memory(true)), true),
        Err(fail) => over_if_written(refuse(alloc, wire, fail), true),
    }
}

// Takes turns to the end of a connection: the thousandth reply closes it.
fn turns<K: Keeper, W: Wire, C: Clock>(
    alloc: Global,
    routes: &Routes,
    keeper: &mut K,
    wire: &mut W,
    clock: &mut C,
    buffer: &mut Buffer,
) -> Result<(), LineFail>
    ensures serves { Tells (K.state keeper.old) (K.state keeper.new)
        → (sense : Sense) (w : World) (moments input : List ℕ) → StandsAs sense (K.state keeper.old).tables w
        → C.coming clock.old ≡ Some moments → prepend_known buffer.old (W.input wire.old) ≡ Some input
        → Serves sense w moments input (K.state keeper.old) (K.state keeper.new) (C.coming clock.new)
        (W.output wire.old) (W.output wire.new) result }
    ensures falls { Fell (K.state keeper.old) (K.state keeper.new)
        → (w : World) (moments input : List ℕ) → Stands (K.state keeper.old).tables w
        → C.coming clock.old ≡ Some moments → prepend_known buffer.old (W.input wire.old) ≡ Some input
        → Falls w moments input (W.output wire.old) (W.output wire.new) (K.state keeper.new) }
    // Of a keeper that fell before.
    ensures undone { (K.state keeper.old).trusted ≡ false → IsTrue (K.state keeper.new).is_clean
        → WritesUndone false (W.output wire.old) (W.output wire.new) }
    ensures leads { LeadsFrom (K.state keeper.old) (K.state keeper.new) }
    ensures steps { Steps (K.state keeper.old) (K.state keeper.new) }
    ensures stays { W.stays wire.old wire.new }
    ensures reads { Cause (W.read_faults wire.old) (W.read_faults wire.new) (IsErrOf result Read) }
    ensures writes { Cause (W.write_faults wire.old) (W.write_faults wire.new) (IsErrOf result Write) }
{
    // The keeper is asked before the first message, and before each behind one that wasn't answered.
    let mut is_sure = false;
    for count in 0..1000u32 {
        let last = count == 999;
        if turn(
            alloc,
            routes,
            keeper,
            wire,
            clock,
            buffer,
            &mut is_sure,
            last,
        )? {
            return Ok(());
        }
    }
    Ok(())
}

// What a connection begins with: nothing read, and the routes.
fn begin(alloc: Global) -> Result<(Buffer, Routes), AllocError>
    ensures { IfOk result (λ begun. begun.0 ≡ []) }
{
    let buffer = Buffer::new(alloc)?;
    let routes = Routes::new(alloc)?;
    Ok((buffer, routes))
}

/// Serves one connection to its end, with at most 1,000 replies to messages. The thousandth closes it, and so do a message
/// that asks for it, bytes that are no message, and being out of memory for the next message.
///
/// # Errors
///
/// `Read` if a read failed, `Write` if a write did: what was answered before stays done.
pub fn connection<K: Keeper, W: Wire, C: Clock>(
    alloc: Global,
    keeper: &mut K,
    wire: &mut W,
    clock: &mut C,
) -> Result<(), LineFail>
    ensures serves { Tells (K.state keeper.old) (K.state keeper.new)
        → (sense : Sense) (w : World) (moments input : List ℕ) → StandsAs sense (K.state keeper.old).tables w
        → C.coming clock.old ≡ Some moments → W.input wire.old ≡ Some input
        → Serves sense w moments input (K.state keeper.old) (K.state keeper.new) (C.coming clock.new)
        (W.output wire.old) (W.output wire.new) result }
    ensures falls { Fell (K.state keeper.old) (K.state keeper.new)
        → (w : World) (moments input : List ℕ) → Stands (K.state keeper.old).tables w
        → C.coming clock.old ≡ Some moments → W.input wire.old ≡ Some input
        → Falls w moments input (W.output wire.old) (W.output wire.new) (K.state keeper.new) }
    // Of a keeper that fell before.
    ensures undone { (K.state keeper.old).trusted ≡ false → IsTrue (K.state keeper.new).is_clean
        → WritesUndone false (W.output wire.old) (W.output wire.new) }
    ensures leads { LeadsFrom (K.state keeper.old) (K.state keeper.new) }
    ensures steps { Steps (K.state keeper.old) (K.state keeper.new) }
    ensures stays { W.stays wire.old wire.new }
    ensures reads { Cause (W.read_faults wire.old) (W.read_faults wire.new) (IsErrOf result Read) }
    ensures writes { Cause (W.write_faults wire.old) (W.write_faults wire.new) (IsErrOf result Write) }
{
    match begin(alloc) {
        Ok((mut buffer, routes)) => turns(alloc, &routes, keeper, wire, clock, &mut buffer),
        Err(_) => write_text(wire, out_of_memory(true)),
    }
}

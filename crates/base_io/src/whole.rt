ghost use Rattle.std.specs.Prelude.{IsErr, OnOk, OnErr};
ghost use Rattle.std.specs.Io.KnownBytes.{Appends};
ghost use Rattle.base_value.specs.Causes.{Cause};
ghost use Rattle.base_io.specs.Streams.{AppendsFront};

use crate::traits::{IoFail, Sink};

/// Writes a whole piece. It takes no memory.
///
/// # Errors
///
/// Where the sink fails; it has then written a prefix of the piece.
pub fn write_all<W: Sink>(sink: &mut W, piece: &[u8]) -> Result<(), IoFail>
    ensures ok { OnOk result (Appends (W.written sink.old) (W.written sink.new) piece.now) }
    ensures err { OnErr result (AppendsFront (W.written sink.old) (W.written sink.new) piece.now) }
    ensures stays { W.stays sink.old sink.new }
    ensures cause { Cause (W.faults sink.old) (W.faults sink.new) (IsErr result) }
{
    let mut at = 0;
    while at < piece.len() {
        at += sink.write(&piece[at..])?;
    }
    Ok(())
}

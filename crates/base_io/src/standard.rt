ghost use Rattle.std.specs.Prelude.{◌≡◌};

use crate::schedule::one_more;
use crate::traits::{IoFail, Sink, Source};
use std::io::{Read, Write};

/// Standard input, or another reader of std, as a source. It tells what the reader tells of its bytes, which for a
/// real stream is nothing.
#[derive(Debug, Drop)]
pub struct StdSource<R> {
    reader: R,
    faults: u64,
}

ghost use Rattle.base_io.specs.Standard.{reader_of, read_faults};

impl<R: Read> StdSource<R> {
    /// A reader as a source.
    pub fn new(reader: R) -> StdSource<R>
        ensures reader { reader_of result ≡ reader }
        ensures faults { read_faults result ≡ 0 }
    {
        StdSource { reader, faults: 0 }
    }
}

impl<R: Read> Source for StdSource<R> {
    ghost left = { λ s. R.remaining (reader_of s) };

    ghost faults = { λ s. read_faults s };

    ghost stays = { λ _ _. Unit };

    ghost stays_refl = { λ _. tt };

    ghost stays_trans = { λ _ _ _ _ _. tt };

    fn read(&mut self, into: &mut [u8]) -> Result<usize, IoFail> {
        match self.reader.read(into) {
            Ok(count) => Ok(count),
            Err(_) => {
                self.faults = one_more(self.faults);
                Err(IoFail)
            }
        }
    }
}

/// Standard output, or another writer of std, as a sink. It tells what the writer tells of its bytes, which for a real
/// stream is nothing.
#[derive(Debug, Drop)]
pub struct StdSink<W> {
    writer: W,
    faults: u64,
}

ghost use Rattle.base_io.specs.Standard.{write_faults, writer_of};

impl<W: Write> StdSink<W> {
    /// A writer as a sink.
    pub fn new(writer: W) -> StdSink<W>
        ensures writer { writer_of result ≡ writer }
        ensures faults { write_faults result ≡ 0 }
    {
        StdSink { writer, faults: 0 }
    }
}

impl<W: Write> Sink for StdSink<W> {
    ghost written = { λ s. W.contents (writer_of s) };

    ghost faults = { λ s. write_faults s };

    ghost stays = { λ _ _. Unit };

    ghost stays_refl = { λ _. tt };

    ghost stays_trans = { λ _ _ _ _ _. tt };

    fn write(&mut self, piece: &[u8]) -> Result<usize, IoFail> {
        match self.writer.write(piece) {
            Ok(count) => {
                if count == 0 && !piece.is_empty() {
                    self.faults = one_more(self.faults);
                    return Err(IoFail);
                }
                Ok(count)
            }
            Err(_) => {
                self.faults = one_more(self.faults);
                Err(IoFail)
            }
        }
    }
}

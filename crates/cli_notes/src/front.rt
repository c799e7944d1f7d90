ghost use Rattle.std.specs.Prelude.{◌≡◌, ◌++◌, [], length, take};
ghost use Rattle.cli_notes.specs.Written.{first_room};

use std::marker::Model;

// How many bytes are kept.
const KEPT: usize = 32;

/// The first bytes of what is written.
#[derive(Debug, Drop)]
pub(crate) struct Front {
    bytes: [u8; KEPT],
    len: usize,
}

impl Model for Front {
    ghost use Rattle.std.specs.Prelude.{◌≤◌, List, ℕ, take};
    ghost use Rattle.cli_notes.specs.Written.{first_room};

    ghost Value = { List ℕ };

    ghost view = { λ f. take f.len f.bytes };

    ghost invariant = { λ f. f.len ≤ first_room };
}

impl Front {
    /// Of nothing.
    pub(crate) fn new() -> Front
        ensures { result ≡ [] }
    {
        Front {
            bytes: [0; KEPT],
            len: 0,
        }
    }

    /// The bytes that are kept.
    pub(crate) fn bytes(&self) -> &[u8]
        ensures { result.now ≡ self.now }
    {
        &self.bytes[..self.len]
    }

    /// Keeps of these bytes, which come next, those for which there is room.
    pub(crate) fn push(&mut self, bytes: &[u8])
        ensures { self.new ≡ take first_room (self.old ++ bytes.now) }
    {
        let end = self.len + bytes.len().min(KEPT - self.len);
        self.bytes[self.len..end].copy_from_slice(&bytes[..end - self.len]);
        self.len = end;
    }
}

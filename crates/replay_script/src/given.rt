//! Words to run, and what they are run over.

use crate::list::push;
use base_value::Bytes;
use std::alloc::{AllocError, Global};

/// 9999-12-31T23:59:59Z, in seconds from 1970-01-01T00:00:00Z.
pub(crate) const LAST_MOMENT: u64 = 253_402_300_799;

/// So many bytes may be written to standard output at most.
pub(crate) const MOST_ROOM: u64 = 1 << 20;

/// Words to run, and what they are run over.
#[derive(Drop)]
pub(crate) struct Given {
    pub(crate) words: Vec<String>,
    pub(crate) stdin: Vec<u8>,
    /// What comes through the door, connection by connection.
    pub(crate) connections: Vec<Bytes>,
    /// The clock's moments, the last of which stays.
    pub(crate) moments: Vec<u64>,
    /// So many bytes may be written to standard output.
    pub(crate) room: usize,
    /// The calls that fail, numbered from 1: of standard input, of standard output and of the door.
    pub(crate) source_fails: Vec<u64>,
    pub(crate) sink_fails: Vec<u64>,
    pub(crate) door_fails: Vec<u64>,
}

impl Given {
    /// No words, over nothing of which a call fails.
    pub(crate) fn new(alloc: Global) -> Given {
        Given {
            words: Vec::new(alloc),
            stdin: Vec::new(alloc),
            connections: Vec::new(alloc),
            moments: Vec::new(alloc),
            room: MOST_ROOM as usize,
            source_fails: Vec::new(alloc),
            sink_fails: Vec::new(alloc),
            door_fails: Vec::new(alloc),
        }
    }

    /// Takes away what holds for one run alone: the calls that fail, and the room.
    pub(crate) fn fail_no_more(&mut self) {
        self.room = MOST_ROOM as usize;
        self.source_fails.clear();
        self.sink_fails.clear();
        self.door_fails.clear();
    }
}

/// Adds a word to others.
pub(crate) fn push_word(
    alloc: Global,
    words: &mut Vec<String>,
    word: &str,
) -> Result<(), AllocError> {
    let word = String::from_str(alloc, word)?;
    push(words, word)
}

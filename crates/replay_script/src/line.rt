//! What a line of a script says, and what is wrong with one that is refused.

use crate::given::Given;
use std::alloc::{AllocError, Global};
use std::fmt;
use store_kv::Batch;

/// The members that a line, its `failing` and its `rows` may have.
#[derive(Clone, Copy)]
pub(crate) enum Name {
    Words,
    Stdin,
    StdinHex,
    Connections,
    ConnectionsHex,
    Moments,
    Room,
    Failing,
    Rows,
    Note,
    Dump,
    Source,
    Sink,
    Door,
    Keeper,
    Table,
    Key,
    Row,
}

/// What a line asks.
#[derive(Clone, Copy)]
pub(crate) enum Asks {
    /// Nothing: it is a comment.
    Nothing,
    /// That all rows of the keeper are written.
    Dump,
    /// Another store.
    Store,
    /// That rows are put into the keeper as they are.
    Rows,
    /// That words are run.
    Run,
}

/// A line: what it asks, and what it has for that.
#[derive(Drop)]
pub(crate) struct Line {
    pub(crate) asks: Asks,
    /// What is to run.
    pub(crate) given: Given,
    /// The rows, each a batch of its own.
    pub(crate) rows: Vec<Batch>,
    /// The calls of the other store's keeper that fail.
    pub(crate) failing: Vec<u64>,
}

impl Line {
    /// A line that asks nothing.
    pub(crate) fn new(alloc: Global) -> Line {
        Line {
            asks: Asks::Nothing,
            given: Given::new(alloc),
            rows: Vec::new(alloc),
            failing: Vec::new(alloc),
        }
    }
}

/// Why nothing was read of a line.
#[derive(Clone, Copy)]
pub(crate) enum Fault<'a> {
    /// It isn't a JSON text.
    NotJson,
    /// It isn't an object.
    NotObject,
    /// This member isn't known in such an object.
    Unknown(&'a str),
    /// This member is there twice.
    Twice(&'a str),
    /// This member is missing.
    Missing(Name),
    /// This member is there beside the one in plain text.
    Both(Name),
    /// This member has a value that isn't one of its values.
    Wrong(Name),
    /// Out of memory.
    Memory,
}

impl<'a> From<AllocError> for Fault<'a> {
    fn from(_error: AllocError) -> Fault<'a> {
        Fault::Memory
    }
}

impl Name {
    /// The name as it is written.
    pub(crate) fn text(self) -> &'static str {
        match self {
            Name::Words => "words",
            Name::Stdin => "stdin",
            Name::StdinHex => "stdinHex",
            Name::Connections => "connections",
            Name::ConnectionsHex => "connectionsHex",
            Name::Moments => "moments",
            Name::Room => "room",
            Name::Failing => "failing",
            Name::Rows => "rows",
            Name::Note => "note",
            Name::Dump => "dump",
            Name::Source => "source",
            Name::Sink => "sink",
            Name::Door => "door",
            Name::Keeper => "keeper",
            Name::Table => "table",
            Name::Key => "key",
            Name::Row => "row",
        }
    }

    /// Whether its bytes are written by hexadecimal digits.
    pub(crate) fn is_hex(self) -> bool {
        match self {
            Name::StdinHex | Name::ConnectionsHex | Name::Key | Name::Row => true,
            _ => false,
        }
    }

    // What the member's value must be.
    fn wanted(self) -> &'static str {
        match self {
            Name::Words | Name::Connections => "must be a list of texts",
            Name::Stdin | Name::Note => "must be a text",
            Name::StdinHex | Name::Key => "must be a text of hexadecimal digits, two a byte",
            Name::ConnectionsHex => "must be a list of texts of hexadecimal digits, two a byte",
            Name::Moments => "must be a list of whole numbers from 0 to 253402300799",
            Name::Room => "must be a whole number from 0 to 1048576",
            Name::Dump => "must be true",
            Name::Failing => "must be an object",
            Name::Rows => "must be a list of objects",
            Name::Source | Name::Sink | Name::Door | Name::Keeper => {
                "must be a list of whole numbers from 0 on"
            }
            Name::Table => "must be a whole number from 0 to 255",
            Name::Row => "must be null or a text of hexadecimal digits, two a byte",
        }
    }
}

impl fmt::Display for Fault<'_> {
    fn fmt<W: fmt::Write>(&self, f: &mut fmt::Formatter<W>) -> fmt::Result {
        let (name, what) = match self {
            Fault::NotJson => return f.write_str("it isn't a JSON text"),
            Fault::NotObject => return f.write_str("it isn't an object"),
            Fault::Memory => return f.write_str("out of memory"),
            Fault::Unknown(name) => (*name, "isn't known here"),
            Fault::Twice(name) => (*name, "is there twice"),
            Fault::Missing(name) => (name.text(), "is missing"),
            Fault::Both(name) => (name.text(), "is there beside the one in plain text"),
            Fault::Wrong(name) => (name.text(), name.wanted()),
        };
        write!(f, "member {name:?} {what}")
    }
}

//! The writer.

ghost use Rattle.std.specs.Prelude.{◌≡◌, [], ◌∷◌, ◌++◌, OnOk, OnErr, encode_utf8_all, length};
ghost use Rattle.std.specs.Str.{chars};
ghost use Rattle.base_value.specs.Printing.{print_number};
ghost use Rattle.base_json.specs.Printing.{printed_text, printed_truth, printed_null, mark_of};

use crate::printing::push_quoted;
use base_value::{Bytes, number_text};
use std::alloc::{AllocError, Global};
use std::marker::Model;

/// The characters that hold values together.
#[derive(Clone, Copy, Debug, PartialEq, Eq)]
pub enum Mark {
    OpenList,
    CloseList,
    OpenObject,
    CloseObject,
    Comma,
    Colon,
}

fn mark_of(mark: Mark) -> char
    ensures { result ≡ mark_of mark }
{
    match mark {
        Mark::OpenList => '[',
        Mark::CloseList => ']',
        Mark::OpenObject => '{',
        Mark::CloseObject => '}',
        Mark::Comma => ',',
        Mark::Colon => ':',
    }
}

/// A JSON text as it grows, seen as the bytes so far.
///
/// Each call adds exactly its bytes, or fails when out of memory and leaves the writer as it was. The
/// writer doesn't look at what it has written: the caller sets the marks.
#[derive(Debug, Drop)]
pub struct Writer {
    out: String,
}

impl Model for Writer {
    ghost use Rattle.std.specs.Prelude.{List, ℕ};
    ghost use Rattle.std.specs.String.{string_bytes};

    ghost Value = { List ℕ };

    ghost view = { λ w. string_bytes w.out };
}

impl Writer {
    /// Nothing so far.
    pub fn new(alloc: Global) -> Writer
        ensures { result ≡ [] }
    {
        Writer {
            out: String::new(alloc),
        }
    }

    fn append(&mut self, text: &str) -> Result<(), AllocError>
        ensures ok { OnOk result (self.new ≡ self.old ++ text.now) }
        ensures err { OnErr result (self.new ≡ self.old) }
    {
        self.out.push_str(text)
    }

    /// `null`.
    ///
    /// # Errors
    ///
    /// When out of memory, as in each of these calls.
    pub fn null(&mut self, _alloc: Global) -> Result<(), AllocError>
        ensures ok { OnOk result (self.new ≡ self.old ++ printed_null) }
        ensures err { OnErr result (self.new ≡ self.old) }
    {
        self.append("null")
    }

    /// `true` or `false`.
    pub fn truth(&mut self, _alloc: Global, value: bool) -> Result<(), AllocError>
        ensures ok { OnOk result (self.new ≡ self.old ++ printed_truth value) }
        ensures err { OnErr result (self.new ≡ self.old) }
    {
        if value {
            self.append("true")
        } else {
            self.append("false")
        }
    }

    /// A number, given as a count of 10^-8.
    pub fn number(&mut self, alloc: Global, value: i128) -> Result<(), AllocError>
        ensures ok { OnOk result (self.new ≡ self.old ++ print_number value) }
        ensures err { OnErr result (self.new ≡ self.old) }
    {
        let text = number_text(alloc, value)?;
        self.append(text.as_str())
    }

    /// A string.
    #[tactic(auto, using(crate::proofs::Plain::undone))]
    pub fn text(&mut self, _alloc: Global, value: &str) -> Result<(), AllocError>
        ensures ok { OnOk result (self.new ≡ self.old ++ encode_utf8_all (printed_text (chars value.now))) }
        ensures err { OnErr result (self.new ≡ self.old) }
    {
        let start = self.len();
        match push_quoted(&mut self.out, value) {
            Ok(()) => Ok(()),
            Err(fail) => {
                self.out.truncate(start);
                Err(fail)
            }
        }
    }

    /// A text that is JSON already, as it is.
    pub fn raw(&mut self, _alloc: Global, json: &str) -> Result<(), AllocError>
        ensures ok { OnOk result (self.new ≡ self.old ++ json.now) }
        ensures err { OnErr result (self.new ≡ self.old) }
    {
        self.append(json)
    }

    /// One of the characters between values.
    pub fn mark(&mut self, _alloc: Global, mark: Mark) -> Result<(), AllocError>
        ensures ok { OnOk result (self.new ≡ self.old ++ mark_of mark ∷ []) }
        ensures err { OnErr result (self.new ≡ self.old) }
    {
        self.out.push(mark_of(mark))
    }

    /// How many bytes there are so far.
    pub fn len(&self) -> usize
        ensures { result ≡ length self.now }
    {
        self.out.as_bytes().len()
    }

    /// The bytes.
    pub fn finish(self) -> Bytes
        ensures { result ≡ self }
    {
        let Writer { out } = self;
        Bytes::from_vec(out.into_bytes())
    }
}

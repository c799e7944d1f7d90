//! A text as it grows.

ghost use Rattle.std.specs.Prelude.{◌≡◌, [], ◌∷◌, ◌++◌, OnOk};
ghost use Rattle.std.specs.Str.{IsAscii};

use base_value::Text;
use std::alloc::{AllocError, Global};
use std::marker::Model;

/// A text as it grows, which contracts see as its characters so far.
#[derive(Debug, Drop)]
pub struct Writer {
    text: String,
}

impl Model for Writer {
    ghost use Rattle.std.specs.Prelude.{List, ℕ};
    ghost use Rattle.std.specs.Str.{chars};
    ghost use Rattle.std.specs.String.{string_bytes};

    ghost Value = { List ℕ };

    ghost view = { λ w. chars (string_bytes w.text) };
}

impl Writer {
    /// No characters so far.
    pub fn new(alloc: Global) -> Writer
        ensures { result ≡ [] }
    {
        Writer {
            text: String::new(alloc),
        }
    }

    /// Keywords, blanks and marks.
    pub fn word(&mut self, word: &str) -> Result<(), AllocError>
        requires { IsAscii word.now }
        ensures { OnOk result (self.new ≡ self.old ++ word.now) }
    {
        self.text.push_str(word)
    }

    /// All of a text.
    pub fn text(&mut self, text: &Text) -> Result<(), AllocError>
        ensures { OnOk result (self.new ≡ self.old ++ text.now) }
    {
        self.text.push_str(text.as_str())
    }

    /// One character.
    pub fn character(&mut self, c: char) -> Result<(), AllocError>
        ensures { OnOk result (self.new ≡ self.old ++ c ∷ []) }
    {
        self.text.push(c)
    }

    /// The text.
    pub fn finish(self) -> Text
        ensures { result ≡ self }
    {
        let Writer { text } = self;
        Text::from_string(text)
    }
}

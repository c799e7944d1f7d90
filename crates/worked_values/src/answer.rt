//! What a call gives, as a text that is put together piece by piece.

use crate::cells::{push_cell, push_numbers, push_repeated};
use base_value::{Bytes, Text};
use std::alloc::{AllocError, Global};
use std::fmt::{Debug, Display, Write};

/// The text so far, and whether memory ran out meanwhile. If it did, there is no text in the end.
#[derive(Drop)]
pub struct Answer {
    alloc: Global,
    text: String,
    has_failed: bool,
}

impl Answer {
    /// The empty text.
    pub fn new(alloc: Global) -> Answer {
        Answer {
            alloc,
            text: String::new(alloc),
            has_failed: false,
        }
    }

    /// The allocator.
    pub fn alloc(&self) -> Global {
        self.alloc
    }

    /// The text so far.
    pub fn as_str(&self) -> &str {
        self.text.as_str()
    }

    /// Notes that memory ran out.
    pub fn fail(&mut self) {
        self.has_failed = true;
    }

    /// Notes whether memory ran out at a call.
    pub fn note(&mut self, done: Result<(), AllocError>) {
        if done.is_err() {
            self.has_failed = true;
        }
    }

    /// Adds an item to others.
    pub fn add<T: Drop>(&mut self, items: &mut Vec<T>, item: T) {
        if items.push(item).is_err() {
            self.has_failed = true;
        }
    }

    /// Appends a text.
    pub fn push(&mut self, text: &str) {
        let result = self.text.push_str(text);
        self.note(result);
    }

    /// Appends a text, unless this is the first piece.
    pub fn separate(&mut self, separator: &str) {
        if !self.text.is_empty() {
            self.push(separator);
        }
    }

    /// Appends a value, as `{:?}` writes it.
    pub fn push_value<T: Debug>(&mut self, value: &T) {
        let result = write!(self.text, "{value:?}");
        self.note(result);
    }

    /// Appends a value, as `{}` writes it.
    pub fn push_shown<T: Display>(&mut self, value: &T) {
        let result = write!(self.text, "{value}");
        self.note(result);
    }

    /// Appends what another answer says, or this text if it says nothing.
    pub fn push_other(&mut self, other: &Answer, empty: &str) {
        self.push(if other.text.is_empty() {
            empty
        } else {
            other.text.as_str()
        });
        if other.has_failed {
            self.fail();
        }
    }

    /// Appends a text that was made, or notes that memory ran out.
    pub fn push_text(&mut self, text: Result<Text, AllocError>) {
        match text {
            Ok(text) => self.push(text.as_str()),
            Err(AllocError) => self.fail(),
        }
    }

    /// Appends the cell of bytes that were made, or notes that memory ran out.
    pub fn push_bytes(&mut self, bytes: Result<Bytes, AllocError>) {
        match bytes {
            Ok(bytes) => self.push_cell(bytes.as_slice()),
            Err(AllocError) => self.fail(),
        }
    }

    /// Appends the cell of these bytes, in which all but the signs of ASCII is in hex.
    pub fn push_cell(&mut self, bytes: &[u8]) {
        let mut is_hex = false;
        for byte in bytes {
            let is_plain = matches!(*byte, b' '..=b'~') && *byte != b'<';
            if is_plain == is_hex {
                self.push(if is_hex { ">" } else { "<" });
                is_hex = !is_hex;
            }
            self.push_byte(*byte, is_hex);
        }
        if is_hex {
            self.push(">");
        }
    }

    fn push_byte(&mut self, byte: u8, is_hex: bool) {
        let result = if is_hex {
            write!(self.text, "{byte:02X}")
        } else {
            self.text.push(char::from(byte))
        };
        self.note(result);
    }

    /// The bytes of a cell.
    pub fn bytes_in(&mut self, cell: &str) -> Vec<u8> {
        let mut bytes = Vec::new(self.alloc);
        let result = push_cell(&mut bytes, cell);
        self.note(result);
        bytes
    }

    /// The bytes of cells, some of them repeated, as `push_repeated` says.
    pub fn repeated_in(&mut self, cells: &[&str]) -> Vec<u8> {
        let mut bytes = Vec::new(self.alloc);
        let result = push_repeated(&mut bytes, cells);
        self.note(result);
        bytes
    }

    /// The numbers of a cell.
    pub fn numbers_in(&mut self, cell: &str) -> Vec<u64> {
        let mut numbers = Vec::new(self.alloc);
        let result = push_numbers(&mut numbers, cell);
        self.note(result);
        numbers
    }

    /// The whole text.
    ///
    /// # Errors
    ///
    /// If memory ran out.
    pub fn finish(self) -> Result<String, AllocError> {
        let Answer {
            alloc: _,
            text,
            has_failed,
        } = self;
        if has_failed {
            Err(AllocError)
        } else {
            Ok(text)
        }
    }
}

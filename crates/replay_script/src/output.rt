//! A text that is put together piece by piece.

use base_json::Writer;
use std::alloc::{AllocError, Global};
use std::fmt::Write;

/// The text so far, and whether memory ran out meanwhile. If it did, there is no text in the end.
#[derive(Drop)]
pub(crate) struct Output {
    alloc: Global,
    text: String,
    has_failed: bool,
}

impl Output {
    /// The empty text.
    pub(crate) fn new(alloc: Global) -> Output {
        Output {
            alloc,
            text: String::new(alloc),
            has_failed: false,
        }
    }

    /// The allocator.
    pub(crate) fn alloc(&self) -> Global {
        self.alloc
    }

    /// The text so far.
    pub(crate) fn as_str(&self) -> &str {
        self.text.as_str()
    }

    /// Whether memory ran out.
    pub(crate) fn has_failed(&self) -> bool {
        self.has_failed
    }

    /// Notes whether memory ran out at a call.
    pub(crate) fn note(&mut self, done: Result<(), AllocError>) {
        if done.is_err() {
            self.has_failed = true;
        }
    }

    /// Notes that memory ran out, if it did at another text.
    pub(crate) fn note_as(&mut self, other: &Output) {
        if other.has_failed {
            self.has_failed = true;
        }
    }

    /// Appends a text as it is.
    pub(crate) fn push(&mut self, text: &str) {
        let done = self.text.push_str(text);
        self.note(done);
    }

    /// Appends a whole number.
    pub(crate) fn push_number(&mut self, number: u64) {
        let done = write!(self.text, "{number}");
        self.note(done);
    }

    /// Appends a text in quotation marks, as JSON has it.
    pub(crate) fn push_quoted(&mut self, text: &str) {
        let mut writer = Writer::new(self.alloc);
        let done = writer.text(self.alloc, text);
        self.note(done);
        let quoted = writer.finish();
        self.push(str::from_utf8(quoted.as_slice()).unwrap_or(""));
    }

    /// Appends bytes by their hexadecimal digits, two a byte.
    pub(crate) fn push_digits(&mut self, bytes: &[u8]) {
        match hex::encode(self.alloc, bytes) {
            Ok(digits) => self.push(digits.as_str()),
            Err(_) => self.has_failed = true,
        }
    }

    /// The whole text.
    ///
    /// # Errors
    ///
    /// If memory ran out.
    pub(crate) fn finish(self) -> Result<String, AllocError> {
        let Output {
            alloc: _,
            text,
            has_failed,
        } = self;
        if has_failed {
            Err(AllocError)
        } else {
            Ok(text)
        }
    }
}

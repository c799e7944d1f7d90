//! Words, bytes and numbers of a line.

use crate::cases::stop::Stop;
use crate::given::push_word;
use crate::list::push;
use base_json::{Json, JsonFail, read};
use base_value::Text;
use hex::FromHexError;
use std::alloc::{AllocError, Global};

const BYTES: &str = "a text in quotation marks as in JSON, or: hex DIGITS, two a byte";

const WORDS: &str =
    "$ WORD .., with a blank between two; a word with blanks in quotation marks as in JSON";

const NUMBERS: &str = "whole numbers in their range, with a comma between two";

// A text in quotation marks, as JSON has it, or `None` where it is none.
fn quoted(alloc: Global, text: &str) -> Result<Option<Text>, Stop> {
    match read(alloc, text.as_bytes()) {
        Ok(Json::Text(text)) => Ok(Some(text)),
        Ok(_) | Err(JsonFail::NotJson) => Ok(None),
        Err(JsonFail::Memory) => Err(Stop::Memory),
    }
}

/// Bytes from hexadecimal digits, or none from `-`.
pub(crate) fn hex_bytes(alloc: Global, digits: &str, form: &'static str) -> Result<Vec<u8>, Stop> {
    if digits == "-" {
        return Ok(Vec::new(alloc));
    }
    match hex::decode(alloc, digits) {
        Ok(bytes) => Ok(bytes),
        Err(FromHexError::OutOfMemory) => Err(Stop::Memory),
        Err(_) => Err(Stop::Form(form)),
    }
}

/// Bytes as a text in quotation marks or by their digits.
pub(crate) fn raw_bytes(alloc: Global, text: &str) -> Result<Vec<u8>, Stop> {
    if let Some(digits) = text.strip_prefix("hex ") {
        return hex_bytes(alloc, digits, BYTES);
    }
    match quoted(alloc, text)? {
        Some(text) => Ok(text.into_string().into_bytes()),
        None => Err(Stop::Form(BYTES)),
    }
}

/// A line of text as bytes, with its line feed.
pub(crate) fn line_bytes(alloc: Global, text: &str) -> Result<Vec<u8>, AllocError> {
    let mut line = String::from_str(alloc, text)?;
    line.push_str("\n")?;
    Ok(line.into_bytes())
}

// Takes a part of words between two blanks: a word, or what goes on with or ends the one in quotation marks that is open.
fn take_part(
    alloc: Global,
    part: &str,
    open: &mut String,
    words: &mut Vec<String>,
) -> Result<(), Stop> {
    if open.is_empty() && !part.starts_with('"') {
        return Ok(push_word(alloc, words, part)?);
    }
    if !open.is_empty() {
        open.push_str(" ")?;
    }
    open.push_str(part)?;
    if let Some(word) = quoted(alloc, open.as_str())? {
        push_word(alloc, words, word.as_str())?;
        open.clear();
    }
    Ok(())
}

// Adds words with blanks between them.
fn add_words(
    alloc: Global,
    text: &str,
    open: &mut String,
    words: &mut Vec<String>,
) -> Result<(), Stop> {
    for part in text.split(' ') {
        take_part(alloc, part, open, words)?;
    }
    if open.is_empty() {
        Ok(())
    } else {
        Err(Stop::Form(WORDS))
    }
}

/// Words with blanks between them, of which one may be in quotation marks.
pub(crate) fn words(alloc: Global, text: &str) -> Result<Vec<String>, Stop> {
    let mut words = Vec::new(alloc);
    if !text.is_empty() {
        let mut open = String::new(alloc);
        add_words(alloc, text, &mut open, &mut words)?;
    }
    Ok(words)
}

/// A whole number of a range.
pub(crate) fn number(text: &str, least: u64, most: u64, form: &'static str) -> Result<u64, Stop> {
    match text.parse::<u64>() {
        Ok(number) if least <= number && number <= most => Ok(number),
        _ => Err(Stop::Form(form)),
    }
}

/// Whole numbers of a range, with a comma between two.
pub(crate) fn numbers(alloc: Global, text: &str, least: u64, most: u64) -> Result<Vec<u64>, Stop> {
    let mut list = Vec::new(alloc);
    for part in text.split(',') {
        push(&mut list, number(part.trim(), least, most, NUMBERS)?)?;
    }
    Ok(list)
}

//! The texts of strings.

ghost use Rattle.std.specs.Prelude.{◌≡◌, ◌<◌, ◌≤◌, ◌++◌, OnOk, IsTrue, encode_utf8_all, length, take, slice_index, false, Some, None};
ghost use Rattle.std.specs.List.{flat_map, list_all};
ghost use Rattle.std.specs.Str.{chars};
ghost use Rattle.std.specs.String.{string_bytes};
ghost use Rattle.base_json.specs.Printing.{letter_for, escaped, hex_digit, is_plain, printed_text};
ghost use Rattle.base_json.specs.Outcomes.{BeginsWith};

use crate::scan::first;
use std::alloc::AllocError;

fn letter_for(c: char) -> Option<char>
    ensures { result ≡ letter_for c }
{
    match c {
        '"' => Some('"'),
        '\\' => Some('\\'),
        '\u{8}' => Some('b'),
        '\t' => Some('t'),
        '\n' => Some('n'),
        '\u{c}' => Some('f'),
        '\r' => Some('r'),
        _ => None,
    }
}

fn hex_digit(value: u32) -> char
    requires { value < 16 }
    ensures { result ≡ hex_digit value }
{
    if value < 10 {
        (b'0' + value as u8) as char
    } else {
        (b'a' + (value - 10) as u8) as char
    }
}

// Appends what stands for a character in a string; on an error a front of it may have been appended.
#[tactic(auto, unfolding(crate::specs::Printing::escaped))]
fn push_escaped(out: &mut String, c: char) -> Result<(), AllocError>
    ensures ok { OnOk result (string_bytes out.new ≡ string_bytes out.old ++ encode_utf8_all (escaped c)) }
    ensures front { BeginsWith (string_bytes out.new) (string_bytes out.old) }
{
    match letter_for(c) {
        Some(letter) => {
            out.push('\\')?;
            out.push(letter)
        }
        None => {
            if c < ' ' {
                out.push_str("\\u00")?;
                out.push(hex_digit(c as u32 / 16))?;
                out.push(hex_digit(c as u32 % 16))
            } else {
                out.push(c)
            }
        }
    }
}

// A byte of a character that stands for itself in a string.
fn is_plain(byte: u8) -> bool
    ensures { result ≡ is_plain byte }
{
    byte >= b' ' && byte != b'"' && byte != b'\\'
}

// How many bytes at the front are plain.
#[tactic(auto, using(std::proofs::lemmas::List::Folds::list_all_more))]
fn count_plain(bytes: &[u8]) -> usize
    ensures within { result ≤ length bytes.now }
    ensures front { IsTrue (list_all is_plain (take result bytes.now)) }
    ensures back { result < length bytes.now → is_plain (slice_index bytes.now result) ≡ false }
{
    let mut count = 0;
    'bytes: for byte in bytes {
        if !is_plain(*byte) {
            break;
        }
        count += 1;
    }
    count
}

// The longest front that needs no escape, and the rest.
fn plain_front(text: &str) -> (&str, &str)
    ensures value { encode_utf8_all (flat_map escaped (chars text.now))
        ≡ result.0.now ++ encode_utf8_all (flat_map escaped (chars result.1.now)) }
    ensures shorter { length (chars result.1.now) ≤ length (chars text.now) }
{
    text.split_at(count_plain(text.as_bytes()))
}

// Appends the characters of a string with their escapes; on an error a front of them may have been appended.
fn push_content(out: &mut String, value: &str) -> Result<(), AllocError>
    ensures ok { OnOk result (string_bytes out.new ≡ string_bytes out.old ++ encode_utf8_all (flat_map escaped (chars value.now))) }
    ensures front { BeginsWith (string_bytes out.new) (string_bytes out.old) }
{
    let mut rest = value;
    'runs: loop {
        let (plain, after) = plain_front(rest);
        out.push_str(plain)?;
        match first(after) {
            Some((c, tail)) => {
                push_escaped(out, c)?;
                rest = tail;
            }
            None => return Ok(()),
        }
    }
}

/// Appends a string as JSON writes it; on an error a front of it may have been appended.
pub fn push_quoted(out: &mut String, value: &str) -> Result<(), AllocError>
    ensures ok { OnOk result (string_bytes out.new ≡ string_bytes out.old ++ encode_utf8_all (printed_text (chars value.now))) }
    ensures front { BeginsWith (string_bytes out.new) (string_bytes out.old) }
{
    out.push('"')?;
    push_content(out, value)?;
    out.push('"')?;
    Ok(())
}

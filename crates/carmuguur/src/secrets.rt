//! The secret that a word names: the value of a variable of the environment, or the first line of a file.

ghost use Rattle.std.specs.Prelude.{◌≡◌, ◌≢◌, ◌⊎◌, ◌<◌, ◌+◌, [], IfOk, IfSome, IsErr, MatchResult, Ok, OnOk, None, length, position, string_bytes, vec_len};
ghost use Rattle.std.specs.Io.KnownBytes.{IsAtEnd, Keeps, prepend_known};
ghost use Rattle.std.specs.Str.Lines.{strip_carriage_return};
ghost use Rattle.carmuguur.specs.FirstLine.{IsFront, IsLineOf, first_line, is_enough, is_feed};
ghost use Rattle.carmuguur.specs.declared.secrets.NoSecret.TheVariants.{File, Memory};
ghost use Rattle.cli_args.specs.Secrets.{IsPlain};

use base_io::{IoFail, Source, StdSource};
use cli_args::{SecretWord, read_secret};
use std::alloc::{AllocError, Global};
use std::env::VarError;
use std::{env, fs, str};

/// Why there is no secret.
#[derive(Clone, Copy, Debug)]
pub enum NoSecret {
    /// The variable isn't set, or isn't UTF-8.
    Variable,
    /// The file couldn't be opened or read.
    File,
    /// The file is empty.
    Empty,
    /// The first line of the file isn't UTF-8.
    NotText,
    /// Out of memory.
    Memory,
}

impl From<AllocError> for NoSecret {
    ghost from_gives = { λ _ e. e ≡ Memory };

    fn from(_error: AllocError) -> NoSecret {
        NoSecret::Memory
    }
}

impl From<IoFail> for NoSecret {
    ghost from_gives = { λ _ e. e ≡ File };

    fn from(_error: IoFail) -> NoSecret {
        NoSecret::File
    }
}

// How many bytes of a file are asked for at once.
const PIECE: usize = 64;

// How many bytes a secret and its line end have at most: `most_needed` of the contracts.
const NEEDED: usize = 66;

// The value of a variable, by what came of reading it. One that is missing is no empty secret.
fn value_of(read: Result<String, VarError>) -> Result<String, NoSecret>
    ensures { MatchResult read (λ value. result ≡ Ok value) (λ _. IsErr result) }
{
    match read {
        Ok(value) => Ok(value),
        Err(VarError::OutOfMemory) => Err(NoSecret::Memory),
        Err(VarError::NotPresent | VarError::NotUnicode) => Err(NoSecret::Variable),
    }
}

// Whether no byte behind these matters: they have the end of a line, or more bytes than a secret.
fn is_enough(front: &[u8]) -> bool
    ensures { result ≡ is_enough front.now }
{
    front.len() > NEEDED || front.contains(&b'\n')
}

// Reads once, and appends what came. Nothing comes only at the end.
fn read_piece<S: Source>(source: &mut S, front: &mut Vec<u8>) -> Result<usize, NoSecret>
    ensures kept { OnOk result (Keeps (prepend_known front.old.items (S.left source.old))
        (prepend_known front.new.items (S.left source.new))) }
    ensures grown { IfOk result (λ n. vec_len front.new ≡ vec_len front.old + n) }
    ensures end { IfOk result (λ n. n ≡ 0 → IsAtEnd (S.left source.new)) }
{
    let mut piece = [0; PIECE];
    let count = source.read(&mut piece)?;
    front.extend_from_slice(&piece[..count])?;
    Ok(count)
}

// The first bytes of a source: no more than are needed for a secret, and those that came with the last of these.
fn read_front<S: Source>(alloc: Global, source: &mut S) -> Result<Vec<u8>, NoSecret>
    ensures { IfOk result (λ front. IfSome (S.left source.old) (λ all. IsFront front.items all)) }
{
    let mut front = Vec::new(alloc);
    while !is_enough(&front) {
        if read_piece(source, &mut front)? == 0 {
            return Ok(front);
        }
    }
    Ok(front)
}

// Where the first line feed is.
fn first_feed(bytes: &[u8]) -> Option<usize>
    ensures feed { result ≡ position is_feed bytes.now }
    ensures within { IfSome result (λ end. end < length bytes.now) }
{
    bytes.iter().position(|byte| *byte == b'\n')
}

// A line without the carriage return at its end, if it has one.
fn without_return(line: &[u8]) -> &[u8]
    ensures { result.now ≡ strip_carriage_return line.now }
{
    let Some(last) = line.len().checked_sub(1) else {
        return line;
    };
    if line[last] == b'\r' {
        &line[..last]
    } else {
        line
    }
}

// The bytes before the first line end, which is a line feed, or a carriage return and a line feed; all if there is none.
fn first_line(bytes: &[u8]) -> &[u8]
    ensures { result.now ≡ first_line bytes.now }
{
    match first_feed(bytes) {
        Some(end) => without_return(&bytes[..end]),
        None => bytes,
    }
}

// The first line of these first bytes of a file.
fn text_in(alloc: Global, front: &[u8]) -> Result<String, NoSecret>
    ensures line { IfOk result (λ line. string_bytes line ≡ first_line front.now) }
    ensures empty { front.now ≡ [] → IsErr result }
{
    if front.is_empty() {
        return Err(NoSecret::Empty);
    }
    match str::from_utf8(first_line(front)) {
        Ok(line) => Ok(String::from_str(alloc, line)?),
        Err(_) => Err(NoSecret::NotText),
    }
}

// The first line of a source.
fn read_line<S: Source>(alloc: Global, source: &mut S) -> Result<String, NoSecret>
    ensures { IfOk result (λ line. IfSome (S.left source.old) (λ all. IsLineOf (string_bytes line) all)) }
{
    let front = read_front(alloc, source)?;
    text_in(alloc, &front)
}

// The first line of the file at a path.
fn line_of_file(rt: &HostRuntime, path: &str) -> Result<String, NoSecret> {
    match fs::open(rt, path) {
        Ok(file) => read_line(rt.alloc(), &mut StdSource::new(file)),
        Err(_) => Err(NoSecret::File),
    }
}

/// The secret that a word names. None if the word is the secret itself.
///
/// # Errors
///
/// Where what it names isn't there.
pub fn named_secret(rt: &HostRuntime, word: &str) -> Result<Option<String>, NoSecret>
    ensures { IsPlain word.now → result ≡ Ok None }
{
    match read_secret(word) {
        SecretWord::Itself => Ok(None),
        SecretWord::Variable(name) => Ok(Some(value_of(env::var(rt, name))?)),
        SecretWord::File(path) => Ok(Some(line_of_file(rt, path)?)),
    }
}

// The status without a secret.
fn status_without(why: NoSecret) -> u8
    ensures memory { why ≡ Memory → result ≡ 71 }
    ensures missing { why ≢ Memory → result ≡ 64 }
{
    match why {
        NoSecret::Memory => 71,
        NoSecret::Variable | NoSecret::File | NoSecret::Empty | NoSecret::NotText => 64,
    }
}

/// Says why there is no secret, by the word that names one, and returns the status.
pub fn refuse_secret(rt: &HostRuntime, word: &str, why: NoSecret) -> u8
    ensures { (result ≡ 64) ⊎ (result ≡ 71) }
{
    let reason = match why {
        NoSecret::Variable => "this variable isn't set, or isn't UTF-8",
        NoSecret::File => "this file can't be opened or read",
        NoSecret::Empty => "this file is empty",
        NoSecret::NotText => "the first line of this file isn't UTF-8",
        NoSecret::Memory => "out of memory",
    };
    let _ = eprintln!(rt; "carmuguur: {word:?}: {reason}");
    status_without(why)
}

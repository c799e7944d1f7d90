//! What is wrong with a command line, by its cause.

use crate::form::COMMANDS;
use std::fmt;

/// Why a command line is refused.
#[derive(Clone, Copy)]
pub enum Mistake<'a> {
    /// A word isn't UTF-8.
    NotText,
    /// There are no words.
    NoPath,
    /// There is no word after PATH.
    NoPort,
    /// There is no word after PORT.
    NoCommand,
    /// This PORT isn't a number from 0 to 65535 without leading zeros.
    Port(&'a str),
    /// No command has this name.
    Unknown(&'a str),
    /// There are fewer words than this form of a command has.
    TooFew(&'static str),
    /// There are more words than this form of a command has.
    TooMany(&'static str),
    /// This COUNT isn't a number from 1 to 2^64 - 1 without leading zeros.
    Count(&'a str),
    /// This N isn't a number from 0 to 10,000 without leading zeros.
    Records(&'a str),
}

impl fmt::Display for Mistake<'_> {
    fn fmt<W: fmt::Write>(&self, f: &mut fmt::Formatter<W>) -> fmt::Result {
        match self {
            Mistake::NotText => f.write_str("a word isn't UTF-8"),
            Mistake::NoPath => f.write_str("PATH, PORT and a command are missing"),
            Mistake::NoPort => f.write_str("PORT and a command are missing"),
            Mistake::NoCommand => {
                f.write_str("a command is missing")?;
                write_commands(f)
            }
            Mistake::Port(word) => write!(
                f,
                "PORT must be a number from 0 to 65535 without leading zeros, and is {word:?}"
            ),
            Mistake::Unknown(word) => {
                write!(f, "unknown command {word:?}")?;
                write_commands(f)
            }
            Mistake::TooFew(form) => write!(f, "too few words: the form is {form}"),
            Mistake::TooMany(form) => write!(f, "too many words: the form is {form}"),
            Mistake::Count(word) => write!(
                f,
                "COUNT must be a number from 1 to 18446744073709551615 without leading zeros, and is {word:?}"
            ),
            Mistake::Records(word) => write!(
                f,
                "N must be a number from 0 to 10000 without leading zeros, and is {word:?}"
            ),
        }
    }
}

// Writes the forms of all commands.
fn write_commands<W: fmt::Write>(f: &mut fmt::Formatter<W>) -> fmt::Result {
    let mut before = ": the commands are ";
    for command in &COMMANDS {
        f.write_str(before)?;
        f.write_str(command.form)?;
        before = ", ";
    }
    Ok(())
}

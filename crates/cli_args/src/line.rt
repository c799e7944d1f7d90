//! A command line, taken apart.

ghost use Rattle.std.specs.Prelude.{◌≡◌, ◌≢◌, ◌↔◌, IfOk, IfSome, IsErr, IsNone, IsSome, None, Some, drop, map, slice_get, string_bytes};
ghost use Rattle.std.specs.Option.{option_map};
ghost use Rattle.std.specs.Str.Parse.{digits_value};
ghost use Rattle.commands.specs.Commands.{command_of};
ghost use Rattle.cli_args.specs.Lines.{IsCommandLine, IsPort};
ghost use Rattle.cli_args.specs.inner.Forms.{IsCountOrNone, IsRecordCount};

use crate::form::{Operands, form_of};
use crate::mistake::Mistake;
use commands::{is_count, is_record_count};

// The number from 0 to 65535 that a word writes in digits, without a leading zero. `parse` takes a plus too.
fn port_of(word: &str) -> Option<u16>
    ensures port { IsSome result ↔ IsPort word.now }
    ensures number { IfSome result (λ port. port ≡ digits_value 10 word.now) }
{
    match word.as_bytes() {
        [b'+', ..] | [b'0', _, ..] => None,
        _ => word.parse::<u16>().ok(),
    }
}

// The mistake in the words after a command of this form, which takes a count of connections, or no word.
fn mistake_of_count<'a>(form: &'static str, others: &'a [String]) -> Option<Mistake<'a>>
    ensures { IsNone result ↔ IsCountOrNone (map string_bytes others.now) }
{
    match others {
        [] => None,
        [word] if is_count(word.as_str()) => None,
        [word] => Some(Mistake::Count(word.as_str())),
        _ => Some(Mistake::TooMany(form)),
    }
}

// The mistake in the words after a command of this form, which takes a number of records.
fn mistake_of_records<'a>(form: &'static str, others: &'a [String]) -> Option<Mistake<'a>>
    ensures { IsNone result ↔ IsRecordCount (map string_bytes others.now) }
{
    match others {
        [] => Some(Mistake::TooFew(form)),
        [word] if is_record_count(word.as_str()) => None,
        [word] => Some(Mistake::Records(word.as_str())),
        _ => Some(Mistake::TooMany(form)),
    }
}

// The mistake in the words after PATH and PORT: there is one exactly if they are no command of `run`.
fn mistake_of_command(words: &[String]) -> Option<Mistake<'_>>
    ensures { IsSome result ↔ (command_of (map string_bytes words.now) ≡ None) }
{
    let [name, others @ ..] = words else {
        return Some(Mistake::NoCommand);
    };
    let Some(form) = form_of(name.as_str()) else {
        return Some(Mistake::Unknown(name.as_str()));
    };
    match form.operands {
        Operands::Words(count) if others.len() < count => Some(Mistake::TooFew(form.form)),
        Operands::Words(count) if others.len() > count => Some(Mistake::TooMany(form.form)),
        Operands::Words(_) => None,
        Operands::Count => mistake_of_count(form.form, others),
        Operands::Records => mistake_of_records(form.form, others),
    }
}

/// A command line, taken apart.
#[derive(Clone, Copy)]
pub struct CommandLine<'a> {
    /// Where the tables are: `-` for memory, or a file.
    pub path: &'a str,
    /// Where the door is.
    pub port: u16,
    /// The command and its words.
    pub command: &'a [String],
}

/// Takes the words after the program's name apart.
///
/// # Errors
///
/// The first mistake in them, exactly if they aren't a command line.
pub fn read_line(words: &[String]) -> Result<CommandLine<'_>, Mistake<'_>>
    ensures refused { IsErr result ↔ (IsCommandLine (map string_bytes words.now) → ⊥) }
    ensures path { IfOk result (λ line. Some line.path.now ≡ option_map string_bytes (slice_get words.now 0)) }
    ensures port { IfOk result (λ line. Some line.port
        ≡ option_map (λ word. digits_value 10 (string_bytes word)) (slice_get words.now 1)) }
    ensures command { IfOk result (λ line. line.command.now ≡ drop 2 words.now) }
    ensures command_is { IfOk result (λ line. command_of (map string_bytes line.command.now) ≢ None) }
{
    match words {
        [] => Err(Mistake::NoPath),
        [_] => Err(Mistake::NoPort),
        [path, port, command @ ..] => {
            let Some(number) = port_of(port.as_str()) else {
                return Err(Mistake::Port(port.as_str()));
            };
            match mistake_of_command(command) {
                Some(mistake) => Err(mistake),
                None => Ok(CommandLine {
                    path: path.as_str(),
                    port: number,
                    command,
                }),
            }
        }
    }
}

//! The word of a command line that is a secret, and what it names.

ghost use Rattle.std.specs.Prelude.{◌≡◌, ◌↔◌, IfSome, MatchOption, None, Some, map, string_bytes, take};
ghost use Rattle.std.specs.Option.{option_copied, option_map};
ghost use Rattle.cli_args.specs.Lines.{IsCommandLine};
ghost use Rattle.cli_args.specs.Secrets.{Names, behind_kind, colon_parts, line_command, secret_of, with_secret};
ghost use Rattle.cli_args.specs.inner.Places.{IsSecretPlace};

use crate::form::form_of;

/// What the word of a secret names.
#[derive(Clone, Copy)]
pub enum SecretWord<'a> {
    /// The word is the secret itself.
    Itself,
    /// The secret is the value of the variable of this name: `env:NAME`.
    Variable(&'a str),
    /// The secret is the first line of the file at this path: `file:PATH`.
    File(&'a str),
}

// What is before and behind the first colon of a word, if it has one.
#[tactic(auto, unfolding(crate::specs::Secrets::colon_parts))]
fn colon_parts(word: &str) -> Option<(&str, &str)>
    ensures { MatchOption result (colon_parts word.now ≡ None) (λ x. colon_parts word.now ≡ Some (x.0.now, x.1.now)) }
{
    word.split_once(':')
}

// What is behind `KIND:` in a word that begins so.
fn behind_kind<'a>(kind: &str, word: &'a str) -> Option<&'a str>
    ensures { MatchOption result (behind_kind kind.now word.now ≡ None) (λ x. behind_kind kind.now word.now ≡ Some x.now) }
{
    let (before, behind) = colon_parts(word)?;
    if before == kind { Some(behind) } else { None }
}

/// What the word of a secret names. No secret has a colon.
pub fn read_secret(word: &str) -> SecretWord<'_>
    ensures { Names word.now result }
{
    match behind_kind("env", word) {
        Some(name) => SecretWord::Variable(name),
        None => match behind_kind("file", word) {
            Some(path) => SecretWord::File(path),
            None => SecretWord::Itself,
        },
    }
}

// The place of the secret among the words of a command line, if its command has one.
fn secret_place(words: &[String]) -> Option<usize>
    ensures { IsSecretPlace (map string_bytes words.now) result }
{
    let [_, _, name, others @ ..] = words else {
        return None;
    };
    let form = form_of(name.as_str())?;
    match form.secret {
        Some(place) if place < others.len() => Some(3 + place),
        _ => None,
    }
}

/// The word of a command line that is its command's secret, if the command has one.
pub fn secret_in(words: &[String]) -> Option<&str>
    ensures { IfSome (line_command (map string_bytes words.now)) (λ command. option_copied result ≡ secret_of command) }
{
    match secret_place(words) {
        Some(place) => Some(words[place].as_str()),
        None => None,
    }
}

/// Puts a secret in the place of the word that is the command's, if the command has one. Nothing else is another then.
pub fn put_secret(words: &mut [String], secret: String)
    ensures line { IsCommandLine (map string_bytes words.new) ↔ IsCommandLine (map string_bytes words.old) }
    ensures command { line_command (map string_bytes words.new)
        ≡ option_map (with_secret (string_bytes secret)) (line_command (map string_bytes words.old)) }
    ensures before { take 2 (map string_bytes words.new) ≡ take 2 (map string_bytes words.old) }
{
    if let Some(place) = secret_place(words) {
        words[place] = secret;
    }
}

//! The words of a command.

ghost use Rattle.std.specs.Prelude.{◌≡◌, ◌↔◌, IfSome, IsSome, is_some, map, string_bytes};
ghost use Rattle.std.specs.Str.Parse.{digits_value};
ghost use Rattle.commands.specs.Words.{AreWords, IsNumber};
ghost use Rattle.commands.specs.Commands.{command_of, count_in, number_within, opens_in, records_in};

use cmd_demo::DEMO_LIMIT;

/// The words of a command line, taken apart.
pub enum Words<'a> {
    /// `csvq QUERY`
    Csvq(&'a str),
    /// `org-add NAME SECRET`
    OrgAdd(&'a str, &'a str),
    /// `user-set ORG USER SECRET`
    UserSet(&'a str, &'a str, &'a str),
    /// `export ORG USER SECRET QUERY`
    Export(&'a str, &'a str, &'a str, &'a str),
    /// `load ORG USER SECRET OBJECT`
    Load(&'a str, &'a str, &'a str, &'a str),
    /// `demo N`
    Demo(u64),
    /// `answer`
    Answer,
    /// `serve` with a COUNT, or with the most
    Serve(u64),
    /// No command.
    Other,
}

// The number from the least to the most that a word writes. `parse` takes a plus and leading zeros too.
fn read_number(word: &str, least: u64, most: u64) -> Option<u64>
    ensures number { IsSome result ↔ IsNumber least most word.now }
    ensures value { IfSome result (λ number. number ≡ digits_value 10 word.now) }
{
    match word.as_bytes() {
        [b'+', ..] | [b'0', _, ..] => None,
        _ => match word.parse::<u64>() {
            Ok(number) if number >= least && number <= most => Some(number),
            _ => None,
        },
    }
}

// The same, by the definition of the commands.
fn number_of(word: &str, least: u64, most: u64) -> Option<u64>
    ensures { result ≡ number_within least most word.now }
{
    read_number(word, least, most)
}

// The count of connections that a word writes.
fn count_of(word: &str) -> Option<u64>
    ensures { result ≡ count_in word.now }
{
    number_of(word, 1, u64::MAX)
}

// The number of records of a demo that a word writes.
fn records_of(word: &str) -> Option<u64>
    ensures { result ≡ records_in word.now }
{
    number_of(word, 0, DEMO_LIMIT)
}

/// Whether a word is a count of connections as `serve` takes it: from 1 to 2^64 - 1 in digits, without a leading zero.
pub fn is_count(word: &str) -> bool
    ensures { result ≡ is_some (count_in word.now) }
{
    count_of(word).is_some()
}

/// Whether a word is a number of records as `demo` takes it: from 0 to `DEMO_LIMIT` in digits, without a leading zero but in `0` itself.
pub fn is_record_count(word: &str) -> bool
    ensures { result ≡ is_some (records_in word.now) }
{
    records_of(word).is_some()
}

/// Takes the words of a command line apart; `Other` exactly if they are no command.
pub fn read_words(words: &[String]) -> Words<'_>
    ensures { AreWords result (command_of (map string_bytes words.now)) }
{
    match words.len() {
        1 => {
            if words[0].as_bytes() == b"answer".as_slice() {
                Words::Answer
            } else if words[0].as_bytes() == b"serve".as_slice() {
                Words::Serve(u64::MAX)
            } else {
                Words::Other
            }
        }
        2 => {
            if words[0].as_bytes() == b"csvq".as_slice() {
                Words::Csvq(words[1].as_str())
            } else if words[0].as_bytes() == b"serve".as_slice() {
                match count_of(words[1].as_str()) {
                    Some(count) => Words::Serve(count),
                    None => Words::Other,
                }
            } else if words[0].as_bytes() == b"demo".as_slice() {
                match records_of(words[1].as_str()) {
                    Some(count) => Words::Demo(count),
                    None => Words::Other,
                }
            } else {
                Words::Other
            }
        }
        3 => {
            if words[0].as_bytes() == b"org-add".as_slice() {
                Words::OrgAdd(words[1].as_str(), words[2].as_str())
            } else {
                Words::Other
            }
        }
        4 => {
            if words[0].as_bytes() == b"user-set".as_slice() {
                Words::UserSet(words[1].as_str(), words[2].as_str(), words[3].as_str())
            } else {
                Words::Other
            }
        }
        5 => {
            if words[0].as_bytes() == b"export".as_slice() {
                Words::Export(
                    words[1].as_str(),
                    words[2].as_str(),
                    words[3].as_str(),
                    words[4].as_str(),
                )
            } else if words[0].as_bytes() == b"load".as_slice() {
                Words::Load(
                    words[1].as_str(),
                    words[2].as_str(),
                    words[3].as_str(),
                    words[4].as_str(),
                )
            } else {
                Words::Other
            }
        }
        _ => Words::Other,
    }
}

/// Whether the words are a command that uses the keeper.
pub fn uses_keeper(words: &[String]) -> bool
    ensures { result ≡ opens_in (command_of (map string_bytes words.now)) }
{
    match read_words(words) {
        Words::Csvq(_) => false,
        Words::Demo(_) => false,
        Words::OrgAdd(_, _) => true,
        Words::UserSet(_, _, _) => true,
        Words::Export(_, _, _, _) => true,
        Words::Load(_, _, _, _) => true,
        Words::Answer => true,
        Words::Serve(_) => true,
        Words::Other => false,
    }
}
